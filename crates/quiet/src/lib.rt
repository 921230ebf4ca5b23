// The kinds of step that leave the tree as it is: 1 take, 2 seal, 3 abandon, 8 compact begin, 10 compact abort. For each its tests of the
// lines 4 to 12, and the accepted step. Every function is right on any arrays.
#![tactic(auto)]

ghost use Rattle.std.specs.Prelude.{◌≡◌, [], ◌∷◌};
ghost use Rattle.held_map.specs.Map.{mark};
ghost use Rattle.counting.specs.Nodes.{node_in};
ghost use Rattle.bodies.specs.Bodies.{unit_of};
ghost use Rattle.quiet.specs.Slots.{not_empty, is_open_slot, has_room, keeps_some};
ghost use Rattle.quiet.specs.Slots.{take_tests, take_hold, seal_tests, seal_hold, seal_map, abandon_tests, abandon_hold, abandon_map};
ghost use Rattle.quiet.specs.Inputs.{is_idle, part_of};
ghost use Rattle.quiet.specs.Inputs.{begin_target, begin_shape, begin_tests, begin_hold, abort_tests, abort_hold, abort_map};

use counting::Node;
use tables::{Input, Slot};
use units::{CompactorSlot, NodeUnit, SlotNumber, UnfinishedSlot};

// ---- an unfinished slot by value

fn not_empty(x: Slot) -> bool
    ensures { result ≡ not_empty x }
{
    x.state != Slot::EMPTY
}

fn is_open(x: Slot) -> bool
    ensures { result ≡ is_open_slot x }
{
    x.state == Slot::OPEN
}

// Empty, or open with a place left: an empty slot has no units.
#[tactic(auto, unfolding(crate::specs::Slots::has_room))]
fn has_room(x: Slot) -> bool
    ensures { result ≡ has_room x }
{
    matches!(x.state, Slot::EMPTY | Slot::OPEN) && x.number < 8
}

// At least one of its units and not more than it has.
#[tactic(auto, unfolding(crate::specs::Slots::keeps_some))]
fn keeps_some(x: Slot, n: u8) -> bool
    ensures { result ≡ keeps_some x n }
{
    (1..=x.number).contains(&n)
}

// ---- 1 take

#[tactic(auto, unfolding(crate::specs::Slots::take_tests))]
pub fn take_tests(hold: &[u8; 2380], map: &[u64; 4], slot: u8, unit: u8) -> [bool; 9]
    ensures { result ≡ take_tests hold.now map.now slot unit }
{
    let k = UnfinishedSlot(slot);
    let shape = k.exists();
    let x = tables::read_slot(hold, k);
    let room = has_room(x);
    let fresh = allocation::is_fresh(map, unit);
    [shape, room, true, true, true, true, true, fresh, true]
}

#[tactic(auto, unfolding(crate::specs::Slots::take_hold))]
pub fn take(hold: &mut [u8; 2380], map: &mut [u64; 4], slot: u8, unit: u8)
    ensures hold { hold.new ≡ take_hold hold.old slot unit }
    ensures map { map.new ≡ mark map.old unit }
{
    let k = UnfinishedSlot(slot);
    let x = tables::read_slot(hold, k);
    tables::write_slot(hold, k, tables::taken(x, unit));
    held_map::hold(map, unit);
}

// ---- 2 seal

#[tactic(auto, unfolding(crate::specs::Slots::seal_tests))]
pub fn seal_tests(hold: &[u8; 2380], slot: u8, keep: u8) -> [bool; 9]
    ensures { result ≡ seal_tests hold.now slot keep }
{
    let k = UnfinishedSlot(slot);
    let shape = k.exists();
    let x = tables::read_slot(hold, k);
    let open = is_open(x);
    let range = keeps_some(x, keep);
    [shape, open, true, range, true, true, true, true, true]
}

// The units behind those that stay go.
#[tactic(auto, unfolding(crate::specs::Slots::seal_hold, crate::specs::Slots::seal_map))]
pub fn seal(hold: &mut [u8; 2380], map: &mut [u64; 4], slot: u8, keep: u8)
    ensures hold { hold.new ≡ seal_hold hold.old slot keep }
    ensures map { map.new ≡ seal_map hold.old map.old slot keep }
{
    let k = UnfinishedSlot(slot);
    let x = tables::read_slot(hold, k);
    tables::write_slot(hold, k, tables::sealed_to(x, keep));
    held_map::release_eight(map, eights::replace(x.units, 0, keep, &[]));
}

// ---- 3 abandon

#[tactic(auto, unfolding(crate::specs::Slots::abandon_tests))]
pub fn abandon_tests(hold: &[u8; 2380], slot: u8) -> [bool; 9]
    ensures { result ≡ abandon_tests hold.now slot }
{
    let k = UnfinishedSlot(slot);
    let shape = k.exists();
    let x = tables::read_slot(hold, k);
    let used = not_empty(x);
    [shape, used, true, true, true, true, true, true, true]
}

#[tactic(auto, unfolding(crate::specs::Slots::abandon_hold, crate::specs::Slots::abandon_map))]
pub fn abandon(hold: &mut [u8; 2380], map: &mut [u64; 4], slot: u8)
    ensures hold { hold.new ≡ abandon_hold hold.old slot }
    ensures map { map.new ≡ abandon_map hold.old map.old slot }
{
    let k = UnfinishedSlot(slot);
    let x = tables::read_slot(hold, k);
    tables::empty_slot(hold, k);
    held_map::release_eight(map, x.units);
}

// ---- the input of a compactor by value

fn is_idle(x: Input) -> bool
    ensures { result ≡ is_idle x }
{
    x.number == 0
}

// The buffers from `start` up to `end`.
#[tactic(auto, using(eights::proofs::Places::poured_eight), unfolding(crate::specs::Inputs::part_of))]
fn part_of(n: Node, start: u8, end: u8) -> Input
    ensures { result ≡ part_of n start end }
{
    let part = counting::part(&n.buffers, start, end);
    Input {
        number: end.saturating_sub(start),
        roots: eights::replace([0; 8], 0, 0, part),
    }
}

// ---- 8 compact begin; the body is compactor, depth, seven indexes, start, end

// The node that the body's path leads to.
#[tactic(auto, unfolding(crate::specs::Inputs::begin_target))]
fn begin_target(tree: &[u8; 6656], body: &[u8; 11]) -> Option<NodeUnit>
    ensures { result ≡ begin_target tree.now body.now }
{
    let is = &body[2..9];
    bodies::target(tree, &is[..bodies::used(body[1])])
}

// The node that a path led to; at unit 0 where it led nowhere.
fn found_node(tree: &[u8; 6656], found: Option<NodeUnit>) -> Node
    ensures { result ≡ node_in tree.now (unit_of found) }
{
    counting::read_node(tree, found.unwrap_or_default())
}

#[tactic(auto, unfolding(crate::specs::Inputs::begin_shape))]
fn begin_shape(body: &[u8; 11]) -> bool
    ensures { result ≡ begin_shape body.now }
{
    CompactorSlot(body[0]).exists() && bodies::index_shape(body[1], &body[2..9])
}

#[tactic(auto, unfolding(crate::specs::Inputs::begin_tests))]
pub fn begin_tests(tree: &[u8; 6656], hold: &[u8; 2380], body: &[u8; 11]) -> [bool; 9]
    ensures { result ≡ begin_tests tree.now hold.now body.now }
{
    let shape = begin_shape(body);
    let x = tables::read_input(hold, CompactorSlot(body[0]));
    let idle = is_idle(x);
    let found = begin_target(tree, body);
    let leads = found.is_some();
    let range = shapes::part_fits(found_node(tree, found), body[9], body[10]);
    [shape, idle, leads, range, true, true, true, true, true]
}

// The buffers become the compactor's input.
#[tactic(auto, unfolding(crate::specs::Inputs::begin_hold))]
pub fn begin(tree: &[u8; 6656], hold: &mut [u8; 2380], body: &[u8; 11])
    ensures { hold.new ≡ begin_hold tree.now hold.old body.now }
{
    let n = found_node(tree, begin_target(tree, body));
    let part = part_of(n, body[9], body[10]);
    tables::write_input(hold, CompactorSlot(body[0]), part);
}

// ---- 10 compact abort

#[tactic(auto, unfolding(crate::specs::Inputs::abort_tests))]
pub fn abort_tests(hold: &[u8; 2380], compactor: u8) -> [bool; 9]
    ensures { result ≡ abort_tests hold.now compactor }
{
    let k = CompactorSlot(compactor);
    let shape = k.exists();
    let x = tables::read_input(hold, k);
    let busy = !is_idle(x);
    [shape, busy, true, true, true, true, true, true, true]
}

// The input ends, and with it the branches that it alone held.
#[tactic(auto, unfolding(crate::specs::Inputs::abort_hold, crate::specs::Inputs::abort_map))]
pub fn abort(counts: &[u16; 512], hold: &mut [u8; 2380], map: &mut [u64; 4], compactor: u8)
    ensures hold { hold.new ≡ abort_hold counts.now hold.old compactor }
    ensures map { map.new ≡ abort_map counts.now hold.old map.old compactor }
{
    let k = CompactorSlot(compactor);
    let x = tables::read_input(hold, k);
    tables::end_input(hold, k);
    allocation::sweep(counts, hold, map, x.roots);
}
