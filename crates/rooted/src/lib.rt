// Kinds 4 and 5, memtable flush and grow: a new root. Each kind has its tests, the lines 4 to 12 of the table in their order, and the step
// that is carried out where all of them pass. Every function is right on any arrays.
#![tactic(auto)]

ghost use Rattle.std.specs.Prelude.{◌≡◌, [], ◌∷◌, eqb, get_or, set};
ghost use Rattle.held_map.specs.Map.{mark};
ghost use Rattle.counting.specs.Nodes.{put_node};
ghost use Rattle.tables.specs.Hold.{slot_in};
ghost use Rattle.rooted.specs.Memtable.{root_node_in, is_sealed_in, first_in, joined_hold};
ghost use Rattle.rooted.specs.Memtable.{memtable_tests, memtable_tree, memtable_counts, memtable_map};
ghost use Rattle.rooted.specs.Grow.{grow_tests, grow_tree};

use counting::Node;
use tables::{Branch, Slot};
use units::{BranchRoot, NodeUnit, SlotNumber, UnfinishedSlot, Unit};

// ---- what both kinds need

// A node comes, with one way to it, and its unit is held.
fn add_held(
    tree: &mut [u8; 6656],
    counts: &mut [u16; 512],
    map: &mut [u64; 4],
    u: NodeUnit,
    n: Node,
)
    ensures tree { tree.new ≡ put_node tree.old u.0 n }
    ensures counts { counts.new ≡ set counts.old u.0 1 }
    ensures map { map.new ≡ mark map.old u.0 }
{
    counting::add_node(tree, counts, u, n);
    held_map::hold(map, u.0);
}

// ---- 4 memtable flush

// The root's node; a bare leaf where the tree is empty.
#[tactic(auto, unfolding(crate::specs::Memtable::root_node_in))]
fn root_node(tree: &[u8; 6656]) -> Node
    ensures { result ≡ root_node_in tree.now }
{
    let root = counting::root(tree);
    if root.is_none() {
        return Node::default();
    }
    counting::read_node(tree, root)
}

fn is_sealed(hold: &[u8; 2380], k: UnfinishedSlot) -> bool
    ensures { result ≡ is_sealed_in hold.now k.0 }
{
    tables::read_slot(hold, k).state == Slot::SEALED
}

#[tactic(auto, unfolding(crate::specs::Memtable::memtable_tests))]
pub fn memtable_tests(
    tree: &[u8; 6656],
    hold: &[u8; 2380],
    map: &[u64; 4],
    slot: u8,
    root: u8,
) -> [bool; 9]
    ensures { result ≡ memtable_tests tree.now hold.now map.now slot root }
{
    let k = UnfinishedSlot(slot);
    let exists = k.exists();
    let sealed = is_sealed(hold, k);
    let n = root_node(tree);
    let small = shapes::room_for_buffer(n);
    let fresh = allocation::is_fresh(map, root);
    [exists, sealed, true, true, true, small, true, fresh, true]
}

// The root of the branch in a slot.
#[tactic(auto, unfolding(crate::specs::Memtable::first_in))]
fn slot_root(hold: &[u8; 2380], k: UnfinishedSlot) -> BranchRoot
    ensures { result.0 ≡ first_in hold.now k.0 }
{
    BranchRoot(tables::read_slot(hold, k).units[0])
}

// The slot's units become a branch, and the slot is empty.
#[tactic(auto, unfolding(crate::specs::Memtable::joined_hold, crate::specs::Memtable::first_in))]
fn join_branch(hold: &mut [u8; 2380], k: UnfinishedSlot)
    ensures { hold.new ≡ joined_hold hold.old k.0 }
{
    let Slot { number, units, .. } = tables::read_slot(hold, k);
    tables::write_branch(hold, BranchRoot(units[0]), Branch { number, units });
    tables::empty_slot(hold, k);
}

// The old root's node, with the slot's branch as its last buffer, is the new root's; the old root loses the way from above.
#[tactic(auto, unfolding(crate::specs::Memtable::memtable_tree, crate::specs::Memtable::memtable_counts, crate::specs::Memtable::memtable_map))]
pub fn memtable_flush(
    tree: &mut [u8; 6656],
    counts: &mut [u16; 512],
    hold: &mut [u8; 2380],
    map: &mut [u64; 4],
    slot: u8,
    root: u8,
)
    ensures tree { tree.new ≡ memtable_tree tree.old counts.old hold.old slot root }
    ensures counts { counts.new ≡ memtable_counts tree.old counts.old hold.old slot root }
    ensures hold { hold.new ≡ joined_hold hold.old slot }
    ensures map { map.new ≡ memtable_map tree.old counts.old map.old root }
{
    let from = UnfinishedSlot(slot);
    let b = slot_root(hold, from);
    let old = counting::root(tree);
    let n = root_node(tree);
    let new = shapes::with_buffer(n, b);
    add_held(tree, counts, map, NodeUnit(root), new);
    allocation::let_go(tree, counts, map, old);
    counting::set_root(tree, NodeUnit(root));
    counting::add_place(counts, b);
    join_branch(hold, from);
}

// ---- 5 grow

#[tactic(auto, unfolding(crate::specs::Grow::grow_tests))]
pub fn grow_tests(tree: &[u8; 6656], map: &[u64; 4], root: u8) -> [bool; 9]
    ensures { result ≡ grow_tests tree.now map.now root }
{
    let full = levels::way_of(tree, 8);
    let fresh = allocation::is_fresh(map, root);
    [true, true, true, true, true, true, !full, fresh, true]
}

// A node above the old root, with no buffers.
#[tactic(auto, unfolding(crate::specs::Grow::grow_tree))]
pub fn grow(tree: &mut [u8; 6656], counts: &mut [u16; 512], map: &mut [u64; 4], root: u8)
    ensures tree { tree.new ≡ grow_tree tree.old root }
    ensures counts { counts.new ≡ set counts.old root 1 }
    ensures map { map.new ≡ mark map.old root }
{
    let old = counting::root(tree);
    let new = shapes::over(old);
    add_held(tree, counts, map, NodeUnit(root), new);
    counting::set_root(tree, NodeUnit(root));
}
