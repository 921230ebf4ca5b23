// What the ten steps share above counting: ways that go and the units that become free with them, units that come to be held, the test
// that units are fresh, the test of the counts after a step, and the sweep of dead branches. Every function is right on any arrays.
// The arrays go into a function one by one and not as one state: C lends four pointers, and what is not lent is not changed.
#![tactic(auto)]

ghost use Rattle.std.specs.Prelude.{◌≡◌, ◌≤◌, [], ◌∷◌, length};
ghost use Rattle.rules.specs.Tables.{times};
ghost use Rattle.counting.specs.Change.{drop_tree, drop_count, drop_trees, drop_counts};
ghost use Rattle.state.specs.Standing.{marks};
ghost use Rattle.allocation.specs.Going.{let_go_map, let_go_maps, cleared_if};
ghost use Rattle.allocation.specs.Fresh.{fresh_in, fresh_marks};
ghost use Rattle.allocation.specs.Gains.{gain_fits, gains_fit};
ghost use Rattle.allocation.specs.Sweep.{dead_in, swept_hold, swept_map, sweep_hold, sweep_map};

use units::{BranchRoot, Count, NodeUnit};

// ---- ways that go

#[tactic(auto, unfolding(crate::specs::Going::cleared_if))]
fn release_if(map: &mut [u64; 4], u: u8, died: bool)
    ensures { map.new ≡ cleared_if died map.old u }
{
    if died {
        held_map::release(map, u);
    }
}

// One way to the node goes; with the last way the node and its unit.
pub fn let_go(tree: &mut [u8; 6656], counts: &mut [u16; 512], map: &mut [u64; 4], u: NodeUnit)
    ensures tree { tree.new ≡ drop_tree tree.old counts.old u.0 }
    ensures counts { counts.new ≡ drop_count counts.old u.0 }
    ensures map { map.new ≡ let_go_map map.old counts.old u.0 }
{
    let died = counting::drop_way(tree, counts, u);
    release_if(map, u.0, died);
}

// One way to each of the eight goes. Unit 0 is no node's.
pub fn let_go_eight(tree: &mut [u8; 6656], counts: &mut [u16; 512], map: &mut [u64; 4], us: [u8; 8])
    ensures tree { tree.new ≡ drop_trees tree.old counts.old us }
    ensures counts { counts.new ≡ drop_counts counts.old us }
    ensures map { map.new ≡ let_go_maps map.old counts.old us }
{
    for u in us {
        let_go(tree, counts, map, NodeUnit(u));
    }
}

// ---- units that come

pub fn hold_run(map: &mut [u64; 4], us: &[u8])
    ensures { map.new ≡ marks map.old us.now }
{
    for &u in us {
        held_map::hold(map, u);
    }
}

// Whether a unit is not 0 and not held.
pub fn is_fresh(map: &[u64; 4], u: u8) -> bool
    ensures { result ≡ fresh_in map.now (u ∷ []) }
{
    u != 0 && !held_map::has(map, u)
}

// Whether no unit of the run is 0, in the map, or named twice; the units looked at come into the map up to the first that is.
pub fn fresh_run(seen: &mut [u64; 4], us: &[u8]) -> bool
    ensures answer { result ≡ fresh_in seen.old us.now }
    ensures seen { seen.new ≡ fresh_marks seen.old us.now }
{
    for &u in us {
        if !is_fresh(seen, u) {
            return false;
        }
        held_map::hold(seen, u);
    }
    true
}

// ---- counts after a step

// How often b stands in the list. By a loop: `filter(..).count()` took four times as long on a list whose length the compiler knows.
pub fn occurrences(bs: &[u8], b: u8) -> usize
    ensures { (result ≡ times b bs.now) × (result ≤ length bs.now) }
{
    let mut n = 0;
    for &x in bs {
        if x == b {
            n += 1;
        }
    }
    n
}

// Whether the count of b, which gains and then loses, is one. It gains no more places than the list has, so that few lists are searched.
fn gain_fits(counts: &[u16; 512], gains: &[u8], losses: &[u8], b: u8) -> bool
    ensures { result ≡ gain_fits counts.now gains.now losses.now b }
{
    let room = usize::from(Count::MOST - counting::places_of(counts, BranchRoot(b)));
    gains.len() <= room || occurrences(gains, b) <= room + occurrences(losses, b)
}

// Whether each branch that gains places stays a count, where it gains these and then loses those.
pub fn gains_fit(counts: &[u16; 512], gains: &[u8], losses: &[u8]) -> bool
    ensures { result ≡ gains_fit counts.now gains.now losses.now }
{
    gains.iter().all(|b| gain_fits(counts, gains, losses, *b))
}

// ---- dead branches

// No buffer and no input names the branch.
#[tactic(auto, unfolding(crate::specs::Sweep::dead_in))]
fn dead(counts: &[u16; 512], hold: &[u8; 2380], b: BranchRoot) -> bool
    ensures { result ≡ dead_in counts.now hold.now b.0 }
{
    counting::places_of(counts, b) == 0 && !tables::in_use(hold, b)
}

// A branch that is dead goes, and its units with it.
#[tactic(auto, unfolding(crate::specs::Sweep::swept_hold, crate::specs::Sweep::swept_map))]
pub fn sweep_one(counts: &[u16; 512], hold: &mut [u8; 2380], map: &mut [u64; 4], b: BranchRoot)
    ensures hold { hold.new ≡ swept_hold counts.now hold.old b.0 }
    ensures map { map.new ≡ swept_map counts.now hold.old map.old b.0 }
{
    if dead(counts, hold, b) {
        let x = tables::read_branch(hold, b);
        held_map::release_eight(map, x.units);
        tables::blank_branch(hold, b);
    }
}

// Those of the eight that are dead go. A root that stands twice goes once, and unit 0 is no branch's.
pub fn sweep(counts: &[u16; 512], hold: &mut [u8; 2380], map: &mut [u64; 4], roots: [u8; 8])
    ensures hold { hold.new ≡ sweep_hold counts.now hold.old roots }
    ensures map { map.new ≡ sweep_map counts.now hold.old map.old roots }
{
    for b in roots {
        sweep_one(counts, hold, map, BranchRoot(b));
    }
}
