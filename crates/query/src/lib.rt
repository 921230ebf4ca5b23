// Who owns a unit, and how many units are held, read from the lent arrays.
#![tactic(auto)]

ghost use Rattle.std.specs.Prelude.{◌≡◌};
ghost use Rattle.held_map.specs.Map.{held_number};
ghost use Rattle.query.specs.Owners.{in_branch, in_slot, branch_with, slot_with, query_in};

use units::{BranchRoot, Count, NodeUnit, UnfinishedSlot};

// A node with its count, a branch with its root and its count, a slot with its number.
#[derive(Clone, Copy, Debug, PartialEq, Eq)]
pub enum Owner {
    Reserved,
    Free,
    Node(Count),
    Branch(BranchRoot, Count),
    Slot(UnfinishedSlot),
}

// This and the next read two kinds of row; one function of both would take the read, and what gives its places and their number, as
// closures, and be longer than the two.
#[tactic(auto, unfolding(crate::specs::Owners::in_branch))]
fn in_branch(hold: &[u8; 2380], b: BranchRoot, u: u8) -> bool
    ensures { result ≡ in_branch hold.now u b.0 }
{
    let x = tables::read_branch(hold, b);
    tables::among(x.units, x.number, u)
}

#[tactic(auto, unfolding(crate::specs::Owners::in_slot))]
fn in_slot(hold: &[u8; 2380], k: UnfinishedSlot, u: u8) -> bool
    ensures { result ≡ in_slot hold.now u k.0 }
{
    let x = tables::read_slot(hold, k);
    tables::among(x.units, x.number, u)
}

// The lowest root of a branch that has the unit.
fn branch_with(hold: &[u8; 2380], u: u8) -> Option<BranchRoot>
    ensures { result ≡ branch_with hold.now u }
{
    (1..=BranchRoot::LAST)
        .map(BranchRoot)
        .find(|b| in_branch(hold, *b, u))
}

// The first slot that has the unit.
fn slot_with(hold: &[u8; 2380], u: u8) -> Option<UnfinishedSlot>
    ensures { result ≡ slot_with hold.now u }
{
    (0..UnfinishedSlot::COUNT)
        .map(UnfinishedSlot)
        .find(|k| in_slot(hold, *k, u))
}

#[tactic(auto, unfolding(crate::specs::Owners::query_in))]
pub fn query(counts: &[u16; 512], hold: &[u8; 2380], unit: u8) -> Owner
    ensures { result ≡ query_in counts.now hold.now unit }
{
    if unit == 0 {
        return Owner::Reserved;
    }
    let ways = counting::ways_of(counts, NodeUnit(unit));
    if 0 < ways {
        return Owner::Node(Count(ways));
    }
    if let Some(root) = branch_with(hold, unit) {
        return Owner::Branch(root, Count(counting::places_of(counts, root)));
    }
    if let Some(slot) = slot_with(hold, unit) {
        return Owner::Slot(slot);
    }
    Owner::Free
}

// How many units are held.
pub fn held(map: &[u64; 4]) -> u32
    ensures { result ≡ held_number map.now }
{
    held_map::number(map)
}
