// Branches, unfinished slots and compactors' inputs in the lent array `hold`: branch b at b * 9, slot k at 2304 + k * 10, the input of
// compactor k at 2344 + k * 9. A slot that does not exist reads as empty, and nothing is stored in it.
#![tactic(auto)]

ghost use Rattle.std.specs.Prelude.{◌≡◌, [], ◌∷◌, take};
ghost use Rattle.ways.specs.Ways.{has};
ghost use Rattle.rules.specs.Store.{empty};
ghost use Rattle.records.specs.Rows.{eight};
ghost use Rattle.tables.specs.Hold.{branch_in, slot_in, input_in, put_branch, put_slot, put_input};
ghost use Rattle.tables.specs.Hold.{coded_branch, coded_slot, coded_input, roots_of, in_use_in, slot_row};
ghost use Rattle.tables.specs.Slots.{taken_slot, front, sealed_slot};

use units::{BranchRoot, CompactorSlot, SlotNumber, UnfinishedSlot, Unit};

// The bytes of a row: a number and eight places, a slot's state besides.
const LIST_ROW: usize = 9;

const SLOT_ROW: usize = 10;

// Where the slots and the inputs begin.
const SLOTS: usize = 2304;

const INPUTS: usize = 2344;

// A number beside the places, here and below, as the rows have them: fixed memory, and a row that is not right may name more than eight.
// `branch_in`, `slot_in` and `input_in`, which the reads promise, keep the number beside the places.
// A branch and an input are two types, though alike today: document 02 gives the input offsets.
#[derive(Clone, Copy, Debug, Default, PartialEq, Eq)]
pub struct Branch {
    pub number: u8,
    pub units: [u8; 8],
}

#[derive(Clone, Copy, Debug, Default, PartialEq, Eq)]
pub struct Slot {
    pub state: u8,
    pub number: u8,
    pub units: [u8; 8],
}

// A state is a byte: `slot_in`, which `read_slot` answers, keeps any byte that stands in the array, and an enum of the three states could
// not. With a fourth variant for the other bytes, `Other(1)` would be a second spelling of `OPEN`.
impl Slot {
    pub const EMPTY: u8 = 0;

    pub const OPEN: u8 = 1;

    pub const SEALED: u8 = 2;
}

#[derive(Clone, Copy, Debug, Default, PartialEq, Eq)]
pub struct Input {
    pub number: u8,
    pub roots: [u8; 8],
}

// The row of a branch or an input, and below of a slot; a record has the same bytes.
pub fn list_row(number: u8, us: [u8; 8]) -> [u8; LIST_ROW]
    ensures { result ≡ number ∷ eight us }
{
    let mut row = [0; LIST_ROW];
    row[0] = number;
    row[1..].copy_from_slice(&us);
    row
}

pub fn slot_row(x: Slot) -> [u8; SLOT_ROW]
    ensures { result ≡ slot_row x }
{
    let mut row = [0; SLOT_ROW];
    row[0] = x.state;
    row[1] = x.number;
    row[2..].copy_from_slice(&x.units);
    row
}

// ---- branches

#[tactic(auto, unfolding(crate::specs::Hold::branch_in))]
pub fn read_branch(hold: &[u8; 2380], b: BranchRoot) -> Branch
    ensures { result ≡ branch_in hold.now b.0 }
{
    let at = b.index() * LIST_ROW;
    Branch {
        number: hold[at],
        units: records::eight(hold, at + 1),
    }
}

#[tactic(auto, unfolding(crate::specs::Hold::put_branch))]
pub fn write_branch(hold: &mut [u8; 2380], b: BranchRoot, x: Branch)
    ensures { hold.new ≡ put_branch hold.old b.0 x }
{
    records::pour(hold, b.index() * LIST_ROW, &list_row(x.number, x.units));
}

pub fn blank_branch(hold: &mut [u8; 2380], b: BranchRoot)
    ensures { hold.new ≡ put_branch hold.old b.0 (coded_branch []) }
{
    write_branch(hold, b, Branch::default());
}

// ---- unfinished slots

#[tactic(auto, unfolding(crate::specs::Hold::slot_in))]
pub fn read_slot(hold: &[u8; 2380], k: UnfinishedSlot) -> Slot
    ensures { result ≡ slot_in hold.now k.0 }
{
    if !k.exists() {
        return Slot::default();
    }
    let at = SLOTS + usize::from(k.0) * SLOT_ROW;
    Slot {
        state: hold[at],
        number: hold[at + 1],
        units: records::eight(hold, at + 2),
    }
}

#[tactic(auto, unfolding(crate::specs::Hold::put_slot))]
pub fn write_slot(hold: &mut [u8; 2380], k: UnfinishedSlot, x: Slot)
    ensures { hold.new ≡ put_slot hold.old k.0 x }
{
    if k.exists() {
        records::pour(hold, SLOTS + usize::from(k.0) * SLOT_ROW, &slot_row(x));
    }
}

pub fn empty_slot(hold: &mut [u8; 2380], k: UnfinishedSlot)
    ensures { hold.new ≡ put_slot hold.old k.0 (coded_slot empty) }
{
    write_slot(hold, k, Slot::default());
}

// The slot open, with u after its units; a full slot stays.
#[tactic(auto, unfolding(crate::specs::Slots::taken_slot))]
pub fn taken(mut x: Slot, u: u8) -> Slot
    ensures { result ≡ taken_slot x u }
{
    if x.number < 8 {
        x.units[usize::from(x.number)] = u;
        x.number += 1;
        x.state = Slot::OPEN;
    }
    x
}

// The first n units, then zeros.
#[tactic(auto, unfolding(crate::specs::Slots::front))]
fn first(mut us: [u8; 8], n: u8) -> [u8; 8]
    ensures { result ≡ front us n }
{
    us[usize::from(n).min(8)..].fill(0);
    us
}

// The slot sealed, with its first n units.
pub fn sealed_to(x: Slot, n: u8) -> Slot
    ensures { result ≡ sealed_slot x n }
{
    Slot {
        state: Slot::SEALED,
        number: n,
        units: first(x.units, n),
    }
}

// ---- compactors' inputs

#[tactic(auto, unfolding(crate::specs::Hold::input_in))]
pub fn read_input(hold: &[u8; 2380], k: CompactorSlot) -> Input
    ensures { result ≡ input_in hold.now k.0 }
{
    if !k.exists() {
        return Input::default();
    }
    let at = INPUTS + usize::from(k.0) * LIST_ROW;
    Input {
        number: hold[at],
        roots: records::eight(hold, at + 1),
    }
}

#[tactic(auto, unfolding(crate::specs::Hold::put_input))]
pub fn write_input(hold: &mut [u8; 2380], k: CompactorSlot, x: Input)
    ensures { hold.new ≡ put_input hold.old k.0 x }
{
    if k.exists() {
        records::pour(
            hold,
            INPUTS + usize::from(k.0) * LIST_ROW,
            &list_row(x.number, x.roots),
        );
    }
}

pub fn end_input(hold: &mut [u8; 2380], k: CompactorSlot)
    ensures { hold.new ≡ put_input hold.old k.0 (coded_input []) }
{
    write_input(hold, k, Input::default());
}

// Whether u stands in the first `number` of the places; a number over 8 counts as 8.
// The places and their number come apart, as the rows have them (fixed memory). By a loop: `contains` took twice as long where the
// number is low, and `query` asks it of every branch.
pub fn among(places: [u8; 8], number: u8, u: u8) -> bool
    ensures { result ≡ has u (take number places) }
{
    for &x in &places[..usize::from(number).min(8)] {
        if x == u {
            return true;
        }
    }
    false
}

// Whether the branch is among the roots of the input.
pub fn names(x: Input, b: BranchRoot) -> bool
    ensures { result ≡ has b.0 (roots_of x) }
{
    among(x.roots, x.number, b.0)
}

// Whether some input names the branch.
#[tactic(auto, unfolding(crate::specs::Hold::in_use_in))]
pub fn in_use(hold: &[u8; 2380], b: BranchRoot) -> bool
    ensures { result ≡ in_use_in hold.now b.0 }
{
    (0..CompactorSlot::COUNT).any(|k| names(read_input(hold, CompactorSlot(k)), b))
}
