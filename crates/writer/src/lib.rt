// The image of a state, written record after record at the front of a lent output. A record is put only where it fits, so that arrays
// that are not right write nothing out of bounds; of a right state every record fits.
#![tactic(auto)]

ghost use Rattle.std.specs.Prelude.{◌≡◌, ℕ, List};
ghost use Rattle.std.specs.Iterator.{AlwaysYields, IsFinite};
ghost use Rattle.writer.specs.Records.{node_record, branch_record, slot_record, input_record, node_of, branch_of, slot_of, input_of, some_record};
ghost use Rattle.writer.specs.Written.{put_in, wrote, write_in};

use counting::Node;
use std::convert::AsSlice;
use tables::{Branch, Input, Slot};
use units::{BranchRoot, CompactorSlot, NodeUnit, Refusal, UnfinishedSlot};

// The first byte of a record tells its kind.
const ROOT: u8 = 32;

const NODE: u8 = 33;

const BRANCH: u8 = 34;

const SLOT: u8 = 35;

const INPUT: u8 = 36;

// What the writer wants of its output.
const WANTED: usize = 8192;

// The bytes at `at` of out, where they fit; the place behind them.
#[tactic(auto, using(crate::proofs::Loops::placed))]
fn put(out: &mut [u8], at: usize, bytes: &[u8]) -> usize
    ensures { (out.new, result) ≡ put_in (out.old, at) bytes.now }
{
    let n = bytes.len();
    if out.len() < n || out.len() - n < at {
        return at;
    }
    out[at..at + n].copy_from_slice(bytes);
    at + n
}

// ---- one record: a row as the lent arrays have it, between its kind, its number and its count

fn node_record(u: NodeUnit, n: Node, ways: u16) -> [u8; 30]
    ensures { result ≡ node_record u.0 n ways }
{
    let mut bytes = [0; 30];
    bytes[0] = NODE;
    bytes[1] = u.0;
    bytes[2..28].copy_from_slice(&counting::bytes_of(n));
    bytes[28..].copy_from_slice(&ways.to_le_bytes());
    bytes
}

fn branch_record(x: Branch, places: u16) -> [u8; 12]
    ensures { result ≡ branch_record x places }
{
    let mut bytes = [0; 12];
    bytes[0] = BRANCH;
    bytes[1..10].copy_from_slice(&tables::list_row(x.number, x.units));
    bytes[10..].copy_from_slice(&places.to_le_bytes());
    bytes
}

fn slot_record(k: UnfinishedSlot, x: Slot) -> [u8; 12]
    ensures { result ≡ slot_record k.0 x }
{
    let mut bytes = [0; 12];
    bytes[0] = SLOT;
    bytes[1] = k.0;
    bytes[2..].copy_from_slice(&tables::slot_row(x));
    bytes
}

fn input_record(k: CompactorSlot, x: Input) -> [u8; 11]
    ensures { result ≡ input_record k.0 x }
{
    let mut bytes = [0; 11];
    bytes[0] = INPUT;
    bytes[1] = k.0;
    bytes[2..].copy_from_slice(&tables::list_row(x.number, x.roots));
    bytes
}

// ---- the record of a number, where there is one

#[tactic(auto, using(crate::proofs::Loops::given), unfolding(crate::specs::Records::node_of))]
fn node_of(tree: &[u8; 6656], counts: &[u16; 512], u: NodeUnit) -> Option<[u8; 30]>
    ensures { result ≡ some_record (node_of tree.now counts.now u.0) }
{
    let ways = counting::ways_of(counts, u);
    if ways == 0 {
        return None;
    }
    Some(node_record(u, counting::read_node(tree, u), ways))
}

// A branch that only an input holds has the count 0, and a record.
#[tactic(auto, using(crate::proofs::Loops::given), unfolding(crate::specs::Records::branch_of))]
fn branch_of(counts: &[u16; 512], hold: &[u8; 2380], b: BranchRoot) -> Option<[u8; 12]>
    ensures { result ≡ some_record (branch_of counts.now hold.now b.0) }
{
    let branch = tables::read_branch(hold, b);
    let places = counting::places_of(counts, b);
    if branch.number == 0 {
        return None;
    }
    Some(branch_record(branch, places))
}

#[tactic(auto, using(crate::proofs::Loops::given), unfolding(crate::specs::Records::slot_of))]
fn slot_of(hold: &[u8; 2380], k: UnfinishedSlot) -> Option<[u8; 12]>
    ensures { result ≡ some_record (slot_of hold.now k.0) }
{
    let slot = tables::read_slot(hold, k);
    if slot.state == Slot::EMPTY {
        return None;
    }
    Some(slot_record(k, slot))
}

#[tactic(auto, using(crate::proofs::Loops::given), unfolding(crate::specs::Records::input_of))]
fn input_of(hold: &[u8; 2380], k: CompactorSlot) -> Option<[u8; 11]>
    ensures { result ≡ some_record (input_of hold.now k.0) }
{
    let input = tables::read_input(hold, k);
    if input.number == 0 {
        return None;
    }
    Some(input_record(k, input))
}

// ---- the records of a kind

// The records in their order; the place behind the last.
fn put_each<R: AsSlice<u8> + Copy, I: Iterator<Item = R> + Drop>(
    records: I,
    out: &mut [u8],
    at: usize,
) -> usize
    requires can { I.can_next records }
    requires finite { IsFinite (I.remaining records) }
    ensures { (all : List (List ℕ)) → AlwaysYields I.next_gives R.items records all → (out.new, result) ≡ wrote (out.old, at) all }
{
    let mut next = at;
    for bytes in records {
        next = put(out, next, bytes.as_slice());
    }
    next
}

// "Images": nothing is written where the output is short; the bytes behind the image stay.
pub fn write(
    tree: &[u8; 6656],
    counts: &[u16; 512],
    hold: &[u8; 2380],
    out: &mut [u8],
) -> Result<usize, Refusal>
    ensures { (out.new, result) ≡ write_in tree.now counts.now hold.now out.old }
{
    if out.len() < WANTED {
        return Err(Refusal::ShortOutput);
    }
    // From 0 and one up: a chain over `1..=LAST` asks at every number whether it is through, and took half as long again.
    let nodes = (0..NodeUnit::LAST).filter_map(|u| node_of(tree, counts, NodeUnit(u + 1)));
    let branches = (0..BranchRoot::LAST).filter_map(|b| branch_of(counts, hold, BranchRoot(b + 1)));
    let slots = (0..UnfinishedSlot::COUNT).filter_map(|k| slot_of(hold, UnfinishedSlot(k)));
    let inputs = (0..CompactorSlot::COUNT).filter_map(|k| input_of(hold, CompactorSlot(k)));
    let end = put(out, 0, &[ROOT, counting::root(tree).0]);
    let end = put_each(nodes, out, end);
    let end = put_each(branches, out, end);
    let end = put_each(slots, out, end);
    Ok(put_each(inputs, out, end))
}
