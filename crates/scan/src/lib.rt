// Line 21 of a load: the bytes are laid out rightly. They are read by positions, section by section.
#![tactic(auto)]

ghost use Rattle.std.specs.Prelude.{ℕ, ◌≤◌, ◌+◌, ◌*◌, ◌≡◌, eqb, leb, length, get_or, IfSome};
ghost use Rattle.std.proofs.Common.{rules};
ghost use Rattle.rules.specs.Tables.{all};
ghost use Rattle.images.specs.Passes.{run_of, used_at, blanked_at, node_laid_at, branch_laid_at, slot_laid_at, input_laid_at, laid_at, size_of, section_ok};
ghost use Rattle.scan.specs.Sections.{RecordLaws, run_end, runs_end, section_end, sections_end};
ghost use Rattle.rules.specs.Loads.{laid, cut};

use units::{CompactorSlot, UnfinishedSlot};

// A kind of record of an image: the byte that it begins with, how many bytes it has, and at which of them its key stands.
pub trait Record {
    ghost KIND: { ℕ };

    ghost SIZE: { ℕ };

    ghost KEY: { ℕ };

    const KIND: u8;

    const SIZE: usize;

    const KEY: usize;

    // The record at `at` is laid out rightly.
    fn laid(b: &[u8], at: usize) -> bool
        requires { at + SIZE ≤ length b.now }
        ensures { result ≡ laid_at KIND b.now at };

    ghost laws: { RecordLaws KIND SIZE KEY };
}

// A node's record.
pub struct Node;

impl Record for Node {
    ghost KIND = { 33 };

    ghost SIZE = { size_of 33 };

    ghost KEY = { 1 };

    const KIND: u8 = 33;

    const SIZE: usize = 30;

    const KEY: usize = 1;

    fn laid(b: &[u8], at: usize) -> bool
        requires { at + ⟦<Node as Record>⟧.SIZE ≤ length b.now }
        ensures { result ≡ node_laid_at b.now at }
    {
        let n = b[at + 2];
        let k = b[at + 11];
        padded(b, at + 3, n)
            && padded(b, at + 12, k)
            && padded(b, at + 20, k)
            && within(b, at + 20, k, n)
    }

    ghost laws = { Prim.search rules };
}

// A branch's record.
pub struct Branch;

impl Record for Branch {
    ghost KIND = { 34 };

    ghost SIZE = { size_of 34 };

    ghost KEY = { 2 };

    const KIND: u8 = 34;

    const SIZE: usize = 12;

    const KEY: usize = 2;

    fn laid(b: &[u8], at: usize) -> bool
        requires { at + ⟦<Branch as Record>⟧.SIZE ≤ length b.now }
        ensures { result ≡ branch_laid_at b.now at }
    {
        let n = b[at + 1];
        1 <= n && padded(b, at + 2, n)
    }

    ghost laws = { Prim.search rules };
}

// A slot's record.
pub struct Slot;

impl Record for Slot {
    ghost KIND = { 35 };

    ghost SIZE = { size_of 35 };

    ghost KEY = { 1 };

    const KIND: u8 = 35;

    const SIZE: usize = 12;

    const KEY: usize = 1;

    fn laid(b: &[u8], at: usize) -> bool
        requires { at + ⟦<Slot as Record>⟧.SIZE ≤ length b.now }
        ensures { result ≡ slot_laid_at b.now at }
    {
        let n = b[at + 3];
        b[at + 1] < UnfinishedSlot::COUNT
            && matches!(b[at + 2], 1 | 2)
            && 1 <= n
            && padded(b, at + 4, n)
    }

    ghost laws = { Prim.search rules };
}

// A compactor's record.
pub struct Input;

impl Record for Input {
    ghost KIND = { 36 };

    ghost SIZE = { size_of 36 };

    ghost KEY = { 1 };

    const KIND: u8 = 36;

    const SIZE: usize = 11;

    const KEY: usize = 1;

    fn laid(b: &[u8], at: usize) -> bool
        requires { at + ⟦<Input as Record>⟧.SIZE ≤ length b.now }
        ensures { result ≡ input_laid_at b.now at }
    {
        let n = b[at + 2];
        b[at + 1] < CompactorSlot::COUNT && 1 <= n && padded(b, at + 3, n)
    }

    ghost laws = { Prim.search rules };
}

// Whether at most 8 of the places at p are used, and the others 0.
pub fn padded(b: &[u8], p: usize, n: u8) -> bool
    requires { p + 8 ≤ length b.now }
    ensures { result ≡ blanked_at p n b.now }
{
    n <= 8 && b[p + usize::from(n)..p + 8].iter().all(|&x| x == 0)
}

// Whether each of the n numbers at p is at most `most`.
pub fn within(b: &[u8], p: usize, n: u8, most: u8) -> bool
    requires { (p + 8 ≤ length b.now) × (n ≤ 8) }
    ensures { result ≡ all (λ o. leb o most) (used_at p n b.now) }
{
    b[p..p + usize::from(n)].iter().all(|&x| x <= most)
}

// Whether the byte at `at` is this kind; past the end stands none.
fn is_kind(b: &[u8], at: usize, kind: u8) -> bool
    requires { 1 ≤ kind }
    ensures { result ≡ eqb (get_or b.now at 0) kind }
{
    at < b.len() && b[at] == kind
}

// How many records of this kind, of `size` bytes each, stand from p on. The kind and the size may be known only when it runs.
// By a loop: `step_by(size).take_while(..).count()` took twice as long. No record is empty, so there are no more of them than bytes.
pub fn count_run(b: &[u8], p: usize, kind: u8, size: usize) -> usize
    requires { (1 ≤ kind) × (1 ≤ size) × (size ≤ 255) × (p ≤ length b.now) }
    ensures { (result ≡ run_of kind size (length b.now) b.now p) × (p + size * result ≤ length b.now + 255) }
{
    let mut at = p;
    for n in 0..b.len() {
        if !is_kind(b, at, kind) {
            return n;
        }
        at += size;
    }
    b.len()
}

// How many records of the kind R stand from p on.
pub fn count_records<R: Record>(b: &[u8], p: usize) -> usize
    requires { p ≤ length b.now }
    ensures { (result ≡ run_of R.KIND R.SIZE (length b.now) b.now p) × (p + R.SIZE * result ≤ length b.now + 255) }
{
    count_run(b, p, R::KIND, R::SIZE)
}

// A record of this kind is laid out rightly; a kind that is none of the four is judged as a compactor's.
pub fn laid_at(b: &[u8], at: usize, kind: u8) -> bool
    requires { at + size_of kind ≤ length b.now }
    ensures { result ≡ laid_at kind b.now at }
{
    match kind {
        33 => Node::laid(b, at),
        34 => Branch::laid(b, at),
        35 => Slot::laid(b, at),
        _ => Input::laid(b, at),
    }
}

// m records of this kind from p on are laid out rightly, and their keys, at the offset o, rise strictly: of a kind, a size and an offset
// that may be known only when it runs.
pub fn section_laid(b: &[u8], p: usize, m: usize, kind: u8, size: usize, o: usize) -> bool
    requires { (p + size * m ≤ length b.now) × (size ≡ size_of kind) × (o ≤ 2) }
    ensures { result ≡ section_ok kind size o b.now p m }
{
    let mut least = 0;
    for i in 0..m {
        let at = p + size * i;
        let key = usize::from(b[at + o]);
        if !laid_at(b, at, kind) || key < least {
            return false;
        }
        least = key + 1;
    }
    true
}

// m records of the kind R from p on are laid out rightly, and their keys rise strictly.
pub fn records_laid<R: Record>(b: &[u8], p: usize, m: usize) -> bool
    requires { p + R.SIZE * m ≤ length b.now }
    ensures { result ≡ section_ok R.KIND R.SIZE R.KEY b.now p m }
{
    let mut next = 0;
    for i in 0..m {
        let at = p + R::SIZE * i;
        let key = usize::from(b[at + R::KEY]);
        if !R::laid(b, at) || key < next {
            return false;
        }
        next = key + 1;
    }
    true
}

// Where the records of the kind R from p on end, if they lie within the image.
fn run_end<R: Record>(b: &[u8], p: usize) -> Option<usize>
    requires { p ≤ length b.now }
    ensures value { result ≡ run_end R.KIND R.SIZE b.now p }
    ensures inside { IfSome result (λ e. e ≤ length b.now) }
{
    let end = p + R::SIZE * count_records::<R>(b, p);
    (end <= b.len()).then_some(end)
}

// Where the last of the four sections behind the root ends, by the kinds of the records alone.
fn runs(b: &[u8]) -> Option<usize>
    requires { 2 ≤ length b.now }
    ensures { result ≡ runs_end b.now }
{
    let p = run_end::<Node>(b, 2)?;
    let q = run_end::<Branch>(b, p)?;
    let t = run_end::<Slot>(b, q)?;
    run_end::<Input>(b, t)
}

// Where the records of this kind from p on end, if they lie within the image and are laid out rightly.
fn section<R: Record>(b: &[u8], p: usize) -> Option<usize>
    requires { p ≤ length b.now }
    ensures value { result ≡ section_end R.KIND R.SIZE R.KEY b.now p }
    ensures inside { IfSome result (λ e. e ≤ length b.now) }
{
    let m = count_records::<R>(b, p);
    let end = p + R::SIZE * m;
    (end <= b.len() && records_laid::<R>(b, p, m)).then_some(end)
}

// Where the last of the four sections behind the root ends, if each is laid out rightly.
fn sections(b: &[u8]) -> Option<usize>
    requires { 2 ≤ length b.now }
    ensures { result ≡ sections_end b.now }
{
    let p = section::<Node>(b, 2)?;
    let q = section::<Branch>(b, p)?;
    let t = section::<Slot>(b, q)?;
    section::<Input>(b, t)
}

// Line 21 of the refusals: the image is laid out rightly. Where the sections end is asked first, which looks at one byte of each record.
#[tactic(auto, using(crate::proofs::Whole::scanned))]
pub fn layout(b: &[u8]) -> bool
    ensures { result ≡ laid b.now (cut b.now) }
{
    2 <= b.len() && b[0] == 32 && runs(b) == Some(b.len()) && sections(b).is_some()
}
