// The kinds of number of document 01, each with its limits, the lengths of the records' bodies, and the refusals.
// A node's unit and a branch's root are different kinds, so that neither can be passed where the other is wanted: document 01 names
// the form, two tuple structs over a byte, with constants and constructors of each kind. Hence no generic type, and a `new` for each.
#![tactic(auto)]

ghost use Rattle.std.specs.Prelude.{◌≡◌, Bool, ◌&&◌, ℕ, ◌<◌, ◌≤◌, eqb, leb, ltb};
ghost use Rattle.units.specs.Limits.{last_unit, slot_count, compactor_count, most_count, last_kind};
ghost use Rattle.units.specs.Bodies.{body_length};
ghost use Rattle.units.specs.Kinds.{number_of_kind, NamesKind};
ghost use Rattle.units.specs.Refusals.{number_of};

// What a node's unit and a branch's root have in common: a byte, of which one value means "none".
pub trait Unit: Copy {
    ghost byte: { Self → ℕ };

    ghost NONE: { ℕ };

    const NONE: u8;

    fn byte(self) -> u8
        ensures { result ≡ byte self };

    final fn is_none(self) -> bool
        ensures { result ≡ eqb (byte self) NONE }
    {
        self.byte() == Self::NONE
    }

    final fn index(self) -> usize
        ensures { (result ≡ byte self) × (result ≤ last_unit) }
    {
        usize::from(self.byte())
    }
}

// The unit that a node occupies.
#[derive(Clone, Copy, Debug, Default, PartialEq, Eq)]
pub struct NodeUnit(pub u8);

impl NodeUnit {
    // "none"
    pub const NONE: u8 = 0;

    pub const LAST: u8 = 255;

    pub fn new(unit: u8) -> Self
        ensures { result.0 ≡ unit }
    {
        NodeUnit(unit)
    }
}

impl Unit for NodeUnit {
    ghost byte = { λ unit. unit.0 };

    ghost NONE = { 0 };

    const NONE: u8 = NodeUnit::NONE;

    fn byte(self) -> u8 {
        self.0
    }
}

// The first unit of a branch, by which buffers and inputs name it.
#[derive(Clone, Copy, Debug, PartialEq, Eq)]
pub struct BranchRoot(pub u8);

impl BranchRoot {
    // "none"
    pub const NONE: u8 = 0;

    pub const LAST: u8 = 255;

    pub fn new(unit: u8) -> Self
        ensures { result.0 ≡ unit }
    {
        BranchRoot(unit)
    }
}

impl Unit for BranchRoot {
    ghost byte = { λ root. root.0 };

    ghost NONE = { 0 };

    const NONE: u8 = BranchRoot::NONE;

    fn byte(self) -> u8 {
        self.0
    }
}

// What the numbers of the two kinds of slot have in common: a byte, and how many slots of the kind there are.
pub trait SlotNumber: Copy {
    ghost byte: { Self → ℕ };

    ghost COUNT: { ℕ };

    const COUNT: u8;

    fn byte(self) -> u8
        ensures { result ≡ byte self };

    final fn exists(self) -> bool
        ensures { result ≡ ltb (byte self) COUNT }
    {
        self.byte() < Self::COUNT
    }
}

// The number of an unfinished slot.
#[derive(Clone, Copy, Debug, PartialEq, Eq)]
pub struct UnfinishedSlot(pub u8);

impl UnfinishedSlot {
    pub const COUNT: u8 = 4;

    pub fn new(number: u8) -> Self
        ensures { result.0 ≡ number }
    {
        UnfinishedSlot(number)
    }
}

impl SlotNumber for UnfinishedSlot {
    ghost byte = { λ unfinished. unfinished.0 };

    ghost COUNT = { slot_count };

    const COUNT: u8 = UnfinishedSlot::COUNT;

    fn byte(self) -> u8 {
        self.0
    }
}

// The number of a compactor slot.
#[derive(Clone, Copy, Debug, PartialEq, Eq)]
pub struct CompactorSlot(pub u8);

impl CompactorSlot {
    pub const COUNT: u8 = 4;

    pub fn new(number: u8) -> Self
        ensures { result.0 ≡ number }
    {
        CompactorSlot(number)
    }
}

impl SlotNumber for CompactorSlot {
    ghost byte = { λ compactor. compactor.0 };

    ghost COUNT = { compactor_count };

    const COUNT: u8 = CompactorSlot::COUNT;

    fn byte(self) -> u8 {
        self.0
    }
}

// How often a node or a branch is counted.
#[derive(Clone, Copy, Debug, PartialEq, Eq)]
pub struct Count(pub u16);

impl Count {
    pub const MOST: u16 = 65535;

    pub fn new(count: u16) -> Self
        ensures { result.0 ≡ count }
    {
        Count(count)
    }

    pub fn is_zero(self) -> bool
        ensures { result ≡ eqb self.0 0 }
    {
        self.0 == 0
    }

    // Whether a sum of counts is a count.
    pub fn holds(sum: u32) -> bool
        ensures { result ≡ leb sum most_count }
    {
        sum <= u32::from(Count::MOST)
    }
}

// The ten kinds of step, by the first byte of their records.
#[derive(Clone, Copy, Debug, PartialEq, Eq)]
pub enum Kind {
    Take = 1,
    Seal = 2,
    Abandon = 3,
    MemtableFlush = 4,
    Grow = 5,
    Split = 6,
    Flush = 7,
    CompactBegin = 8,
    CompactCommit = 9,
    CompactAbort = 10,
}

impl Kind {
    // The length of the body that the kind fixes.
    pub fn body_length(self) -> u8
        ensures { result ≡ body_length (number_of_kind self) }
    {
        BODIES[self as usize]
    }
}

impl TryFrom<u8> for Kind {
    type Error = Refusal;

    ghost try_from_gives = { NamesKind };

    fn try_from(byte: u8) -> Result<Self, Refusal> {
        match byte {
            1 => Ok(Kind::Take),
            2 => Ok(Kind::Seal),
            3 => Ok(Kind::Abandon),
            4 => Ok(Kind::MemtableFlush),
            5 => Ok(Kind::Grow),
            6 => Ok(Kind::Split),
            7 => Ok(Kind::Flush),
            8 => Ok(Kind::CompactBegin),
            9 => Ok(Kind::CompactCommit),
            10 => Ok(Kind::CompactAbort),
            _ => Err(Refusal::UnknownKind),
        }
    }
}

impl From<Kind> for u8 {
    ghost from_gives = { λ kind byte. byte ≡ number_of_kind kind };

    fn from(kind: Kind) -> u8 {
        kind as u8
    }
}

// By kind, from 1 on.
const BODIES: [u8; 11] = [0, 2, 2, 1, 2, 1, 20, 19, 11, 20, 1];

// Of any byte, as its clause says; `Kind::try_from` tells which kind.
pub fn is_kind(kind: u8) -> bool
    ensures { result ≡ (leb 1 kind && leb kind last_kind) }
{
    Kind::try_from(kind).is_ok()
}

// The length of the body that a kind fixes. By number and for 0 too, as its clause says; `Kind::body_length` is the same by kind.
pub fn body_length(kind: u8) -> u8
    requires { kind ≤ last_kind }
    ensures { result ≡ body_length kind }
{
    BODIES[usize::from(kind)]
}

// Why a step, a writing or a load is turned down, by document 01's numbers.
#[derive(Clone, Copy, Debug, PartialEq, Eq)]
pub enum Refusal {
    ShortList = 1,
    UnknownKind = 2,
    WrongLength = 3,
    BadPlace = 4,
    UnfitSlot = 5,
    NoSuchChild = 6,
    OutOfRange = 7,
    NotTheInput = 8,
    TooMany = 9,
    TooDeep = 10,
    NotFresh = 11,
    CountTooHigh = 12,
    ShortOutput = 20,
    BadLayout = 21,
    OwnedTwice = 22,
    NamesNothing = 23,
    WayTooLong = 24,
    RecountTooHigh = 25,
    NotHeld = 26,
    CountDiffers = 27,
}

impl Refusal {
    pub fn number(self) -> u8
        ensures { result ≡ number_of self }
    {
        self as u8
    }
}

impl From<Refusal> for u8 {
    ghost from_gives = { λ why number. number ≡ number_of why };

    fn from(why: Refusal) -> u8 {
        why.number()
    }
}
