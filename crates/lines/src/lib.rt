// The table of refusals: the lines 1 to 3 of any record, and the first of the lines 4 to 12 that applies.
#![tactic(auto)]

ghost use Rattle.std.specs.Prelude.{◌≡◌, IfOk, get_or};
ghost use Rattle.units.specs.Kinds.{number_of_kind};
ghost use Rattle.lines.specs.Lines.{head_of, first_of, numbered, refusal_number};

use units::{Kind, NodeUnit, Refusal};

// The kind of a record that passes the lines 1, 2 and 3, for a lent list of `room` bytes.
#[tactic(auto, using(crate::proofs::Lines::head_laws))]
pub fn head(bytes: &[u8], room: usize) -> Result<Kind, Refusal>
    ensures line { refusal_number result ≡ head_of bytes.now room }
    ensures kind { IfOk result (λ kind. number_of_kind kind ≡ get_or bytes.now 0 0) }
{
    if room < usize::from(NodeUnit::LAST) {
        return Err(Refusal::ShortList);
    }
    let (&first, body) = bytes.split_first().ok_or(Refusal::UnknownKind)?;
    let kind = Kind::try_from(first)?;
    if body.len() != usize::from(kind.body_length()) {
        return Err(Refusal::WrongLength);
    }
    Ok(kind)
}

// The lines 4 to 12, one to a test.
const LINES: [Refusal; 9] = [
    Refusal::BadPlace,
    Refusal::UnfitSlot,
    Refusal::NoSuchChild,
    Refusal::OutOfRange,
    Refusal::NotTheInput,
    Refusal::TooMany,
    Refusal::TooDeep,
    Refusal::NotFresh,
    Refusal::CountTooHigh,
];

// The first of the lines 4 to 12 whose test fails. The tests come as nine bools and not one by one: each kind's `.._tests`, as
// `quiet::take_tests`, promises a list of nine (docs/DECISIONS.md, "Judging answers nine tests").
#[tactic(auto, using(crate::proofs::Lines::all_left, crate::proofs::Lines::end_tests, crate::proofs::Lines::end_lines))]
pub fn first_line(tests: [bool; 9]) -> Result<(), Refusal>
    ensures { refusal_number result ≡ first_of (numbered 4 tests) }
{
    for (passes, line) in tests.iter().zip(&LINES) {
        if !passes {
            return Err(*line);
        }
    }
    Ok(())
}
