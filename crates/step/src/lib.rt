// The empty state, and the refusal of a number. A step answers `Result<u8, Refusal>`: how many units it freed, or why it was turned down.
#![tactic(auto)]

ghost use Rattle.std.specs.Prelude.{◌≡◌, [], ◌∷◌, replicate};
ghost use Rattle.path.specs.Standing.{tree_length};
ghost use Rattle.tables.specs.Hold.{hold_length};
ghost use Rattle.held_map.specs.Map.{empty_map};
ghost use Rattle.state.specs.Standing.{counts_length};
ghost use Rattle.step.specs.Answers.{refusal_of};

use units::Refusal;

// The state of the empty store.
pub fn empty(
    tree: &mut [u8; 6656],
    counts: &mut [u16; 512],
    hold: &mut [u8; 2380],
    map: &mut [u64; 4],
)
    ensures tree { tree.new ≡ replicate tree_length 0 }
    ensures counts { counts.new ≡ replicate counts_length 0 }
    ensures hold { hold.new ≡ replicate hold_length 0 }
    ensures map { map.new ≡ empty_map }
{
    *tree = [0u8; 6656];
    *counts = [0u16; 512];
    *hold = [0u8; 2380];
    *map = [0u64; 4];
}

// The refusal of a step's number; of 0 and of a number above 12 the last line. Its clause is a public promise on every number, these
// included, and so the function stays: a `TryFrom` would give an error for them.
pub fn refusal_of(number: u8) -> Refusal
    ensures { result ≡ refusal_of number }
{
    match number {
        1 => Refusal::ShortList,
        2 => Refusal::UnknownKind,
        3 => Refusal::WrongLength,
        4 => Refusal::BadPlace,
        5 => Refusal::UnfitSlot,
        6 => Refusal::NoSuchChild,
        7 => Refusal::OutOfRange,
        8 => Refusal::NotTheInput,
        9 => Refusal::TooMany,
        10 => Refusal::TooDeep,
        11 => Refusal::NotFresh,
        _ => Refusal::CountTooHigh,
    }
}
