// The map of held units: unit u is bit u % 64 of word u / 64. Every function is right on any four words.
#![tactic(auto)]

ghost use Rattle.std.specs.Prelude.{◌≤◌, ◌+◌, ◌≡◌, ◌++◌, length, drop};
ghost use Rattle.held_map.specs.Bits.{Less, LowestZero};
ghost use Rattle.held_map.specs.Map.{held_in, mark, clear, clears, held_number, lowest_free, gone};
ghost use Rattle.held_map.specs.Lists.{bits_of, four_of, inserted};

#[tactic(auto, using(crate::proofs::Bits::set_test), unfolding(crate::specs::Map::held_in))]
pub fn has(map: &[u64; 4], u: u8) -> bool
    ensures { result ≡ held_in map.now u }
{
    map[usize::from(u / 64)] >> (u % 64) & 1 == 1
}

// The unit is held afterwards, whether it was or not.
#[tactic(auto, using(crate::proofs::Bits::with_or), unfolding(crate::specs::Map::mark))]
pub fn hold(map: &mut [u64; 4], u: u8)
    ensures { map.new ≡ mark map.old u }
{
    map[usize::from(u / 64)] |= 1 << (u % 64);
}

// The unit is not held afterwards, whether it was or not.
#[tactic(auto, using(crate::proofs::Bits::without_and), unfolding(crate::specs::Map::clear))]
pub fn release(map: &mut [u64; 4], u: u8)
    ensures { map.new ≡ clear map.old u }
{
    map[usize::from(u / 64)] &= !(1 << (u % 64));
}

// None of the eight is held afterwards.
pub fn release_eight(map: &mut [u64; 4], us: [u8; 8])
    ensures { map.new ≡ clears map.old us }
{
    for u in us {
        release(map, u);
    }
}

// How many units are held.
pub fn number(map: &[u64; 4]) -> u32
    ensures { result ≡ held_number map.now }
{
    map.iter().map(|w| w.count_ones()).sum()
}

// The lowest bit of w that is 0, or 64. (Here and below `as u8` narrows a number of at most 64, for which there is no `From`.)
#[tactic(auto, using(crate::proofs::Lowest::lowest_zero))]
fn lowest_zero(w: u64) -> u8
    ensures { LowestZero w result }
{
    w.trailing_ones() as u8
}

// The lowest unit that is not held, 0 where all are. Unit 0 counts as held.
pub fn lowest_free(map: &[u64; 4]) -> u8
    ensures { result ≡ lowest_free map.now }
{
    for (i, &word) in map.iter().enumerate() {
        let word = if i == 0 { word | 1 } else { word };
        let zero = lowest_zero(word);
        if zero < 64 {
            return i as u8 * 64 + zero;
        }
    }
    0
}

// The set bits of a word, lowest first, as units: the lowest bit stands for unit `base`. One iterator over all four words was tried and
// proved: with it `list_gone` took a fifth longer where few units are gone, and twice as long where many are.
#[derive(Drop)]
pub struct Units {
    word: u64,
    base: u8,
    ghost low: { base ≤ 192 },
}

impl Units {
    ghost use Rattle.held_map.specs.Left.{left};

    pub fn of(word: u64, base: u8) -> Units
        requires { base ≤ 192 }
        ensures { left result ≡ bits_of 64 base word }
    {
        Units { word, base }
    }

    // Those that are left, stored from `at` on. The place is counted, as the answer is the one behind the last; `enumerate` would add it
    // to `at` twice.
    #[tactic(auto, unfolding(crate::specs::Lists::inserted))]
    fn list(self, out: &mut [u8], at: usize) -> usize
        requires { at + length (left self) ≤ length out.old }
        ensures list { out.new ≡ inserted out.old at (left self) }
        ensures next { result ≡ at + length (left self) }
    {
        let mut n = at;
        for u in self {
            out[n] = u;
            n += 1;
        }
        n
    }
}

// A turn for each set bit and none for the others.
impl Iterator for Units {
    ghost use Rattle.std.specs.Iterator.{YieldsFirst, item_count};
    ghost use Rattle.held_map.specs.Left.{left};

    type Item = u8;

    ghost next_gives = { YieldsFirst left };

    ghost remaining = { item_count left };

    fn next(&mut self) -> Option<u8> {
        if self.word == 0 {
            return None;
        }
        let k = self.word.trailing_zeros() as u8;
        self.word &= self.word - 1;
        Some(self.base + k)
    }
}

fn list_four(words: [u64; 4], out: &mut [u8]) -> usize
    requires { length (four_of words) ≤ length out.old }
    ensures list { out.new ≡ inserted out.old 0 (four_of words) }
    ensures next { result ≡ length (four_of words) }
{
    let mut n = 0;
    for (i, &word) in words.iter().enumerate() {
        n = Units::of(word, i as u8 * 64).list(out, n);
    }
    n
}

// The bits of a that b has not.
#[tactic(auto, using(crate::proofs::Bits::less_set))]
fn less(a: u64, b: u64) -> u64
    ensures { Less a b result }
{
    a & !b
}

// The units held before and not after, ascending, at the front of out. Unit 0 is never listed, so 255 bytes are enough.
pub fn list_gone(before: &[u64; 4], after: &[u64; 4], out: &mut [u8]) -> usize
    requires { 255 ≤ length out.old }
    ensures list { out.new ≡ gone before.now after.now ++ drop (length (gone before.now after.now)) out.old }
    ensures next { result ≡ length (gone before.now after.now) }
{
    let mut words: [u64; 4] = std::array::from_fn(|i| less(before[i], after[i]));
    words[0] -= words[0] % 2;
    list_four(words, out)
}
