// Eight places by value, as a node or an input has them: a run of them replaced, each of them mapped or tested.
// The places that are not used are 0.
#![tactic(auto)]

ghost use Rattle.std.specs.Prelude.{◌-◌, ◌<◌, ◌≡◌, map, leb, get_or};
ghost use Rattle.records.specs.Rows.{eight};
ghost use Rattle.rules.specs.Tables.{all};
ghost use Rattle.rules.specs.Steps.{moved};
ghost use Rattle.eights.specs.Eights.{replaced, number_after};

// ---- numbers

// "Offsets up to start stay, those between become start, those from end fall by end - start - 1"
fn moved_offset(o: u8, start: u8, end: u8) -> u8
    ensures { result ≡ moved start end o }
{
    if o <= start {
        return o;
    }
    if o < end {
        return start;
    }
    o.saturating_sub(end.saturating_sub(start).saturating_sub(1))
}

// How many there are of `number` when from `at` on `gone` go and `come` come; at most eight, so that `as u8` loses nothing.
#[tactic(auto, unfolding(counting::specs::Places::up_to))]
pub fn number_after(number: u8, at: u8, gone: u8, come: usize) -> u8
    ensures { result ≡ number_after number at gone come }
{
    let start = usize::from(at);
    let left = usize::from(number).saturating_sub(start + usize::from(gone));
    (start + come.min(8) + left).min(8) as u8
}

// ---- places

pub fn place(xs: [u8; 8], at: usize) -> u8
    ensures { result ≡ get_or xs at 0 }
{
    xs.get(at).copied().unwrap_or(0)
}

// The place j of eight in which `gone` go from `at` on and `come` comes.
fn replace_place(xs: [u8; 8], at: u8, gone: u8, come: &[u8], j: usize) -> u8
    requires { j < 8 }
    ensures { result ≡ get_or (replaced xs at gone come.now) j 0 }
{
    let start = usize::from(at);
    if j < start {
        return place(xs, j);
    }
    if j < start + come.len() {
        return come[j - start];
    }
    place(xs, j - come.len() + usize::from(gone))
}

pub fn replace(xs: [u8; 8], at: u8, gone: u8, come: &[u8]) -> [u8; 8]
    ensures { result ≡ eight (replaced xs at gone come.now) }
{
    std::array::from_fn(|j| replace_place(xs, at, gone, come, j))
}

// A place that is not used stays 0, as it is not above `by`.
pub fn lower(xs: [u8; 8], by: u8) -> [u8; 8]
    ensures { result ≡ eight (map (λ o. o - by) xs) }
{
    xs.map(|o| o.saturating_sub(by))
}

// A place that is not used stays 0, as it is not above `start`.
pub fn move_offsets(xs: [u8; 8], start: u8, end: u8) -> [u8; 8]
    ensures { result ≡ eight (map (moved start end) xs) }
{
    xs.map(|o| moved_offset(o, start, end))
}

// ---- tests

// Whether each is at least `low`.
pub fn at_least(xs: &[u8], low: u8) -> bool
    ensures { result ≡ all (λ o. leb low o) xs.now }
{
    xs.iter().all(|&o| low <= o)
}
