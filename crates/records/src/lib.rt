// A record is a run of bytes at a place of a lent array: read eight bytes at a time, stored whole by one copy of any length.
#![tactic(auto)]

ghost use Rattle.std.specs.Prelude.{◌≤◌, ◌+◌, ◌≡◌, length};
ghost use Rattle.units.specs.Limits.{room};
ghost use Rattle.records.specs.Rows.{eight_at, poured, AllBytes};

// The bytes of src into s from `at` on.
pub fn pour(s: &mut [u8], at: usize, src: &[u8])
    requires { at + length src.now ≤ length s.old }
    ensures { s.new ≡ poured s.old at src.now }
{
    s[at..at + src.len()].copy_from_slice(src);
}

// The eight bytes from `at` on.
pub fn eight(s: &[u8], at: usize) -> [u8; 8]
    requires { at + room ≤ length s.now }
    ensures { result ≡ eight_at s.now at }
{
    *s[at..].first_chunk::<8>().unwrap()
}

// What the type of a byte says, told to the proofs: each is below 256. The check tells it of every lent array besides.
pub fn bytes(s: &[u8])
    ensures { AllBytes s.now }
{}
