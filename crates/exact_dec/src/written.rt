//! Pieces of a length that is written: its sign, its last six digits, and how they are put together.

ghost use Rattle.std.specs.Prelude.{◌≡◌, ◌+◌, ◌%◌, ◌≤◌, ◌++◌, ℕ, length, take, drop};
ghost use Rattle.exact_dec.specs.MillimetreText.{minus_sign, six_digits};

/// Writes a piece at a place, and gives the place behind it.
pub(crate) fn put(out: &mut [u8], at: usize, piece: &[u8]) -> usize
    requires { at + length piece.now ≤ length out.old }
    ensures end { result ≡ at + length piece.now }
    ensures prefix { take result out.new ≡ take at out.old ++ piece.now }
    ensures rest { (k : ℕ) → result ≤ k → drop k out.new ≡ drop k out.old }
{
    let end = at + piece.len();
    out[at..end].copy_from_slice(piece);
    end
}

/// A minus before a number below 0.
pub(crate) fn sign(nm: i64) -> &'static [u8]
    ensures { result.now ≡ minus_sign nm }
{
    if nm < 0 { b"-" } else { b"" }
}

/// The last six decimal digits of a number.
pub(crate) fn last_six(n: u64) -> [u8; 6]
    ensures { result ≡ six_digits n }
{
    [
        digit(n / 100_000),
        digit(n / 10_000),
        digit(n / 1_000),
        digit(n / 100),
        digit(n / 10),
        digit(n),
    ]
}

/// The last decimal digit of a number.
fn digit(n: u64) -> u8
    ensures { result ≡ 48 + n % 10 }
{
    b'0' + (n % 10) as u8
}
