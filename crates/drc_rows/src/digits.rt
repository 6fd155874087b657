//! Digits that are written right where they stand.

ghost use Rattle.std.specs.Prelude.{◌≡◌, ◌<◌, ◌≤◌, ◌+◌, ◌/◌, ◌%◌, ◌++◌, [], ◌∷◌, length, take, decimal, unsigned_abs};
ghost use Rattle.exact_dec.specs.MillimetreText.{minus_sign, six_digits, mm_text};

use exact_dec::Nm;

/// Lengths below this one have at most three digits before the point, as all of boards have.
pub(crate) const SHORT: u64 = 1_000_000_000;

/// The two digits of each number below 100.
static PAIRS: [[u8; 2]; 100] = [
    *b"00", *b"01", *b"02", *b"03", *b"04", *b"05", *b"06", *b"07", *b"08", *b"09", *b"10", *b"11",
    *b"12", *b"13", *b"14", *b"15", *b"16", *b"17", *b"18", *b"19", *b"20", *b"21", *b"22", *b"23",
    *b"24", *b"25", *b"26", *b"27", *b"28", *b"29", *b"30", *b"31", *b"32", *b"33", *b"34", *b"35",
    *b"36", *b"37", *b"38", *b"39", *b"40", *b"41", *b"42", *b"43", *b"44", *b"45", *b"46", *b"47",
    *b"48", *b"49", *b"50", *b"51", *b"52", *b"53", *b"54", *b"55", *b"56", *b"57", *b"58", *b"59",
    *b"60", *b"61", *b"62", *b"63", *b"64", *b"65", *b"66", *b"67", *b"68", *b"69", *b"70", *b"71",
    *b"72", *b"73", *b"74", *b"75", *b"76", *b"77", *b"78", *b"79", *b"80", *b"81", *b"82", *b"83",
    *b"84", *b"85", *b"86", *b"87", *b"88", *b"89", *b"90", *b"91", *b"92", *b"93", *b"94", *b"95",
    *b"96", *b"97", *b"98", *b"99",
];

/// The two digits of a number below 100.
#[inline(always)]
fn pair(n: u32) -> [u8; 2]
    requires { n < 100 }
    ensures { result ≡ (48 + n / 10) ∷ (48 + n % 10) ∷ [] }
{
    PAIRS[n as usize]
}

/// Copies a piece into the bytes at a place, and gives the place behind it.
#[inline(always)]
pub(crate) fn place(bytes: &mut [u8], at: usize, piece: &[u8]) -> usize
    requires { at + length piece.now ≤ length bytes.old }
    ensures end { result ≡ at + length piece.now }
    ensures prefix { take result bytes.new ≡ take at bytes.old ++ piece.now }
{
    let end = at + piece.len();
    bytes[at..end].copy_from_slice(piece);
    end
}

/// Writes a length of less than 1000 mm either way at a place, and gives the place behind it.
pub(crate) fn place_short(bytes: &mut [u8], at: usize, nm: Nm) -> usize
    requires short { unsigned_abs nm < 1000000000 }
    requires capacity { at + 11 ≤ length bytes.old }
    ensures end { result ≤ at + 11 }
    ensures prefix { take result bytes.new ≡ take at bytes.old ++ mm_text nm }
{
    let nanometres = nm.unsigned_abs() as u32;
    let at = place_sign(bytes, at, nm);
    let at = place_whole(bytes, at, nanometres / 1_000_000);
    place_fraction(bytes, at, nanometres % 1_000_000)
}

/// Writes a minus at a place where a number is below 0, and gives the place behind it.
#[inline(always)]
fn place_sign(bytes: &mut [u8], at: usize, nm: Nm) -> usize
    requires { at + 1 ≤ length bytes.old }
    ensures end { result ≤ at + 1 }
    ensures prefix { take result bytes.new ≡ take at bytes.old ++ minus_sign nm }
{
    if nm < 0 { place(bytes, at, b"-") } else { at }
}

/// Writes a number below 1000 at a place, and gives the place behind it.
#[inline(always)]
fn place_whole(bytes: &mut [u8], at: usize, n: u32) -> usize
    requires small { n < 1000 }
    requires capacity { at + 3 ≤ length bytes.old }
    ensures end { result ≤ at + 3 }
    ensures prefix { take result bytes.new ≡ take at bytes.old ++ decimal n }
{
    if n < 10 {
        return place(bytes, at, &[b'0' + n as u8]);
    }
    if n < 100 {
        return place(bytes, at, &pair(n));
    }
    let [tens, ones] = pair(n % 100);
    place(bytes, at, &[b'0' + (n / 100) as u8, tens, ones])
}

/// Writes a point and the six digits of a number below a million at a place, and gives the place behind them.
#[inline(always)]
fn place_fraction(bytes: &mut [u8], at: usize, n: u32) -> usize
    requires small { n < 1000000 }
    requires capacity { at + 7 ≤ length bytes.old }
    ensures end { result ≡ at + 7 }
    ensures prefix { take result bytes.new ≡ take at bytes.old ++ (46 ∷ six_digits n) }
{
    let four = n % 10_000;
    let [a, b] = pair(n / 10_000);
    let [c, d] = pair(four / 100);
    let [e, f] = pair(four % 100);
    place(bytes, at, &[b'.', a, b, c, d, e, f])
}
