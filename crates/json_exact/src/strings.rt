//! The reader of strings.

ghost use Rattle.std.specs.Prelude.{◌≡◌, ◌↔◌, ◌+◌, ◌<◌, ◌≤◌, false, length, MatchResult, IfErr, slice_index, IsTrue};
ghost use Rattle.json_exact.specs.Characters.{is_plain, is_hex, is_d, is_high_digit, is_low_digit, is_short, escape, digits, surrogate, two_digits, low_half, within, character};
ghost use Rattle.json_exact.specs.JsonRefusals.{EndsDigits};
ghost use Rattle.json_exact.specs.Scans.{PassesWay, StopsWay, PassesCharacter, StopsCharacter, IsHalf, EndsString, CountsCharacter, CountsString, accepts, way_of, four_bytes};

/// What one byte of a character may be.
#[derive(Clone, Copy, Drop)]
enum Class {
    Range(u8, u8),
    Byte(u8),
    Hex,
    D,
    Low,
}

const TAIL: Class = Class::Range(128, 191);

impl Class {
    fn accepts(self, b: u8) -> bool
        ensures { result ≡ accepts self b }
    {
        match self {
            Class::Range(low, high) => within(low, high, b),
            Class::Byte(c) => b == c,
            Class::Hex => is_hex(b),
            Class::D => is_d(b),
            Class::Low => is_low_digit(b),
        }
    }
}

/// Whether a byte is between the two, both among them.
fn within(low: u8, high: u8, b: u8) -> bool
    ensures { result ≡ within low high b }
{
    low <= b && b <= high
}

fn is_hex(b: u8) -> bool
    ensures { result ≡ is_hex b }
{
    (48 <= b && b <= 57) || (65 <= b && b <= 70) || (97 <= b && b <= 102)
}

fn is_d(b: u8) -> bool
    ensures { result ≡ is_d b }
{
    b == b'D' || b == b'd'
}

fn is_high_digit(b: u8) -> bool
    ensures { result ≡ is_high_digit b }
{
    (56 <= b && b <= 57) || (65 <= b && b <= 66) || (97 <= b && b <= 98)
}

fn is_low_digit(b: u8) -> bool
    ensures { result ≡ is_low_digit b }
{
    (67 <= b && b <= 70) || (99 <= b && b <= 102)
}

/// Whether a byte is a whole character that stands for itself.
fn is_plain(b: u8) -> bool
    ensures { result ≡ is_plain b }
{
    (32 <= b && b <= 33) || (35 <= b && b <= 91) || (93 <= b && b <= 127)
}

/// Whether a byte is the letter of an escape of two bytes.
fn is_short(b: u8) -> bool
    ensures { result ≡ is_short b }
{
    b == b'"'
        || b == b'\\'
        || b == b'/'
        || b == b'b'
        || b == b'f'
        || b == b'n'
        || b == b'r'
        || b == b't'
}

/// The place behind the bytes of this row that stand at `at`, or that of the first other byte.
fn row_end(text: &[u8], at: usize, row: &[Class]) -> Result<usize, usize>
    requires { at ≤ length text.now }
    ensures { MatchResult result (PassesWay (way_of row.now) text.now at)
        (StopsWay (way_of row.now) text.now at) }
{
    let mut i = at;
    'row: for class in row {
        if i == text.len() || !class.accepts(text[i]) {
            return Err(i);
        }
        i += 1;
    }
    Ok(i)
}

/// The place behind an escape, of which the byte behind the backslash is at `at`, or where it stops.
fn escape_end(text: &[u8], at: usize) -> Result<usize, usize>
    requires { at ≤ length text.now }
    ensures { MatchResult result (PassesWay escape text.now at) (StopsWay escape text.now at) }
{
    if at == text.len() {
        return Err(at);
    }
    let b = text[at];
    if is_short(b) {
        Ok(at + 1)
    } else if b == b'u' {
        digits_end(text, at + 1)
    } else {
        Err(at)
    }
}

/// The place behind the digits of an escape whose first one is at `at`, those of a second escape with them where it is a
/// surrogate; or where it stops.
fn digits_end(text: &[u8], at: usize) -> Result<usize, usize>
    requires { at ≤ length text.now }
    ensures { MatchResult result (PassesWay digits text.now at) (StopsWay digits text.now at) }
{
    if at == text.len() {
        return Err(at);
    }
    let b = text[at];
    if is_d(b) {
        surrogate_end(text, at + 1)
    } else if is_hex(b) {
        row_end(text, at + 1, &[Class::Hex, Class::Hex, Class::Hex])
    } else {
        Err(at)
    }
}

/// The place behind an escape that begins with `\uD`, whose second digit is at `at`, or where it stops.
fn surrogate_end(text: &[u8], at: usize) -> Result<usize, usize>
    requires { at ≤ length text.now }
    ensures { MatchResult result (PassesWay surrogate text.now at)
        (StopsWay surrogate text.now at) }
{
    if at == text.len() {
        return Err(at);
    }
    let b = text[at];
    if within(48, 55, b) {
        row_end(text, at + 1, &[Class::Hex, Class::Hex])
    } else if is_high_digit(b) {
        high_end(text, at + 1)
    } else {
        Err(at)
    }
}

/// The place behind a pair of surrogates, of which the third digit of the first is at `at`, or where it stops.
fn high_end(text: &[u8], at: usize) -> Result<usize, usize>
    requires { at ≤ length text.now }
    ensures { MatchResult result (PassesWay (two_digits low_half) text.now at)
        (StopsWay (two_digits low_half) text.now at) }
{
    let row = [
        Class::Hex,
        Class::Hex,
        Class::Byte(b'\\'),
        Class::Byte(b'u'),
        Class::D,
        Class::Low,
        Class::Hex,
        Class::Hex,
    ];
    row_end(text, at, &row)
}

/// The place behind the character of more than one byte at `at`, or where it stops.
fn character_end(text: &[u8], at: usize) -> Result<usize, usize>
    requires here { at < length text.now }
    requires not_plain { is_plain (slice_index text.now at) ≡ false }
    ensures { MatchResult result (PassesCharacter text.now at) (StopsCharacter text.now at) }
{
    let b = text[at];
    if b == b'\\' {
        escape_end(text, at + 1)
    } else if within(194, 223, b) {
        row_end(text, at + 1, &[TAIL])
    } else if b == 224 {
        row_end(text, at + 1, &[Class::Range(160, 191), TAIL])
    } else if within(225, 236, b) || within(238, 239, b) {
        row_end(text, at + 1, &[TAIL, TAIL])
    } else if b == 237 {
        row_end(text, at + 1, &[Class::Range(128, 159), TAIL])
    } else {
        long_end(text, at)
    }
}

/// The place behind the character of four bytes at `at`, or where it stops.
fn long_end(text: &[u8], at: usize) -> Result<usize, usize>
    requires here { at < length text.now }
    requires long { character (slice_index text.now at) ≡ four_bytes (slice_index text.now at) }
    ensures { MatchResult result (PassesCharacter text.now at) (StopsCharacter text.now at) }
{
    let b = text[at];
    if b == 240 {
        row_end(text, at + 1, &[Class::Range(144, 191), TAIL, TAIL])
    } else if within(241, 243, b) {
        row_end(text, at + 1, &[TAIL, TAIL, TAIL])
    } else if b == 244 {
        row_end(text, at + 1, &[Class::Range(128, 143), TAIL, TAIL])
    } else {
        Err(at)
    }
}

/// Whether the escape of a surrogate stands at `at`, and the text stops at `stop` since it stays alone.
fn is_half(text: &[u8], at: usize, stop: usize) -> bool
    requires order { at ≤ stop }
    requires in_text { stop ≤ length text.now }
    ensures { IsTrue result ↔ IsHalf text.now at stop }
{
    if stop == text.len() || stop - at < 3 {
        return false;
    }
    if text[at] != b'\\' || text[at + 1] != b'u' || !is_d(text[at + 2]) {
        return false;
    }
    let digit = text[at + 3];
    is_low_digit(digit) || (is_high_digit(digit) && stop - at >= 6)
}

/// Where the hexadecimal digits end of the escape that stands at `at`. Four of them belong to it.
fn escape_digits_end(text: &[u8], at: usize) -> usize
    requires { at + 2 ≤ length text.now }
    ensures { EndsDigits text.now at result }
{
    let mut end = at + 2;
    'digits: while end < text.len() && end - at < 6 && is_hex(text[end]) {
        end += 1;
    }
    end
}

/// What counts where the text stops at `stop` inside the character at `at`.
fn counted(text: &[u8], at: usize, stop: usize) -> usize
    requires order { at ≤ stop }
    requires in_text { stop ≤ length text.now }
    ensures counted { CountsCharacter text.now at stop result }
    ensures bound { result ≤ length text.now }
{
    if !is_half(text, at, stop) {
        return stop;
    }
    let end = escape_digits_end(text, at);
    if end - at == 6 { at } else { end }
}

/// The place behind the closing quote of the string whose characters begin at `at`, or the place
/// that its fault counts at.
pub(crate) fn string_end(text: &[u8], at: usize) -> Result<usize, usize>
    requires { at ≤ length text.now }
    ensures string { MatchResult result (EndsString text.now at) (CountsString text.now at) }
    ensures bound { IfErr result (λ k. k ≤ length text.now) }
{
    let mut i = at;
    'characters: while i < text.len() {
        let b = text[i];
        if b == b'"' {
            return Ok(i + 1);
        }
        if is_plain(b) {
            i += 1;
        } else {
            match character_end(text, i) {
                Ok(end) => i = end,
                Err(stop) => return Err(counted(text, i, stop)),
            }
        }
    }
    Err(i)
}
