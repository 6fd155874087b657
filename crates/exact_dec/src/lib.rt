//! Exact decimals: lengths in millimetres, mils and inches, ratios and counts, read from texts to whole
//! nanometres without a binary fraction on the way, and lengths written back. No call takes memory.
//!
//! A decimal is `sign? (digits ("." digits?)? | "." digits) (("e" | "E") sign? digits)?`, as board files,
//! project files and rules write it (KiCad developer documentation). It has at most 64 bytes and at most
//! three digits in its exponent, and what it comes to lies within 10^12 nanometres either way.
#![tactic(auto)]

ghost use Rattle.std.specs.Prelude.{◌≡◌, List, true, not, IsTrue, ◌<◌, ◌≤◌, ◌*◌, ◌^◌, ◌↔◌, Some, ℕ, ℤ, pos, ◌≤ℤ◌, length, take, drop, unsigned_abs, nat_lt, if◌then◌else◌, Result, Ok, Err};
ghost use Rattle.std.specs.Str.{all_ascii_digits};
ghost use Rattle.exact_dec.specs.declared.DecError.{DecError};
ghost use Rattle.exact_dec.specs.Computed.{near, answer_of, mm_cut_answer, mm_near_answer, ratio_near_answer, with_unit_answer, count_answer};
ghost use Rattle.exact_dec.specs.Decimal.{Spelling, Spells, number, signed, value, cut as cut_value};
ghost use Rattle.exact_dec.specs.DecimalAnswers.{is_long as is_long_text, is_no_half, no_more, MmCut, MmNear, RatioNear, WithUnit, Count};
ghost use Rattle.exact_dec.specs.Spelled.{spelled, HasDigits, top, bottom, half};
ghost use Rattle.exact_dec.specs.MillimetreText.{mm_text};

mod parts;
mod scale;
mod short;
mod unit;
mod written;

use itoa::Buffer;
use parts::{DecimalParts, is_all_digits, is_zero, take_apart};
use scale::{Quotient, scaled};
use short::short;
use std::error::Error;
use std::fmt;
use unit::{MILLIMETRE, split_unit};
use written::{last_six, put, sign};

/// A length in nanometres.
pub type Nm = i64;

/// The farthest that a length may lie from 0, in nanometres.
const FARTHEST: u64 = 1_000_000_000_000;

/// Why a text was not read.
#[derive(Clone, Copy, PartialEq, Eq, Debug)]
pub enum DecError {
    /// The text is outside the grammar of the call.
    BadNumber = 1,
    /// The text is in the grammar, and over a limit: more than 64 bytes, more than three digits of an
    /// exponent, a result beyond 10^12 nanometres either way, or outside the range of a ratio or a count.
    TooWide = 2,
}

impl fmt::Display for DecError {
    ghost use Rattle.exact_dec.specs.DecimalMessage.{message_of};

    ghost output = { λ error. Some (message_of error) };

    fn fmt<W: fmt::Write>(&self, f: &mut fmt::Formatter<W>) -> fmt::Result {
        f.write_str(match self {
            DecError::BadNumber => "no number of the form that is wanted",
            DecError::TooWide => "a number over a limit",
        })
    }
}

impl Error for DecError {}

/// A decimal in millimetres, cut toward zero to whole nanometres: what stands behind the sixth digit after
/// the point is dropped. Angles are read so too, a degree as a millimetre.
pub fn mm_cut(text: &[u8]) -> Result<Nm, DecError>
    ensures reads { (answer : Result ℤ DecError) → (result ≡ answer) ↔ MmCut text.now answer }
    ensures computed { result ≡ mm_cut_answer text.now }
{
    if let Some(number) = short(text) {
        return bounded(number.negative, number.nanometres);
    }
    match take_apart(text) {
        Some(parts) => cut(text, &parts, MILLIMETRE),
        None => Err(DecError::BadNumber),
    }
}

/// A decimal in millimetres, to the nearest nanometre, ties upward.
pub fn mm_near(text: &[u8]) -> Result<Nm, DecError>
    ensures reads { (answer : Result ℤ DecError) → (result ≡ answer) ↔ MmNear text.now answer }
    ensures computed { result ≡ mm_near_answer text.now }
{
    if let Some(number) = short(text) {
        return bounded(number.negative, number.nanometres);
    }
    match take_apart(text) {
        Some(parts) => nearest(text, &parts, MILLIMETRE),
        None => Err(DecError::BadNumber),
    }
}

/// A share of the length `of`, which is 0 to 500 mm, in nanometres and rounded as `mm_near` rounds. The share
/// is the decimal in the text; TooWide also where it is negative or more than one half.
pub fn ratio_near(text: &[u8], of: Nm) -> Result<Nm, DecError>
    requires from_zero { pos 0 ≤ℤ of }
    requires half_a_metre { of ≤ℤ pos 500000000 }
    ensures reads { (answer : Result ℤ DecError)
        → (result ≡ answer) ↔ RatioNear text.now of answer }
    ensures computed { result ≡ ratio_near_answer text.now of }
{
    match take_apart(text) {
        Some(parts) => ratio(text, &parts, of.unsigned_abs()),
        None => Err(DecError::BadNumber),
    }
}

/// A length with its unit, `mm`, `mil` or `in`, written right behind the decimal, in nanometres and rounded as
/// `mm_near` rounds. Only zero needs no unit. The unit is part of the 64 bytes that a text may have.
pub fn with_unit(text: &[u8]) -> Result<Nm, DecError>
    ensures reads { (answer : Result ℤ DecError) → (result ≡ answer) ↔ WithUnit text.now answer }
    ensures computed { result ≡ with_unit_answer text.now }
{
    let (decimal, unit) = split_unit(text);
    let Some(parts) = take_apart(decimal) else {
        return Err(DecError::BadNumber);
    };
    if unit == 0 && !is_zero(&parts) {
        return Err(DecError::BadNumber);
    }
    nearest(text, &parts, unit)
}

/// A count of one to ten digits. TooWide above 4,294,967,295.
pub fn count_of(text: &[u8]) -> Result<u32, DecError>
    ensures reads { (answer : Result ℕ DecError) → (result ≡ answer) ↔ Count text.now answer }
    ensures computed { result ≡ count_answer text.now }
{
    if !is_all_digits(text) || text.len() > 10 {
        return Err(DecError::BadNumber);
    }
    let count = whole_number(text);
    if count > u64::from(u32::MAX) {
        return Err(DecError::TooWide);
    }
    Ok(count as u32)
}

/// Writes a length in millimetres to the front of `out`: a minus where it is below 0, the whole
/// millimetres, a point and six digits. Gives the number of bytes written, 8 to 15. The bytes behind
/// them stay as they were.
pub fn write_mm(nm: Nm, out: &mut [u8; 16]) -> usize
    requires { unsigned_abs nm ≤ 1000000000000 }
    ensures prefix { take result out.new ≡ mm_text nm }
    ensures rest { drop result out.new ≡ drop result out.old }
    ensures len { result ≡ length (mm_text nm) }
    ensures fits { result ≤ 15 }
{
    let nanometres = nm.unsigned_abs();
    let mut buffer = Buffer::new();
    let at = put(out, 0, sign(nm));
    let at = put(out, at, buffer.format(nanometres / MILLIMETRE).as_bytes());
    let at = put(out, at, b".");
    put(out, at, &last_six(nanometres % MILLIMETRE))
}

/// A text spells one decimal at most, so it has one exact value.
pub fn one_value()
    ensures { (text : List ℕ) (p q : Spelling) → Spells text p → Spells text q → p ≡ q }
{}

/// What `write_mm` writes is read back as it was by `mm_cut`.
pub fn read_back()
    ensures { (nm : ℤ) → unsigned_abs nm ≤ 1000000000000 → mm_cut_answer (mm_text nm) ≡ Ok nm }
{}

/// Whether the text is longer than 64 bytes, or its exponent than three digits.
fn is_long(text: &[u8], parts: &DecimalParts<'_>) -> bool
    ensures { result ≡ is_long_text text.now (spelled parts.now) }
{
    text.len() > 64 || parts.exponent.len() > 3
}

/// The number with its sign, unless it is too far from 0.
fn bounded(negative: bool, whole: u64) -> Result<Nm, DecError>
    ensures { result
        ≡ (if nat_lt 1000000000000 whole then Err DecError.TooWide
        else Ok (signed negative whole)) }
{
    if whole > FARTHEST {
        return Err(DecError::TooWide);
    }
    let whole = whole as i64;
    Ok(if negative { -whole } else { whole })
}

/// The nearest whole number, without its sign, by the number of halves: a half goes up.
fn half_up(negative: bool, halves: Quotient) -> u64
    requires { halves.whole < 2 ^ 63 }
    ensures { result ≡ half negative halves.whole halves.exact }
{
    if negative && halves.exact {
        halves.whole / 2
    } else {
        (halves.whole + 1) / 2
    }
}

/// The decimal times the unit, cut toward zero to whole nanometres.
fn cut(text: &[u8], parts: &DecimalParts<'_>, unit: u64) -> Result<Nm, DecError>
    requires unit { unit ≤ 500000000 }
    requires digits { HasDigits (spelled parts.now) }
    requires reach { 100000000 * bottom (spelled parts.now) < top (spelled parts.now)
        → 25400 ≤ unit }
    ensures { result ≡ answer_of text.now (pos unit) cut_value no_more (Some (spelled parts.now)) }
{
    if is_long(text, parts) {
        return Err(DecError::TooWide);
    }
    match scaled(parts, unit) {
        Some(quotient) => bounded(parts.negative, quotient.whole),
        None => Err(DecError::TooWide),
    }
}

/// The decimal times the unit, to the nearest nanometre, ties upward.
fn nearest(text: &[u8], parts: &DecimalParts<'_>, unit: u64) -> Result<Nm, DecError>
    requires unit { unit ≤ 500000000 }
    requires digits { HasDigits (spelled parts.now) }
    requires reach { 100000000 * bottom (spelled parts.now) < top (spelled parts.now)
        → 25400 ≤ unit }
    ensures { result ≡ answer_of text.now (pos unit) near no_more (Some (spelled parts.now)) }
{
    if is_long(text, parts) {
        return Err(DecError::TooWide);
    }
    match scaled(parts, 2 * unit) {
        Some(halves) => bounded(parts.negative, half_up(parts.negative, halves)),
        None => Err(DecError::TooWide),
    }
}

/// The number of at most ten digits.
fn whole_number(digits: &[u8]) -> u64
    requires digits { all_ascii_digits digits.now ≡ true }
    requires ten { length digits.now ≤ 10 }
    ensures { result ≡ number digits.now }
{
    let mut n = 0;
    for digit in digits {
        n = 10 * n + u64::from(*digit - b'0');
    }
    n
}

/// A ratio of so many nanometres, to the nearest, unless it is below 0 or above one half.
fn ratio(text: &[u8], parts: &DecimalParts<'_>, of: u64) -> Result<Nm, DecError>
    requires unit { of ≤ 500000000 }
    requires digits { HasDigits (spelled parts.now) }
    ensures { result ≡ answer_of text.now (pos of) near is_no_half (Some (spelled parts.now)) }
{
    if is_long(text, parts) || !is_half_at_most(parts) {
        return Err(DecError::TooWide);
    }
    nearest(text, parts, of)
}

/// Whether a decimal is from 0 to one half.
fn is_half_at_most(parts: &DecimalParts<'_>) -> bool
    requires digits { HasDigits (spelled parts.now) }
    requires short { length parts.now.exponent.now ≤ 3 }
    ensures value { is_no_half (value (spelled parts.now)) ≡ not result }
    ensures small { IsTrue result → 2 * top (spelled parts.now) ≤ bottom (spelled parts.now) }
{
    match scaled(parts, 2) {
        Some(Quotient { whole: 0, exact }) => exact || !parts.negative,
        Some(Quotient { whole: 1, exact }) => exact && !parts.negative,
        _ => false,
    }
}
