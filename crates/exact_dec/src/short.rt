//! Numbers of the usual spelling: at most eight digits before the point and six behind it, with no exponent. All is inlined
//! into the two callers, so that no answer goes through memory.

ghost use Rattle.std.specs.Prelude.{◌≡◌, ◌<◌, ◌≤◌, ◌*◌, ◌^◌, [], length, drop, IsSome, IfSome};
ghost use Rattle.exact_dec.specs.Computed.{prefix_digits, after_digits, point_digits, after_point};
ghost use Rattle.exact_dec.specs.Decimal.{number};
ghost use Rattle.exact_dec.specs.Spelled.{IsShortDecimal};

use crate::parts::{begins_with_minus, skip_sign};

/// A number of millimetres in whole nanometres, without its sign.
#[derive(Clone, Copy)]
pub(crate) struct Usual {
    pub(crate) negative: bool,
    pub(crate) nanometres: u64,
}

/// The digits at the front of a text: their number, and how many they are.
#[derive(Clone, Copy)]
struct Run {
    n: u64,
    count: usize,
}

/// The number of the digits at the front, unless there are more than the most.
#[inline(always)]
fn leading(text: &[u8], most: usize) -> Option<Run>
    requires { most ≤ 8 }
    ensures number { IfSome result (λ f. f.n ≡ number (prefix_digits text.now)) }
    ensures count { IfSome result (λ f. f.count ≡ length (prefix_digits text.now)) }
    ensures rest { IfSome result (λ f. drop f.count text.now ≡ after_digits text.now) }
    ensures within { IfSome result
        (λ f. (f.count ≤ most) × (f.count ≤ length text.now) × (f.n < 10 ^ f.count)) }
{
    let mut n = 0;
    let mut count = 0;
    'digits: while count < text.len() && text[count].is_ascii_digit() {
        if count == most {
            return None;
        }
        n = 10 * n + u64::from(text[count] - b'0');
        count += 1;
    }
    Some(Run { n, count })
}

/// So many nanometres as a digit counts behind so many digits.
#[inline(always)]
fn place(digits: usize) -> u64
    requires { digits ≤ 6 }
    ensures { result * 10 ^ digits ≡ 1000000 }
{
    match digits {
        0 => 1_000_000,
        1 => 100_000,
        2 => 10_000,
        3 => 1_000,
        4 => 100,
        5 => 10,
        _ => 1,
    }
}

/// The number of the digits behind a point, where nothing follows them, or of nothing.
#[inline(always)]
fn fraction(text: &[u8]) -> Option<Run>
    ensures number { IfSome result (λ f. f.n ≡ number (point_digits text.now)) }
    ensures count { IfSome result (λ f. f.count ≡ length (point_digits text.now)) }
    ensures end { IsSome result → after_point text.now ≡ [] }
    ensures within { IfSome result (λ f. (f.count ≤ 6) × (f.n < 10 ^ f.count)) }
{
    match text {
        [] => Some(Run { n: 0, count: 0 }),
        [first, behind @ ..] => {
            let found = leading(behind, 6)?;
            if *first != b'.' || found.count < behind.len() {
                return None;
            }
            Some(found)
        }
    }
}

/// The number of a text of the usual spelling. Every other text is left to the general way.
#[inline(always)]
pub(crate) fn short(text: &[u8]) -> Option<Usual>
    ensures { IfSome result (λ s. IsShortDecimal text.now s.negative s.nanometres) }
{
    if text.len() > 64 {
        return None;
    }
    let body = skip_sign(text);
    let whole = leading(body, 8)?;
    let fraction = fraction(&body[whole.count..])?;
    if whole.count + fraction.count == 0 {
        return None;
    }
    Some(Usual {
        negative: begins_with_minus(text),
        nanometres: whole.n * 1_000_000 + fraction.n * place(fraction.count),
    })
}
