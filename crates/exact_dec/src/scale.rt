//! The exact quotient of a decimal's digits by its power of ten, at any length of the text and any exponent.

ghost use Rattle.std.specs.Prelude.{◌≡◌, ◌<◌, ◌≤◌, ◌+◌, ◌*◌, ◌^◌, ◌++◌, ℕ, true, length, MatchOption};
ghost use Rattle.std.specs.Str.{all_ascii_digits};
ghost use Rattle.exact_dec.specs.Decimal.{number};
ghost use Rattle.exact_dec.specs.Spelled.{spelled, HasDigits, digits_of, top, bottom, IsQuotient};

use crate::parts::DecimalParts;

/// The most that the digits before the point may come to. More is beyond the limit of every call.
const MOST_WHOLE: u64 = 100_000_000;

/// The whole part of a quotient, and whether nothing is left over.
#[derive(Clone, Copy)]
pub(crate) struct Quotient {
    pub(crate) whole: u64,
    pub(crate) exact: bool,
}

/// Nothing stands behind the last digit.
const NOTHING: Quotient = Quotient {
    whole: 0,
    exact: true,
};

/// The number with the digits of `before` and then these, or None above the most.
fn push_digits(before: u64, digits: &[u8]) -> Option<u64>
    requires most { before ≤ 100000000 }
    requires digits { all_ascii_digits digits.now ≡ true }
    ensures { MatchOption result
        (100000000 < before * 10 ^ length digits.now + number digits.now)
        (λ n. (n ≤ 100000000) × (n ≡ before * 10 ^ length digits.now + number digits.now)) }
{
    let mut n = before;
    for digit in digits {
        n = 10 * n + u64::from(*digit - b'0');
        if n > MOST_WHOLE {
            return None;
        }
    }
    Some(n)
}

/// The number with this many zeros behind its digits, or None above the most.
fn push_zeros(before: u64, count: usize) -> Option<u64>
    requires { before ≤ 100000000 }
    ensures { MatchOption result
        (100000000 < before * 10 ^ count)
        (λ n. (n ≤ 100000000) × (n ≡ before * 10 ^ count)) }
{
    let mut n = before;
    for _ in 0..count {
        n = 10 * n;
        if n > MOST_WHOLE {
            return None;
        }
    }
    Some(n)
}

/// The quotient with one more digit in front of the digits behind the point.
fn step(behind: Quotient, digit: u64, unit: u64) -> Quotient
    requires unit { unit ≤ 1000000000 }
    requires digit { digit ≤ 9 }
    requires below { behind.whole ≤ unit }
    ensures below { result.whole ≤ unit }
    ensures divides { (n d : ℕ) → IsQuotient n d behind.whole behind.exact →
        IsQuotient (unit * digit * d + n) (10 * d) result.whole result.exact }
{
    let sum = unit * digit + behind.whole;
    Quotient {
        whole: sum / 10,
        exact: behind.exact && sum % 10 == 0,
    }
}

/// The unit times these digits right behind the point, with `behind` for what follows them. The digits are
/// taken from the last to the first, each time with the whole part and whether anything was left over,
/// on which alone the next digit depends.
fn digits_behind(digits: &[u8], unit: u64, behind: Quotient) -> Quotient
    requires unit { unit ≤ 1000000000 }
    requires digits { all_ascii_digits digits.now ≡ true }
    requires below { behind.whole ≤ unit }
    ensures below { result.whole ≤ unit }
    ensures divides { (n s : ℕ) → IsQuotient n (10 ^ s) behind.whole behind.exact →
        IsQuotient (unit * number digits.now * 10 ^ s + n)
        (10 ^ (length digits.now + s)) result.whole result.exact }
{
    let mut quotient = behind;
    let mut at = digits.len();
    while at > 0 {
        at -= 1;
        quotient = step(quotient, u64::from(digits[at] - b'0'), unit);
    }
    quotient
}

/// What follows the point, with so many zeros put in front of it.
fn zeros_behind(count: usize, unit: u64, behind: Quotient) -> Quotient
    requires unit { unit ≤ 1000000000 }
    requires below { behind.whole ≤ unit }
    ensures below { result.whole ≤ unit }
    ensures divides { (n s : ℕ) → IsQuotient n (10 ^ s) behind.whole behind.exact →
        IsQuotient n (10 ^ (count + s)) result.whole result.exact }
{
    let mut quotient = behind;
    for _ in 0..count {
        quotient = step(quotient, 0, unit);
    }
    quotient
}

/// The number of two runs of digits with zeros behind them, or None above the most.
fn joined(prefix: &[u8], back: &[u8], zeros: usize) -> Option<u64>
    requires prefix { all_ascii_digits prefix.now ≡ true }
    requires back { all_ascii_digits back.now ≡ true }
    ensures { MatchOption result
        (100000000 < number (prefix.now ++ back.now) * 10 ^ zeros)
        (λ n. (n ≤ 100000000) × (n ≡ number (prefix.now ++ back.now) * 10 ^ zeros)) }
{
    let whole = push_digits(0, prefix)?;
    let whole = push_digits(whole, back)?;
    push_zeros(whole, zeros)
}

/// The decimal times the unit, where its exponent moves the point to the right.
fn scaled_up(parts: &DecimalParts<'_>, by: usize, unit: u64) -> Option<Quotient>
    requires unit { unit ≤ 1000000000 }
    requires digits { HasDigits (spelled parts.now) }
    ensures { MatchOption result
        (100000000 * 10 ^ length parts.now.fraction.now
        < digits_of (spelled parts.now) * 10 ^ by)
        (λ q. (q.whole ≤ 100000001 * unit) × IsQuotient
        (unit * (digits_of (spelled parts.now) * 10 ^ by))
        (10 ^ length parts.now.fraction.now) q.whole q.exact) }
{
    let moved = by.min(parts.fraction.len());
    let (ahead, behind) = parts.fraction.split_at(moved);
    let whole = joined(parts.whole, ahead, by - moved)?;
    let rest = digits_behind(behind, unit, NOTHING);
    Some(Quotient {
        whole: whole * unit + rest.whole,
        exact: rest.exact,
    })
}

/// The decimal times the unit, where its exponent moves the point to the left.
fn scaled_down(parts: &DecimalParts<'_>, by: usize, unit: u64) -> Option<Quotient>
    requires unit { unit ≤ 1000000000 }
    requires digits { HasDigits (spelled parts.now) }
    ensures { MatchOption result
        (100000000 * 10 ^ (length parts.now.fraction.now + by)
        < digits_of (spelled parts.now))
        (λ q. (q.whole ≤ 100000001 * unit) × IsQuotient
        (unit * digits_of (spelled parts.now))
        (10 ^ (length parts.now.fraction.now + by)) q.whole q.exact) }
{
    let moved = by.min(parts.whole.len());
    let (ahead, behind) = parts.whole.split_at(parts.whole.len() - moved);
    let whole = push_digits(0, ahead)?;
    let rest = digits_behind(parts.fraction, unit, NOTHING);
    let rest = digits_behind(behind, unit, rest);
    let rest = zeros_behind(by - moved, unit, rest);
    Some(Quotient {
        whole: whole * unit + rest.whole,
        exact: rest.exact,
    })
}

/// The decimal, without its sign, times the unit: its whole part and whether nothing is left over. None
/// where the decimal is above the most.
pub(crate) fn scaled(parts: &DecimalParts<'_>, unit: u64) -> Option<Quotient>
    requires unit { unit ≤ 1000000000 }
    requires digits { HasDigits (spelled parts.now) }
    requires short { length parts.now.exponent.now ≤ 3 }
    ensures { MatchOption result
        (100000000 * bottom (spelled parts.now) < top (spelled parts.now))
        (λ q. (q.whole ≤ 100000001 * unit) × IsQuotient
        (unit * top (spelled parts.now)) (bottom (spelled parts.now)) q.whole q.exact) }
{
    let by = push_digits(0, parts.exponent).unwrap() as usize;
    if parts.lowers {
        scaled_down(parts, by, unit)
    } else {
        scaled_up(parts, by, unit)
    }
}
