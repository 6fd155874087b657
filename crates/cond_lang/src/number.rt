//! Numbers with a unit, as they stand in a text.

ghost use Rattle.std.specs.Prelude.{◌≡◌, ◌≤◌, ◌-◌, length, MatchResult};
ghost use Rattle.plain_types.specs.Limits.{IsInText};
ghost use Rattle.exact_dec.specs.Computed.{after_sign, prefix_digits, after_digits};
ghost use Rattle.cond_lang.specs.Found.{read, fault};
ghost use Rattle.cond_lang.specs.UnitNumbers.{digits as digits_of, are_zeros as are_zeros_in, fraction as fraction_of, mantissa as mantissa_of, power as power_of, metric as metric_of, unit as unit_of, spelled as spelled_of, measure as measure_of};

use crate::error::CondError;
use crate::scan::{byte, stuck};
use exact_dec::{Nm, with_unit};
use plain_types::GREATEST_LENGTH;

fn skip_sign(text: &[u8]) -> &[u8]
    ensures value { result.now ≡ after_sign text.now }
    ensures left { length result.now ≤ length text.now }
{
    match text {
        [first, rest @ ..] if *first == b'+' || *first == b'-' => rest,
        _ => text,
    }
}

/// The digits at the front, and what is left behind them.
fn split_digits(text: &[u8]) -> (&[u8], &[u8])
    ensures prefix { result.0.now ≡ prefix_digits text.now }
    ensures back { result.1.now ≡ after_digits text.now }
    ensures left { length result.1.now ≤ length text.now }
{
    let mut count = 0;
    'signs: while count < text.len() && text[count].is_ascii_digit() {
        count += 1;
    }
    text.split_at(count)
}

/// One digit or more, and what is left behind them.
fn digits<'t>(whole: usize, text: &'t [u8]) -> Result<(&'t [u8], &'t [u8]), CondError>
    requires fits { IsInText whole }
    requires inside { length text.now ≤ whole }
    ensures found { MatchResult result
        (λ p. digits_of whole text.now ≡ read p.0.now p.1.now)
        (λ e. digits_of whole text.now ≡ fault e) }
    ensures left { MatchResult result (λ p. length p.1.now ≤ length text.now) (λ _. Unit {0}) }
{
    let (prefix, rest) = split_digits(text);
    if prefix.is_empty() {
        return Err(stuck(whole, text));
    }
    Ok((prefix, rest))
}

fn are_zeros(digits: &[u8]) -> bool
    ensures { result ≡ are_zeros_in digits.now }
{
    for digit in digits {
        if *digit != b'0' {
            return false;
        }
    }
    true
}

/// Whether a point and digits keep a number at 0, and what is left behind them.
fn fraction(zero: bool, text: &[u8]) -> (bool, &[u8])
    ensures found { fraction_of zero text.now ≡ read result.0 result.1.now }
    ensures left { length result.1.now ≤ length text.now }
{
    match text {
        [first, behind @ ..] if *first == b'.' => {
            let (prefix, rest) = split_digits(behind);
            (zero && are_zeros(prefix), rest)
        }
        _ => (zero, text),
    }
}

/// Whether the digits of a number are 0, and what is left behind them.
#[tactic(auto, using(crate::proofs::Steps::then_read, crate::proofs::Steps::then_fault), unfolding(crate::specs::UnitNumbers::mantissa))]
fn mantissa<'t>(whole: usize, text: &'t [u8]) -> Result<(bool, &'t [u8]), CondError>
    requires fits { IsInText whole }
    requires inside { length text.now ≤ whole }
    ensures found { MatchResult result
        (λ p. mantissa_of whole text.now ≡ read p.0 p.1.now)
        (λ e. mantissa_of whole text.now ≡ fault e) }
    ensures left { MatchResult result (λ p. length p.1.now ≤ length text.now) (λ _. Unit {0}) }
{
    match text {
        [] => Err(stuck(whole, text)),
        [first, behind @ ..] => {
            if *first == b'.' {
                let (prefix, rest) = digits(whole, behind)?;
                return Ok((are_zeros(prefix), rest));
            }
            let (prefix, rest) = digits(whole, text)?;
            Ok(fraction(are_zeros(prefix), rest))
        }
    }
}

/// What is left behind the exponent, if there is one.
#[tactic(auto, using(crate::proofs::Steps::then_read, crate::proofs::Steps::then_fault), unfolding(crate::specs::UnitNumbers::power))]
fn power<'t>(whole: usize, text: &'t [u8]) -> Result<&'t [u8], CondError>
    requires fits { IsInText whole }
    requires inside { length text.now ≤ whole }
    ensures found { MatchResult result
        (λ rest. power_of whole text.now ≡ read tt rest.now)
        (λ e. power_of whole text.now ≡ fault e) }
    ensures left { MatchResult result (λ rest. length rest.now ≤ length text.now) (λ _. Unit {0}) }
{
    match text {
        [first, behind @ ..] if *first == b'e' || *first == b'E' => {
            let (_, rest) = digits(whole, skip_sign(behind))?;
            Ok(rest)
        }
        _ => Ok(text),
    }
}

/// What is left of `mm` and `mil` behind the first m.
fn metric<'t>(whole: usize, text: &'t [u8]) -> Result<&'t [u8], CondError>
    requires fits { IsInText whole }
    requires inside { length text.now ≤ whole }
    ensures found { MatchResult result
        (λ rest. metric_of whole text.now ≡ read tt rest.now)
        (λ e. metric_of whole text.now ≡ fault e) }
    ensures left { MatchResult result (λ rest. length rest.now ≤ length text.now) (λ _. Unit {0}) }
{
    match text {
        [first, rest @ ..] if *first == b'm' => Ok(rest),
        [first, rest @ ..] if *first == b'i' => byte(whole, b'l', rest),
        _ => Err(stuck(whole, text)),
    }
}

/// What is left behind the unit, which only a number of value 0 may lack.
#[tactic(auto, unfolding(crate::specs::UnitNumbers::unit))]
fn unit<'t>(whole: usize, zero: bool, text: &'t [u8]) -> Result<&'t [u8], CondError>
    requires fits { IsInText whole }
    requires inside { length text.now ≤ whole }
    ensures found { MatchResult result
        (λ rest. unit_of whole zero text.now ≡ read tt rest.now)
        (λ e. unit_of whole zero text.now ≡ fault e) }
    ensures left { MatchResult result (λ rest. length rest.now ≤ length text.now) (λ _. Unit {0}) }
{
    match text {
        [first, rest @ ..] if *first == b'm' => metric(whole, rest),
        [first, rest @ ..] if *first == b'i' => byte(whole, b'n', rest),
        _ if zero => Ok(text),
        _ => Err(stuck(whole, text)),
    }
}

/// What is left behind a number.
#[tactic(auto, using(crate::proofs::Steps::then_read, crate::proofs::Steps::then_fault), unfolding(crate::specs::UnitNumbers::spelled))]
fn spelled<'t>(whole: usize, text: &'t [u8]) -> Result<&'t [u8], CondError>
    requires fits { IsInText whole }
    requires inside { length text.now ≤ whole }
    ensures found { MatchResult result
        (λ rest. spelled_of whole text.now ≡ read tt rest.now)
        (λ e. spelled_of whole text.now ≡ fault e) }
    ensures left { MatchResult result (λ rest. length rest.now ≤ length text.now) (λ _. Unit {0}) }
{
    let (zero, rest) = mantissa(whole, skip_sign(text))?;
    let behind = power(whole, rest)?;
    unit(whole, zero, behind)
}

/// A length of 0 to 500 mm, and what is left behind it.
#[tactic(auto, using(crate::proofs::Steps::then_read, crate::proofs::Steps::then_fault), unfolding(crate::specs::UnitNumbers::measure))]
pub(crate) fn measure<'t>(whole: usize, text: &'t [u8]) -> Result<(Nm, &'t [u8]), CondError>
    requires fits { IsInText whole }
    requires inside { length text.now ≤ whole }
    ensures found { MatchResult result
        (λ p. measure_of whole text.now ≡ read p.0 p.1.now)
        (λ e. measure_of whole text.now ≡ fault e) }
    ensures left { MatchResult result (λ p. length p.1.now ≤ length text.now) (λ _. Unit {0}) }
{
    let rest = spelled(whole, text)?;
    let number = &text[..text.len() - rest.len()];
    match with_unit(number) {
        Ok(nm) => {
            if nm < 0 || GREATEST_LENGTH < nm {
                return Err(stuck(whole, text));
            }
            Ok((nm, rest))
        }
        Err(_) => Err(stuck(whole, text)),
    }
}
