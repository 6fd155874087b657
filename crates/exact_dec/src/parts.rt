//! The grammar of a decimal: a text taken apart.

ghost use Rattle.std.specs.Prelude.{◌≡◌, Some, None, true, ◌<◌, ◌++◌, MatchOption, MatchBool, IfSome};
ghost use Rattle.std.specs.Str.{all_ascii_digits};
ghost use Rattle.exact_dec.specs.Computed.{has_minus, after_sign, prefix_digits, after_digits, point_digits, after_point, is_digits, power_of, parts_of};
ghost use Rattle.exact_dec.specs.Decimal.{number};
ghost use Rattle.exact_dec.specs.Spelled.{spelled, HasDigits};

/// What a decimal spells. A part that is not there has no digits.
#[derive(Clone, Copy)]
pub(crate) struct DecimalParts<'t> {
    /// The sign is a minus.
    pub(crate) negative: bool,
    /// The digits before the point.
    pub(crate) whole: &'t [u8],
    /// The digits after the point.
    pub(crate) fraction: &'t [u8],
    /// The sign of the exponent is a minus.
    pub(crate) lowers: bool,
    /// The digits of the exponent.
    pub(crate) exponent: &'t [u8],
}

/// Whether the first byte is a minus.
pub(crate) fn begins_with_minus(text: &[u8]) -> bool
    ensures { result ≡ has_minus text.now }
{
    match text {
        [first, ..] => *first == b'-',
        [] => false,
    }
}

/// What stands behind a sign at the front.
pub(crate) fn skip_sign(text: &[u8]) -> &[u8]
    ensures { result.now ≡ after_sign text.now }
{
    match text {
        [first, rest @ ..] if *first == b'+' || *first == b'-' => rest,
        _ => text,
    }
}

/// The digits at the front, and what follows them.
fn split_digits(text: &[u8]) -> (&[u8], &[u8])
    ensures prefix { result.0.now ≡ prefix_digits text.now }
    ensures back { result.1.now ≡ after_digits text.now }
{
    let mut count = 0;
    while count < text.len() && text[count].is_ascii_digit() {
        count += 1;
    }
    text.split_at(count)
}

/// The digits after a point at the front, and what follows them.
fn split_point(text: &[u8]) -> (&[u8], &[u8])
    ensures prefix { result.0.now ≡ point_digits text.now }
    ensures back { result.1.now ≡ after_point text.now }
{
    match text {
        [first, rest @ ..] if *first == b'.' => split_digits(rest),
        _ => (&text[..0], text),
    }
}

/// Whether a text is one digit or more, and nothing else.
pub(crate) fn is_all_digits(text: &[u8]) -> bool
    ensures { result ≡ is_digits text.now }
{
    for byte in text {
        if !byte.is_ascii_digit() {
            return false;
        }
    }
    !text.is_empty()
}

/// The sign and the digits of an exponent, which may be missing.
fn power(text: &[u8]) -> Option<(bool, &[u8])>
    ensures { MatchOption result (power_of text.now ≡ None)
        (λ found. power_of text.now ≡ Some (found.0, found.1.now)) }
{
    match text {
        [] => Some((false, text)),
        [letter, rest @ ..] => {
            let digits = skip_sign(rest);
            if (*letter == b'e' || *letter == b'E') && is_all_digits(digits) {
                Some((begins_with_minus(rest), digits))
            } else {
                None
            }
        }
    }
}

/// The parts of a text, or None where it is no decimal.
pub(crate) fn take_apart(text: &[u8]) -> Option<DecimalParts<'_>>
    ensures parts { MatchOption result (parts_of text.now ≡ None)
        (λ found. parts_of text.now ≡ Some (spelled found)) }
    ensures digits { IfSome result (λ found. HasDigits (spelled found)) }
{
    let (whole, rest) = split_digits(skip_sign(text));
    let (fraction, rest) = split_point(rest);
    let (lowers, exponent) = power(rest)?;
    if whole.is_empty() && fraction.is_empty() {
        return None;
    }
    Some(DecimalParts {
        negative: begins_with_minus(text),
        whole,
        fraction,
        lowers,
        exponent,
    })
}

/// Whether all digits are 0.
pub(crate) fn is_zero(parts: &DecimalParts<'_>) -> bool
    requires { HasDigits (spelled parts.now) }
    ensures { MatchBool result
        (number (parts.now.whole.now ++ parts.now.fraction.now) ≡ 0)
        (0 < number (parts.now.whole.now ++ parts.now.fraction.now)) }
{
    are_zeros(parts.whole) && are_zeros(parts.fraction)
}

/// Whether each digit is 0.
fn are_zeros(digits: &[u8]) -> bool
    requires { all_ascii_digits digits.now ≡ true }
    ensures { MatchBool result (number digits.now ≡ 0) (0 < number digits.now) }
{
    for digit in digits {
        if *digit != b'0' {
            return false;
        }
    }
    true
}
