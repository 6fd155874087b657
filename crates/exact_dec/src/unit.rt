//! Units of length at the end of a text.

ghost use Rattle.std.specs.Prelude.{◌≡◌};
ghost use Rattle.exact_dec.specs.Computed.{before_unit, unit_of};

/// Nanometres in a millimetre.
pub(crate) const MILLIMETRE: u64 = 1_000_000;

/// Nanometres in a thousandth of an inch.
const MIL: u64 = 25_400;

/// Nanometres in an inch.
const INCH: u64 = 25_400_000;

/// The text before a unit at its end, and how many nanometres the unit counts, 0 where there is none.
pub(crate) fn split_unit(text: &[u8]) -> (&[u8], u64)
    ensures before { result.0.now ≡ before_unit text.now }
    ensures unit { result.1 ≡ unit_of text.now }
{
    if let Some(decimal) = text.strip_suffix(b"mm") {
        return (decimal, MILLIMETRE);
    }
    if let Some(decimal) = text.strip_suffix(b"mil") {
        return (decimal, MIL);
    }
    match text.strip_suffix(b"in") {
        Some(decimal) => (decimal, INCH),
        None => (text, 0),
    }
}
