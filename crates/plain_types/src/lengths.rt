//! The range of a length.

ghost use Rattle.std.specs.Prelude.{◌≡◌, true};
ghost use Rattle.plain_types.specs.Lengths.{IsLength, is_length};

/// The greatest length that something keeps, in nanometres: 500 mm.
pub const GREATEST_LENGTH: i64 = 500_000_000;

/// Whether something may keep this length: 0 to 500 mm.
#[tactic(auto, using(crate::proofs::LengthTests::length_in_range))]
pub fn is_length(n: i64) -> bool
    ensures value { result ≡ is_length n }
    ensures in_range { result ≡ true → IsLength n }
{
    0 <= n && n <= GREATEST_LENGTH
}

/// A length from 0 to 500 mm, in nanometres.
#[derive(Clone, Copy, Debug, Drop, PartialEq, Eq)]
pub struct Length {
    pub nm: i64,
    pub ghost in_range: { IsLength nm },
}
