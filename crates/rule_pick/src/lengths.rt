//! Lengths that may be missing.

ghost use Rattle.std.specs.Prelude.{◌≡◌, Some};
ghost use Rattle.plain_types.specs.Lengths.{IsLength, IsLengthIfSome};
ghost use Rattle.rule_pick.specs.KeptLengths.{length_of};

use board_items::Nm;
use std::marker::Model;
use std::mem::size_of;

/// A length in nanometres that may be missing, from 0 to 500 mm. Contracts see the option.
#[derive(Debug, Drop)]
pub struct LengthIf {
    // the length, or -1 where there is none
    kept: i32,
}

// The facts of an item have four of them, and a large board has facts of many items.
const _: () = prove!(size_of::<LengthIf>() == 4);

impl Model for LengthIf {
    ghost use Rattle.std.specs.Prelude.{ℤ, Option};
    ghost use Rattle.plain_types.specs.Lengths.{IsLengthIfSome};
    ghost use Rattle.rule_pick.specs.KeptLengths.{length_of};

    ghost Value = { Option ℤ };

    ghost view = { λ length. length_of length.kept };

    ghost invariant = { λ length. IsLengthIfSome (length_of length.kept) };
}

/// The number under which a length is kept.
#[tactic(auto, using(crate::proofs::KeptLengths::kept_some))]
fn kept_of(nm: Nm) -> i32
    requires { IsLength nm }
    ensures kept { length_of result ≡ Some nm }
    ensures same { result ≡ nm }
{
    nm as i32
}

impl LengthIf {
    /// This length, or none.
    pub fn of(nm: Option<Nm>) -> LengthIf
        requires { IsLengthIfSome nm }
        ensures { result ≡ nm }
    {
        match nm {
            None => LengthIf { kept: -1 },
            Some(nm) => LengthIf { kept: kept_of(nm) },
        }
    }

    /// The length, if there is one.
    #[tactic(auto, using(crate::proofs::KeptLengths::kept_none, crate::proofs::KeptLengths::kept_some))]
    pub fn get(&self) -> Option<Nm>
        ensures value { result ≡ self.now }
        ensures in_range { IsLengthIfSome self.now }
    {
        if self.kept < 0 {
            None
        } else {
            Some(self.kept as i64)
        }
    }

    /// An equal length, or none where there is none.
    pub fn copy(&self) -> LengthIf
        ensures { result ≡ self.now }
    {
        LengthIf { kept: self.kept }
    }
}
