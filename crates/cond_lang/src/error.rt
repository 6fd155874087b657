//! Why a text is no condition.

use plain_types::{HasReason, Reason};
use std::alloc::{AllocError, AllocFailed};
use std::error::Error;
use std::fmt;

/// Why a text is no condition. `at` is a place in the text, counted in bytes. It is written `NAME (CODE)`, as `Bad (1)`.
#[derive(Clone, Copy, Debug, Drop, PartialEq, Eq)]
pub enum CondError {
    /// No condition goes on with the byte at `at`, or the text ends there too early; or the number at `at` is out of range.
    Bad { at: u32 },
    /// The name at `at` is no side, no property or no function.
    UnknownName { at: u32 },
    /// The operator at `at` compares a text with a length, or texts by order.
    TypeClash { at: u32 },
    /// The bracket or `!` at `at` is of level 65.
    TooDeep { at: u32 },
    /// Memory ran out.
    OutOfMemory,
}

impl HasReason for CondError {
    ghost use Rattle.cond_lang.specs.ConditionReasons.{cond_reason};

    ghost reason_of = { cond_reason };

    ghost depth = { 1 };

    /// What it is called, its number and its byte of the text. Running out of memory has no number, which is written 0, and no
    /// place.
    fn reason(&self) -> Reason {
        match self {
            CondError::Bad { at } => Reason::new("Bad", 1, Some(*at)),
            CondError::UnknownName { at } => Reason::new("UnknownName", 2, Some(*at)),
            CondError::TypeClash { at } => Reason::new("TypeClash", 3, Some(*at)),
            CondError::TooDeep { at } => Reason::new("TooDeep", 4, Some(*at)),
            CondError::OutOfMemory => Reason::new("OutOfMemory", 0, None),
        }
    }
}

impl From<AllocError> for CondError {
    ghost use Rattle.std.specs.Prelude.{◌≡◌};
    ghost use Rattle.cond_lang.specs.declared.error.CondError.TheVariants.{OutOfMemory};

    ghost from_gives = { λ _ e. e ≡ OutOfMemory };

    fn from(_: AllocError) -> CondError {
        CondError::OutOfMemory
    }
}

impl<T: Drop> From<AllocFailed<T>> for CondError {
    ghost use Rattle.std.specs.Prelude.{◌≡◌};
    ghost use Rattle.cond_lang.specs.declared.error.CondError.TheVariants.{OutOfMemory};

    ghost from_gives = { λ _ e. e ≡ OutOfMemory };

    fn from(_: AllocFailed<T>) -> CondError {
        CondError::OutOfMemory
    }
}

impl fmt::Display for CondError {
    ghost use Rattle.std.specs.Prelude.{Some};
    ghost use Rattle.plain_types.specs.Reasons.{written};
    ghost use Rattle.cond_lang.specs.ConditionReasons.{cond_reason};

    ghost output = { λ e. Some (written (cond_reason e)) };

    fn fmt<W: fmt::Write>(&self, f: &mut fmt::Formatter<W>) -> fmt::Result {
        write!(f, "{}", self.reason())
    }
}

impl Error for CondError {}
