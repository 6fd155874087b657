//! Why a text was refused.

use plain_types::{HasReason, Reason};
use std::alloc::{AllocError, AllocFailed};
use std::fmt;

/// Why no value was read. A place is that of a byte of the text. It is written `NAME (CODE)`, as `Bad (1)`.
#[derive(Clone, Copy, Debug, Drop, PartialEq, Eq)]
pub enum JsonError {
    /// With the byte at this place no JSON text goes on, or the text ends here too early. A surrogate
    /// that has no partner counts at its backslash. An escape with fewer than four digits is no
    /// surrogate yet, and counts where its digits end.
    Bad { at: u32 },
    /// The bracket at this place opens level 65.
    TooDeep { at: u32 },
    /// Memory ran out.
    OutOfMemory,
}

impl HasReason for JsonError {
    ghost use Rattle.json_exact.specs.JsonReasons.{json_reason};

    ghost reason_of = { json_reason };

    ghost depth = { 1 };

    /// What it is called, its number and its byte of the text. Running out of memory has no number, which is written 0, and
    /// no place.
    fn reason(&self) -> Reason {
        match self {
            JsonError::Bad { at } => Reason::new("Bad", 1, Some(*at)),
            JsonError::TooDeep { at } => Reason::new("TooDeep", 2, Some(*at)),
            JsonError::OutOfMemory => Reason::new("OutOfMemory", 0, None),
        }
    }
}

impl From<AllocError> for JsonError {
    ghost use Rattle.json_exact.specs.declared.error.JsonError.TheVariants.{OutOfMemory};
    ghost use Rattle.std.specs.Prelude.{◌≡◌};

    ghost from_gives = { λ _ e. e ≡ OutOfMemory };

    fn from(_refused: AllocError) -> JsonError {
        JsonError::OutOfMemory
    }
}

impl<T: Drop> From<AllocFailed<T>> for JsonError {
    ghost use Rattle.json_exact.specs.declared.error.JsonError.TheVariants.{OutOfMemory};
    ghost use Rattle.std.specs.Prelude.{◌≡◌};

    ghost from_gives = { λ _ e. e ≡ OutOfMemory };

    fn from(_refused: AllocFailed<T>) -> JsonError {
        JsonError::OutOfMemory
    }
}

impl fmt::Display for JsonError {
    ghost use Rattle.std.specs.Prelude.{Some};
    ghost use Rattle.plain_types.specs.Reasons.{written};
    ghost use Rattle.json_exact.specs.JsonReasons.{json_reason};

    ghost output = { λ e. Some (written (json_reason e)) };

    fn fmt<W: fmt::Write>(&self, f: &mut fmt::Formatter<W>) -> fmt::Result {
        write!(f, "{}", self.reason())
    }
}

impl std::error::Error for JsonError {}
