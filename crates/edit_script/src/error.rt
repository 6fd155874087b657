//! Why a script is refused.

use plain_types::{HasReason, Reason};
use sexpr_read::TextError;
use std::alloc::{AllocError, AllocFailed};
use std::error::Error;
use std::fmt;

/// Why a script is refused. `at` is a place in the text, counted in bytes. It is written `NAME (CODE)`, as `Bad (2)` or
/// `Text.EndInside (1.3)`. The names and numbers are this program's own.
#[derive(Clone, Copy, Debug, Drop, PartialEq, Eq)]
pub enum ScriptError {
    /// The text spells no row of forms. This comes before all others.
    Text(TextError),
    /// What begins at `at` is no form of a script, or lacks a part; or it is a part of a form that is wrong, or one too many.
    Bad { at: u32 },
    /// Memory ran out.
    OutOfMemory,
}

impl HasReason for ScriptError {
    ghost use Rattle.edit_script.specs.ScriptReasons.{script_reason};

    ghost reason_of = { script_reason };

    ghost depth = { 2 };

    /// What it is called, its number and its byte of the text; behind `Text` and 1 those of the text's refusal. Running out of
    /// memory has no number, which is written 0, and no place.
    fn reason(&self) -> Reason {
        match self {
            ScriptError::Text(error) => error.reason().behind("Text", 1),
            ScriptError::Bad { at } => Reason::new("Bad", 2, Some(*at)),
            ScriptError::OutOfMemory => Reason::new("OutOfMemory", 0, None),
        }
    }
}

impl From<AllocError> for ScriptError {
    ghost use Rattle.std.specs.Prelude.{◌≡◌};
    ghost use Rattle.edit_script.specs.declared.error.ScriptError.TheVariants.{OutOfMemory};

    ghost from_gives = { λ _ e. e ≡ OutOfMemory };

    fn from(_: AllocError) -> ScriptError {
        ScriptError::OutOfMemory
    }
}

impl<T: Drop> From<AllocFailed<T>> for ScriptError {
    ghost use Rattle.std.specs.Prelude.{◌≡◌};
    ghost use Rattle.edit_script.specs.declared.error.ScriptError.TheVariants.{OutOfMemory};

    ghost from_gives = { λ _ e. e ≡ OutOfMemory };

    fn from(_: AllocFailed<T>) -> ScriptError {
        ScriptError::OutOfMemory
    }
}

impl fmt::Display for ScriptError {
    ghost use Rattle.std.specs.Prelude.{Some};
    ghost use Rattle.plain_types.specs.Reasons.{written};
    ghost use Rattle.edit_script.specs.ScriptReasons.{script_reason};

    ghost output = { λ e. Some (written (script_reason e)) };

    fn fmt<W: fmt::Write>(&self, f: &mut fmt::Formatter<W>) -> fmt::Result {
        write!(f, "{}", self.reason())
    }
}

impl Error for ScriptError {}
