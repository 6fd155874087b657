//! Why a project is refused.

use json_exact::JsonError;
use plain_types::{HasReason, Reason};
use std::alloc::{AllocError, AllocFailed};
use std::error::Error;
use std::fmt;

/// Why the text of a project is refused. `at` is a place in the text, counted in bytes. It is written `NAME (CODE)`, as
/// `Shape (2)` or `Json.Bad (1.1)`.
#[derive(Clone, Copy, Debug, Drop, PartialEq, Eq)]
pub enum ProjectError {
    /// The text is no JSON.
    Json(JsonError),
    /// The value at `at`, of a member that is read, is neither of the kind that is wanted nor null.
    Shape { at: u32 },
    /// The number at `at` is none of millimetres, or not from 0 to 500 mm.
    BadNumber { at: u32 },
    /// Memory ran out.
    OutOfMemory,
}

impl HasReason for ProjectError {
    ghost use Rattle.net_class.specs.ProjectReasons.{class_reason};

    ghost reason_of = { class_reason };

    ghost depth = { 2 };

    /// What it is called, its number and its byte of the text; behind `Json` and 1 those of the text's refusal. Running out of
    /// memory has no number, which is written 0, and no place.
    fn reason(&self) -> Reason {
        match self {
            ProjectError::Json(error) => error.reason().behind("Json", 1),
            ProjectError::Shape { at } => Reason::new("Shape", 2, Some(*at)),
            ProjectError::BadNumber { at } => Reason::new("BadNumber", 3, Some(*at)),
            ProjectError::OutOfMemory => Reason::new("OutOfMemory", 0, None),
        }
    }
}

impl From<AllocError> for ProjectError {
    ghost use Rattle.std.specs.Prelude.{◌≡◌};
    ghost use Rattle.net_class.specs.declared.error.ProjectError.TheVariants.{OutOfMemory};

    ghost from_gives = { λ _ e. e ≡ OutOfMemory };

    fn from(_: AllocError) -> ProjectError {
        ProjectError::OutOfMemory
    }
}

impl<T: Drop> From<AllocFailed<T>> for ProjectError {
    ghost use Rattle.std.specs.Prelude.{◌≡◌};
    ghost use Rattle.net_class.specs.declared.error.ProjectError.TheVariants.{OutOfMemory};

    ghost from_gives = { λ _ e. e ≡ OutOfMemory };

    fn from(_: AllocFailed<T>) -> ProjectError {
        ProjectError::OutOfMemory
    }
}

impl fmt::Display for ProjectError {
    ghost use Rattle.std.specs.Prelude.{Some};
    ghost use Rattle.plain_types.specs.Reasons.{written};
    ghost use Rattle.net_class.specs.ProjectReasons.{class_reason};

    ghost output = { λ e. Some (written (class_reason e)) };

    fn fmt<W: fmt::Write>(&self, f: &mut fmt::Formatter<W>) -> fmt::Result {
        write!(f, "{}", self.reason())
    }
}

impl Error for ProjectError {}
