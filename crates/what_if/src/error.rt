//! Why there is no trial.

use drc_state::EditError;
use plain_types::{HasReason, Reason};
use std::alloc::AllocError;
use std::error::Error;
use std::fmt;

/// Why there is no trial. It is written `NAME (CODE)`.
#[derive(Clone, Copy, Debug, Drop, PartialEq, Eq)]
pub enum TrialError {
    /// The command at this place, counted from 0, is the first that is refused, and why it is.
    Refused { step: u32, inner: EditError },
    /// Memory ran out.
    OutOfMemory,
}

impl HasReason for TrialError {
    ghost use Rattle.what_if.specs.TrialReasons.{trial_reason};

    ghost reason_of = { trial_reason };

    ghost depth = { 1 };

    /// What it is called and its number. It has no place: a command is told by its step. Running out of memory has no number, which
    /// is written 0.
    fn reason(&self) -> Reason {
        match self {
            TrialError::Refused { .. } => Reason::new("Refused", 31, None),
            TrialError::OutOfMemory => Reason::new("OutOfMemory", 0, None),
        }
    }
}

impl From<AllocError> for TrialError {
    ghost use Rattle.std.specs.Prelude.{◌≡◌};
    ghost use Rattle.what_if.specs.declared.error.TrialError.TheVariants.{OutOfMemory};

    ghost from_gives = { λ _ e. e ≡ OutOfMemory };

    fn from(_: AllocError) -> TrialError {
        TrialError::OutOfMemory
    }
}

impl fmt::Display for TrialError {
    ghost use Rattle.std.specs.Prelude.{Some};
    ghost use Rattle.plain_types.specs.Reasons.{written};
    ghost use Rattle.what_if.specs.TrialReasons.{trial_reason};

    ghost output = { λ e. Some (written (trial_reason e)) };

    fn fmt<W: fmt::Write>(&self, f: &mut fmt::Formatter<W>) -> fmt::Result {
        write!(f, "{}", self.reason())
    }
}

impl Error for TrialError {}
