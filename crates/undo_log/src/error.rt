//! Why a step of a history is not taken.

use drc_state::EditError;
use plain_types::{HasReason, Reason};
use std::alloc::AllocError;
use std::error::Error;
use std::fmt;

/// Why a step of a history is not taken. `Stopped` is tested first; after each refusal but running out of memory all is as it was. It is
/// written `NAME (CODE)`, as `NothingToUndo (11)` and `Edit.Item.OutOfBoard (10.4.6)`.
#[derive(Clone, Copy, Debug, Drop, PartialEq, Eq)]
pub enum HistoryError {
    /// The command is refused.
    Edit(EditError),
    /// Nothing was done that is not undone.
    NothingToUndo,
    /// Nothing was undone since the last edit.
    NothingToRedo,
    /// An earlier call ran out of memory.
    Stopped,
    /// Memory ran out.
    OutOfMemory,
}

impl HasReason for HistoryError {
    ghost use Rattle.undo_log.specs.HistoryReasons.{step_reason};

    ghost reason_of = { step_reason };

    ghost depth = { 4 };

    /// What it is called, its number and the byte of the text that a refused command came from, where its refusal has one.
    /// Running out of memory has no number, which is written 0.
    fn reason(&self) -> Reason {
        match self {
            HistoryError::Edit(error) => error.reason().behind("Edit", 10),
            HistoryError::NothingToUndo => Reason::new("NothingToUndo", 11, None),
            HistoryError::NothingToRedo => Reason::new("NothingToRedo", 12, None),
            HistoryError::Stopped => Reason::new("Stopped", 13, None),
            HistoryError::OutOfMemory => Reason::new("OutOfMemory", 0, None),
        }
    }
}

impl From<AllocError> for HistoryError {
    ghost use Rattle.std.specs.Prelude.{◌≡◌};
    ghost use Rattle.undo_log.specs.declared.error.HistoryError.TheVariants.{OutOfMemory};

    ghost from_gives = { λ _ e. e ≡ OutOfMemory };

    fn from(_: AllocError) -> HistoryError {
        HistoryError::OutOfMemory
    }
}

impl fmt::Display for HistoryError {
    ghost use Rattle.std.specs.Prelude.{Some};
    ghost use Rattle.plain_types.specs.Reasons.{written};
    ghost use Rattle.undo_log.specs.HistoryReasons.{step_reason};

    ghost output = { λ e. Some (written (step_reason e)) };

    fn fmt<W: fmt::Write>(&self, f: &mut fmt::Formatter<W>) -> fmt::Result {
        write!(f, "{}", self.reason())
    }
}

impl Error for HistoryError {}
