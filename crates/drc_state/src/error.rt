//! Why a command is not carried out.

use board_edits::Refusal;
use board_items::BoardError;
use plain_types::{HasReason, Reason};
use rule_text::RuleError;
use std::alloc::AllocError;
use std::error::Error;
use std::fmt;

/// Why a command is not carried out. `Stopped` is tested first, then the others in this order. It is written `NAME (CODE)`, as
/// `SharedName (2)`, `Item.OutOfBoard (4.6)` and `Rules.Cond.TooDeep (5.4.4)`.
#[derive(Clone, Copy, Debug, Drop, PartialEq, Eq)]
pub enum EditError {
    /// No unit has the name.
    NoSuchItem,
    /// Several units have it.
    SharedName,
    /// A part of a footprint has it, and the footprint has another.
    PartOfFootprint,
    /// An added list is refused, or a unit would leave the board.
    Item(BoardError),
    /// The rules are refused.
    Rules(RuleError),
    /// An earlier call ran out of memory.
    Stopped,
    /// Memory ran out.
    OutOfMemory,
}

impl HasReason for EditError {
    ghost use Rattle.drc_state.specs.CommandReasons.{edit_reason};

    ghost reason_of = { edit_reason };

    ghost depth = { 3 };

    /// What it is called, its number and its byte of the text that it came from. A unit that is not found has no place.
    /// Running out of memory has no number, which is written 0, and no place.
    fn reason(&self) -> Reason {
        match self {
            EditError::NoSuchItem => Reason::new("NoSuchItem", 1, None),
            EditError::SharedName => Reason::new("SharedName", 2, None),
            EditError::PartOfFootprint => Reason::new("PartOfFootprint", 3, None),
            EditError::Item(error) => error.reason().behind("Item", 4),
            EditError::Rules(error) => error.reason().behind("Rules", 5),
            EditError::Stopped => Reason::new("Stopped", 6, None),
            EditError::OutOfMemory => Reason::new("OutOfMemory", 0, None),
        }
    }
}

impl From<Refusal> for EditError {
    ghost use Rattle.std.specs.Prelude.{◌≡◌};
    ghost use Rattle.drc_state.specs.CommandSteps.{edit_error};

    ghost from_gives = { λ why e. e ≡ edit_error why };

    fn from(why: Refusal) -> EditError {
        match why {
            Refusal::NoSuchItem => EditError::NoSuchItem,
            Refusal::SharedName => EditError::SharedName,
            Refusal::PartOfFootprint => EditError::PartOfFootprint,
            Refusal::Item(error) => EditError::Item(error),
            Refusal::OutOfMemory => EditError::OutOfMemory,
        }
    }
}

impl From<AllocError> for EditError {
    ghost use Rattle.std.specs.Prelude.{◌≡◌};
    ghost use Rattle.drc_state.specs.declared.error.EditError.TheVariants.{OutOfMemory};

    ghost from_gives = { λ _ e. e ≡ OutOfMemory };

    fn from(_: AllocError) -> EditError {
        EditError::OutOfMemory
    }
}

impl fmt::Display for EditError {
    ghost use Rattle.std.specs.Prelude.{Some};
    ghost use Rattle.plain_types.specs.Reasons.{written};
    ghost use Rattle.drc_state.specs.CommandReasons.{edit_reason};

    ghost output = { λ e. Some (written (edit_reason e)) };

    fn fmt<W: fmt::Write>(&self, f: &mut fmt::Formatter<W>) -> fmt::Result {
        write!(f, "{}", self.reason())
    }
}

impl Error for EditError {}
