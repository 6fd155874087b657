//! Why a board is not written.

use board_items::BoardError;
use drc_io::Failed;
use plain_types::{HasReason, Reason};
use std::alloc::AllocError;
use std::error::Error;
use std::fmt;

/// Why a board is not written. It is written `NAME (CODE)`, as `Failed (22)` and `Board.NotABoard (21.2)`.
#[derive(Clone, Copy, Debug, Drop, PartialEq, Eq)]
pub enum WriteError {
    /// The text is none of a board. Nothing was written.
    Board(BoardError),
    /// The sink failed, and a prefix of the text was written.
    Failed,
    /// Memory ran out, before anything was written.
    OutOfMemory,
}

impl HasReason for WriteError {
    ghost use Rattle.board_write.specs.WriteReasons.{write_reason};

    ghost reason_of = { write_reason };

    ghost depth = { 3 };

    /// What it is called, its number and the byte of the text at which a board is refused. Running out of memory has no number,
    /// which is written 0.
    fn reason(&self) -> Reason {
        match self {
            WriteError::Board(error) => error.reason().behind("Board", 21),
            WriteError::Failed => Reason::new("Failed", 22, None),
            WriteError::OutOfMemory => Reason::new("OutOfMemory", 0, None),
        }
    }
}

impl From<BoardError> for WriteError {
    ghost use Rattle.std.specs.Prelude.{◌≡◌};
    ghost use Rattle.board_write.specs.WriteErrors.{write_error};

    ghost from_gives = { λ why e. e ≡ write_error why };

    fn from(why: BoardError) -> WriteError {
        match why {
            BoardError::OutOfMemory => WriteError::OutOfMemory,
            why => WriteError::Board(why),
        }
    }
}

impl From<AllocError> for WriteError {
    ghost use Rattle.std.specs.Prelude.{◌≡◌};
    ghost use Rattle.board_write.specs.declared.error.WriteError.TheVariants.{OutOfMemory};

    ghost from_gives = { λ _ e. e ≡ OutOfMemory };

    fn from(_: AllocError) -> WriteError {
        WriteError::OutOfMemory
    }
}

impl From<Failed> for WriteError {
    ghost use Rattle.std.specs.Prelude.{◌≡◌};
    ghost use Rattle.board_write.specs.declared.error.WriteError.TheVariants.{Failed as SinkFailed};

    ghost from_gives = { λ _ e. e ≡ SinkFailed };

    fn from(_: Failed) -> WriteError {
        WriteError::Failed
    }
}

impl fmt::Display for WriteError {
    ghost use Rattle.std.specs.Prelude.{Some};
    ghost use Rattle.plain_types.specs.Reasons.{written};
    ghost use Rattle.board_write.specs.WriteReasons.{write_reason};

    ghost output = { λ e. Some (written (write_reason e)) };

    fn fmt<W: fmt::Write>(&self, f: &mut fmt::Formatter<W>) -> fmt::Result {
        write!(f, "{}", self.reason())
    }
}

impl Error for WriteError {}
