//! Why an item or a board is refused.

use plain_types::{HasReason, Reason};
use sexpr_read::TextError;
use std::alloc::{AllocError, AllocFailed};
use std::error::Error;
use std::fmt;

/// Why an item is not taken. They are tested in this order. It is written `NAME (CODE)`, as `UnknownNet (2)`.
#[derive(Clone, Copy, Debug, PartialEq, Eq, Drop)]
pub enum ItemError {
    /// Its position, or a point of its shapes, is more than 500 mm from 0 in x or in y.
    OutOfBoard,
    /// Its net was not declared.
    UnknownNet,
    /// One of its parts lies on a layer that the board has not.
    UnknownLayer,
    /// The board holds 200,000 items, or no id is left.
    TooMany,
    /// Memory ran out.
    OutOfMemory,
}

impl HasReason for ItemError {
    ghost use Rattle.board_errors.specs.BoardReasons.{item_reason};

    ghost reason_of = { item_reason };

    ghost depth = { 1 };

    /// What it is called and its number. It has no place: an item that is not taken stands in no text. Running out of memory has
    /// no number, which is written 0.
    fn reason(&self) -> Reason {
        match self {
            ItemError::OutOfBoard => Reason::new("OutOfBoard", 1, None),
            ItemError::UnknownNet => Reason::new("UnknownNet", 2, None),
            ItemError::UnknownLayer => Reason::new("UnknownLayer", 3, None),
            ItemError::TooMany => Reason::new("TooMany", 4, None),
            ItemError::OutOfMemory => Reason::new("OutOfMemory", 0, None),
        }
    }
}

impl fmt::Display for ItemError {
    ghost use Rattle.std.specs.Prelude.{Some};
    ghost use Rattle.plain_types.specs.Reasons.{written};
    ghost use Rattle.board_errors.specs.BoardReasons.{item_reason};

    ghost output = { λ e. Some (written (item_reason e)) };

    fn fmt<W: fmt::Write>(&self, f: &mut fmt::Formatter<W>) -> fmt::Result {
        write!(f, "{}", self.reason())
    }
}

impl Error for ItemError {}

impl From<AllocError> for ItemError {
    ghost use Rattle.std.specs.Prelude.{◌≡◌};
    ghost use Rattle.board_errors.specs.declared.errors.ItemError.TheVariants.{OutOfMemory};

    ghost from_gives = { λ _ e. e ≡ OutOfMemory };

    fn from(_: AllocError) -> ItemError {
        ItemError::OutOfMemory
    }
}

impl<T: Drop> From<AllocFailed<T>> for ItemError {
    ghost use Rattle.std.specs.Prelude.{◌≡◌};
    ghost use Rattle.board_errors.specs.declared.errors.ItemError.TheVariants.{OutOfMemory};

    ghost from_gives = { λ _ e. e ≡ OutOfMemory };

    fn from(_: AllocFailed<T>) -> ItemError {
        ItemError::OutOfMemory
    }
}

/// Why the text of a board, or of a list of one, is refused. `at` is a place in the text, counted in bytes. It is
/// written `NAME (CODE)`, as `OutOfBoard (6)` and `Text.EmptyText (1.6)`.
#[derive(Clone, Copy, Debug, PartialEq, Eq, Drop)]
pub enum BoardError {
    /// The text is no S-expression.
    Text(TextError),
    /// The head of the list at `at` is not that of a board; of an added list, not that of an item.
    NotABoard { at: u32 },
    /// The version at `at` is none that is read.
    Version { at: u32 },
    /// The list at `at` lacks something that the format demands.
    Missing { at: u32 },
    /// The atom at `at` is no number, or one that may not stand there.
    BadNumber { at: u32 },
    /// A point of the item at `at` is more than 500 mm from 0 in x or in y, or a size is above 500 mm.
    OutOfBoard { at: u32 },
    /// The arc or curve at `at` is none that can be checked.
    Arc { at: u32 },
    /// The footprint or pad at `at` is turned by other than quarter turns.
    Turned { at: u32 },
    /// The pad at `at` has a shape that cannot be checked.
    PadShape { at: u32 },
    /// The circle at `at` is a ring of copper, or stands on Edge.Cuts.
    Ring { at: u32 },
    /// The net number at `at` was not declared before.
    UnknownNet { at: u32 },
    /// The layer name at `at` is none of the board's, or no copper layer where one is demanded.
    UnknownLayer { at: u32 },
    /// The zone at `at` has an outline with a width.
    ThickFill { at: u32 },
    /// The item at `at` is one too many, or there is no id or no unit number left for it.
    TooMany { at: u32 },
    /// Memory ran out.
    OutOfMemory,
}

impl HasReason for BoardError {
    ghost use Rattle.board_errors.specs.BoardReasons.{board_reason};

    ghost reason_of = { board_reason };

    ghost depth = { 2 };

    /// What it is called, its number and its byte of the text. Running out of memory has no number, which is written 0, and no
    /// place.
    fn reason(&self) -> Reason {
        match self {
            BoardError::Text(error) => error.reason().behind("Text", 1),
            BoardError::NotABoard { at } => Reason::new("NotABoard", 2, Some(*at)),
            BoardError::Version { at } => Reason::new("Version", 3, Some(*at)),
            BoardError::Missing { at } => Reason::new("Missing", 4, Some(*at)),
            BoardError::BadNumber { at } => Reason::new("BadNumber", 5, Some(*at)),
            BoardError::OutOfBoard { at } => Reason::new("OutOfBoard", 6, Some(*at)),
            BoardError::Arc { at } => Reason::new("Arc", 7, Some(*at)),
            BoardError::Turned { at } => Reason::new("Turned", 8, Some(*at)),
            BoardError::PadShape { at } => Reason::new("PadShape", 9, Some(*at)),
            BoardError::Ring { at } => Reason::new("Ring", 10, Some(*at)),
            BoardError::UnknownNet { at } => Reason::new("UnknownNet", 11, Some(*at)),
            BoardError::UnknownLayer { at } => Reason::new("UnknownLayer", 12, Some(*at)),
            BoardError::ThickFill { at } => Reason::new("ThickFill", 13, Some(*at)),
            BoardError::TooMany { at } => Reason::new("TooMany", 14, Some(*at)),
            BoardError::OutOfMemory => Reason::new("OutOfMemory", 0, None),
        }
    }
}

impl fmt::Display for BoardError {
    ghost use Rattle.std.specs.Prelude.{Some};
    ghost use Rattle.plain_types.specs.Reasons.{written};
    ghost use Rattle.board_errors.specs.BoardReasons.{board_reason};

    ghost output = { λ e. Some (written (board_reason e)) };

    fn fmt<W: fmt::Write>(&self, f: &mut fmt::Formatter<W>) -> fmt::Result {
        write!(f, "{}", self.reason())
    }
}

impl Error for BoardError {}

impl From<AllocError> for BoardError {
    ghost use Rattle.std.specs.Prelude.{◌≡◌};
    ghost use Rattle.board_errors.specs.declared.errors.BoardError.TheVariants.{OutOfMemory};

    ghost from_gives = { λ _ e. e ≡ OutOfMemory };

    fn from(_: AllocError) -> BoardError {
        BoardError::OutOfMemory
    }
}
