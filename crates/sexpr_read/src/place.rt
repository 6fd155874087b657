//! Places in a text, and why one is refused.

use plain_types::{HasReason, Reason};
use std::alloc::AllocError;
use std::error::Error;
use std::fmt;

/// From the byte `at` up to the byte `end`, which is no longer in it.
#[derive(Clone, Copy, Debug, PartialEq, Eq)]
pub struct Span {
    pub at: u32,
    pub end: u32,
}

/// Why a text is refused. Bytes that are no UTF-8 come before all others; of the rest the first in the text counts.
/// It is written `NAME (CODE)`, as `EmptyText (6)`.
#[derive(Clone, Copy, Debug, PartialEq, Eq)]
pub enum TextError {
    /// The text is not UTF-8; `at` is the first byte of the first sequence that is ill-formed.
    NotUtf8 { at: u32 },
    /// `)` stands outside every list, at `at`.
    CloseWithoutOpen { at: u32 },
    /// The text ends in a list or a string; `at` is its length.
    EndInside { at: u32 },
    /// `(` at `at` would be the 65th level.
    TooDeep { at: u32 },
    /// One list was wanted, and a word, a string or a second list begins at `at` outside it.
    ExtraText { at: u32 },
    /// One list was wanted, and there is space alone.
    EmptyText,
    /// Memory ran out.
    OutOfMemory,
}

impl HasReason for TextError {
    ghost use Rattle.sexpr_read.specs.TreeReasons.{text_reason};

    ghost reason_of = { text_reason };

    ghost depth = { 1 };

    /// What it is called, its number and its byte of the text. Running out of memory has no number, which is written 0, and
    /// no place. An empty text is refused at 0.
    fn reason(&self) -> Reason {
        match self {
            TextError::NotUtf8 { at } => Reason::new("NotUtf8", 1, Some(*at)),
            TextError::CloseWithoutOpen { at } => Reason::new("CloseWithoutOpen", 2, Some(*at)),
            TextError::EndInside { at } => Reason::new("EndInside", 3, Some(*at)),
            TextError::TooDeep { at } => Reason::new("TooDeep", 4, Some(*at)),
            TextError::ExtraText { at } => Reason::new("ExtraText", 5, Some(*at)),
            TextError::EmptyText => Reason::new("EmptyText", 6, Some(0)),
            TextError::OutOfMemory => Reason::new("OutOfMemory", 0, None),
        }
    }
}

impl fmt::Display for TextError {
    ghost use Rattle.std.specs.Prelude.{Some};
    ghost use Rattle.plain_types.specs.Reasons.{written};
    ghost use Rattle.sexpr_read.specs.TreeReasons.{text_reason};

    ghost output = { λ e. Some (written (text_reason e)) };

    fn fmt<W: fmt::Write>(&self, f: &mut fmt::Formatter<W>) -> fmt::Result {
        write!(f, "{}", self.reason())
    }
}

impl Error for TextError {}

impl From<AllocError> for TextError {
    ghost use Rattle.std.specs.Prelude.{◌≡◌};
    ghost use Rattle.sexpr_read.specs.declared.place.TextError.TheVariants.{OutOfMemory};

    ghost from_gives = { λ _ e. e ≡ OutOfMemory };

    fn from(_: AllocError) -> TextError {
        TextError::OutOfMemory
    }
}
