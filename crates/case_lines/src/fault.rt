//! Why a line of a case cannot be read.

use std::alloc::{AllocError, AllocFailed};
use std::fmt;

/// What is wrong with a line.
#[derive(Clone, Copy)]
pub enum Fault {
    Misplaced,
    UnknownCall,
    UnknownEscape,
    BadNumber,
    TooLong,
    NotUtf8,
    NotTaken,
    OutOfMemory,
}

impl Fault {
    /// What is printed of it, behind the file and the line.
    fn message(self) -> &'static str {
        match self {
            Fault::Misplaced =>
                "a call is to stand before each line of an answer, and such a line behind each call",
            Fault::UnknownCall => "no such call, or another number of parts",
            Fault::UnknownEscape => "has an escape that is none",
            Fault::BadNumber => "has no number where one is demanded, or one out of range",
            Fault::TooLong => "makes a text too long",
            Fault::NotUtf8 => "has a name that is no text",
            Fault::NotTaken => "has what the call does not take",
            Fault::OutOfMemory => "memory ran out",
        }
    }
}

impl fmt::Display for Fault {
    fn fmt<W: fmt::Write>(&self, f: &mut fmt::Formatter<W>) -> fmt::Result {
        f.write_str(self.message())
    }
}

impl From<AllocError> for Fault {
    fn from(_: AllocError) -> Fault {
        Fault::OutOfMemory
    }
}

impl<T: Drop> From<AllocFailed<T>> for Fault {
    fn from(_: AllocFailed<T>) -> Fault {
        Fault::OutOfMemory
    }
}
