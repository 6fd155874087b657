//! Why a line cannot be read.

use std::alloc::{AllocError, AllocFailed};
use std::fmt;

/// What is wrong, and the number of the line.
#[derive(Clone, Copy)]
pub struct Fault {
    pub line: usize,
    pub reason: Reason,
}

/// What is wrong with a line.
#[derive(Clone, Copy)]
pub enum Reason {
    UnknownLine,
    EndsInSpace,
    NoCase,
    NoOutcome,
    SecondOutcome,
    NoText,
    NoWord,
    UnknownShorthand,
    SecondShorthand,
    UnknownEscape,
    BadNumber,
    BadName,
    BadMark,
    NoCut,
    TooLong,
    NoCall,
    OutOfMemory,
}

impl Reason {
    /// A fault for this reason, in the line of that number.
    pub(crate) fn at(self, line: usize) -> Fault {
        Fault { line, reason: self }
    }

    fn message(self) -> &'static str {
        match self {
            Reason::UnknownLine => "no such kind of line",
            Reason::EndsInSpace => "ends in a space, which is written \\s",
            Reason::NoCase => "stands in no case",
            Reason::NoOutcome => "the case has no out",
            Reason::SecondOutcome => "says a second out of a case",
            Reason::NoText => "adds to no text",
            Reason::NoWord => "has two spaces where one parts words",
            Reason::UnknownShorthand => "has a shorthand that is not defined above",
            Reason::SecondShorthand => "defines a shorthand again",
            Reason::UnknownEscape => "has an escape that is none",
            Reason::BadNumber => "has no number where one is demanded",
            Reason::BadName => "names a shorthand by more than letters, digits and underscores",
            Reason::BadMark => "says no length above the one before, or does not begin with 0",
            Reason::NoCut => "says how a case ends of which no file is cut",
            Reason::NoCall => "is no call on these files",
            Reason::TooLong => "makes a text too long",
            Reason::OutOfMemory => "memory ran out",
        }
    }
}

impl fmt::Display for Reason {
    fn fmt<W: fmt::Write>(&self, f: &mut fmt::Formatter<W>) -> fmt::Result {
        let message = self.message();
        write!(f, "{message}")
    }
}

impl From<AllocError> for Reason {
    fn from(_: AllocError) -> Reason {
        Reason::OutOfMemory
    }
}

impl<T: Drop> From<AllocFailed<T>> for Reason {
    fn from(_: AllocFailed<T>) -> Reason {
        Reason::OutOfMemory
    }
}
