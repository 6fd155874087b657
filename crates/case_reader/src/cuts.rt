//! A file of a case that is cut to each of its lengths, and how the case is to end then.

use crate::fault::Reason;
use crate::shorthands::{Shorthands, number};
use case_lines::{Outcome, first_word};
use std::alloc::{AllocError, Global};

/// A status, and a text in which the length may stand once.
#[derive(Drop)]
struct End {
    status: u8,
    before: Vec<u8>,
    after: Option<Vec<u8>>,
}

/// From which length on a case ends so. None is how it ends with the whole file.
#[derive(Drop)]
pub(crate) struct Mark {
    from: u64,
    end: Option<End>,
}

/// The name of the file, and how the case ends from each mark up to the next.
#[derive(Drop)]
pub struct Cut {
    pub file: String,
    marks: Vec<Mark>,
}

/// What stands for the length in the text of a mark.
const LENGTH: &str = "\\#";

/// Reads a status and a text, where there is one.
fn end_of(alloc: Global, shorthands: &Shorthands, written: &str) -> Result<Option<End>, Reason> {
    if written.is_empty() {
        return Ok(None);
    }
    let (status, text) = first_word(written);
    let status = status.parse::<u8>().map_err(|_| Reason::BadNumber)?;
    let mut before = Vec::new(alloc);
    let after = match text.split_once(LENGTH) {
        None => {
            shorthands.add(&mut before, text)?;
            None
        }
        Some((front, back)) => {
            shorthands.add(&mut before, front)?;
            let mut after = Vec::new(alloc);
            shorthands.add(&mut after, back)?;
            Some(after)
        }
    };
    Ok(Some(End {
        status,
        before,
        after,
    }))
}

/// Reads a mark.
pub(crate) fn mark_of(
    alloc: Global,
    shorthands: &Shorthands,
    written: &str,
) -> Result<Mark, Reason> {
    let (from, rest) = first_word(written);
    Ok(Mark {
        from: number(from)?,
        end: end_of(alloc, shorthands, rest)?,
    })
}

impl End {
    /// How a case ends at this length.
    fn at(&self, alloc: Global, length: usize) -> Result<Outcome, AllocError> {
        let mut text = self.before.as_slice().to_vec(alloc)?;
        if let Some(after) = &self.after {
            let length = format!(in alloc; "{length}")?;
            text.extend_from_slice(length.as_bytes())?;
            text.extend_from_slice(after)?;
        }
        Ok(Outcome {
            status: self.status,
            text,
        })
    }
}

impl Cut {
    /// A file, and no marks yet.
    pub(crate) fn of(alloc: Global, file: &str) -> Result<Cut, AllocError> {
        Ok(Cut {
            file: file.to_string(alloc)?,
            marks: Vec::new(alloc),
        })
    }

    /// Adds a mark. Marks rise, from 0 on.
    pub(crate) fn add(&mut self, mark: Mark) -> Result<(), Reason> {
        let follows = match self.marks.last() {
            None => mark.from == 0,
            Some(last) => last.from < mark.from,
        };
        if !follows {
            return Err(Reason::BadMark);
        }
        self.marks.push(mark)?;
        Ok(())
    }

    /// The last mark that is not behind this length.
    fn mark(&self, length: usize) -> Option<&Mark> {
        let mut found = None;
        for mark in self.marks.iter() {
            if mark.from > length as u64 {
                break;
            }
            found = Some(mark);
        }
        found
    }

    /// How the case is to end at this length, or None where it ends as with the whole file.
    pub fn outcome(&self, alloc: Global, length: usize) -> Result<Option<Outcome>, AllocError> {
        match self.mark(length) {
            Some(Mark { end: Some(end), .. }) => Ok(Some(end.at(alloc, length)?)),
            _ => Ok(None),
        }
    }
}
