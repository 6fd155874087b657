//! What a case gives to the program or to a call, and how it is to end.

use crate::cuts::Cut;
use case_gates::Turns;
use case_lines::Outcome;
use drc_io::{MemShelf, MemSink, Name};
use std::alloc::{AllocError, Global};

/// Which number of each deal is kept back until which other one is done, and in how many deals both are to come.
#[derive(Clone, Copy)]
pub struct Hold {
    pub first: u32,
    pub other: u32,
    pub rounds: u32,
}

/// The words of the program or of a call, the files, the numbers of the reads and writes that fail, how many bytes a read gives and a write
/// takes at most, and which number is kept back.
#[derive(Drop)]
pub struct Given {
    pub is_call: bool,
    pub words: Vec<String>,
    pub files: Vec<(Name, Vec<u8>)>,
    pub failing_reads: Vec<u64>,
    pub failing_writes: Vec<u64>,
    pub given_at_once: u64,
    pub taken_at_once: u64,
    pub hold: Option<Hold>,
}

/// A run of the program and how it is to end.
#[derive(Drop)]
pub struct Case {
    pub name: String,
    pub given: Given,
    pub expected: Outcome,
    pub cut: Option<Cut>,
}

/// A file that is cut, and to how many bytes.
#[derive(Clone, Copy)]
pub struct Shorter<'a> {
    pub file: &'a str,
    pub length: usize,
}

/// How many bytes a run may write past those that are expected.
const ROOM: usize = 65_536;

/// How many bytes of a text of that name are given.
fn end_of(name: &Name, text: &[u8], shorter: Option<Shorter<'_>>) -> usize {
    match shorter {
        Some(shorter) if name.bytes() == shorter.file.as_bytes() => shorter.length.min(text.len()),
        _ => text.len(),
    }
}

impl Given {
    /// No words, no files and no faults.
    pub(crate) fn nothing(alloc: Global) -> Given {
        Given {
            is_call: false,
            words: Vec::new(alloc),
            files: Vec::new(alloc),
            failing_reads: Vec::new(alloc),
            failing_writes: Vec::new(alloc),
            given_at_once: u64::MAX,
            taken_at_once: u64::MAX,
            hold: None,
        }
    }

    /// The text of the first file of this name.
    pub fn text(&self, name: &str) -> Option<&[u8]> {
        for (title, text) in self.files.iter() {
            if title.bytes() == name.as_bytes() {
                return Some(text);
            }
        }
        None
    }

    /// The files, of which one may be cut.
    fn files(
        &self,
        alloc: Global,
        shorter: Option<Shorter<'_>>,
    ) -> Result<Vec<(Name, Vec<u8>)>, AllocError> {
        let mut files = Vec::new(alloc);
        for (name, text) in self.files.iter() {
            let end = end_of(name, text, shorter).min(text.len());
            files.push((name.copy()?, text[..end].to_vec(alloc)?))?;
        }
        Ok(files)
    }

    /// Where the reads go. A file may be cut.
    pub fn shelf(
        &self,
        alloc: Global,
        shorter: Option<Shorter<'_>>,
    ) -> Result<MemShelf, AllocError> {
        let fails = self.failing_reads.as_slice().to_vec(alloc)?;
        let files = self.files(alloc, shorter)?;
        Ok(MemShelf::in_pieces(files, fails, self.given_at_once.max(1) as usize))
    }

    /// Where the writes go, of which so many bytes are expected.
    pub fn sink(&self, alloc: Global, expected: usize) -> Result<MemSink, AllocError> {
        let fails = self.failing_writes.as_slice().to_vec(alloc)?;
        let room = expected.saturating_add(ROOM);
        MemSink::new(alloc, self.taken_at_once.max(1) as usize, room, fails)
    }

    /// The gate that keeps back what is to be kept back.
    pub fn gate(&self) -> Turns {
        match self.hold {
            Some(hold) => Turns::new(hold.first, hold.other),
            None => Turns::none(),
        }
    }

    /// What to say of a gate that gave up, or was asked more or less often than it was to be.
    pub fn held_otherwise(
        &self,
        alloc: Global,
        gate: &Turns,
    ) -> Result<Option<String>, AllocError> {
        let Some(hold) = self.hold else {
            return Ok(None);
        };
        let gave_up = gate.gave_up();
        let rounds = gate.rounds();
        let expected = hold.rounds;
        if !gave_up && rounds == expected {
            return Ok(None);
        }
        let text = format!(in alloc; "gave up: {gave_up}, asked: {rounds}, expected {expected}")?;
        Ok(Some(text))
    }
}
