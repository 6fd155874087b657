//! Calls of crates beneath the program. Each takes two of the case's files: a board, and a script or a rule file.

use crate::pairs;
use case_gates::Turns;
use case_lines::Outcome;
use case_reader::{Given, Reason};
use session_cases::{LIMIT, Texts};
use std::alloc::{AllocError, AllocGlobal};
use std::io::Print;
use std::thread::Threads;

/// The text of a file that is named, where it is not too long.
fn text_of<'a>(given: &'a Given, name: Option<&String>) -> Result<&'a [u8], Reason> {
    let name = name.ok_or(Reason::NoCall)?;
    let text = given.text(name.as_str()).ok_or(Reason::NoCall)?;
    if text.len() > LIMIT {
        return Err(Reason::TooLong);
    }
    Ok(text)
}

/// The number of workers, where one is written, or else one.
fn workers_of(written: Option<&String>) -> Result<u32, Reason> {
    let Some(written) = written else {
        return Ok(1);
    };
    match written.parse::<u32>() {
        Ok(workers) => Ok(workers),
        Err(_) => Err(Reason::BadNumber),
    }
}

/// What the call of this name tells.
fn told<R: Threads + Sync + AllocGlobal + Print>(
    rt: &R,
    given: &Given,
    gate: &Turns,
) -> Result<Vec<u8>, Reason> {
    let texts = Texts {
        board: text_of(given, given.words.get(1))?,
        other: text_of(given, given.words.get(2))?,
    };
    let workers = workers_of(given.words.get(3))?;
    let name = given.words.first().ok_or(Reason::NoCall)?;
    match name.as_str() {
        "pairs" => pairs::told(rt, texts, gate),
        name => session_cases::answer(rt, name, given, texts, workers, gate),
    }
}

/// How a call ends: with the status 0 and what it tells, or with 2 and why it cannot be made.
pub fn made<R: Threads + Sync + AllocGlobal + Print>(
    rt: &R,
    given: &Given,
    gate: &Turns,
) -> Result<Outcome, AllocError> {
    match told(rt, given, gate) {
        Ok(text) => Ok(Outcome { status: 0, text }),
        Err(Reason::OutOfMemory) => Err(AllocError),
        Err(reason) => Ok(Outcome {
            status: 2,
            text: format!(in rt.alloc(); "{reason}\n")?.into_bytes(),
        }),
    }
}
