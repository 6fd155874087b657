//! How the program or a call ends on what a case gives.

use crate::calls::made;
use case_gates::Turns;
use case_lines::Outcome;
use case_reader::{Given, Shorter};
use drc_run::run_all;
use std::alloc::{AllocError, AllocGlobal};
use std::io::Print;
use std::thread::Threads;

/// How the program or the call ends on this, where a file may be cut and so many bytes are expected.
pub fn outcome<R: Threads + Sync + AllocGlobal + Print>(
    rt: &R,
    given: &Given,
    gate: &Turns,
    expected: usize,
    shorter: Option<Shorter<'_>>,
) -> Result<Outcome, AllocError> {
    if given.is_call {
        return made(rt, given, gate);
    }
    let alloc = rt.alloc();
    let mut shelf = given.shelf(alloc, shorter)?;
    let mut out = given.sink(alloc, expected)?;
    let words: Vec<&str> = given.words.iter().map(|word| word.as_str()).collect(alloc)?;
    let status = run_all(rt, &words, &mut shelf, &mut out, gate);
    Ok(Outcome {
        status,
        text: out.bytes().to_vec(alloc)?,
    })
}
