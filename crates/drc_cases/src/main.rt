//! Runs cases of the whole program, and of the calls of the crates just beneath it, that are written as data: each word of the command line
//! names a file of them.
//!
//! Prints the name of each case with ` ok`, or with what differs, and ends with status 1 where one differs. A line
//! that cannot be read counts as differing, and its case is not tried. `docs/CASES.md` has the format.
#![tactic(auto)]

mod calls;
mod pairs;
mod runs;

use case_lines::{Counts, Outcome, difference};
use case_reader::{
    Case, Cut, Fault, Given, Line, Shorter, Shorthands, first_case, lines_of, read_case,
};
use runs::outcome;
use std::alloc::AllocError;
use std::env::Env;
use std::process::ExitCode;
use std::rt::Files;
use std::thread::Threads;
use std::{env, fs, io};

/// What differs where a case is run or called, with a file that may be cut.
fn fault_at<R: Threads + Sync + AllocGlobal + Print>(
    rt: &R,
    given: &Given,
    shorter: Option<Shorter<'_>>,
    expected: &Outcome,
) -> Result<Option<String>, AllocError> {
    let gate = given.gate();
    let found = outcome(rt, given, &gate, expected.text.len(), shorter)?;
    match given.held_otherwise(rt.alloc(), &gate)? {
        Some(text) => Ok(Some(text)),
        None => difference(rt.alloc(), &found, expected),
    }
}

/// What differs at a length of a file that is cut.
fn fault_of_length<R: Threads + Sync + AllocGlobal + Print>(
    rt: &R,
    case: &Case,
    cut: &Cut,
    length: usize,
) -> Result<Option<String>, AllocError> {
    let wanted = cut.outcome(rt.alloc(), length)?;
    let expected = match &wanted {
        Some(outcome) => outcome,
        None => &case.expected,
    };
    let file = cut.file.as_str();
    fault_at(rt, &case.given, Some(Shorter { file, length }), expected)
}

/// What differs at the first length of its file at which something differs.
fn fault_of_cut<R: Threads + Sync + AllocGlobal + Print>(
    rt: &R,
    case: &Case,
    cut: &Cut,
) -> Result<Option<String>, AllocError> {
    let whole = case
        .given
        .text(cut.file.as_str())
        .map_or(0, |text| text.len());
    for length in 0..whole {
        if let Some(fault) = fault_of_length(rt, case, cut, length)? {
            return Ok(Some(format!(in rt.alloc(); "cut to {length}: {fault}")?));
        }
    }
    Ok(None)
}

/// What differs of a case.
fn fault_of<R: Threads + Sync + AllocGlobal + Print>(
    rt: &R,
    case: &Case,
) -> Result<Option<String>, AllocError> {
    if let Some(fault) = fault_at(rt, &case.given, None, &case.expected)? {
        return Ok(Some(fault));
    }
    match &case.cut {
        Some(cut) => fault_of_cut(rt, case, cut),
        None => Ok(None),
    }
}

/// Tries a case and prints how it ended.
fn try_case<R: Threads + Sync + AllocGlobal + Print>(
    rt: &R,
    counts: &mut Counts,
    case: Case,
) -> io::Result<()> {
    let fault = fault_of(rt, &case)?;
    let name = case.name.as_str();
    counts.count(fault.is_none());
    match fault {
        None => println!(rt; "{name} ok"),
        Some(fault) => println!(rt; "{name}: {fault}"),
    }
}

/// Prints why a line cannot be read.
fn refuse<R: Print>(rt: &R, counts: &mut Counts, file: &str, fault: Fault) -> io::Result<()> {
    let Fault { line, reason } = fault;
    counts.count(false);
    println!(rt; "{file}:{line}: {reason}")
}

/// Tries the case of some lines. A case with a line that cannot be read is not tried.
fn try_lines<R: Threads + Sync + AllocGlobal + Print>(
    rt: &R,
    counts: &mut Counts,
    file: &str,
    shorthands: &mut Shorthands,
    lines: &[Line],
) -> io::Result<()> {
    match read_case(rt.alloc(), shorthands, lines) {
        Ok(Some(case)) => try_case(rt, counts, case),
        Ok(None) => Ok(()),
        Err(fault) => refuse(rt, counts, file, fault),
    }
}

/// Tries the cases of a file.
fn try_file<R: Threads + Sync + AllocGlobal + Print + Files>(
    rt: &R,
    counts: &mut Counts,
    file: &str,
) -> io::Result<()> {
    let text = fs::read_to_string(rt, file)?;
    let lines = lines_of(rt.alloc(), &text)?;
    let mut shorthands = Shorthands::new(rt.alloc());
    let mut rest = lines.as_slice();
    // Each turn takes a line at least.
    for _ in 0..lines.len() {
        let (first, others) = first_case(rest);
        try_lines(rt, counts, file, &mut shorthands, first)?;
        rest = others;
    }
    Ok(())
}

fn try_files<R: Threads + Sync + AllocGlobal + Print + Files + Env>(rt: &R) -> io::Result<Counts> {
    let mut counts = Counts::none();
    for file in env::args(rt)?.skip(1) {
        try_file(rt, &mut counts, file.as_str())?;
    }
    Ok(counts)
}

fn main(rt: HostRuntime) -> io::Result<ExitCode> {
    try_files(&rt)?.tell(&rt)
}
