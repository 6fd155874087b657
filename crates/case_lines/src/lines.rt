//! The lines of files of cases.

ghost use Rattle.std.specs.Prelude.{◌≡◌, ◌↔◌, ◌+◌, ◌-◌, ◌^◌, if◌then◌else◌, [], min, IsTrue};
ghost use Rattle.case_lines.specs.declared.lines.Line.{Line};

use crate::fault::Fault;
use crate::texts::text_of;
use std::env::Env;
use std::process::ExitCode;
use std::rt::Files;
use std::{env, fs, io};

/// How many cases ended as expected, and how many cases and lines did not.
#[derive(Clone, Copy)]
pub struct Counts {
    ok: u64,
    differ: u64,
}

impl Counts {
    /// No case was tried.
    pub fn none() -> Counts {
        Counts { ok: 0, differ: 0 }
    }

    /// Counts one more case or line.
    pub fn count(&mut self, is_ok: bool)
        ensures ok { self.new.ok ≡ (if is_ok then min (self.old.ok
            + 1) (2 ^ 64 - 1) else self.old.ok) }
        ensures differ { self.new.differ
            ≡ (if is_ok then self.old.differ else min (self.old.differ + 1) (2 ^ 64 - 1)) }
    {
        if is_ok {
            self.ok = self.ok.saturating_add(1);
        } else {
            self.differ = self.differ.saturating_add(1);
        }
    }

    /// Prints how many there were of both. The status is 1 where one was not as expected.
    pub fn tell<R: Print>(self, rt: &R) -> io::Result<ExitCode> {
        let Counts { ok, differ } = self;
        println!(rt; "{ok} ok, {differ} differ")?;
        Ok(ExitCode::from(if differ == 0 { 0 } else { 1 }))
    }
}

/// What a line is, beside the call that stands before it.
#[derive(Clone, Copy)]
enum Line<'t> {
    Call(&'t str),
    Expected(&'t str),
    Nothing,
}

fn line_of(line: &str) -> Line<'_>
    ensures { line.now ≡ [] → result ≡ Line.Nothing }
{
    if line.is_empty() || line.starts_with('#') {
        return Line::Nothing;
    }
    match line.strip_prefix("= ") {
        Some(expected) => Line::Expected(expected),
        None => Line::Call(line),
    }
}

/// Whether an answer is the one that is expected.
fn is_same(found: &[u8], expected: &[u8]) -> bool
    ensures { IsTrue result ↔ (found.now ≡ expected.now) }
{
    found == expected
}

/// Prints whether the answer of a call is the one that is expected.
fn compare<R: AllocGlobal + Print>(
    rt: &R,
    counts: &mut Counts,
    call: &str,
    answer: Result<Vec<u8>, Fault>,
    expected: &str,
) -> io::Result<()> {
    let alloc = rt.alloc();
    match (answer, text_of(alloc, expected)) {
        (Ok(found), Ok(wanted)) => {
            let is_ok = is_same(&found, &wanted);
            counts.count(is_ok);
            if is_ok {
                println!(rt; "{call} ok")
            } else {
                let found = String::from_utf8_lossy(alloc, &found)?;
                println!(rt; "{call}: is {found}, expected {expected}")
            }
        }
        (Err(fault), _) | (_, Err(fault)) => refuse(rt, counts, call, fault),
    }
}

/// Prints why a line cannot be read.
fn refuse<R: Print>(rt: &R, counts: &mut Counts, line: &str, fault: Fault) -> io::Result<()> {
    counts.count(false);
    println!(rt; "{line}: {fault}")
}

/// Tries the cases of a text.
fn try_text<R: AllocGlobal + Print, A: Fn(&str) -> Result<Vec<u8>, Fault>>(
    rt: &R,
    counts: &mut Counts,
    text: &str,
    answer: &A,
) -> io::Result<()>
    requires { A.IsAlwaysCallable answer.now }
{
    let mut call = None;
    for line in text.lines() {
        match (line_of(line), call) {
            (Line::Nothing, _) => {}
            (Line::Call(next), None) => call = Some(next),
            (Line::Expected(expected), Some(called)) => {
                compare(rt, counts, called, answer(called), expected)?;
                call = None;
            }
            _ => refuse(rt, counts, line, Fault::Misplaced)?,
        }
    }
    match call {
        Some(called) => refuse(rt, counts, called, Fault::Misplaced),
        None => Ok(()),
    }
}

/// Tries the cases of the files that the command line names. `answer` makes a call and gives its answer. Prints each call
/// with ` ok`, or with what differs, and then how many were as expected; the status is 1 where one was not.
pub fn try_files<R: AllocGlobal + Print + Files + Env, A: Fn(&str) -> Result<Vec<u8>, Fault>>(
    rt: &R,
    answer: A,
) -> io::Result<ExitCode>
    requires { A.IsAlwaysCallable answer }
{
    let mut counts = Counts::none();
    for file in env::args(rt)?.skip(1) {
        let text = fs::read_to_string(rt, file.as_str())?;
        try_text(rt, &mut counts, &text, &answer)?;
    }
    counts.tell(rt)
}
