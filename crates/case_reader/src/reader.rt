//! Reads a case from its lines.

use crate::case::{Case, Given, Hold};
use crate::cuts::{Cut, mark_of};
use crate::fault::{Fault, Reason};
use crate::shorthands::{Shorthands, add_times, is_in_name, number};
use case_lines::{Outcome, first_word};
use drc_io::Name;
use std::alloc::{AllocError, Global};

/// A line with its number in the file.
#[derive(Clone, Copy)]
pub struct Line<'a> {
    pub number: usize,
    pub written: &'a str,
}

/// What the lines of a case have said so far.
#[derive(Drop)]
struct Draft {
    name: Option<String>,
    given: Given,
    expected: Option<Outcome>,
    cut: Option<Cut>,
}

/// The lines of a text that say something.
pub fn lines_of(alloc: Global, text: &str) -> Result<Vec<Line<'_>>, AllocError> {
    let mut lines = Vec::new(alloc);
    let mut number = 0usize;
    for written in text.lines() {
        number = number.saturating_add(1);
        if !written.is_empty() && !written.starts_with('#') {
            lines.push(Line { number, written })?;
        }
    }
    Ok(lines)
}

/// The lines up to the next one that begins a case, and the rest.
pub fn first_case<'a, 'b>(lines: &'b [Line<'a>]) -> (&'b [Line<'a>], &'b [Line<'a>]) {
    let next = lines
        .iter()
        .skip(1)
        .position(|line| line.written.starts_with("case "));
    let end = next.map_or(lines.len(), |at| at.saturating_add(1));
    lines.split_at(end.min(lines.len()))
}

/// Whether a line adds to the text that was begun last.
fn adds(written: &str) -> bool {
    written.starts_with('|') || written.starts_with('+') || written.starts_with('*')
}

/// Whether a line begins a text.
fn begins_text(kind: &str) -> bool {
    kind == "file" || kind == "out" || kind == "let"
}

/// The text that begins with what is written and goes on in the lines that add to it.
fn text_of(
    alloc: Global,
    shorthands: &Shorthands,
    written: &str,
    lines: &[Line],
) -> Result<Vec<u8>, Reason> {
    let mut text = Vec::new(alloc);
    shorthands.add(&mut text, written)?;
    for line in lines {
        if let Some(written) = line.written.strip_prefix('|') {
            shorthands.add(&mut text, written)?;
            text.push(b'\n')?;
        } else if let Some(written) = line.written.strip_prefix('+') {
            shorthands.add(&mut text, written)?;
        } else if let Some(written) = line.written.strip_prefix('*') {
            add_times(alloc, shorthands, &mut text, written)?;
        } else {
            break;
        }
    }
    Ok(text)
}

/// Adds the words, which single spaces part. The empty word is written as two quotes.
fn add_words(alloc: Global, words: &mut Vec<String>, written: &str) -> Result<(), Reason> {
    if written.is_empty() {
        return Ok(());
    }
    for word in written.split(' ') {
        let word = match word {
            "" => return Err(Reason::NoWord),
            "''" => "",
            word => word,
        };
        words.push(word.to_string(alloc)?)?;
    }
    Ok(())
}

/// Reads how a case is to end.
fn outcome_of(
    alloc: Global,
    shorthands: &Shorthands,
    rest: &str,
    others: &[Line],
) -> Result<Outcome, Reason> {
    let (status, written) = first_word(rest);
    let status = status.parse::<u8>().map_err(|_| Reason::BadNumber)?;
    let text = text_of(alloc, shorthands, written, others)?;
    Ok(Outcome { status, text })
}

/// Reads a shorthand.
fn define(
    alloc: Global,
    shorthands: &mut Shorthands,
    rest: &str,
    others: &[Line],
) -> Result<(), Reason> {
    let (name, written) = first_word(rest);
    if name.is_empty() || !name.bytes().all(is_in_name) {
        return Err(Reason::BadName);
    }
    if shorthands.has(name) {
        return Err(Reason::SecondShorthand);
    }
    let text = text_of(alloc, shorthands, written, others)?;
    shorthands.define(name.to_string(alloc)?, text)
}

/// Reads a file.
fn file_of(
    alloc: Global,
    shorthands: &Shorthands,
    rest: &str,
    others: &[Line],
) -> Result<(Name, Vec<u8>), Reason> {
    let (name, written) = first_word(rest);
    let name = Name::of(name.to_string(alloc)?.into_bytes());
    Ok((name, text_of(alloc, shorthands, written, others)?))
}

/// A number that 32 bits hold.
fn small(written: &str) -> Result<u32, Reason> {
    u32::try_from(number(written)?).map_err(|_| Reason::BadNumber)
}

/// Reads which number is kept back until which other, and in how many deals.
fn hold_of(written: &str) -> Result<Hold, Reason> {
    let (first, rest) = first_word(written);
    let (other, rounds) = first_word(rest);
    Ok(Hold {
        first: small(first)?,
        other: small(other)?,
        rounds: small(rounds)?,
    })
}

/// Reads a line on what the program is given.
fn add_given(
    alloc: Global,
    shorthands: &Shorthands,
    given: &mut Given,
    (kind, rest): (&str, &str),
    others: &[Line],
) -> Result<(), Reason> {
    match kind {
        "run" => add_words(alloc, &mut given.words, rest)?,
        "call" => {
            given.is_call = true;
            add_words(alloc, &mut given.words, rest)?
        }
        "hold" => given.hold = Some(hold_of(rest)?),
        "file" => given.files.push(file_of(alloc, shorthands, rest, others)?)?,
        "give" => given.given_at_once = number(rest)?,
        "take" => given.taken_at_once = number(rest)?,
        "fail-read" => given.failing_reads.push(number(rest)?)?,
        "fail-write" => given.failing_writes.push(number(rest)?)?,
        _ => return Err(Reason::UnknownLine),
    }
    Ok(())
}

/// Reads which file is cut, or how the case ends from a length on.
fn add_cut(
    alloc: Global,
    shorthands: &Shorthands,
    cut: &mut Option<Cut>,
    kind: &str,
    rest: &str,
) -> Result<(), Reason> {
    if kind == "cut" {
        *cut = Some(Cut::of(alloc, rest)?);
        return Ok(());
    }
    match cut {
        Some(cut) => cut.add(mark_of(alloc, shorthands, rest)?),
        None => Err(Reason::NoCut),
    }
}

/// Reads a line that adds to no text. The other lines are those behind it.
fn read_line(
    alloc: Global,
    shorthands: &mut Shorthands,
    draft: &mut Draft,
    written: &str,
    others: &[Line],
) -> Result<(), Reason> {
    let (kind, rest) = first_word(written);
    if written.ends_with(' ') {
        return Err(Reason::EndsInSpace);
    }
    if kind == "let" {
        return define(alloc, shorthands, rest, others);
    }
    if kind == "case" {
        draft.name = Some(rest.to_string(alloc)?);
        return Ok(());
    }
    if draft.name.is_none() {
        return Err(Reason::NoCase);
    }
    if kind == "cut" || kind == "at" {
        return add_cut(alloc, shorthands, &mut draft.cut, kind, rest);
    }
    if kind != "out" {
        return add_given(alloc, shorthands, &mut draft.given, (kind, rest), others);
    }
    if draft.expected.is_some() {
        return Err(Reason::SecondOutcome);
    }
    draft.expected = Some(outcome_of(alloc, shorthands, rest, others)?);
    Ok(())
}

/// Reads one line into the draft, and gives whether lines that add to a text may follow it. `in_text` says whether this one may add;
/// `others` are the lines after it.
fn read_next(
    alloc: Global,
    shorthands: &mut Shorthands,
    draft: &mut Draft,
    in_text: bool,
    written: &str,
    others: &[Line],
) -> Result<bool, Reason> {
    if adds(written) {
        return if in_text {
            Ok(true)
        } else {
            Err(Reason::NoText)
        };
    }
    read_line(alloc, shorthands, draft, written, others)?;
    Ok(begins_text(first_word(written).0))
}

/// Reads the lines in their order.
fn read_lines(
    alloc: Global,
    shorthands: &mut Shorthands,
    draft: &mut Draft,
    lines: &[Line],
) -> Result<(), Fault> {
    let mut in_text = false;
    for (i, line) in lines.iter().enumerate() {
        let others = &lines[i + 1..];
        match read_next(alloc, shorthands, draft, in_text, line.written, others) {
            Ok(follows) => in_text = follows,
            Err(reason) => return Err(reason.at(line.number)),
        }
    }
    Ok(())
}

/// Reads the lines of a case, and those before the first case of a file, which give none.
pub fn read_case(
    alloc: Global,
    shorthands: &mut Shorthands,
    lines: &[Line],
) -> Result<Option<Case>, Fault> {
    let mut draft = Draft {
        name: None,
        given: Given::nothing(alloc),
        expected: None,
        cut: None,
    };
    read_lines(alloc, shorthands, &mut draft, lines)?;
    let Draft {
        name,
        given,
        expected,
        cut,
    } = draft;
    let Some(name) = name else {
        return Ok(None);
    };
    match expected {
        Some(expected) => Ok(Some(Case {
            name,
            given,
            expected,
            cut,
        })),
        None => Err(Reason::NoOutcome.at(lines.first().map_or(0, |line| line.number))),
    }
}
