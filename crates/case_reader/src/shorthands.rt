//! Texts as they are written in a file of cases.
//!
//! A text stands for its bytes, except for `$NAME`, which stands for a shorthand, and for the escapes `\n`, `\r`,
//! `\t`, `\s` for a space, `\\`, `\$` and `\xHH`.

use crate::fault::Reason;
use case_lines::first_word;
use std::alloc::Global;

/// A text of more bytes is not repeated.
const LONGEST: usize = 67_108_864;

/// Names and the texts that they stand for.
#[derive(Drop)]
pub struct Shorthands {
    entries: Vec<(String, Vec<u8>)>,
}

impl Shorthands {
    /// No names.
    pub fn new(alloc: Global) -> Shorthands {
        Shorthands {
            entries: Vec::new(alloc),
        }
    }

    fn find(&self, name: &[u8]) -> Option<&[u8]> {
        for (title, text) in self.entries.iter() {
            if title.as_bytes() == name {
                return Some(text);
            }
        }
        None
    }

    pub(crate) fn has(&self, name: &str) -> bool {
        self.find(name.as_bytes()).is_some()
    }

    pub(crate) fn define(&mut self, name: String, text: Vec<u8>) -> Result<(), Reason> {
        self.entries.push((name, text))?;
        Ok(())
    }

    /// Adds what the written text stands for.
    pub(crate) fn add(&self, text: &mut Vec<u8>, written: &str) -> Result<(), Reason> {
        let mut rest = written.as_bytes();
        // Each step takes a byte at least.
        for _ in 0..written.len() {
            rest = match rest {
                [] => break,
                [b'\\', others @ ..] => add_escaped(text, others)?,
                [b'$', others @ ..] => self.add_named(text, others)?,
                [byte, others @ ..] => {
                    text.push(*byte)?;
                    others
                }
            };
        }
        Ok(())
    }

    /// Adds the text of the name that stands in front, and gives what is behind the name.
    fn add_named<'a>(&self, text: &mut Vec<u8>, written: &'a [u8]) -> Result<&'a [u8], Reason> {
        let end = written.iter().position(|byte| !is_in_name(*byte));
        let (name, rest) = written.split_at(end.unwrap_or(written.len()).min(written.len()));
        text.extend_from_slice(self.find(name).ok_or(Reason::UnknownShorthand)?)?;
        Ok(rest)
    }
}

pub(crate) fn is_in_name(byte: u8) -> bool {
    byte.is_ascii_alphanumeric() || byte == b'_'
}

/// The digit's value.
fn hex(digit: u8) -> Result<u8, Reason> {
    match digit {
        b'0'..=b'9' => Ok(digit - b'0'),
        b'a'..=b'f' => Ok(digit - b'a' + 10),
        _ => Err(Reason::UnknownEscape),
    }
}

/// Adds the byte whose escape stands in front, behind its backslash, and gives what is behind it.
fn add_escaped<'a>(text: &mut Vec<u8>, written: &'a [u8]) -> Result<&'a [u8], Reason> {
    let (byte, rest) = match written {
        [b'n', rest @ ..] => (b'\n', rest),
        [b'r', rest @ ..] => (b'\r', rest),
        [b't', rest @ ..] => (b'\t', rest),
        [b's', rest @ ..] => (b' ', rest),
        [b'\\', rest @ ..] => (b'\\', rest),
        [b'$', rest @ ..] => (b'$', rest),
        [b'x', high, low, rest @ ..] => {
            (hex(*high)?.wrapping_mul(16).wrapping_add(hex(*low)?), rest)
        }
        _ => return Err(Reason::UnknownEscape),
    };
    text.push(byte)?;
    Ok(rest)
}

pub(crate) fn number(written: &str) -> Result<u64, Reason> {
    written.parse::<u64>().map_err(|_| Reason::BadNumber)
}

/// Adds a text as often as the number in front of it says.
pub(crate) fn add_times(
    alloc: Global,
    shorthands: &Shorthands,
    text: &mut Vec<u8>,
    written: &str,
) -> Result<(), Reason> {
    let (times, written) = first_word(written);
    let mut piece = Vec::new(alloc);
    shorthands.add(&mut piece, written)?;
    for _ in 0..number(times)? {
        if text.len() > LONGEST {
            return Err(Reason::TooLong);
        }
        text.extend_from_slice(&piece)?;
    }
    Ok(())
}
