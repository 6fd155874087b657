//! Texts as they are written in a file of cases.
//!
//! A text stands for its bytes, except for the escapes `\n`, `\r`, `\t`, `\s` for a space, `\\`, `\xHH`, and
//! `\[N TEXT\]` for N times the text.

ghost use Rattle.std.specs.Prelude.{◌≡◌, ◌<◌, ◌≤◌, ◌-◌, Ok, IfOk, length};

use crate::fault::Fault;
use std::alloc::Global;
use std::fmt;

/// The longest text that a call is given.
const LONGEST: usize = 33_554_432;

/// What comes up to the first space, and what comes behind it.
pub fn first_word(written: &str) -> (&str, &str) {
    written.split_once(' ').unwrap_or((written, ""))
}

/// Appends the bytes.
pub fn add(out: &mut Vec<u8>, bytes: &[u8]) -> Result<(), Fault> {
    out.extend_from_slice(bytes)?;
    Ok(())
}

/// The text as `"TEXT"`.
pub fn quoted(alloc: Global, text: &[u8]) -> Result<Vec<u8>, Fault> {
    let mut out = b"\"".to_vec(alloc)?;
    add(&mut out, text)?;
    add(&mut out, b"\"")?;
    Ok(out)
}

/// The answer as it is printed.
pub fn told<T: fmt::Display>(alloc: Global, answer: &T) -> Result<Vec<u8>, Fault> {
    Ok(format!(in alloc; "{answer}")?.into_bytes())
}

/// A refusal with its place. One without a place is running out of memory.
pub fn refused<E: fmt::Display>(
    alloc: Global,
    error: &E,
    place: Option<u32>,
) -> Result<Vec<u8>, Fault> {
    match place {
        Some(at) => Ok(format!(in alloc; "{error} at {at}")?.into_bytes()),
        None => Err(Fault::OutOfMemory),
    }
}

/// A text that is being read, and of what is to be repeated where it begins and how often.
#[derive(Drop)]
struct Text {
    alloc: Global,
    bytes: Vec<u8>,
    repeated: Option<(usize, u64)>,
}

impl Text {
    /// Reads what stands in front, and gives what is behind it.
    fn read<'a>(&mut self, written: &'a [u8]) -> Result<&'a [u8], Fault> {
        match written {
            [b'\\', b'[', rest @ ..] => self.open(rest),
            [b'\\', b']', rest @ ..] => {
                self.close()?;
                Ok(rest)
            }
            [b'\\', rest @ ..] => {
                let (byte, rest) = escaped(rest)?;
                self.bytes.push(byte)?;
                Ok(rest)
            }
            [byte, rest @ ..] => {
                self.bytes.push(*byte)?;
                Ok(rest)
            }
            [] => Ok(written),
        }
    }

    fn open<'a>(&mut self, written: &'a [u8]) -> Result<&'a [u8], Fault> {
        let written = std::str::from_utf8(written)
            .ok()
            .ok_or(Fault::UnknownEscape)?;
        let (times, rest) = written.split_once(' ').ok_or(Fault::UnknownEscape)?;
        let times = times.parse::<u64>().ok().ok_or(Fault::BadNumber)?;
        self.repeated = Some((self.bytes.len(), times));
        Ok(rest.as_bytes())
    }

    fn close(&mut self) -> Result<(), Fault> {
        let (from, times) = self.repeated.take().ok_or(Fault::UnknownEscape)?;
        let piece = self.bytes.get(from..).unwrap_or(&[]).to_vec(self.alloc)?;
        for _ in 1..times {
            if self.bytes.len() > LONGEST {
                return Err(Fault::TooLong);
            }
            self.bytes.extend_from_slice(&piece)?;
        }
        Ok(())
    }
}

/// What a written text stands for, of at most 33,554,432 bytes.
pub fn text_of(alloc: Global, written: &str) -> Result<Vec<u8>, Fault>
    ensures { IfOk result (λ text. length text.items ≤ 33_554_432) }
{
    let mut text = Text {
        alloc,
        bytes: Vec::new(alloc),
        repeated: None,
    };
    let mut rest = written.as_bytes();
    // Each step takes a byte at least.
    for _ in 0..written.len() {
        rest = text.read(rest)?;
    }
    if text.bytes.len() > LONGEST {
        return Err(Fault::TooLong);
    }
    Ok(text.bytes)
}

/// The digit's value.
fn hex(digit: u8) -> Result<u8, Fault>
    ensures digits { 48 ≤ digit → digit ≤ 57 → result ≡ Ok (digit - 48) }
    ensures letters { 97 ≤ digit → digit ≤ 102 → result ≡ Ok (digit - 87) }
    ensures within { IfOk result (λ value. value < 16) }
{
    match digit {
        b'0'..=b'9' => Ok(digit - b'0'),
        b'a'..=b'f' => Ok(digit - b'a' + 10),
        _ => Err(Fault::UnknownEscape),
    }
}

/// The byte whose escape stands in front, behind its backslash, and what is behind it.
fn escaped(written: &[u8]) -> Result<(u8, &[u8]), Fault> {
    Ok(match written {
        [b'n', rest @ ..] => (b'\n', rest),
        [b'r', rest @ ..] => (b'\r', rest),
        [b't', rest @ ..] => (b'\t', rest),
        [b's', rest @ ..] => (b' ', rest),
        [b'\\', rest @ ..] => (b'\\', rest),
        [b'x', high, low, rest @ ..] => {
            (hex(*high)?.wrapping_mul(16).wrapping_add(hex(*low)?), rest)
        }
        _ => return Err(Fault::UnknownEscape),
    })
}
