//! Outcomes of runs of a program, and how two of them differ.

ghost use Rattle.std.specs.Prelude.{◌≡◌, None, IfOk};

use std::alloc::{AllocError, Global};

/// The status that a program ends with and what it writes.
#[derive(Drop)]
pub struct Outcome {
    pub status: u8,
    pub text: Vec<u8>,
}

/// What comes up to the first line feed and with it, and the rest.
fn first_line(text: &[u8]) -> (&[u8], &[u8]) {
    let end = text.iter().position(|byte| *byte == b'\n');
    text.split_at(
        end.map_or(text.len(), |at| at.saturating_add(1))
            .min(text.len()),
    )
}

/// A line of what was found and of what was expected, which differ. Past the end a line is empty.
#[derive(Drop)]
struct Lines<'a> {
    number: usize,
    found: &'a [u8],
    expected: &'a [u8],
}

/// The first line in which the texts differ.
fn differing_line<'a>(found: &'a [u8], expected: &'a [u8]) -> Option<Lines<'a>> {
    let mut rest = (found, expected);
    for number in 1..usize::MAX {
        let (found, found_rest) = first_line(rest.0);
        let (expected, expected_rest) = first_line(rest.1);
        if found != expected {
            return Some(Lines {
                number,
                found,
                expected,
            });
        }
        if found.is_empty() {
            return None;
        }
        rest = (found_rest, expected_rest);
    }
    None
}

impl Lines<'_> {
    fn shown(&self, alloc: Global) -> Result<String, AllocError> {
        let number = self.number;
        let found = String::from_utf8_lossy(alloc, self.found)?;
        let expected = String::from_utf8_lossy(alloc, self.expected)?;
        format!(in alloc; "; line {number} is {found:?}, expected {expected:?}")
    }
}

/// What to say of an outcome that is not the one that was expected.
pub fn difference(
    alloc: Global,
    found: &Outcome,
    expected: &Outcome,
) -> Result<Option<String>, AllocError>
    ensures { IfOk result (λ answer. answer ≡ None → (found.now.status ≡ expected.now.status)
        × (found.now.text.items ≡ expected.now.text.items)) }
{
    if found.status == expected.status && found.text == expected.text {
        return Ok(None);
    }
    let status = found.status;
    let wanted = expected.status;
    let mut text = format!(in alloc; "status {status}, expected {wanted}")?;
    if let Some(lines) = differing_line(&found.text, &expected.text) {
        text.push_str(&lines.shown(alloc)?)?;
    }
    Ok(Some(text))
}
