//! Calls on scripts.
//!
//! A command is shown by its word, what it holds, and its place.

ghost use Rattle.std.specs.Prelude.{◌≤◌, length};

use case_lines::{Fault, add, quoted, refused, text_of};
use edit_script::{Command, Step, read_script, read_steps};
use plain_types::HasReason;
use std::alloc::Global;

/// A word and a text between quotes.
fn holding(alloc: Global, word: &[u8], text: &[u8]) -> Result<Vec<u8>, Fault> {
    let mut out = word.to_vec(alloc)?;
    add(&mut out, b" ")?;
    add(&mut out, quoted(alloc, text)?.as_slice())?;
    Ok(out)
}

fn command(alloc: Global, command: &Command<'_>) -> Result<Vec<u8>, Fault> {
    let mut out = match command {
        Command::Add { text, .. } => holding(alloc, b"add", text)?,
        Command::Delete { name, .. } => holding(alloc, b"delete", name.bytes())?,
        Command::Move { name, dx, dy, .. } => {
            let mut out = holding(alloc, b"move", name.bytes())?;
            add(&mut out, format!(in alloc; " {dx} {dy}")?.as_bytes())?;
            out
        }
        Command::Rules { text, .. } => holding(alloc, b"rules", text)?,
        Command::Again { .. } => b"again".to_vec(alloc)?,
    };
    let at = command.at();
    add(&mut out, format!(in alloc; " at {at}")?.as_bytes())?;
    Ok(out)
}

fn step(alloc: Global, step: &Step<'_>) -> Result<Vec<u8>, Fault> {
    Ok(match step {
        Step::Edit(edit) => command(alloc, edit)?,
        Step::Undo { at } => format!(in alloc; "undo at {at}")?.into_bytes(),
        Step::Redo { at } => format!(in alloc; "redo at {at}")?.into_bytes(),
    })
}

/// Appends what is shown of one more, behind `|` where it is not the first.
fn add_shown(out: &mut Vec<u8>, shown: &[u8]) -> Result<(), Fault> {
    let bar: &[u8] = if out.is_empty() { b"" } else { b" | " };
    add(out, bar)?;
    add(out, shown)
}

/// What was shown, or `none`.
fn or_none(alloc: Global, out: Vec<u8>) -> Result<Vec<u8>, Fault> {
    if out.is_empty() {
        Ok(b"none".to_vec(alloc)?)
    } else {
        Ok(out)
    }
}

/// The commands of a script.
fn commands(alloc: Global, text: &[u8]) -> Result<Vec<u8>, Fault>
    requires { length text.now ≤ 33_554_432 }
{
    let commands = match read_script(alloc, text) {
        Ok(commands) => commands,
        Err(error) => return refused(alloc, &error, error.reason().place()),
    };
    let mut out = Vec::new(alloc);
    for one in &commands {
        add_shown(&mut out, command(alloc, one)?.as_slice())?;
    }
    or_none(alloc, out)
}

/// The steps of a script.
fn steps(alloc: Global, text: &[u8]) -> Result<Vec<u8>, Fault>
    requires { length text.now ≤ 33_554_432 }
{
    let steps = match read_steps(alloc, text) {
        Ok(steps) => steps,
        Err(error) => return refused(alloc, &error, error.reason().place()),
    };
    let mut out = Vec::new(alloc);
    for one in &steps {
        add_shown(&mut out, step(alloc, one)?.as_slice())?;
    }
    or_none(alloc, out)
}

/// The answer of the call of this name.
pub fn answer(alloc: Global, name: &str, written: &str) -> Result<Vec<u8>, Fault> {
    let text = text_of(alloc, written)?;
    if name == "read_script" {
        commands(alloc, &text)
    } else {
        steps(alloc, &text)
    }
}
