//! Calls on S-expressions.
//!
//! A list is shown as `(AT-END PART ..)`, a word as `WORD@AT-END`, and a string as `"TEXT"@AT-END` with its escapes
//! read.

ghost use Rattle.std.specs.Prelude.{◌≤◌, length};

use case_lines::{Fault, add, first_word, quoted, refused, text_of, told};
use plain_types::HasReason;
use sexpr_read::{Doc, Node, parse_all, parse_one};
use std::alloc::Global;

/// The answer of the call of this name.
pub fn answer(alloc: Global, name: &str, written: &str) -> Result<Vec<u8>, Fault> {
    match name {
        "parse_one" | "parse_all" => shown(alloc, name, &text_of(alloc, written)?),
        _ => asked(alloc, name, written),
    }
}

/// The tree of a text, or why it has none.
fn shown(alloc: Global, name: &str, text: &[u8]) -> Result<Vec<u8>, Fault>
    requires { length text.now ≤ 33_554_432 }
{
    let answer = if name == "parse_one" {
        parse_one(alloc, text)
    } else {
        parse_all(alloc, text)
    };
    match answer {
        Ok(doc) => tree(alloc, text.len(), &doc),
        Err(error) => refused(alloc, &error, error.reason().place()),
    }
}

/// The tree of a text of so many bytes.
fn tree(alloc: Global, bytes: usize, doc: &Doc<'_>) -> Result<Vec<u8>, Fault> {
    let mut out = Vec::new(alloc);
    begin(alloc, &mut out, doc.root())?;
    let mut open = Vec::new(alloc);
    open.push(doc.root().children())?;
    // A step shows a part, of which each takes a byte at least, or ends a list.
    for _ in 0..bytes.saturating_mul(2).saturating_add(2) {
        let Some(mut parts) = open.pop() else { break };
        let Some(part) = parts.next() else {
            out.push(b')')?;
            continue;
        };
        open.push(parts)?;
        out.push(b' ')?;
        begin(alloc, &mut out, part)?;
        if part.is_list() {
            open.push(part.children())?;
        }
    }
    Ok(out)
}

/// An atom, or how a list begins.
fn begin(alloc: Global, out: &mut Vec<u8>, node: Node<'_, '_>) -> Result<(), Fault> {
    let at = node.span().at;
    let end = node.span().end;
    let span = if node.is_list() {
        format!(in alloc; "({at}-{end}")?
    } else {
        atom(out, node)?;
        format!(in alloc; "@{at}-{end}")?
    };
    add(out, span.as_bytes())
}

fn atom(out: &mut Vec<u8>, node: Node<'_, '_>) -> Result<(), Fault> {
    let quote: &[u8] = if node.quoted() { b"\"" } else { b"" };
    add(out, quote)?;
    node.value(out)?;
    add(out, quote)
}

/// What is asked of the first part of the list that the text behind the first word is.
fn asked(alloc: Global, name: &str, written: &str) -> Result<Vec<u8>, Fault> {
    let (given, list) = first_word(written);
    let given = text_of(alloc, given)?;
    let text = text_of(alloc, list)?;
    match parse_one(alloc, &text) {
        Ok(doc) => first_part(alloc, name, given, &doc),
        Err(error) => refused(alloc, &error, error.reason().place()),
    }
}

/// Whether the first part stands for the text that is given, or what it stands for behind that text.
fn first_part(alloc: Global, name: &str, given: Vec<u8>, doc: &Doc<'_>) -> Result<Vec<u8>, Fault> {
    let Some(first) = doc.root().children().next() else {
        return Ok(b"none".to_vec(alloc)?);
    };
    if name == "is" {
        return told(alloc, &first.is(&given));
    }
    let mut text = given;
    first.value(&mut text)?;
    quoted(alloc, &text)
}
