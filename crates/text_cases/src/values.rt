//! Calls on JSON.
//!
//! A list is shown as `[AT-END VALUE ..]`, an object as `{AT-END}`, a number by its digits, a string as `"TEXT"` with its
//! escapes read, `null` so and the other words as `word`, each of these with `@AT-END` behind it.

use case_lines::{Fault, add, crosses_threads, first_word, quoted, refused, text_of};
use json_exact::{Json, Value, parse};
use plain_types::HasReason;
use std::alloc::Global;

/// The answer of the call of this name.
pub fn answer(alloc: Global, name: &str, written: &str) -> Result<Vec<u8>, Fault> {
    let (given, text) = if name == "json" {
        ("", written)
    } else {
        first_word(written)
    };
    let given = text_of(alloc, given)?;
    let text = text_of(alloc, text)?;
    match parse(alloc, &text) {
        Ok(json) => said(alloc, name, given, text.len(), &json),
        Err(error) => refused(alloc, &error, error.reason().place()),
    }
}

/// What is asked of the value of a text of so many bytes.
fn said(
    alloc: Global,
    name: &str,
    given: Vec<u8>,
    bytes: usize,
    json: &Json<'_>,
) -> Result<Vec<u8>, Fault> {
    crosses_threads(json);
    match name {
        "json" => value(alloc, bytes, json.root()),
        "json_member" => member(alloc, &given, bytes, json.root()),
        _ => first_text(alloc, given, json.root()),
    }
}

/// The first member of this name.
fn member(
    alloc: Global,
    name: &[u8],
    bytes: usize,
    object: Value<'_, '_>,
) -> Result<Vec<u8>, Fault> {
    match object.get(name) {
        Some(member) => value(alloc, bytes, member),
        None => Ok(b"none".to_vec(alloc)?),
    }
}

/// A value of a text of so many bytes.
fn value(alloc: Global, bytes: usize, value: Value<'_, '_>) -> Result<Vec<u8>, Fault> {
    let mut out = Vec::new(alloc);
    begin(alloc, &mut out, value)?;
    let mut open = Vec::new(alloc);
    if value.is_list() {
        open.push(value.items())?;
    }
    // A step shows a value, of which each takes a byte at least, or ends a list.
    for _ in 0..bytes.saturating_mul(2).saturating_add(2) {
        let Some(mut items) = open.pop() else { break };
        let Some(item) = items.next() else {
            out.push(b']')?;
            continue;
        };
        open.push(items)?;
        out.push(b' ')?;
        begin(alloc, &mut out, item)?;
        if item.is_list() {
            open.push(item.items())?;
        }
    }
    Ok(out)
}

/// A value, or how a list begins.
fn begin(alloc: Global, out: &mut Vec<u8>, value: Value<'_, '_>) -> Result<(), Fault> {
    let at = value.span().at;
    let end = value.span().end;
    let span = if value.is_list() {
        format!(in alloc; "[{at}-{end}")?
    } else if value.is_object() {
        format!(in alloc; "{{{at}-{end}}}")?
    } else {
        leaf(alloc, out, value)?;
        format!(in alloc; "@{at}-{end}")?
    };
    add(out, span.as_bytes())
}

fn leaf(alloc: Global, out: &mut Vec<u8>, value: Value<'_, '_>) -> Result<(), Fault> {
    if let Some(digits) = value.number() {
        return add(out, digits);
    }
    let mut text = Vec::new(alloc);
    if value.text(&mut text)? {
        return add(out, &quoted(alloc, &text)?);
    }
    add(out, if value.is_null() { b"null" } else { b"word" })
}

/// Whether the first value of a list is a string, and what is then behind the text that is given.
fn first_text(alloc: Global, given: Vec<u8>, list: Value<'_, '_>) -> Result<Vec<u8>, Fault> {
    crosses_threads(&list);
    let Some(first) = list.items().next() else {
        return Ok(b"none".to_vec(alloc)?);
    };
    let mut text = given;
    let answer: &[u8] = if first.text(&mut text)? {
        b"string "
    } else {
        b"other "
    };
    let mut out = answer.to_vec(alloc)?;
    add(&mut out, &quoted(alloc, &text)?)?;
    Ok(out)
}
