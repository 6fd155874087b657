//! Calls on files, texts and names in memory.
//!
//! A text is shown as `"TEXT"`.

use case_lines::{Fault, add, first_word, number, quoted, text_of, told};
use drc_io::{Failed, MemShelf, MemSink, Name, fetch, put_all};
use std::alloc::Global;

/// The answer of the call of this name.
pub fn answer(alloc: Global, name: &str, written: &str) -> Result<Vec<u8>, Fault> {
    match name {
        "fetch" => fetched(alloc, written),
        "put_all" => put(alloc, written),
        "copy_name" => quoted(alloc, name_of(alloc, written)?.copy()?.bytes()),
        _ => are_same(alloc, written),
    }
}

/// The number in front, and what comes behind it.
fn counted(written: &str) -> Result<(u64, &str), Fault> {
    let (first, rest) = first_word(written);
    let count = u64::try_from(number(first)?).ok().ok_or(Fault::BadNumber)?;
    Ok((count, rest))
}

/// The name that is written, from bytes that are lent.
pub fn name_of(alloc: Global, written: &str) -> Result<Name, Fault> {
    let bytes = text_of(alloc, written)?;
    let text = std::str::from_utf8(&bytes).ok().ok_or(Fault::NotUtf8)?;
    Ok(Name::from_slice(alloc, text.as_bytes())?)
}

/// The name of a file that is written like this, made of bytes that are handed over.
fn owned_name(alloc: Global, written: &str) -> Result<Name, Fault> {
    let bytes = text_of(alloc, written)?;
    let text = std::str::from_utf8(&bytes).ok().ok_or(Fault::NotUtf8)?;
    Ok(Name::of(text.to_string(alloc)?.into_bytes()))
}

/// The files that are written, as a name and a text each, of which the read of this number fails.
fn shelf(alloc: Global, written: &str, fault: u64) -> Result<MemShelf, Fault> {
    let mut files = Vec::new(alloc);
    for file in written.split('|') {
        let (title, text) = first_word(file.trim());
        files.push((name_of(alloc, title)?, text_of(alloc, text)?))?;
    }
    Ok(MemShelf::new(files, vec![in alloc; fault]?))
}

/// What comes of a whole file, where a limit, the number of the read that fails, its name and all files are written.
fn fetched(alloc: Global, written: &str) -> Result<Vec<u8>, Fault> {
    let (asked, files) = written.split_once(" | ").ok_or(Fault::UnknownCall)?;
    let (limit, asked) = counted(asked)?;
    let (fault, name) = counted(asked)?;
    let limit = u32::try_from(limit).ok().ok_or(Fault::BadNumber)?;
    let mut shelf = shelf(alloc, files, fault)?;
    match fetch(alloc, &mut shelf, name, limit) {
        Ok(text) => quoted(alloc, &text),
        Err(error) => told(alloc, &error),
    }
}

/// What is written of a text, where the most of one write, the room, the number of the write that fails and the text are
/// written.
fn put(alloc: Global, written: &str) -> Result<Vec<u8>, Fault> {
    let (most, written) = counted(written)?;
    let (room, written) = counted(written)?;
    let (fault, written) = counted(written)?;
    if most == 0 || room > 1_000_000 {
        return Err(Fault::BadNumber);
    }
    let text = text_of(alloc, written)?;
    let fails = vec![in alloc; fault]?;
    let mut sink = MemSink::new(alloc, most as usize, room as usize, fails)?;
    let answer: &[u8] = match put_all(&mut sink, &text) {
        Ok(()) => b"ok ",
        Err(Failed) => b"failed ",
    };
    let mut out = answer.to_vec(alloc)?;
    add(&mut out, &quoted(alloc, sink.bytes())?)?;
    Ok(out)
}

/// Whether the copy of the name in front is the name behind it.
fn are_same(alloc: Global, written: &str) -> Result<Vec<u8>, Fault> {
    let (one, other) = first_word(written);
    let is_same = name_of(alloc, one)?.copy()? == owned_name(alloc, other)?;
    told(alloc, &is_same)
}
