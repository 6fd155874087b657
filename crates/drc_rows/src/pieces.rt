//! Texts that go into a buffer piece by piece.

ghost use Rattle.std.specs.Prelude.{◌≡◌, ◌≤◌, ◌+◌, ◌++◌, [], ◌∷◌, true, false, length, unsigned_abs, MatchOption};
ghost use Rattle.std.specs.List.{flat_map};
ghost use Rattle.exact_dec.specs.MillimetreText.{mm_text};
ghost use Rattle.drc_rows.specs.Buffer.{Buffered, AreOwn, escaped, escaped_byte, named};

use crate::buffer::ReportBuffer;
use drc_io::{Failed, Sink};
use exact_dec::Nm;

/// Puts pieces into the buffer, one after another. `Failed` comes only where the sink's count of faults rose, and
/// then a prefix of what the buffer held and of the pieces was written.
#[inline(always)]
pub fn push_all<W: Sink>(
    buffer: &mut ReportBuffer,
    out: &mut W,
    pieces: &[&[u8]],
) -> Result<(), Failed>
    ensures { Buffered W.written W.faults out.old out.new buffer.old
        (flat_map (λ p. p.now) pieces.now) buffer.new result }
{
    for piece in pieces {
        buffer.push(out, piece)?;
    }
    Ok(())
}

/// A word and a name of at most so many bytes each go into the buffer at once.
const LONGEST: usize = 256;

/// Puts a word and a name in quotes into the buffer.
#[inline(always)]
pub(crate) fn push_quoted<W: Sink>(
    buffer: &mut ReportBuffer,
    out: &mut W,
    word: &[u8],
    name: &[u8],
) -> Result<(), Failed>
    ensures { Buffered W.written W.faults out.old out.new buffer.old
        (named word.now name.now) buffer.new result }
{
    if word.len() > LONGEST || name.len() > LONGEST || !is_plain(name) {
        return push_odd(buffer, out, word, name);
    }
    buffer.reserve_bytes(out, word.len() + name.len() + 3)?;
    append_quoted(buffer, word, name);
    Ok(())
}

/// Puts a word and a name in quotes into the buffer, where there is room and the name needs no backslash.
#[inline(always)]
fn append_quoted(buffer: &mut ReportBuffer, word: &[u8], name: &[u8])
    requires capacity { length buffer.old + (length word.now + length name.now + 3) ≤ 8192 }
    requires plain { escaped name.now ≡ name.now }
    ensures { buffer.new ≡ buffer.old ++ named word.now name.now }
{
    buffer.append(word);
    buffer.append(b" \"");
    buffer.append(name);
    buffer.append(b"\"");
}

/// Puts a word and a name in quotes into the buffer, where the name needs a backslash or one of them is long.
#[cold]
#[inline(never)]
fn push_odd<W: Sink>(
    buffer: &mut ReportBuffer,
    out: &mut W,
    word: &[u8],
    name: &[u8],
) -> Result<(), Failed>
    ensures { Buffered W.written W.faults out.old out.new buffer.old
        (named word.now name.now) buffer.new result }
{
    push_all(buffer, out, &[word, b" \""])?;
    push_bytes(buffer, out, name)?;
    buffer.push(out, b"\"")
}

/// Puts two lengths into the buffer, each behind a text of at most 64 bytes.
#[inline(always)]
pub(crate) fn push_lengths<W: Sink>(
    buffer: &mut ReportBuffer,
    out: &mut W,
    before: &[u8],
    first: Nm,
    between: &[u8],
    second: Nm,
) -> Result<(), Failed>
    requires before { length before.now ≤ 64 }
    requires first { unsigned_abs first ≤ 1000000000000 }
    requires between { length between.now ≤ 64 }
    requires second { unsigned_abs second ≤ 1000000000000 }
    ensures { Buffered W.written W.faults out.old out.new buffer.old
        (before.now ++ mm_text first ++ between.now ++ mm_text second) buffer.new result }
{
    buffer.reserve_bytes(out, before.len() + between.len() + 32)?;
    append_lengths(buffer, before, first, between, second);
    Ok(())
}

/// Puts two lengths into the buffer, each behind a text, where there is room.
#[inline(always)]
fn append_lengths(buffer: &mut ReportBuffer, before: &[u8], first: Nm, between: &[u8], second: Nm)
    requires first { unsigned_abs first ≤ 1000000000000 }
    requires second { unsigned_abs second ≤ 1000000000000 }
    requires capacity { length buffer.old + (length before.now + length between.now + 32) ≤ 8192 }
    ensures { buffer.new
        ≡ buffer.old ++ (before.now ++ mm_text first ++ between.now ++ mm_text second) }
{
    buffer.append(before);
    buffer.append_length(first);
    buffer.append(between);
    buffer.append_length(second);
}

/// How many bytes of a name are looked at together.
const STEP: usize = 16;

/// Whether each byte of a name stands for itself between quotes, as in nearly all names.
#[inline(never)]
fn is_plain(name: &[u8]) -> bool
    ensures { result ≡ true → escaped name.now ≡ name.now }
{
    if name.len() < STEP {
        is_short_plain(name)
    } else {
        is_long_plain(name)
    }
}

/// Whether each byte of a name of less than a step stands for itself between quotes.
fn is_short_plain(name: &[u8]) -> bool
    ensures { result ≡ true → escaped name.now ≡ name.now }
{
    for byte in name {
        if is_odd(*byte) {
            return false;
        }
    }
    true
}

/// Whether each byte of a name of a step or more stands for itself between quotes. It goes step by step, and the
/// last step ends with the name.
fn is_long_plain(name: &[u8]) -> bool
    requires { 16 ≤ length name.now }
    ensures { result ≡ true → escaped name.now ≡ name.now }
{
    let last = name.len() - STEP;
    let mut at = 0;
    'step: while at < name.len() {
        let from = at.min(last);
        if is_step_odd(&name[from..from + STEP]) {
            return false;
        }
        at += STEP;
    }
    true
}

/// Whether a byte of a step has a backslash before it. It looks at each byte, so that no byte is a branch.
#[inline(always)]
fn is_step_odd(step: &[u8]) -> bool
    requires { length step.now ≡ 16 }
    ensures { result ≡ false → AreOwn step.now 0 16 }
{
    let mut odd = false;
    for i in 0..STEP {
        odd |= is_odd(step[i]);
    }
    odd
}

/// Whether a byte has a backslash before it.
#[inline(always)]
fn is_odd(byte: u8) -> bool
    ensures { result ≡ false → escaped_byte byte ≡ byte ∷ [] }
{
    (byte == b'"') | (byte == b'\\') | (byte == b'\n') | (byte == b'\r')
}

/// Puts the bytes of a name into the buffer, one after another.
fn push_bytes<W: Sink>(buffer: &mut ReportBuffer, out: &mut W, name: &[u8]) -> Result<(), Failed>
    ensures { Buffered W.written W.faults out.old out.new buffer.old
        (escaped name.now) buffer.new result }
{
    for byte in name {
        push_byte(buffer, out, *byte)?;
    }
    Ok(())
}

/// Puts a byte of a name into the buffer.
fn push_byte<W: Sink>(buffer: &mut ReportBuffer, out: &mut W, byte: u8) -> Result<(), Failed>
    ensures { Buffered W.written W.faults out.old out.new buffer.old
        (escaped_byte byte) buffer.new result }
{
    match letter_of(byte) {
        Some(letter) => buffer.push(out, &[b'\\', letter]),
        None => buffer.push(out, &[byte]),
    }
}

/// What stands behind a backslash for a byte that has one.
fn letter_of(byte: u8) -> Option<u8>
    ensures { MatchOption result (escaped_byte byte ≡ byte ∷ [])
        (λ letter. escaped_byte byte ≡ 92 ∷ (letter ∷ [])) }
{
    match byte {
        b'"' => Some(b'"'),
        b'\\' => Some(b'\\'),
        b'\n' => Some(b'n'),
        b'\r' => Some(b'r'),
        _ => None,
    }
}
