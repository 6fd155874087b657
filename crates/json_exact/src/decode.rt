//! What the bytes between the quotes of a string stand for.

ghost use Rattle.std.specs.Prelude.{◌≡◌, ◌+◌, ◌<◌, ◌≤◌, ◌++◌, length, take, drop, IsTrue, MatchResult};
ghost use Rattle.std.specs.Char.{encode_utf8};
ghost use Rattle.json_exact.specs.Characters.{hex_value, code_unit, short_value, decoded};
ghost use Rattle.json_exact.specs.ByteComparisons.{same_bytes, begins_with, piece_bytes, Prefixes};

use std::alloc::AllocError;

/// Up to four bytes, and how many bytes they are written with.
#[derive(Clone, Copy, Drop)]
struct Piece {
    bytes: [u8; 4],
    len: usize,
    used: usize,
}

impl Piece {
    fn bytes(&self) -> &[u8]
        requires { self.now.len ≤ 4 }
        ensures { result.now ≡ piece_bytes self.now }
    {
        &self.bytes[..self.len]
    }
}

fn hex_value(b: u8) -> u32
    ensures value { result ≡ hex_value b }
    ensures bound { result ≤ 168 }
{
    if b < 65 {
        u32::from(b.saturating_sub(48))
    } else if b < 97 {
        u32::from(b - 55)
    } else {
        u32::from(b - 87)
    }
}

/// The number of four hexadecimal digits.
fn code_unit(a: u8, b: u8, c: u8, d: u8) -> u32
    ensures value { result ≡ code_unit a b c d }
    ensures bound { result ≤ 733992 }
{
    hex_value(a) * 4096 + (hex_value(b) * 256 + (hex_value(c) * 16 + hex_value(d)))
}

/// What an escape of two bytes stands for, by its letter.
fn short_value(b: u8) -> u8
    ensures { result ≡ short_value b }
{
    match b {
        b'b' => 8,
        b'f' => 12,
        b'n' => 10,
        b'r' => 13,
        b't' => 9,
        _ => b,
    }
}

/// The UTF-8 of a character, written with `used` bytes.
fn encoded(code: u32, used: usize) -> Piece
    requires { code < 4194304 }
    ensures bytes { piece_bytes result ≡ encode_utf8 code }
    ensures fits { result.len ≤ 4 }
    ensures size { length (piece_bytes result) ≡ result.len }
    ensures used { result.used ≡ used }
{
    let last = (128 + code % 64) as u8;
    if code < 128 {
        Piece {
            bytes: [code as u8, 0, 0, 0],
            len: 1,
            used,
        }
    } else if code < 2048 {
        Piece {
            bytes: [(192 + code / 64) as u8, last, 0, 0],
            len: 2,
            used,
        }
    } else if code < 65536 {
        let third = (128 + code / 64 % 64) as u8;
        Piece {
            bytes: [(224 + code / 4096) as u8, third, last, 0],
            len: 3,
            used,
        }
    } else {
        let third = (128 + code / 64 % 64) as u8;
        let second = (128 + code / 4096 % 64) as u8;
        Piece {
            bytes: [(240 + code / 262144) as u8, second, third, last],
            len: 4,
            used,
        }
    }
}

/// What the character at the front stands for.
fn prefix(raw: &[u8]) -> Piece
    requires { 0 < length raw.now }
    ensures { Prefixes raw.now result }
{
    let first = raw[0];
    if first != b'\\' {
        return Piece {
            bytes: [first, 0, 0, 0],
            len: 1,
            used: 1,
        };
    }
    if raw.len() < 2 {
        return Piece {
            bytes: [0; 4],
            len: 0,
            used: 1,
        };
    }
    let second = raw[1];
    if second != b'u' {
        return Piece {
            bytes: [short_value(second), 0, 0, 0],
            len: 1,
            used: 2,
        };
    }
    if raw.len() < 6 {
        return Piece {
            bytes: [0; 4],
            len: 0,
            used: raw.len(),
        };
    }
    let unit = code_unit(raw[2], raw[3], raw[4], raw[5]);
    if unit < 0xd800 || 0xdbff < unit {
        return encoded(unit, 6);
    }
    if raw.len() < 12 {
        return Piece {
            bytes: [0; 4],
            len: 0,
            used: raw.len(),
        };
    }
    let low = code_unit(raw[8], raw[9], raw[10], raw[11]);
    encoded(
        0x10000 + ((unit - 0xd800) * 1024 + low.saturating_sub(0xdc00)),
        12,
    )
}

/// What stands from a place on.
fn behind(raw: &[u8], at: usize) -> &[u8]
    requires { at ≤ length raw.now }
    ensures { result.now ≡ drop at raw.now }
{
    &raw[at..]
}

/// Appends the characters.
pub(crate) fn append(raw: &[u8], out: &mut Vec<u8>) -> Result<(), AllocError>
    ensures { MatchResult result (λ _. out.new.items ≡ out.old.items ++ decoded raw.now)
        (λ _. take (length out.old.items) out.new.items ≡ out.old.items) }
{
    let mut i = 0;
    'characters: while i < raw.len() {
        let piece = prefix(behind(raw, i));
        out.extend_from_slice(piece.bytes())?;
        i += piece.used;
    }
    Ok(())
}

/// Whether the text begins with these bytes.
fn begins_with(text: &[u8], prefix: &[u8]) -> bool
    ensures value { result ≡ begins_with prefix.now text.now }
    ensures fits { IsTrue result → length prefix.now ≤ length text.now }
{
    if text.len() < prefix.len() {
        return false;
    }
    'bytes: for i in 0..prefix.len() {
        if prefix[i] != text[i] {
            return false;
        }
    }
    true
}

/// Whether the characters are those of the name.
pub(crate) fn spells(raw: &[u8], name: &[u8]) -> bool
    ensures { result ≡ same_bytes (decoded raw.now) name.now }
{
    let mut i = 0;
    let mut j = 0;
    'characters: while i < raw.len() {
        let piece = prefix(behind(raw, i));
        if !begins_with(behind(name, j), piece.bytes()) {
            return false;
        }
        i += piece.used;
        j += piece.len;
    }
    j == name.len()
}
