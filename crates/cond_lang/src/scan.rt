//! Space, names, texts and numbers. A place is the length of the whole text less what is left of it.

ghost use Rattle.std.specs.Prelude.{◌≡◌, ◌≤◌, ◌+◌, ◌⊎◌, length, MatchResult, Some, None, MatchOption};
ghost use Rattle.std.specs.Prelude.{true, false, IsUtf8};
ghost use Rattle.std.specs.Str.{is_utf8};
ghost use Rattle.std.specs.Str.Lossy.{utf8_valid_len};
ghost use Rattle.plain_types.specs.Limits.{IsInText};
ghost use Rattle.cond_lang.specs.Found.{read, fault, place as place_of, stuck, byte as byte_of};
ghost use Rattle.cond_lang.specs.Signs.{is_blank as is_blank_byte, after_blanks, is_in_name as is_in_name_byte, is_letter as is_letter_byte, prefix_name, after_name, begins_name as begins_name_text, name as name_of, prefix_text, after_text, side as side_of, quoted as quoted_of, word_of};

use crate::error::CondError;
use crate::terms::{Func, Prop, Side};
use drc_io::Name;
use std::alloc::Global;

/// What a name means behind a side and a dot.
#[derive(Clone, Copy)]
pub(crate) enum Word {
    Property(Prop),
    Function(Func),
    Unknown,
}

/// What this name means there.
pub(crate) fn meaning(name: &[u8]) -> Word
    ensures { result ≡ word_of name.now }
{
    if name == b"Type".as_slice() {
        Word::Property(Prop::ItemType)
    } else if name == b"NetClass".as_slice() {
        Word::Property(Prop::NetClass)
    } else if name == b"NetName".as_slice() {
        Word::Property(Prop::NetName)
    } else if name == b"Width".as_slice() {
        Word::Property(Prop::Width)
    } else if name == b"Diameter".as_slice() {
        Word::Property(Prop::Diameter)
    } else if name == b"Hole".as_slice() {
        Word::Property(Prop::Hole)
    } else if name == b"existsOnLayer".as_slice() {
        Word::Function(Func::ExistsOnLayer)
    } else if name == b"isPlated".as_slice() {
        Word::Function(Func::IsPlated)
    } else if name == b"intersectsArea".as_slice() {
        Word::Function(Func::IntersectsArea)
    } else if name == b"insideArea".as_slice() {
        Word::Function(Func::IntersectsArea)
    } else if name == b"intersectsCourtyard".as_slice() {
        Word::Function(Func::IntersectsCourtyard)
    } else {
        Word::Unknown
    }
}

/// The place of what is left of a text of this length.
pub(crate) fn place(whole: usize, text: &[u8]) -> u32
    requires fits { IsInText whole }
    requires inside { length text.now ≤ whole }
    ensures { result ≡ place_of whole text.now }
{
    (whole - text.len()) as u32
}

/// Nothing goes on here.
pub(crate) fn stuck(whole: usize, text: &[u8]) -> CondError
    requires fits { IsInText whole }
    requires inside { length text.now ≤ whole }
    ensures { result ≡ CondError.Bad (place_of whole text.now) }
{
    CondError::Bad {
        at: place(whole, text),
    }
}

/// What is left behind this byte.
pub(crate) fn byte<'t>(whole: usize, wanted: u8, text: &'t [u8]) -> Result<&'t [u8], CondError>
    requires fits { IsInText whole }
    requires inside { length text.now ≤ whole }
    ensures found { MatchResult result
        (λ rest. byte_of whole wanted text.now ≡ read tt rest.now)
        (λ e. byte_of whole wanted text.now ≡ fault e) }
    ensures left { MatchResult result (λ rest. length rest.now ≤ length text.now) (λ _. Unit {0}) }
{
    match text {
        [first, rest @ ..] if *first == wanted => Ok(rest),
        _ => Err(stuck(whole, text)),
    }
}

fn is_blank(b: u8) -> bool
    ensures { result ≡ is_blank_byte b }
{
    b == b' ' || b == b'\t' || b == b'\n' || b == b'\r'
}

/// What is left behind the space at the front.
pub(crate) fn skip_blanks(text: &[u8]) -> &[u8]
    ensures value { result.now ≡ after_blanks text.now }
    ensures left { length result.now ≤ length text.now }
{
    let mut count = 0;
    'blanks: while count < text.len() && is_blank(text[count]) {
        count += 1;
    }
    &text[count..]
}

fn is_letter(b: u8) -> bool
    ensures { result ≡ is_letter_byte b }
{
    (b'A' <= b && b <= b'Z') || ((b'a' <= b && b <= b'z') || b == b'_')
}

fn is_in_name(b: u8) -> bool
    ensures { result ≡ is_in_name_byte b }
{
    is_letter(b) || (b'0' <= b && b <= b'9')
}

/// The longest run of letters, digits and `_` at the front, and what is left behind it.
fn split_name(text: &[u8]) -> (&[u8], &[u8])
    ensures prefix { result.0.now ≡ prefix_name text.now }
    ensures back { result.1.now ≡ after_name text.now }
    ensures left { length result.1.now ≤ length text.now }
{
    let mut count = 0;
    'signs: while count < text.len() && is_in_name(text[count]) {
        count += 1;
    }
    text.split_at(count)
}

fn begins_name(text: &[u8]) -> bool
    ensures { result ≡ begins_name_text text.now }
{
    match text {
        [first, ..] => is_letter(*first),
        [] => false,
    }
}

/// A name, and what is left behind it.
pub(crate) fn name<'t>(whole: usize, text: &'t [u8]) -> Result<(&'t [u8], &'t [u8]), CondError>
    requires fits { IsInText whole }
    requires inside { length text.now ≤ whole }
    ensures found { MatchResult result
        (λ p. name_of whole text.now ≡ read p.0.now p.1.now)
        (λ e. name_of whole text.now ≡ fault e) }
    ensures left { MatchResult result (λ p. length p.1.now ≤ length text.now) (λ _. Unit {0}) }
{
    if begins_name(text) {
        Ok(split_name(text))
    } else {
        Err(stuck(whole, text))
    }
}

/// A side, and what is left behind it.
#[tactic(auto, using(crate::proofs::Steps::then_read, crate::proofs::Steps::then_fault), unfolding(crate::specs::Signs::side))]
pub(crate) fn side<'t>(whole: usize, text: &'t [u8]) -> Result<(Side, &'t [u8]), CondError>
    requires fits { IsInText whole }
    requires inside { length text.now ≤ whole }
    ensures found { MatchResult result
        (λ p. side_of whole text.now ≡ read p.0 p.1.now)
        (λ e. side_of whole text.now ≡ fault e) }
    ensures left { MatchResult result (λ p. length p.1.now ≤ length text.now) (λ _. Unit {0}) }
{
    let (word, rest) = name(whole, text)?;
    if word == b"A".as_slice() {
        return Ok((Side::A, rest));
    }
    if word == b"B".as_slice() {
        return Ok((Side::B, rest));
    }
    Err(CondError::UnknownName {
        at: place(whole, text),
    })
}

/// What stands before the first quote, and what is left from it on.
fn split_text(text: &[u8]) -> (&[u8], &[u8])
    ensures prefix { result.0.now ≡ prefix_text text.now }
    ensures back { result.1.now ≡ after_text text.now }
    ensures left { length result.1.now ≤ length text.now }
    ensures whole { length result.0.now ≤ length text.now }
    ensures parted { length result.0.now + length result.1.now ≡ length text.now }
{
    let mut count = 0;
    'signs: while count < text.len() && text[count] != b'\'' {
        count += 1;
    }
    text.split_at(count)
}

/// How many bytes stand before the first that is no UTF-8, if there is one.
#[tactic(auto, using(crate::proofs::Utf8::passes, crate::proofs::Utf8::fails))]
fn ill_formed(bytes: &[u8]) -> Option<usize>
    ensures value { MatchOption result
        (is_utf8 bytes.now ≡ true)
        (λ k. (is_utf8 bytes.now ≡ false) × (k ≡ utf8_valid_len bytes.now)) }
    ensures inside { MatchOption result (IsUtf8 bytes.now) (λ k. k ≤ length bytes.now) }
{
    match std::str::from_utf8(bytes) {
        Ok(_) => None,
        Err(e) => Some(e.valid_up_to()),
    }
}

/// The text behind its first quote, and what is left behind the other quote.
#[tactic(auto, using(crate::proofs::Steps::then_read, crate::proofs::Steps::then_fault), unfolding(crate::specs::Signs::quoted))]
pub(crate) fn quoted<'t>(
    alloc: Global,
    whole: usize,
    text: &'t [u8],
) -> Result<(Name, &'t [u8]), CondError>
    requires fits { IsInText whole }
    requires inside { length text.now ≤ whole }
    ensures found { MatchResult result
        (λ p. quoted_of whole text.now ≡ read p.0 p.1.now)
        (λ e. (e ≡ CondError.OutOfMemory) ⊎ (quoted_of whole text.now ≡ fault e)) }
    ensures left { MatchResult result (λ p. length p.1.now ≤ length text.now) (λ _. Unit {0}) }
{
    let (signs, quote) = split_text(text);
    match ill_formed(signs) {
        None => {
            let rest = byte(whole, b'\'', quote)?;
            let bytes = signs.to_vec(alloc)?;
            Ok((Name::of(bytes), rest))
        }
        Some(k) => Err(CondError::Bad {
            at: place(whole, text) + k as u32,
        }),
    }
}
