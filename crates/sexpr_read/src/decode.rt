//! What the content of a string stands for, its escapes read.

ghost use Rattle.std.specs.Prelude.{◌≡◌, ◌<◌, ◌++◌, ◌∷◌, ◌↔◌, [], length, IsTrue, OnOk, OnErr, MatchOption, ⊤};
ghost use Rattle.sexpr_read.specs.Tree.{unescaped, meant};
ghost use Rattle.sexpr_read.specs.TextEndings.{ends_in};

use std::alloc::AllocError;

/// What a byte after a backslash stands for.
fn meant(byte: u8) -> u8
    ensures { result ≡ meant byte }
{
    match byte {
        b'n' => b'\n',
        b'r' => b'\r',
        _ => byte,
    }
}

/// The first byte that the content of a string stands for, and the content behind it.
#[tactic(auto, unfolding(crate::specs::Tree::unescaped))]
fn first_meant(content: &[u8]) -> Option<(u8, &[u8])>
    ensures value { MatchOption result (unescaped content.now ≡ [])
        (λ first. unescaped content.now ≡ first.0 ∷ unescaped first.1.now) }
    ensures shorter { MatchOption result ⊤ (λ first. length first.1.now < length content.now) }
{
    let (first, after) = content.split_first()?;
    if *first == b'\\' {
        if let Some((escaped, rest)) = after.split_first() {
            return Some((meant(*escaped), rest));
        }
    }
    Some((*first, after))
}

/// Whether the content of a string stands for `text`.
pub(crate) fn is_unescaped(content: &[u8], text: &[u8]) -> bool
    ensures { IsTrue result ↔ (unescaped content.now ≡ text.now) }
{
    let mut content = content;
    let mut text = text;
    while let Some((byte, rest)) = first_meant(content) {
        let Some((first, after)) = text.split_first() else {
            return false;
        };
        if *first != byte {
            return false;
        }
        content = rest;
        text = after;
    }
    text.is_empty()
}

/// Appends what the content of a string stands for, or leaves `out` as it was.
pub(crate) fn append_unescaped(out: &mut Vec<u8>, content: &[u8]) -> Result<(), AllocError>
    ensures ok { OnOk result (out.new.items ≡ out.old.items ++ unescaped content.now) }
    ensures err { OnErr result (out.new.items ≡ out.old.items) }
{
    let before = out.len();
    let mut content = content;
    while let Some((byte, rest)) = first_meant(content) {
        if out.push(byte).is_err() {
            out.truncate(before);
            return Err(AllocError);
        }
        content = rest;
    }
    Ok(())
}

/// Whether a text ends in `tail`.
pub(crate) fn ends_plain(content: &[u8], tail: &[u8]) -> bool
    ensures { result ≡ ends_in tail.now content.now }
{
    let mut content = content;
    while let Some((_, rest)) = content.split_first() {
        if content == tail {
            return true;
        }
        content = rest;
    }
    tail.is_empty()
}

/// Whether what the content of a string stands for ends in `tail`.
pub(crate) fn ends_unescaped(content: &[u8], tail: &[u8]) -> bool
    ensures { result ≡ ends_in tail.now (unescaped content.now) }
{
    let mut content = content;
    while let Some((_, rest)) = first_meant(content) {
        if is_unescaped(content, tail) {
            return true;
        }
        content = rest;
    }
    tail.is_empty()
}
