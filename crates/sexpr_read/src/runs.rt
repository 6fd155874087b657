//! Where a run of space, a word and a string end.

ghost use Rattle.std.specs.Prelude.{◌≡◌, ◌≢◌, ◌<◌, ◌≤◌, length, true, MatchOption, ⊤};
ghost use Rattle.sexpr_read.specs.declared.bytes.ByteClass.TheVariants.{Space, Quote};
ghost use Rattle.sexpr_read.specs.ByteClasses.{sign_of, is_word};
ghost use Rattle.sexpr_read.specs.Spelling.{IsSpaceBetween, IsWord, IsContent};
ghost use Rattle.sexpr_read.specs.ReaderProgress.{IsUnclosed};

use crate::byte_lanes::{itself_end, word_prefix_end};
use crate::bytes::{ByteClass, sign_at};

/// Where the space from `at` on ends.
#[inline(always)]
pub(crate) fn gap_end(text: &[u8], at: usize) -> usize
    requires { at ≤ length text.now }
    ensures gap { IsSpaceBetween (sign_of text.now) at result }
    ensures within { result ≤ length text.now }
    ensures stops { result < length text.now → sign_of text.now result ≢ Space }
{
    let mut end = at;
    while end < text.len() {
        match sign_at(text, end) {
            ByteClass::Space => end += 1,
            _ => return end,
        }
    }
    end
}

/// Where the word at `at` ends.
pub(crate) fn word_end(text: &[u8], at: usize) -> usize
    requires within { at < length text.now }
    requires begins { is_word (sign_of text.now at) ≡ true }
    ensures word { IsWord (sign_of text.now) at result }
    ensures within { result ≤ length text.now }
{
    let mut end = word_prefix_end(text, at + 1);
    while end < text.len() {
        match sign_at(text, end) {
            ByteClass::Backslash | ByteClass::Plain => end += 1,
            _ => return end,
        }
    }
    end
}

/// The place of the quote that ends the string whose content begins at `at`, or `None` where the text ends first.
pub(crate) fn string_end(text: &[u8], at: usize) -> Option<usize>
    requires { at ≤ length text.now }
    ensures content { MatchOption result (IsUnclosed (sign_of text.now) at (length text.now))
        (λ close. IsContent (sign_of text.now) at close) }
    ensures quote { MatchOption result ⊤ (λ close. sign_of text.now close ≡ Quote) }
    ensures within { MatchOption result ⊤ (λ close. (at ≤ close) × (close < length text.now)) }
{
    let mut end = itself_end(text, at);
    while end < text.len() {
        match sign_at(text, end) {
            ByteClass::Quote => return Some(end),
            ByteClass::Backslash => {
                if end + 1 == text.len() {
                    return None;
                }
                end += 2;
            }
            _ => end += 1,
        }
    }
    None
}
