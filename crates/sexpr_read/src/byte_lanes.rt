//! Runs of bytes of a text, looked at 16 at a time.

ghost use Rattle.std.specs.Prelude.{◌≡◌, ◌+◌, ◌<◌, ◌≤◌, ◌==◌, if◌then◌else◌, ℕ, true, length};
ghost use Rattle.std.specs.Int.{w64, trailing_zeros};
ghost use Rattle.sexpr_read.specs.ByteClasses.{sign_of, is_word, is_itself};

use std::simd::prelude::*;

/// How many bytes are looked at together.
const STEP: usize = 16;

/// How many of the bytes of a step come before the first whose bit is set.
#[inline(always)]
fn before_first(mask: u64) -> usize
    ensures { result ≡ (if mask == 0 then 16 else trailing_zeros w64 mask) }
{
    if mask == 0 {
        STEP
    } else {
        mask.trailing_zeros() as usize
    }
}

/// How many of the 16 bytes from here on come before the first that may end a word. Each byte that ends one is at most
/// `)`, and few others are.
#[inline(always)]
fn word_bytes(text: &[u8], at: usize) -> usize
    requires { at + 16 ≤ length text.now }
    ensures within { result ≤ 16 }
    ensures each { (i : ℕ) → at ≤ i → i < at + result → is_word (sign_of text.now i) ≡ true }
{
    let lanes = u8x16::from_slice(&text[at..]);
    before_first(lanes.simd_le(u8x16::splat(b')')).to_bitmask())
}

/// A place up to which all bytes from `from` on are those of a word. Mostly the word ends there.
#[inline(always)]
pub(crate) fn word_prefix_end(text: &[u8], from: usize) -> usize
    requires { from ≤ length text.now }
    ensures ordered { from ≤ result }
    ensures within { result ≤ length text.now }
    ensures each { (i : ℕ) → from ≤ i → i < result → is_word (sign_of text.now i) ≡ true }
{
    let mut end = from;
    'steps: while text.len() - end >= STEP {
        let count = word_bytes(text, end);
        if count < STEP {
            return end + count;
        }
        end += STEP;
    }
    end
}

/// How many of the 16 bytes from here on come before the first quote or backslash.
#[inline(always)]
fn itself_bytes(text: &[u8], at: usize) -> usize
    requires { at + 16 ≤ length text.now }
    ensures within { result ≤ 16 }
    ensures each { (i : ℕ) → at ≤ i → i < at + result → is_itself (sign_of text.now i) ≡ true }
{
    let lanes = u8x16::from_slice(&text[at..]);
    let ends = lanes.simd_eq(u8x16::splat(b'"')) | lanes.simd_eq(u8x16::splat(b'\\'));
    before_first(ends.to_bitmask())
}

/// A place up to which all bytes from `from` on stand for themselves in a string. Mostly the string ends there.
#[inline(always)]
pub(crate) fn itself_end(text: &[u8], from: usize) -> usize
    requires { from ≤ length text.now }
    ensures ordered { from ≤ result }
    ensures within { result ≤ length text.now }
    ensures each { (i : ℕ) → from ≤ i → i < result → is_itself (sign_of text.now i) ≡ true }
{
    let mut end = from;
    'steps: while text.len() - end >= STEP {
        let count = itself_bytes(text, end);
        if count < STEP {
            return end + count;
        }
        end += STEP;
    }
    end
}
