//! How many cells a text will take, about. Nothing depends on it but where memory is taken.

use std::simd::prelude::*;

/// So many bytes are counted at the front of each piece, and so many has a piece.
const FRONT: usize = 1024;

const PIECE: usize = 16 * FRONT;

/// How many lists and words begin in a part of a text, strings taken for words. Each bit of the masks is a byte, 16 at a
/// time, and `apart` is the one before them.
fn begun(text: &[u8]) -> u32 {
    let (whole, _) = text.as_chunks::<16>();
    let mut begun = 0u32;
    let mut apart = 1u64;
    for bytes in whole {
        let lanes = u8x16::from_array(*bytes);
        let lists = lanes.simd_eq(u8x16::splat(b'(')).to_bitmask();
        let closed = lanes.simd_eq(u8x16::splat(b')')).to_bitmask();
        let now_apart = lists | closed | lanes.simd_le(u8x16::splat(b' ')).to_bitmask();
        let words = ((now_apart << 1) | apart) & !now_apart & 0xffff;
        begun = begun.wrapping_add(((lists << 16) | words).count_ones());
        apart = (now_apart >> 15) & 1;
    }
    begun
}

/// About how many lists and atoms a text has, told from the fronts of its pieces, with a sixteenth more. It is no more
/// than a third of the bytes.
pub(crate) fn about_cells(text: &[u8]) -> usize {
    let mut begun_in_prefixes = 0usize;
    for piece in text.chunks(PIECE) {
        let prefix = &piece[..piece.len().min(FRONT)];
        begun_in_prefixes = begun_in_prefixes.saturating_add(begun(prefix) as usize);
    }
    begun_in_prefixes
        .saturating_mul(PIECE / FRONT + 1)
        .min(text.len() / 3)
}
