//! What a pad is made for, its shape, and its frame.

use crate::sizes::{Drilling, Sizes};
use part_read::RawPoint;

/// What a pad is made for.
#[derive(Clone, Copy, Debug, PartialEq, Eq, Drop)]
pub enum PadType {
    ThruHole,
    Smd,
    Connect,
    NpThruHole,
}

/// The shape of a pad.
#[derive(Clone, Copy, Debug, PartialEq, Eq, Drop)]
pub enum PadWord {
    Circle,
    Rect,
    Oval,
    RoundRect,
    Custom,
}

/// How a pad is made, where it stands on the board, how many quarter turns it is turned, and how
/// large it and its hole are.
#[derive(Clone, Copy, Debug, PartialEq, Eq, Drop)]
pub struct Frame {
    pub pad_type: PadType,
    pub word: PadWord,
    pub at: RawPoint,
    pub quarter: u32,
    pub sizes: Sizes,
    pub drilling: Drilling,
}
