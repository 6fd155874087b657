//! Limits that more than one crate speaks of.

/// The most bytes of a text that is read, and so the greatest place in one: 32 MiB.
pub const MOST_TEXT: usize = 33_554_432;

/// The most workers.
pub const MOST_WORKERS: usize = 64;

/// The most items of a board.
pub const MOST_ITEMS: usize = 200_000;

/// The most tiles of a board: 125 columns and as many rows.
pub const MOST_TILES: usize = 15_625;

/// The most commands of a script that are tried side by side.
pub const MOST_TRIALS: usize = 15_625;
