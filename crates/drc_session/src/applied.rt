//! What a call of a session went through.

use claim_board::Dealt;

/// What a call of a session went through.
#[derive(Drop)]
pub struct Applied {
    /// How the tiles were dealt to the workers: as many numbers as tiles.
    pub dealt: Dealt,
    /// The tiles that were gone through, rising.
    pub tiles: Vec<u32>,
    /// How many tiles hold an item.
    pub held: u32,
}
