//! What a pad takes from its footprint.

use board_items::Nm;
use drc_io::Name;
use part_read::Placement;

/// The head of a footprint.
#[derive(Drop)]
pub struct Head {
    /// It lies on the back of the board.
    pub on_back: bool,
    /// Where it stands, in nanometres, and how many quarter turns it is turned.
    pub placement: Placement,
    /// Empty where it has none.
    pub reference: Name,
    /// In nanometres; 0 and less count as none.
    pub clearance: Nm,
}
