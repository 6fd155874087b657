//! The label of a pad: what it has besides its form.

use board_items::Nm;
use drc_io::Name;

/// Its names, its unit, its net, and its clearance.
#[derive(Drop)]
pub struct Label {
    pub name: Name,
    pub unit: u32,
    pub net: u32,
    pub number: Name,
    /// The reference of its footprint.
    pub reference: Name,
    /// The clearance in nanometres, if it has one.
    pub local: Option<Nm>,
}
