//! What rules may ask of an item.

ghost use Rattle.plain_types.specs.Lengths.{IsLength};

use crate::kinds::ItemKind;
use crate::lengths::LengthIf;
use crate::names::Names;
use board_items::Nm;
use copper_layers::LayerSet;
use drc_io::Name;
use std::mem::size_of;

/// What rules may ask of an item. Lengths are in nanometres, from 0 to 500 mm. Which facts an item of a board has is defined
/// in `specs/FactsOf`.
#[derive(Debug, Drop)]
pub struct Facts {
    pub kind: ItemKind,
    /// The class of its net.
    pub class: Name,
    pub net_name: Name,
    /// Of a track.
    pub width: LengthIf,
    /// Of a via.
    pub diameter: LengthIf,
    /// The smaller size of the hole of a via.
    pub hole: LengthIf,
    /// The copper layers on which it lies.
    pub layers: LayerSet,
    /// Whether it lies on Edge.Cuts.
    pub on_edge: bool,
    /// Whether it has a plated hole.
    pub plated: bool,
    /// A via of the kind `micro`.
    pub micro: bool,
    /// A via of the kind `blind`.
    pub blind: bool,
    /// A clearance of its own.
    pub local: LengthIf,
    /// The clearance of the class of its net.
    pub class_clearance: Nm,
    /// The titles of the rule areas that it meets.
    pub areas: Names,
    /// The references of the footprints whose courtyards it meets.
    pub courtyards: Names,
    pub ghost class_clearance_in_range: { IsLength class_clearance },
}

// A large board has facts of many items.
const _: () = prove!(size_of::<Option<Facts>>() == 160);
