//! Classes, patterns and least sizes. Each length is in nanometres, from 0 to 500 mm.

ghost use Rattle.plain_types.specs.Lengths.{IsLength, IsLengthIfSome};

use drc_io::Name;

/// A length in nanometres.
pub type Nm = i64;

/// A class of nets, and how far its copper keeps from that of other nets, in nanometres, from 0 to 500 mm.
#[derive(Debug, Drop)]
pub struct Class {
    pub name: Name,
    pub clearance: Nm,
    pub ghost clearance_in_range: { IsLength clearance },
}

/// The least distances and sizes that a board allows, in nanometres, from 0 to 500 mm.
#[derive(Clone, Copy, Debug, Drop, PartialEq, Eq)]
pub struct Mins {
    /// Between copper of two nets.
    pub min_clearance: Nm,
    /// Between copper and the edge of the board.
    pub min_copper_edge_clearance: Nm,
    /// Between a hole and copper.
    pub min_hole_clearance: Nm,
    /// Between two holes.
    pub min_hole_to_hole: Nm,
    /// Of the smaller size of a hole.
    pub min_through_hole_diameter: Nm,
    pub min_track_width: Nm,
    /// Of the copper round the hole of a via.
    pub min_via_annular_width: Nm,
    pub min_via_diameter: Nm,
    pub ghost clearance_in_range: { IsLength min_clearance },
    pub ghost edge_in_range: { IsLength min_copper_edge_clearance },
    pub ghost hole_in_range: { IsLength min_hole_clearance },
    pub ghost holes_in_range: { IsLength min_hole_to_hole },
    pub ghost drill_in_range: { IsLength min_through_hole_diameter },
    pub ghost track_in_range: { IsLength min_track_width },
    pub ghost ring_in_range: { IsLength min_via_annular_width },
    pub ghost via_in_range: { IsLength min_via_diameter },
}

/// A class as a project writes it.
#[derive(Drop)]
pub(crate) struct Draft {
    pub(crate) name: Name,
    pub(crate) clearance: Option<Nm>,
    ghost clearance_in_range: { IsLengthIfSome clearance },
}

/// A pattern of names of nets, and the name of their class.
#[derive(Debug, Drop)]
pub(crate) struct Pattern {
    pub(crate) class: Name,
    pub(crate) pattern: Name,
}
