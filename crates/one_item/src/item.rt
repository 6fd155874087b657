//! What lies on a board.

ghost use Rattle.plain_types.specs.Lengths.{IsLength, IsLengthIfSome};
ghost use Rattle.one_item.specs.Measures.{HasLengths};

use crate::boxed::Boxed;
use crate::parts::{Part, Parts};
use copper_layers::LayerSet;
use drc_io::Name;
use geo_seg::Shape;
use std::mem::size_of;

/// A length or a coordinate in nanometres.
pub type Nm = i64;

/// A drilled hole.
#[derive(Drop)]
pub struct Hole {
    pub shape: Shape,
    /// The layers through which it goes.
    pub layers: LayerSet,
    pub plated: bool,
    /// The smaller of its two sizes, 0 to 500 mm.
    pub least: Nm,
    pub ghost least_in_range: { IsLength least },
}

/// What a rule area keeps out.
#[derive(Clone, Copy, Debug, PartialEq, Eq, Drop)]
pub struct Bans {
    pub tracks: bool,
    pub vias: bool,
    pub pads: bool,
    pub footprints: bool,
}

/// What a note speaks of: something that is read but not checked.
#[derive(Clone, Copy, Debug, PartialEq, Eq, Drop)]
pub enum About {
    Text,
    Dimension,
    Courtyard,
    FootZone,
}

/// The kind of an item, with what that kind alone has. What few kinds have stands apart, since a board has far more
/// tracks and vias than anything else.
#[derive(Drop)]
pub enum What {
    Track {
        width: Nm,
    },
    /// A via; `micro` and `blind` are the words of the board file.
    Via {
        size: Nm,
        drill: Nm,
        micro: bool,
        blind: bool,
    },
    /// A pad, with the reference of its footprint.
    Pad {
        number: Boxed<Name>,
        reference: Boxed<Name>,
    },
    /// A graphic on copper.
    Graphic,
    /// The copper that a zone was filled with.
    Fill,
    /// A graphic on Edge.Cuts.
    Edge {
        lines: Boxed<Parts>,
    },
    /// A rule area.
    Area {
        title: Boxed<Name>,
        bans: Bans,
        shape: Boxed<Part>,
    },
    /// A footprint as a whole, with its courtyards on both sides.
    Body {
        reference: Boxed<Name>,
        front: Boxed<Parts>,
        back: Boxed<Parts>,
        on_back: bool,
    },
    Note {
        about: About,
        layer: Boxed<Name>,
    },
}

/// An item of a board. Contracts see it as the record of its fields, its names and parts as lists. Its lengths are 0 to
/// 500 mm.
#[derive(Drop)]
pub struct Item {
    /// The `tstamp` of the board file, or empty.
    pub name: Name,
    /// One top list of the board file is one unit; all items that came from it carry its number.
    pub unit: u32,
    /// The number of its net; 0 is no net.
    pub net: u32,
    /// Where reports say that it is.
    pub x: Nm,
    pub y: Nm,
    pub copper: Parts,
    pub hole: Option<Hole>,
    /// A clearance of its own.
    pub local: Option<Nm>,
    pub what: What,
    pub ghost local_in_range: { IsLengthIfSome local },
    pub ghost what_in_range: { HasLengths what },
}

// A board may hold 200,000 items.
const _: () = prove!(size_of::<Item>() <= 256);
