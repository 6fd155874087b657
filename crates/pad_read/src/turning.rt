//! What the frame of a pad decides: its quarter turns, whether its sizes are at most 500 mm, its
//! clearance, and whether it has copper.

ghost use Rattle.std.specs.Prelude.{◌≡◌, ◌<◌, IfSome};
ghost use Rattle.pad_read.specs.PadFrames.{hole_sizes, is_round_hole, is_turning, quarter_of};
ghost use Rattle.pad_read.specs.PadOf.{sizes_fit, some_fit, local_of, equals_drill, has_copper};

use crate::local_placements::{LocalPlacement, quarters_of};
use crate::pads::{PadType, PadWord};
use crate::sizes::{Drilling, Sizes, are_equal};
use crate::words::has_hole;
use board_items::Nm;
use copper_layers::LayerSet;
use part_read::RawPoint;
use plain_types::is_length;

/// The sizes of the hole of a pad, if it has one.
pub(crate) fn hole_sizes(pad_type: PadType, sizes: Option<Sizes>) -> Option<Sizes>
    ensures { result ≡ hole_sizes pad_type sizes }
{
    if has_hole(pad_type) { sizes } else { None }
}

/// Whether there is no hole, or both sizes of it are one.
fn is_round_hole(hole: Option<Sizes>) -> bool
    ensures { result ≡ is_round_hole hole }
{
    match hole {
        None => true,
        Some(sizes) => sizes.w == sizes.h,
    }
}

/// Whether nothing shows how a pad is turned.
fn is_turning(word: PadWord, offset: RawPoint, hole: Option<Sizes>) -> bool
    ensures { result ≡ is_turning word offset hole }
{
    matches!(word, PadWord::Circle) && (offset.x == 0 && offset.y == 0) && is_round_hole(hole)
}

/// How many quarter turns a pad is turned, of whole turns none.
pub(crate) fn quarter_of(
    word: PadWord,
    drilling: Drilling,
    pad_type: PadType,
    local_placement: LocalPlacement,
) -> Option<u32>
    ensures quarter { result ≡ quarter_of word drilling pad_type local_placement.angle }
    ensures below { IfSome result (λ quarter. quarter < 4) }
{
    if let Some(quarter) = quarters_of(local_placement) {
        return Some(quarter);
    }
    if is_turning(word, drilling.offset, hole_sizes(pad_type, drilling.sizes)) {
        return Some(0);
    }
    None
}

/// Whether both sizes are at most 500 mm.
pub(crate) fn sizes_fit(sizes: Sizes) -> bool
    ensures { result ≡ sizes_fit sizes }
{
    is_length(sizes.w) && is_length(sizes.h)
}

/// Whether both sizes are at most 500 mm, if there are sizes.
pub(crate) fn some_fit(sizes: Option<Sizes>) -> bool
    ensures { result ≡ some_fit sizes }
{
    match sizes {
        None => true,
        Some(sizes) => sizes_fit(sizes),
    }
}

// ---- clearances and copper

/// The clearance of a pad: its own, else that of the footprint; 0 and less count as none.
pub(crate) fn local_of(own: &Clearances) -> Option<Nm>
    ensures { result ≡ local_of own.now.own own.now.of_footprint }
{
    if 0 < own.own {
        return Some(own.own);
    }
    if 0 < own.of_footprint {
        return Some(own.of_footprint);
    }
    None
}

/// The clearances that a pad may have.
#[derive(Clone, Copy, Debug, PartialEq, Eq, Drop)]
pub struct Clearances {
    pub own: Nm,
    pub of_footprint: Nm,
}

/// Whether the hole is as large as the pad.
fn equals_drill(sizes: Sizes, drill: Option<Sizes>) -> bool
    ensures { result ≡ equals_drill sizes drill }
{
    match drill {
        None => false,
        Some(hole) => are_equal(sizes, hole),
    }
}

/// Whether a pad has copper: it lies on a copper layer, and is more than a hole that is not plated.
pub(crate) fn has_copper(
    pad_type: PadType,
    layers: LayerSet,
    sizes: Sizes,
    drill: Option<Sizes>,
) -> bool
    ensures { result ≡ has_copper pad_type layers sizes drill }
{
    if layers.bits == 0 {
        return false;
    }
    match pad_type {
        PadType::NpThruHole => !equals_drill(sizes, drill),
        PadType::ThruHole | PadType::Smd | PadType::Connect => true,
    }
}
