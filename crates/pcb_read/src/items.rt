//! Tracks and vias as items.

ghost use Rattle.std.specs.Prelude.{◌≡◌, true, is_some, IfSome, IsTrue};
ghost use Rattle.copper_layers.specs.Layers.{is_within};
ghost use Rattle.board_items.specs.Boards.{PlainBoard, name_of, is_admitted};
ghost use Rattle.part_read.specs.OnBoard.{tested};
ghost use Rattle.pcb_read.specs.Tracks.{track_along, is_hole, hole_through, via_at};

use board_items::{Hole, Item, Nm, What};
use copper_layers::LayerSet;
use drc_io::Name;
use part_read::{RawPoint, Strip, one_part, strip_shape};
use std::alloc::Global;

/// What an item has besides its place: its name, its unit, its net, and the layers of its copper.
#[derive(Drop)]
pub struct Origin {
    pub name: Name,
    pub unit: u32,
    pub net: u32,
    pub layers: LayerSet,
}

/// The track along a strip, unless the strip does not lie on a board.
#[inline(always)]
pub(crate) fn track_along(alloc: Global, strip: Strip, origin: Origin) -> Option<Item>
    ensures item { result ≡ track_along strip origin }
    ensures unit { IfSome result (λ item. item.unit ≡ origin.unit) }
    ensures admitted { (board : PlainBoard) → is_some (name_of board origin.net) ≡ true →
        IsTrue (is_within origin.layers board.copper) → IfSome result
        (λ item. is_admitted board item ≡ true) }
{
    let shape = strip_shape(strip)?;
    Some(Item {
        name: origin.name,
        unit: origin.unit,
        net: origin.net,
        x: strip.a.x,
        y: strip.a.y,
        copper: one_part(alloc, origin.layers, shape),
        hole: None,
        local: None,
        what: What::Track { width: strip.width },
    })
}

// ---- vias

/// What a via is by its numbers and words, in nanometres. It may lie off the board.
#[derive(Clone, Copy)]
pub struct ViaForm {
    pub at: RawPoint,
    pub size: Nm,
    pub drill: Option<Nm>,
    pub micro: bool,
    pub blind: bool,
}

/// A round hole through these layers, where the via has a drill; None where the hole does not lie on a board.
fn hole_through(form: &ViaForm, layers: LayerSet) -> Option<Option<Hole>>
    ensures { result ≡ tested (is_hole form.now) (hole_through form.now layers) }
{
    let Some(drill) = form.drill else {
        return Some(None);
    };
    let strip = Strip {
        a: form.at,
        b: form.at,
        width: drill,
    };
    let shape = strip_shape(strip)?;
    Some(Some(Hole {
        shape,
        layers,
        plated: true,
        least: strip.width,
    }))
}

/// The via of this form, unless its disc or its hole does not lie on a board.
#[inline(always)]
pub(crate) fn via_of_form(alloc: Global, form: &ViaForm, origin: Origin) -> Option<Item>
    ensures item { result ≡ via_at form.now origin }
    ensures unit { IfSome result (λ item. item.unit ≡ origin.unit) }
    ensures admitted { (board : PlainBoard) → is_some (name_of board origin.net) ≡ true →
        IsTrue (is_within origin.layers board.copper) → IfSome result
        (λ item. is_admitted board item ≡ true) }
{
    let strip = Strip {
        a: form.at,
        b: form.at,
        width: form.size,
    };
    let shape = strip_shape(strip)?;
    let hole = hole_through(form, origin.layers)?;
    Some(Item {
        name: origin.name,
        unit: origin.unit,
        net: origin.net,
        x: form.at.x,
        y: form.at.y,
        copper: one_part(alloc, origin.layers, shape),
        hole,
        local: None,
        what: What::Via {
            size: form.size,
            drill: form.drill.unwrap_or(0),
            micro: form.micro,
            blind: form.blind,
        },
    })
}
