//! Which areas and courtyards an item meets.

ghost use Rattle.std.specs.Prelude.{◌<◌, ℕ, List, IsTrue, ◌↔◌, MatchOption};
ghost use Rattle.std.specs.List.{Any};
ghost use Rattle.geo_seg.specs.Distances.{Meet};
ghost use Rattle.one_item.specs.ItemParts.{hole_parts};
ghost use Rattle.one_item.specs.CopperPairs.{PartsMeet, SomeMeet, on_layer};
ghost use Rattle.rule_pick.specs.FactsOf.{MeetsOn, MeetsPart, MeetsArea, MeetsEither, MeetsCourtyard, placed_parts};

use board_items::{Hole, Item, Part, What};
use drc_io::Name;
use geo_seg::Shape;
use item_copper::{share_layer, touches};

/// Whether one of the parts touches the area.
fn some_touches(parts: &[Part], area: &Part) -> bool
    ensures { IsTrue result ↔ Any (λ part. PartsMeet part area.now) parts.now }
{
    for part in parts {
        if touches(part, area) {
            return true;
        }
    }
    false
}

/// Whether one of the parts meets the area, wherever they lie.
fn some_meets(parts: &[Part], area: &Part) -> bool
    ensures { IsTrue result ↔ Any (λ part. Meet part.shape area.now.shape) parts.now }
{
    for part in parts {
        if geo_shape::meet(&part.shape, &area.shape) {
            return true;
        }
    }
    false
}

/// Whether the shape meets one of the others.
fn meets_some(shape: &Shape, others: &[Part]) -> bool
    ensures { IsTrue result ↔ Any (λ other. Meet shape.now other.shape) others.now }
{
    for other in others {
        if geo_shape::meet(shape, &other.shape) {
            return true;
        }
    }
    false
}

/// Whether one of the parts on the layer meets one of the others.
fn some_meet_on(layer: u32, parts: &[Part], others: &[Part]) -> bool
    requires { layer < 32 }
    ensures { IsTrue result ↔ SomeMeet (on_layer layer parts.now) others.now }
{
    for part in parts {
        if part.layers.has(layer) && meets_some(&part.shape, others) {
            return true;
        }
    }
    false
}

/// Whether the area has the layer, and one of the parts meets it.
fn meets_on(layer: u32, parts: &[Part], area: &Part) -> bool
    requires { layer < 32 }
    ensures { IsTrue result ↔ MeetsOn layer parts.now area.now }
{
    area.layers.has(layer) && some_meets(parts, area)
}

/// Whether the hole touches the area.
fn hole_touches(hole: &Option<Hole>, area: &Part) -> bool
    ensures { IsTrue result ↔ Any (λ part. PartsMeet part area.now) (hole_parts hole.now) }
{
    match hole {
        None => false,
        Some(hole) => {
            share_layer(hole.layers, area.layers) && geo_shape::meet(&hole.shape, &area.shape)
        }
    }
}

/// Whether the copper, or without copper the hole, touches the area.
fn placed_touches(copper: &[Part], hole: &Option<Hole>, area: &Part) -> bool
    ensures { IsTrue result
        ↔ Any (λ part. PartsMeet part area.now) (placed_parts copper.now hole.now) }
{
    if copper.len() == 0 {
        hole_touches(hole, area)
    } else {
        some_touches(copper, area)
    }
}

/// Whether the item meets the area.
fn meets_part(item: &Item, area: &Part) -> bool
    ensures { IsTrue result ↔ MeetsPart item.now item.now.what area.now }
{
    match &item.what {
        What::Body { front, back, .. } => {
            meets_on(0, front.get().as_slice(), area) || meets_on(31, back.get().as_slice(), area)
        }
        _ => placed_touches(item.copper.as_slice(), &item.hole, area),
    }
}

/// The title of the other item, where it is a rule area that the item meets.
pub fn area_met<'o>(item: &Item, other: &'o Item) -> Option<&'o Name>
    ensures { MatchOption result ((name : List ℕ) → ¬ (MeetsArea item.now other.now.what name))
        (λ name. MeetsArea item.now other.now.what name.now) }
{
    match &other.what {
        What::Area { title, shape, .. } if meets_part(item, shape.get()) => Some(title.get()),
        _ => None,
    }
}

/// Whether the hole goes through the layer and meets one of the others.
fn hole_meets_on(layer: u32, hole: &Option<Hole>, others: &[Part]) -> bool
    requires { layer < 32 }
    ensures { IsTrue result ↔ SomeMeet (on_layer layer (hole_parts hole.now)) others.now }
{
    match hole {
        None => false,
        Some(hole) => hole.layers.has(layer) && meets_some(&hole.shape, others),
    }
}

/// Whether the copper, or without copper the hole, meets one of the others on the layer.
fn placed_meets_on(layer: u32, copper: &[Part], hole: &Option<Hole>, others: &[Part]) -> bool
    requires { layer < 32 }
    ensures { IsTrue result
        ↔ SomeMeet (on_layer layer (placed_parts copper.now hole.now)) others.now }
{
    if copper.len() == 0 {
        hole_meets_on(layer, hole, others)
    } else {
        some_meet_on(layer, copper, others)
    }
}

/// Whether the item meets a courtyard on F.Cu or on B.Cu.
fn meets_either(item: &Item, front: &[Part], back: &[Part]) -> bool
    ensures { IsTrue result ↔ MeetsEither item.now front.now back.now }
{
    placed_meets_on(0, item.copper.as_slice(), &item.hole, front)
        || placed_meets_on(31, item.copper.as_slice(), &item.hole, back)
}

/// The reference of the other item, where it is a body and the item meets one of its courtyards.
pub fn courtyard_met<'o>(item: &Item, other: &'o Item) -> Option<&'o Name>
    ensures { MatchOption result ((name : List ℕ) → ¬ (MeetsCourtyard item.now other.now.what name))
        (λ name. MeetsCourtyard item.now other.now.what name.now) }
{
    match &other.what {
        What::Body {
            reference,
            front,
            back,
            ..
        } => {
            let front = front.get().as_slice();
            let back = back.get().as_slice();
            if meets_either(item, front, back) {
                Some(reference.get())
            } else {
                None
            }
        }
        _ => None,
    }
}
