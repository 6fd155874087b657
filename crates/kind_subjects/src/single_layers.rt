//! On which layers a single item is asked, and on which it is measured.

ghost use Rattle.std.specs.Prelude.{◌≡◌, ◌↔◌, ◌<◌, ◌≤◌, IsTrue, if◌then◌else◌};
ghost use Rattle.one_item.specs.declared.item.Item.{Item};
ghost use Rattle.rule_pick.specs.FactsOf.{SomeOn};
ghost use Rattle.kind_subjects.specs.declared.layer.RowLayer.{RowLayer};
ghost use Rattle.kind_subjects.specs.TriedLayers.{rank, IsTried};
ghost use Rattle.kind_subjects.specs.SingleLayers.{LiesAt, IsAskedAt, IsOnCopper, IsMeasuredAt};

use crate::layer::RowLayer;
use crate::operand_kinds::{layers_of, places_in};
use crate::places::Places;
use crate::subject::{Measure, Subject, subject_of};
use board_items::{Item, Part, What};
use cond_lang::Kind;
use copper_layers::LayerSet;

/// Whether some part lies on the layer.
fn some_on(parts: &[Part], layer: u32) -> bool
    requires { layer < 32 }
    ensures { IsTrue result ↔ SomeOn layer parts.now }
{
    for part in parts {
        if part.layers.has(layer) {
            return true;
        }
    }
    false
}

/// Whether copper lies on the layer of the board; what has no copper lies on none.
fn lies_at(copper: LayerSet, parts: &[Part], layer: RowLayer) -> bool
    requires { IsTried copper layer }
    ensures { IsTrue result ↔ LiesAt parts.now layer }
{
    match layer {
        RowLayer::Copper(layer) => some_on(parts, layer),
        RowLayer::Nowhere => parts.is_empty(),
        RowLayer::FrontYard | RowLayer::BackYard => false,
    }
}

/// The copper layer of the side of a body.
fn side(on_back: bool) -> u32
    ensures { result ≡ (if on_back then 31 else 0) }
{
    if on_back { 31 } else { 0 }
}

/// Whether the layer is the copper layer of the side.
fn is_side(on_back: bool, layer: RowLayer) -> bool
    ensures { IsTrue result
        ↔ (layer ≡ (if on_back then RowLayer.Copper 31 else RowLayer.Copper 0)) }
{
    match layer {
        RowLayer::Copper(number) => number == side(on_back),
        RowLayer::FrontYard | RowLayer::BackYard | RowLayer::Nowhere => false,
    }
}

/// Whether the item is asked on the layer: a body on that of its side, edges, areas and notes nowhere.
pub fn is_asked_at(copper: LayerSet, item: &Item, layer: RowLayer) -> bool
    requires { IsTried copper layer }
    ensures { IsTrue result ↔ IsAskedAt item.now item.now.what layer }
{
    match &item.what {
        What::Body { on_back, .. } => is_side(*on_back, layer),
        What::Edge { .. } | What::Area { .. } | What::Note { .. } => false,
        What::Track { .. } | What::Via { .. } | What::Pad { .. } | What::Graphic | What::Fill => {
            lies_at(copper, item.copper.as_slice(), layer)
        }
    }
}

fn is_nowhere(layer: RowLayer) -> bool
    ensures { IsTrue result ↔ (layer ≡ RowLayer.Nowhere) }
{
    matches!(layer, RowLayer::Nowhere)
}

/// Whether some copper lies on the copper layer.
fn is_on_copper(copper: LayerSet, parts: &[Part], layer: RowLayer) -> bool
    requires { IsTried copper layer }
    ensures { IsTrue result ↔ IsOnCopper parts.now layer }
{
    match layer {
        RowLayer::Copper(layer) => some_on(parts, layer),
        RowLayer::FrontYard | RowLayer::BackYard | RowLayer::Nowhere => false,
    }
}

/// Whether the kind is measured on the layer: tracks where their copper lies, sizes and holes on none.
pub fn is_measured_at(copper: LayerSet, kind: Kind, item: &Item, layer: RowLayer) -> bool
    requires { IsTried copper layer }
    ensures { IsTrue result ↔ IsMeasuredAt kind item.now layer }
{
    match subject_of(kind) {
        Subject::Length(Measure::Width) => is_on_copper(copper, item.copper.as_slice(), layer),
        Subject::Length(Measure::Diameter | Measure::Bore | Measure::Ring) => is_nowhere(layer),
        Subject::Sides(_) | Subject::Whole => false,
    }
}

/// The places of all layers on which the kind is measured.
pub fn places_measured(kind: Kind, parts: &[Part]) -> Places
    ensures bound { result.to ≤ 35 }
    ensures each { (item : Item) → item.copper ≡ parts.now → (layer : RowLayer)
        → IsMeasuredAt kind item layer → (result.from ≤ rank layer) × (rank layer < result.to) }
{
    match subject_of(kind) {
        Subject::Length(Measure::Width) => places_in(layers_of(parts)),
        Subject::Length(Measure::Diameter | Measure::Bore | Measure::Ring) => Places {
            from: 34,
            to: 35,
        },
        Subject::Sides(_) | Subject::Whole => Places { from: 0, to: 0 },
    }
}
