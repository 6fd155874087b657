//! The layers of an item.

ghost use Rattle.std.specs.Prelude.{◌≡◌, ◌<◌, ℕ, IsTrue, ◌↔◌, if◌then◌else◌};
ghost use Rattle.copper_layers.specs.Layers.{has_layer};
ghost use Rattle.rule_pick.specs.FactsOf.{SomeOn, AreLayersOf};

use board_items::{Item, Part, What};
use copper_layers::LayerSet;

/// The layers of all the parts.
fn union_of(parts: &[Part]) -> LayerSet
    ensures { (layer : ℕ) → (IsTrue (has_layer result layer) ↔ SomeOn layer parts.now) }
{
    let mut layers = LayerSet { bits: 0 };
    for part in parts {
        layers = layers.union(part.layers);
    }
    layers
}

/// The set of one layer.
fn only(layer: u32) -> LayerSet
    requires { layer < 32 }
    ensures { (other : ℕ) → (IsTrue (has_layer result other) ↔ (other ≡ layer)) }
{
    LayerSet::of(layer)
}

/// F.Cu for an item on the front, else B.Cu.
fn of_side(on_back: bool) -> LayerSet
    ensures { (layer : ℕ)
        → (IsTrue (has_layer result layer) ↔ (layer ≡ (if on_back then 31 else 0))) }
{
    if on_back { only(31) } else { only(0) }
}

/// The layers on which an item lies.
pub(crate) fn layers_of(item: &Item) -> LayerSet
    ensures { AreLayersOf item.now result }
{
    match &item.what {
        What::Area { shape, .. } => shape.get().layers,
        What::Body { on_back, .. } => of_side(*on_back),
        _ => union_of(item.copper.as_slice()),
    }
}
