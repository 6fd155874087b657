//! On which layers two items can face each other. Layers are looked at, and no shapes.

ghost use Rattle.std.specs.Prelude.{◌≡◌, ◌⊎◌, ◌<◌, ◌≤◌, ℕ, IsTrue, false, []};
ghost use Rattle.copper_layers.specs.declared.set.LayerSet.{LayerSet};
ghost use Rattle.copper_layers.specs.Layers.{has_layer};
ghost use Rattle.one_item.specs.ItemParts.{hole_parts};
ghost use Rattle.rule_pick.specs.FactsOf.{SomeOn};
ghost use Rattle.kind_subjects.specs.declared.subject.OperandKinds.TheVariants.{EdgesAndCopper};
ghost use Rattle.kind_subjects.specs.declared.layer.RowLayer.{RowLayer};
ghost use Rattle.kind_subjects.specs.TriedLayers.{IsTried};
ghost use Rattle.kind_subjects.specs.MeasuredPair.{measured_pair, copper_on, hole_on, lines_of, faced};
ghost use Rattle.kind_subjects.specs.PairSides.{IsUnfaced, AreFacedWithin, FaceWithin};

use crate::places::{Places, places_of_operand_kinds};
use crate::subject::{OperandKinds, Subject, subject_of};
use board_items::{Hole, Item, Part, What};
use cond_lang::Kind;
use copper_layers::LayerSet;

/// The layers of all the parts.
pub(crate) fn layers_of(parts: &[Part]) -> LayerSet
    ensures { (layer : ℕ) → SomeOn layer parts.now → IsTrue (has_layer result layer) }
{
    let mut layers = LayerSet { bits: 0 };
    for part in parts {
        layers = layers.union(part.layers);
    }
    layers
}

/// The layers of both sets.
fn both(a: LayerSet, b: LayerSet) -> LayerSet
    ensures { (layer : ℕ) → IsTrue (has_layer a layer) → IsTrue (has_layer b layer)
        → IsTrue (has_layer result layer) }
{
    LayerSet {
        bits: a.bits & b.bits,
    }
}

/// The layers that the hole goes through, if there is one.
fn layers_through(hole: &Option<Hole>) -> LayerSet
    ensures { (layer : ℕ) → SomeOn layer (hole_parts hole.now) → IsTrue (has_layer result layer) }
{
    match hole {
        Some(hole) => hole.layers,
        None => LayerSet { bits: 0 },
    }
}

/// The layers on which copper of both lies.
#[inline(always)]
fn shared_copper(a: &Item, b: &Item) -> LayerSet
    ensures { (layer : ℕ) → IsUnfaced
        (measured_pair (copper_on layer a.now) (copper_on layer b.now))
        ⊎ IsTrue (has_layer result layer) }
{
    let own = layers_of(a.copper.as_slice());
    both(own, layers_of(b.copper.as_slice()))
}

/// The layers of the other's copper that the hole of the one goes through.
#[inline(always)]
fn holed_copper(a: &Item, b: &Item) -> LayerSet
    ensures { (layer : ℕ) → IsUnfaced (measured_pair (hole_on layer a.now) (copper_on layer b.now))
        ⊎ IsTrue (has_layer result layer) }
{
    let own = layers_through(&a.hole);
    both(own, layers_of(b.copper.as_slice()))
}

/// The layers of copper of one of them that the hole of the other goes through.
#[inline(always)]
fn holed_beside(a: &Item, b: &Item) -> LayerSet
    ensures there { (layer : ℕ) → IsUnfaced
        (measured_pair (hole_on layer a.now) (copper_on layer b.now))
        ⊎ IsTrue (has_layer result layer) }
    ensures back { (layer : ℕ) → IsUnfaced
        (measured_pair (hole_on layer b.now) (copper_on layer a.now))
        ⊎ IsTrue (has_layer result layer) }
{
    let there = holed_copper(a, b);
    there.union(holed_copper(b, a))
}

/// The places from the first layer of the set to the last.
pub(crate) fn places_in(layers: LayerSet) -> Places
    ensures bound { result.to ≤ 32 }
    ensures each { (layer : ℕ) → IsTrue (has_layer layers layer) → (result.from ≤ layer)
        × (layer < result.to) }
{
    Places {
        from: layers.bits.trailing_zeros(),
        to: 32 - layers.bits.leading_zeros(),
    }
}

fn has_lines(item: &Item) -> bool
    ensures { result ≡ false → lines_of item.now.what ≡ [] }
{
    matches!(item.what, What::Edge { .. })
}

/// The places on which an edge may be near: none where neither is one.
fn places_of_lines(a: &Item, b: &Item) -> Places
    ensures bound { result.to ≤ 35 }
    ensures each { (copper : LayerSet) (layer : RowLayer) → IsTried copper layer
        → AreFacedWithin (faced EdgesAndCopper layer a.now b.now) result.from result.to layer }
{
    if has_lines(a) || has_lines(b) {
        places_of_operand_kinds(OperandKinds::EdgesAndCopper)
    } else {
        Places { from: 0, to: 0 }
    }
}

/// The places of all layers on which any of these parts may face each other.
#[inline(always)]
fn places_of_sides(operand_kinds: OperandKinds, a: &Item, b: &Item) -> Places
    ensures bound { result.to ≤ 35 }
    ensures each { (copper : LayerSet) (layer : RowLayer) → IsTried copper layer
        → AreFacedWithin (faced operand_kinds layer a.now b.now) result.from result.to layer }
{
    match operand_kinds {
        OperandKinds::Coppers => places_in(shared_copper(a, b)),
        OperandKinds::HolesAndCopper => places_in(holed_beside(a, b)),
        OperandKinds::EdgesAndCopper => places_of_lines(a, b),
        OperandKinds::Holes | OperandKinds::Yards | OperandKinds::Areas => places_of_operand_kinds(
            operand_kinds,
        ),
    }
}

/// The places of all layers on which anything may face anything for this kind.
#[inline(always)]
pub fn places_between(kind: Kind, a: &Item, b: &Item) -> Places
    ensures bound { result.to ≤ 35 }
    ensures each { (copper : LayerSet) (layer : RowLayer) → IsTried copper layer
        → FaceWithin kind a.now b.now result.from result.to layer }
{
    match subject_of(kind) {
        Subject::Sides(operand_kinds) => places_of_sides(operand_kinds, a, b),
        Subject::Length(_) | Subject::Whole => Places { from: 0, to: 0 },
    }
}
