//! On which layers two items meet.

ghost use Rattle.std.specs.Prelude.{◌↔◌, IsTrue, MatchOption};
ghost use Rattle.kind_subjects.specs.TriedLayers.{IsFirst, HoldsNowhere};
ghost use Rattle.kind_subjects.specs.MeasuredPair.{MeetAt};
ghost use Rattle.kind_subjects.specs.PairSides.{IsInStack};

use crate::layer::RowLayer;
use crate::measure::{measured_pairs_at, meet_at};
use crate::operand_kinds::places_between;
use crate::places::tried_at;
use board_items::Item;
use cond_lang::Kind;
use copper_layers::LayerSet;

/// Whether the two meet on the layer.
#[inline(always)]
fn meet_on(kind: Kind, layer: RowLayer, a: &Item, b: &Item) -> bool
    requires { IsInStack layer }
    ensures { IsTrue result ↔ MeetAt kind layer a.now b.now }
{
    let faced = measured_pairs_at(kind, layer, a, b);
    meet_at(&faced, kind, layer, a, b)
}

/// The first layer on which the two meet.
#[inline(always)]
pub fn first_meeting(copper: LayerSet, kind: Kind, a: &Item, b: &Item) -> Option<RowLayer>
    ensures { MatchOption result (HoldsNowhere copper (λ layer. MeetAt kind layer a.now b.now))
        (IsFirst copper (λ layer. MeetAt kind layer a.now b.now)) }
{
    let places = places_between(kind, a, b);
    for place in places.from..places.to {
        if let Some(layer) = tried_at(copper, place) {
            if meet_on(kind, layer, a, b) {
                return Some(layer);
            }
        }
    }
    None
}
