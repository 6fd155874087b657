//! The layers in the order in which they are tried.

ghost use Rattle.std.specs.Prelude.{◌≡◌, ◌⊎◌, ◌≤◌, ◌<◌, MatchOption};
ghost use Rattle.kind_subjects.specs.declared.layer.RowLayer.{RowLayer};
ghost use Rattle.kind_subjects.specs.KindLayers.{IsCopper, IsNowhere, IsFacedOn};
ghost use Rattle.kind_subjects.specs.TriedLayers.{rank, IsTried};

use crate::layer::RowLayer;
use crate::subject::OperandKinds;
use copper_layers::LayerSet;

/// Places in the order of layers, from the one to before the other.
#[derive(Clone, Copy)]
pub struct Places {
    pub from: u32,
    pub to: u32,
}

/// The places of all layers on which these parts face each other.
pub(crate) fn places_of_operand_kinds(operand_kinds: OperandKinds) -> Places
    ensures bound { result.to ≤ 35 }
    ensures all { (layer : RowLayer) → IsFacedOn operand_kinds layer → (result.from ≤ rank layer)
        × (rank layer < result.to) }
{
    match operand_kinds {
        OperandKinds::Coppers | OperandKinds::HolesAndCopper | OperandKinds::Areas => Places {
            from: 0,
            to: 32,
        },
        OperandKinds::Yards => Places { from: 32, to: 34 },
        OperandKinds::Holes => Places { from: 34, to: 35 },
        OperandKinds::EdgesAndCopper => Places { from: 0, to: 35 },
    }
}

/// The places of all copper layers, and of none.
pub fn places_of_items() -> Places
    ensures bound { result.to ≤ 35 }
    ensures all { (layer : RowLayer) → IsCopper layer ⊎ IsNowhere layer → (result.from ≤ rank layer)
        × (rank layer < result.to) }
{
    Places { from: 0, to: 35 }
}

/// The layer with this place, if the board has it.
#[inline(always)]
pub fn tried_at(copper: LayerSet, place: u32) -> Option<RowLayer>
    requires { place < 35 }
    ensures { MatchOption result
        ((layer : RowLayer) → rank layer ≡ place → ¬ (IsTried copper layer))
        (λ layer. (rank layer ≡ place) × IsTried copper layer) }
{
    if place < 32 {
        if copper.has(place) {
            Some(RowLayer::Copper(place))
        } else {
            None
        }
    } else {
        match place {
            32 => Some(RowLayer::FrontYard),
            33 => Some(RowLayer::BackYard),
            _ => Some(RowLayer::Nowhere),
        }
    }
}
