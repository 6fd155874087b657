//! The facts of an item.

ghost use Rattle.std.specs.Prelude.{◌≡◌, [], unwrap_or, IfOk};
ghost use Rattle.board_items.specs.Boards.{name_of};
ghost use Rattle.net_class.specs.NetClasses.{PlainClasses};
ghost use Rattle.net_class.specs.ClassValues.{plain_class};
ghost use Rattle.rule_pick.specs.FactsOf.{MeetsArea, MeetsCourtyard, AreNamesOf, class_of_net, AreFactsOf};

use crate::kinds::{
    diameter_of, hole_of, is_blind, is_edge, is_micro, is_plated, kind_of, local_of, width_of,
};
use crate::layers::layers_of;
use board_items::{Board, Item};
use drc_io::Name;
use net_class::Class;
use rule_pick::{Facts, Names};
use std::alloc::{AllocError, Global};

/// The name of a net; empty where it was not declared.
fn net_name(alloc: Global, board: &Board, net: u32) -> Result<Name, AllocError>
    ensures { IfOk result (λ name. name ≡ unwrap_or (name_of board.now net) []) }
{
    match board.net_name(net) {
        None => Ok(Name::of(Vec::new(alloc))),
        Some(name) => Ok(name.copy()?),
    }
}

/// The facts of an item of this class that meets these areas and courtyards.
#[inline(always)]
pub(crate) fn facts_with(
    alloc: Global,
    board: &Board,
    class: &Class,
    item: &Item,
    areas: Names,
    courtyards: Names,
) -> Result<Facts, AllocError>
    requires areas { AreNamesOf (MeetsArea item.now) board.now.items areas }
    requires courtyards { AreNamesOf (MeetsCourtyard item.now) board.now.items courtyards }
    ensures { (classes : PlainClasses) → plain_class class.now
        ≡ class_of_net classes board.now item.now.net
        → IfOk result (λ facts. AreFactsOf board.now classes item.now facts) }
{
    Ok(Facts {
        kind: kind_of(&item.what),
        class: class.name.copy()?,
        net_name: net_name(alloc, board, item.net)?,
        width: width_of(item),
        diameter: diameter_of(item),
        hole: hole_of(item),
        layers: layers_of(item),
        on_edge: is_edge(&item.what),
        plated: is_plated(&item.hole),
        micro: is_micro(&item.what),
        blind: is_blind(&item.what),
        local: local_of(item),
        class_clearance: class.clearance,
        areas,
        courtyards,
    })
}
