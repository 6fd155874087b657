//! The names of what an item meets.

ghost use Rattle.std.specs.Prelude.{◌≡◌, ◌++◌, IfOk, OnOk};
ghost use Rattle.std.specs.Option.{option_copied};
ghost use Rattle.rule_pick.specs.FactsOf.{MeetsArea, MeetsCourtyard, AreNamesOf};
ghost use Rattle.item_facts.specs.FoundNames.{name_if};
ghost use Rattle.item_facts.specs.NearItems.{AreEnough};

use crate::meets::{area_met, courtyard_met};
use board_items::{Board, Item};
use drc_io::Name;
use rule_pick::Names;
use std::alloc::{AllocError, Global};

/// Appends an equal name, if there is one.
fn push_if(names: &mut Vec<Name>, name: Option<&Name>) -> Result<(), AllocError>
    ensures { OnOk result
        (names.new.items ≡ names.old.items ++ name_if (option_copied name.entry)) }
{
    match name {
        None => Ok(()),
        Some(name) => {
            names.push(name.copy()?)?;
            Ok(())
        }
    }
}

/// The titles of the areas that the item meets, in the order of their places, where the ids are enough to ask.
pub(crate) fn areas_near(
    alloc: Global,
    board: &Board,
    item: &Item,
    ids: &[u32],
) -> Result<Names, AllocError>
    requires { AreEnough item.now board.now.items ids.now }
    ensures { IfOk result (λ names. AreNamesOf (MeetsArea item.now) board.now.items names) }
{
    let mut names = Vec::new(alloc);
    board.soundness();
    for id in ids {
        if let Some(other) = board.get(*id) {
            push_if(&mut names, area_met(item, other))?;
        }
    }
    Ok(Names::of(names))
}

/// The references of the bodies whose courtyards the item meets, in the order of their places, where the ids are enough to ask.
pub(crate) fn courtyards_near(
    alloc: Global,
    board: &Board,
    item: &Item,
    ids: &[u32],
) -> Result<Names, AllocError>
    requires { AreEnough item.now board.now.items ids.now }
    ensures { IfOk result (λ names. AreNamesOf (MeetsCourtyard item.now) board.now.items names) }
{
    let mut names = Vec::new(alloc);
    board.soundness();
    for id in ids {
        if let Some(other) = board.get(*id) {
            push_if(&mut names, courtyard_met(item, other))?;
        }
    }
    Ok(Names::of(names))
}
