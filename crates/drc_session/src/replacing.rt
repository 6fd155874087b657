//! Rules that take the place of others.

ghost use Rattle.std.specs.Prelude.{◌≡◌, ◌<◌, true, OnOk, IfOk};
ghost use Rattle.plain_types.specs.Limits.{AreCounted, IsWorkerCount};
ghost use Rattle.plain_types.specs.Lengths.{IsLength};
ghost use Rattle.rule_text.specs.RuleValues.{plain_rules};
ghost use Rattle.board_index.specs.IndexedItems.{IsIndexOfItems};
ghost use Rattle.row_check.specs.RowsOfTile.{IsIndexOf};
ghost use Rattle.drc_state.specs.States.{checked_in};
ghost use Rattle.drc_session.specs.Sessions.{IsApplied, IsDealt};
ghost use Rattle.drc_session.specs.SessionContents.{state_of, IsKept};

use crate::applied::Applied;
use crate::checking::check_all;
use crate::parts::Parts;
use board_index::index_of;
use item_facts::reach;
use row_check::CheckView;
use rule_text::Rules;
use std::alloc::{AllocError, Global};
use std::thread::Threads;
use tile_pool::Gate;

/// An index that reaches as far as the rules ask for, where the one that there is does not.
fn reach_recomputed(alloc: Global, parts: &mut Parts) -> Result<(), AllocError>
    requires items { IsIndexOfItems parts.old.board parts.old.index }
    requires reach { (parts.old.reach ≡ parts.old.index.reach) × IsLength parts.old.reach }
    ensures index { OnOk result (IsIndexOf (checked_in (state_of parts.new)) parts.new.index) }
    ensures reach { OnOk result
        ((parts.new.reach ≡ parts.new.index.reach) × IsLength parts.new.reach) }
    ensures rest { parts.new
        ≡ record parts.old { index = parts.new.index; reach = parts.new.reach } }
{
    let reach = reach(&parts.board, &parts.classes, parts.rules.rules.as_slice());
    if reach != parts.reach {
        let index = index_of(alloc, &parts.board, reach)?;
        drop(std::mem::replace(&mut parts.index, index));
        parts.reach = reach;
    }
    Ok(())
}

/// Puts these rules in place of those that there are, and checks all. It gives the rules that there were. Only running out of memory fails
/// it.
pub(crate) fn replace_rules<R: Threads + Sync, G: Gate>(
    rt: &R,
    alloc: Global,
    workers: u32,
    parts: &mut Parts,
    rules: Rules,
    gate: &G,
) -> Result<(Applied, Rules), AllocError>
    requires workers { IsWorkerCount workers }
    requires kept { IsKept parts.old }
    requires few { AreCounted rules.rules }
    ensures kept { OnOk result (IsKept parts.new) }
    ensures state { OnOk result
        (state_of parts.new ≡ record (state_of parts.old) { rules = plain_rules rules }) }
    ensures applied { IfOk result (λ r. IsApplied (state_of parts.old) (state_of parts.new) true r.0
        × IsDealt workers r.0) }
    ensures back { IfOk result (λ r. r.1 ≡ parts.old.rules) }
{
    let before = std::mem::replace(&mut parts.rules, rules);
    match reach_recomputed(alloc, parts) {
        Ok(()) => {}
        Err(error) => {
            drop(before);
            return Err(error);
        }
    }
    let view = CheckView {
        board: &parts.board,
        facts: &parts.facts,
        rules: parts.rules.rules.as_slice(),
        classes: &parts.classes,
    };
    let (rows, applied) = match check_all(rt, alloc, workers, view, &parts.index, gate) {
        Ok(checked) => checked,
        Err(error) => {
            drop(before);
            return Err(error);
        }
    };
    parts.rows = rows;
    Ok((applied, before))
}
