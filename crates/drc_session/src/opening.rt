//! Sessions that begin.

ghost use Rattle.std.specs.Prelude.{◌≡◌, ◌<◌, false, map, IfOk};
ghost use Rattle.plain_types.specs.Limits.{AreCounted, IsWorkerCount};
ghost use Rattle.cond_lang.specs.Rules.{plain_rule};
ghost use Rattle.rule_pick.specs.AllFacts.{HasFacts};
ghost use Rattle.net_groups.specs.NetParts.{AreParts};
ghost use Rattle.rule_text.specs.RuleValues.{plain_rules};
ghost use Rattle.drc_session.specs.Sessions.{IsOpened, IsDealt};
ghost use Rattle.drc_session.specs.SessionContents.{state_of, IsReached, IsKept};

use crate::applied::Applied;
use crate::checking::check_all;
use crate::parts::Parts;
use crate::session::Session;
use board_index::index_of;
use board_items::{Board, Nm};
use box_index::TileIndex;
use cond_lang::Rule;
use item_facts::{all_facts_by, reach};
use net_class::Classes;
use net_groups::{NetPart, all_parts};
use row_check::CheckView;
use rule_pick::FactsById;
use rule_text::Rules;
use std::alloc::{AllocError, AllocGlobal, Global};
use std::thread::{Threads, join};
use tile_pool::Gate;

/// How far checks of the board reach, and the index of all items that reaches as far.
fn reach_and_index(
    alloc: Global,
    board: &Board,
    classes: &Classes,
    rules: &[Rule],
) -> Result<(Nm, TileIndex), AllocError>
    ensures { IfOk result (λ r.
        IsReached board.now classes.now (map plain_rule rules.now) r.0 r.1) }
{
    let reach = reach(board, classes, rules);
    let index = index_of(alloc, board, reach)?;
    Ok((reach, index))
}

/// The facts of all items, and beside them the reach and the index.
fn facts_beside_index(
    rt: &(impl Threads + Sync),
    alloc: Global,
    workers: u32,
    board: &Board,
    classes: &Classes,
    rules: &[Rule],
) -> Result<(FactsById, (Nm, TileIndex)), AllocError>
    ensures facts { IfOk result (λ r. HasFacts board.now classes.now r.0) }
    ensures reached { IfOk result (λ r. IsReached board.now classes.now
        (map plain_rule rules.now) r.1.0 r.1.1) }
{
    let (facts, found) = join(
        rt,
        || -> Result<FactsById, AllocError>
            ensures { IfOk result (HasFacts board.entry.now classes.entry.now) }
        { all_facts_by(rt, alloc, workers, board, classes) },
        || -> Result<(Nm, TileIndex), AllocError>
            ensures { IfOk result (λ r. IsReached board.entry.now classes.entry.now
                (map plain_rule rules.entry.now) r.0 r.1) }
        { reach_and_index(alloc, board, classes, rules) },
    );
    Ok((facts?, found?))
}

/// The facts of all items, the reach and the index, and the nets. By one worker the nets come first, since all of it stays: a large
/// net takes room for a while, more than its facts take. By several the facts and the index are found beside each other, and the nets
/// behind both, by all workers.
fn find(
    rt: &(impl Threads + Sync),
    alloc: Global,
    workers: u32,
    board: &Board,
    classes: &Classes,
    rules: &[Rule],
) -> Result<(FactsById, (Nm, TileIndex), Vec<NetPart>), AllocError>
    ensures facts { IfOk result (λ r. HasFacts board.now classes.now r.0) }
    ensures reached { IfOk result (λ r. IsReached board.now classes.now
        (map plain_rule rules.now) r.1.0 r.1.1) }
    ensures nets { IfOk result (λ r. AreParts board.now r.2.items) }
{
    if workers == 1 {
        let nets = all_parts(rt, alloc, workers, board)?;
        let found = reach_and_index(alloc, board, classes, rules)?;
        let facts = all_facts_by(rt, alloc, workers, board, classes)?;
        return Ok((facts, found, nets));
    }
    let (facts, found) = facts_beside_index(rt, alloc, workers, board, classes, rules)?;
    let nets = all_parts(rt, alloc, workers, board)?;
    Ok((facts, found, nets))
}

/// All that is found of the board.
fn open<R: Threads + Sync, G: Gate>(
    rt: &R,
    alloc: Global,
    workers: u32,
    board: Board,
    classes: Classes,
    rules: Rules,
    gate: &G,
) -> Result<(Parts, Applied), AllocError>
    requires workers { IsWorkerCount workers }
    requires few { AreCounted rules.rules }
    ensures kept { IfOk result (λ r. IsKept r.0) }
    ensures state { IfOk result (λ r. state_of r.0
        ≡ record { board = board; classes = classes; rules = plain_rules rules }) }
    ensures applied { IfOk result (λ r. IsOpened (state_of r.0) r.1 × IsDealt workers r.1) }
{
    let found = find(rt, alloc, workers, &board, &classes, rules.rules.as_slice());
    let (facts, (reach, index), nets) = match found {
        Ok(found) => found,
        Err(error) => {
            drop((board, classes, rules));
            return Err(error);
        }
    };
    let view = CheckView {
        board: &board,
        facts: &facts,
        rules: rules.rules.as_slice(),
        classes: &classes,
    };
    let (rows, applied) = match check_all(rt, alloc, workers, view, &index, gate) {
        Ok(checked) => checked,
        Err(error) => {
            drop((board, classes, rules, facts, index, nets));
            return Err(error);
        }
    };
    let parts = Parts {
        board,
        classes,
        rules,
        facts,
        reach,
        index,
        rows,
        nets,
    };
    Ok((parts, applied))
}

impl Session {
    /// A session of this board under these classes and rules: all is checked, by so many workers, from 1 to 64. There are fewer than
    /// 2^32 - 1 rules. Only running out of memory refuses it.
    pub fn begin<R: Threads + Sync + AllocGlobal, G: Gate>(
        rt: &R,
        workers: u32,
        board: Board,
        classes: Classes,
        rules: Rules,
        gate: &G,
    ) -> Result<(Session, Applied), AllocError>
        requires workers { IsWorkerCount workers }
        requires few { AreCounted rules.rules }
        ensures state { IfOk result (λ r. r.0.state
            ≡ record { board = board; classes = classes; rules = plain_rules rules }) }
        ensures running { IfOk result (λ r. r.0.stopped ≡ false) }
        ensures applied { IfOk result (λ r. IsOpened r.0.state r.1 × IsDealt workers r.1) }
    {
        let (parts, applied) = open(rt, rt.alloc(), workers, board, classes, rules, gate)?;
        let session = Session {
            parts,
            stopped: false,
        };
        Ok((session, applied))
    }
}
