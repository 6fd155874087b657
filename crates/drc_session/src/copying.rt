//! Copies of sessions.

ghost use Rattle.std.specs.Prelude.{◌≡◌, false, IfOk};
ghost use Rattle.rule_text.specs.RuleValues.{plain_rules};
ghost use Rattle.drc_session.specs.SessionContents.{state_of, IsKept};

use crate::parts::Parts;
use crate::session::Session;
use board_items::Board;
use net_class::Classes;
use net_groups::NetPart;
use rule_text::Rules;
use std::alloc::{AllocError, Global};

/// Equal parts of nets.
fn copy_nets(alloc: Global, nets: &[NetPart]) -> Result<Vec<NetPart>, AllocError>
    ensures { IfOk result (λ copy. copy.items ≡ nets.now) }
{
    let mut copy = Vec::with_capacity(alloc, nets.len())?;
    for part in nets {
        copy.push(part.copy()?)?;
    }
    Ok(copy)
}

/// An equal board, equal classes and equal rules: what a session is given.
fn copy_given(parts: &Parts) -> Result<(Board, Classes, Rules), AllocError>
    ensures board { IfOk result (λ copy. copy.0 ≡ parts.now.board) }
    ensures classes { IfOk result (λ copy. copy.1 ≡ parts.now.classes) }
    ensures rules { IfOk result (λ copy. plain_rules copy.2 ≡ plain_rules parts.now.rules) }
{
    let classes = parts.classes.copy()?;
    let rules = match parts.rules.copy() {
        Ok(rules) => rules,
        Err(error) => {
            drop(classes);
            return Err(error);
        }
    };
    let board = match parts.board.copy() {
        Ok(board) => board,
        Err(error) => {
            drop((classes, rules));
            return Err(error);
        }
    };
    Ok((board, classes, rules))
}

/// Equal parts, for another session.
fn copy_parts(parts: &Parts) -> Result<Parts, AllocError>
    requires { IsKept parts.now }
    ensures kept { IfOk result IsKept }
    ensures state { IfOk result (λ copy. state_of copy ≡ state_of parts.now) }
    ensures rows { IfOk result (λ copy. copy.rows.items ≡ parts.now.rows.items) }
    ensures nets { IfOk result (λ copy. copy.nets.items ≡ parts.now.nets.items) }
{
    let alloc = *parts.rows.allocator();
    let rows = Vec::from_slice(alloc, &parts.rows)?;
    let nets = copy_nets(alloc, &parts.nets)?;
    let index = parts.index.copy()?;
    let facts = parts.facts.copy()?;
    let (board, classes, rules) = match copy_given(parts) {
        Ok(given) => given,
        Err(error) => {
            drop((rows, nets, index, facts));
            return Err(error);
        }
    };
    Ok(Parts {
        board,
        classes,
        rules,
        facts,
        reach: parts.reach,
        index,
        rows,
        nets,
    })
}

impl Session {
    /// An equal session. It is asked only of a session that is not stopped. Only running out of memory refuses it, and this one stays as it
    /// was.
    pub fn copy(&self) -> Result<Session, AllocError>
        requires { self.now.stopped ≡ false }
        ensures { IfOk result (λ copy. copy ≡ self.now) }
    {
        Ok(Session {
            parts: copy_parts(&self.parts)?,
            stopped: false,
        })
    }
}
