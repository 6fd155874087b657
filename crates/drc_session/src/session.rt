//! The session.

ghost use Rattle.std.specs.Prelude.{◌≡◌, false};
ghost use Rattle.rule_text.specs.RuleValues.{plain_rules};
ghost use Rattle.pair_check.specs.CheckViews.{checked_by, IsWholeView};
ghost use Rattle.pair_check.specs.Rows.{AreRows};
ghost use Rattle.net_groups.specs.NetParts.{AreParts};
ghost use Rattle.drc_state.specs.States.{checked_in};

use crate::parts::Parts;
use board_items::Board;
use net_groups::NetPart;
use row_check::{CheckView, Row};
use rule_text::Rules;
use std::marker::Model;
use std::thread::{Threads, join};

/// A board that is edited and stays checked, under the classes of a project and rules. Contracts see the state, its rows and its nets,
/// and whether an earlier call stopped the session by running out of memory.
#[derive(Drop)]
pub struct Session {
    pub(crate) parts: Parts,
    pub(crate) stopped: bool,
}

impl Model for Session {
    ghost use Rattle.std.specs.Prelude.{◌≡◌, false};
    ghost use Rattle.std.specs.Coded.{codes};
    ghost use Rattle.cond_lang.specs.TreeCode.{coded_tree};
    ghost use Rattle.drc_session.specs.Sessions.{PlainSession};
    ghost use Rattle.drc_session.specs.SessionContents.{state_of, IsKept};

    ghost Value = { PlainSession };

    ghost coded = { Prim.hlevel (codes, coded_tree (Prim.hlevel codes)) };

    ghost view = { λ s. record { state = state_of s.parts; rows = s.parts.rows.items; nets = s.parts.nets.items; stopped = s.stopped } };

    ghost invariant = { λ s. s.stopped ≡ false → IsKept s.parts };
}

impl Session {
    /// Lets go of the session: where there are several workers by two threads, since a large board has much to let go of.
    pub fn end(self, rt: &(impl Threads + Sync), workers: u32) {
        if workers == 1 {
            drop(self);
            return;
        }
        let Parts {
            board,
            classes,
            rules,
            facts,
            reach: _,
            index,
            rows,
            nets,
        } = self.parts;
        join(
            rt,
            move || drop(board),
            move || drop((facts, index, rows, nets)),
        );
        drop((classes, rules));
    }

    /// The board as it now is. Nothing is known of it where the session is stopped.
    pub fn board(&self) -> &Board
        ensures { result.now ≡ self.now.state.board }
    {
        &self.parts.board
    }

    /// The rules as they now are, with the notes on them.
    pub fn rules(&self) -> &Rules
        ensures { plain_rules result.now ≡ self.now.state.rules }
    {
        &self.parts.rules
    }

    /// All rows of the board, in order. It is asked only of a session that is not stopped.
    pub fn rows(&self) -> &[Row]
        requires { self.now.stopped ≡ false }
        ensures same { result.now ≡ self.now.rows }
        ensures rows { AreRows (checked_in self.now.state) result.now }
    {
        &self.parts.rows
    }

    /// What is found of each declared net but net 0, in the order of the board. It is asked only of a session that is not stopped.
    pub fn nets(&self) -> &[NetPart]
        requires { self.now.stopped ≡ false }
        ensures same { result.now ≡ self.now.nets }
        ensures parts { AreParts self.now.state.board result.now }
    {
        &self.parts.nets
    }

    /// Whether an earlier call ran out of memory.
    pub fn stopped(&self) -> bool
        ensures { result ≡ self.now.stopped }
    {
        self.stopped
    }

    /// What is checked: the board, the facts of its items, the rules and the classes. It is asked only of a session that is not stopped.
    pub fn view(&self) -> CheckView<'_>
        requires { self.now.stopped ≡ false }
        ensures whole { IsWholeView result }
        ensures checked { checked_by result ≡ checked_in self.now.state }
    {
        CheckView {
            board: &self.parts.board,
            facts: &self.parts.facts,
            rules: self.parts.rules.rules.as_slice(),
            classes: &self.parts.classes,
        }
    }
}
