//! The history.

ghost use Rattle.std.specs.Prelude.{◌≡◌, false, []};
ghost use Rattle.undo_log.specs.Past.{begun};
ghost use Rattle.undo_log.specs.Ways.{IsPastOf, HasPast};

use drc_session::Session;
use drc_state::Change;
use std::alloc::Global;
use std::marker::Model;

/// A session whose commands can be undone and done again, as far back as it began. It keeps the inverse changes and those that
/// lead on. Contracts see the session, both lists with the nearest change first, and whether an earlier call ran out of memory.
#[derive(Drop)]
pub struct History {
    pub(crate) session: Session,
    pub(crate) back: Vec<Change>,
    pub(crate) on: Vec<Change>,
    pub(crate) stopped: bool,
}

impl Model for History {
    ghost use Rattle.std.specs.Prelude.{◌≡◌, false};
    ghost use Rattle.std.specs.Coded.{codes};
    ghost use Rattle.cond_lang.specs.TreeCode.{coded_tree};
    ghost use Rattle.undo_log.specs.Ways.{PlainHistory, nearest_first};
    ghost use Rattle.undo_log.specs.HistoryContents.{IsRunning};

    ghost Value = { PlainHistory };

    ghost coded = { Prim.hlevel (codes, coded_tree (Prim.hlevel codes)) };

    ghost view = { λ h. record { session = h.session; back = nearest_first h.back.items; on = nearest_first h.on.items; stopped = h.stopped } };

    ghost invariant = { λ h. h.stopped ≡ false → IsRunning h.session (nearest_first h.back.items) (nearest_first h.on.items) };
}

impl History {
    /// The history of a session that is not stopped, in which nothing was done. It takes no memory.
    pub fn begin(alloc: Global, session: Session) -> History
        requires running { session.stopped ≡ false }
        ensures whole { result ≡ record { session = session; back = []; on = []; stopped = false } }
        ensures past { IsPastOf result (begun session.state) }
    {
        History {
            session,
            back: Vec::new(alloc),
            on: Vec::new(alloc),
            stopped: false,
        }
    }

    /// The session as it now is. It runs while the history does. It takes no memory.
    pub fn session(&self) -> &Session
        ensures same { result.now ≡ self.now.session }
        ensures running { self.now.stopped ≡ false → result.now.stopped ≡ false }
    {
        &self.session
    }

    /// Whether an earlier call ran out of memory. A history that is not stopped has a past. It takes no memory.
    pub fn stopped(&self) -> bool
        ensures same { result ≡ self.now.stopped }
        ensures past { self.now.stopped ≡ false → HasPast self.now }
    {
        self.stopped
    }
}
