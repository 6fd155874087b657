//! What a trial tells.

ghost use Rattle.std.specs.Prelude.{◌≡◌, ◌<◌, false, length, map, All};
ghost use Rattle.edit_script.specs.Commands.{plain_command};
ghost use Rattle.edit_script.specs.Fits.{Fits};

use drc_session::Session;
use drc_state::EditError;
use edit_script::Command;
use row_check::Row;
use std::alloc::{AllocError, AllocGlobal};
use std::slice::from_ref;
use std::thread::Threads;
use tile_pool::NoGate;
use what_if::{Trial, TrialError, trial};

/// What the trial of one command tells: how many rows there are then, and which come and go, or why the command is refused.
#[derive(Drop)]
pub(crate) enum Answer {
    Tried {
        count: usize,
        come: Vec<Row>,
        gone: Vec<Row>,
    },
    Refused(EditError),
}

impl Answer {
    /// Whether both tell the same.
    pub(crate) fn is_like(&self, other: &Answer) -> bool {
        match (self, other) {
            (
                Answer::Tried { count, come, gone },
                Answer::Tried {
                    count: other_count,
                    come: other_come,
                    gone: other_gone,
                },
            ) => count == other_count && come == other_come && gone == other_gone,
            (Answer::Refused(why), Answer::Refused(other_why)) => why == other_why,
            _ => false,
        }
    }
}

/// Tries the command alone on a session that is lent.
fn answer_to<R: Threads + Sync + AllocGlobal>(
    rt: &R,
    session: &Session,
    command: &Command<'_>,
) -> Result<Answer, AllocError>
    requires running { session.now.stopped ≡ false }
    requires fits { Fits (plain_command command.now) }
{
    match trial(session, rt, 1, from_ref(command), &NoGate) {
        Ok(tried) => {
            let count = tried.session.rows().len();
            let Trial { come, gone, .. } = tried;
            Ok(Answer::Tried { count, come, gone })
        }
        Err(TrialError::Refused { inner, .. }) => Ok(Answer::Refused(inner)),
        Err(TrialError::OutOfMemory) => Err(AllocError),
    }
}

/// Tries the command of this place alone on a session that is lent.
pub(crate) fn answer_at<R: Threads + Sync + AllocGlobal>(
    rt: &R,
    session: &Session,
    commands: &[Command<'_>],
    place: usize,
) -> Result<Answer, AllocError>
    requires running { session.now.stopped ≡ false }
    requires place { place < length commands.now }
    requires fit { All Fits (map plain_command commands.now) }
{
    answer_to(rt, session, &commands[place])
}
