//! Commands that are tried each alone.

ghost use Rattle.std.specs.Prelude.{◌≡◌, ◌<◌, ◌≤◌, false, All, map, length, IfOk};
ghost use Rattle.std.specs.List.{AllZip};
ghost use Rattle.plain_types.specs.Limits.{IsWorkerCount, most_trials};
ghost use Rattle.edit_script.specs.Commands.{plain_command};
ghost use Rattle.edit_script.specs.Fits.{Fits};
ghost use Rattle.what_if.specs.Trials.{IsCount, IsLeast, IsSurvey};

use crate::least::first_least;
use crate::outcome::Survey;
use crate::runs::in_order;
use crate::work::Trials;
use drc_session::Session;
use edit_script::Command;
use std::alloc::{AllocError, AllocGlobal};
use std::thread::Threads;
use tile_pool::{Gate, NoGate, run_tiles};

/// How many rows there are after each command alone.
fn counts_of<R: Threads + Sync + AllocGlobal, G: Gate>(
    session: &Session,
    rt: &R,
    workers: u32,
    commands: &[Command<'_>],
    gate: &G,
) -> Result<Vec<Option<u64>>, AllocError>
    requires workers { IsWorkerCount workers }
    requires running { session.now.stopped ≡ false }
    requires few { length commands.now ≤ most_trials }
    requires fit { All Fits (map plain_command commands.now) }
    ensures { IfOk result (λ counts.
        AllZip (IsCount session.now.state) (map plain_command commands.now) counts.items) }
{
    let stride = workers.min((commands.len() as u32).max(1));
    let work = Trials {
        session,
        rt,
        gate,
        commands,
        stride,
    };
    let (runs, dealt) = run_tiles(rt, rt.alloc(), workers, stride, &work, &NoGate)?;
    drop(dealt);
    let counts = in_order(rt.alloc(), session, commands, &runs);
    drop(runs);
    counts
}

/// The survey that counts make, at most 2^32 of them.
pub fn survey_of(counts: Vec<Option<u64>>) -> Survey
    requires { length counts.items ≤ 4294967296 }
    ensures counts { result.counts.items ≡ counts.items }
    ensures least { IsLeast counts.items result.least }
{
    let least = first_least(&counts);
    Survey { counts, least }
}

/// Tries each of at most 15,625 commands alone, on a copy of the session. They are dealt to so many workers, from 1 to 64, and the gate
/// is called before and after each command with its place. A worker turns its copy back after each command, and makes another after
/// one that adds a list or replaces the rules. The session that is lent must not be stopped, and it stays as it is. Only running out of
/// memory refuses the call.
pub fn survey<R: Threads + Sync + AllocGlobal, G: Gate>(
    session: &Session,
    rt: &R,
    workers: u32,
    commands: &[Command<'_>],
    gate: &G,
) -> Result<Survey, AllocError>
    requires workers { IsWorkerCount workers }
    requires running { session.now.stopped ≡ false }
    requires few { length commands.now ≤ most_trials }
    requires fit { All Fits (map plain_command commands.now) }
    ensures { IfOk result (λ s.
        IsSurvey session.now.state (map plain_command commands.now) s.counts.items s.least) }
{
    let counts = counts_of(session, rt, workers, commands, gate)?;
    Ok(survey_of(counts))
}
