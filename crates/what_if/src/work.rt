//! Commands, each alone, as the work of workers.

ghost use Rattle.std.specs.Prelude.{◌≡◌, ◌<◌, All, IfOk, length, map};
ghost use Rattle.edit_script.specs.Commands.{plain_command};
ghost use Rattle.edit_script.specs.Fits.{Fits};
ghost use Rattle.what_if.specs.Trials.{IsCountAt};

use crate::trial_scratch::TrialScratch;
use drc_session::Session;
use edit_script::Command;
use std::alloc::{AllocError, AllocGlobal, Global};
use std::thread::Threads;
use tile_pool::{Gate, TileWork};

/// Commands that are tried each alone. The number k of the work has the commands of the places k, k + `stride` and so on, one after another
/// on one copy of the session. The gate is called before and after each with its place.
#[derive(Drop)]
pub(crate) struct Trials<'a, R, G> {
    pub(crate) session: &'a Session,
    pub(crate) rt: &'a R,
    pub(crate) gate: &'a G,
    pub(crate) commands: &'a [Command<'a>],
    pub(crate) stride: u32,
}

/// How many rows there are after the command of this place alone.
fn count_at<R: Threads + Sync + AllocGlobal>(
    trial_scratch: &mut TrialScratch<'_>,
    rt: &R,
    commands: &[Command<'_>],
    place: usize,
) -> Result<Option<u64>, AllocError>
    requires place { place < length commands.now }
    requires fit { All Fits (map plain_command commands.now) }
    ensures same { trial_scratch.new ≡ trial_scratch.old }
    ensures count { IfOk result (IsCountAt trial_scratch.old.state
        (map plain_command commands.now) place) }
{
    trial_scratch.count(rt, &commands[place])
}

impl<'a, R: Threads + Sync, G: Gate> TileWork for Trials<'a, R, G> {
    type Out = Vec<Option<u64>>;

    ghost use Rattle.std.specs.Prelude.{◌≡◌, ◌<◌, ◌≤◌, false, All, length, map};
    ghost use Rattle.std.specs.Thread.{IsSync};
    ghost use Rattle.plain_types.specs.Limits.{IsWorkerCount, most_trials};
    ghost use Rattle.edit_script.specs.Commands.{plain_command};
    ghost use Rattle.edit_script.specs.Fits.{Fits};
    ghost use Rattle.what_if.specs.CommandRuns.{AreCountsFrom};

    ghost ready = { λ work. IsSync R.row × (work.session.now.stopped ≡ false) × All Fits (map plain_command work.commands.now) × (length work.commands.now ≤ most_trials) × IsWorkerCount work.stride };

    ghost count = { λ work. work.stride };

    ghost gives = { λ work number counts. AreCountsFrom work.session.now.state (map plain_command work.commands.now) work.stride number counts.items };

    fn test(&self, alloc: Global, number: u32) -> Result<Vec<Option<u64>>, AllocError> {
        // The runtime goes beside the allocator of the work. That it gives one itself is known of the thread alone that calls for the survey,
        // and a trial starts threads.
        let rt = (self.rt, alloc);
        let mut trial_scratch = TrialScratch::new(self.session);
        let mut counts = Vec::new(alloc);
        let mut place = number as usize;
        'places: while place < self.commands.len() {
            self.gate.before(place as u32);
            let counted = count_at(&mut trial_scratch, &rt, self.commands, place);
            self.gate.after(place as u32);
            let count = match counted {
                Ok(count) => count,
                Err(error) => {
                    drop(trial_scratch);
                    return Err(error);
                }
            };
            match counts.push(count) {
                Ok(()) => {}
                Err(_) => {
                    drop(trial_scratch);
                    return Err(AllocError);
                }
            }
            place += self.stride as usize;
        }
        drop(trial_scratch);
        Ok(counts)
    }
}
