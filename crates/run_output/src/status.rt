//! How a run ends: its status, and the last line of one that has no report.

ghost use Rattle.std.specs.Prelude.{◌≡◌, ℕ, List, false, Option, MatchResult};
ghost use Rattle.drc_io.specs.FaultCounts.{Rose};
ghost use Rattle.run_words.specs.Calls.{nothing};
ghost use Rattle.run_output.specs.declared.status.Status.{Status};
ghost use Rattle.run_output.specs.Output.{IsStatusOf};
ghost use Rattle.run_output.specs.RefusalLines.{IsLineOf};
ghost use Rattle.run_output.specs.RunEndings.{Ends, EndsFor, IsTextOfOne, number_of};

use crate::lines::{write_refusal, write_unread};
use drc_io::{Failed, Sink, put_all};
use drc_session::Session;
use run_texts::Stop;

/// The status of the program.
#[derive(Clone, Copy, Debug, PartialEq, Eq)]
pub enum Status {
    /// All was written, and the board has no row; of trials, none would come; of the text of a board, no command was refused.
    Clean = 0,
    /// All was written, and the board has a row, or one would come by a trial, or a command was refused.
    Rows = 1,
    /// The words are no command line.
    Usage = 2,
    /// A text was refused.
    Refused = 3,
    /// A read failed.
    ReadFault = 4,
    /// A write failed.
    WriteFault = 5,
    /// Memory ran out.
    OutOfMemory = 6,
}

/// The status after a text was written, or that of a write that failed.
pub fn after(written: Result<(), Failed>, status: Status) -> Status
    ensures { MatchResult written (λ _. result ≡ status) (λ _. result ≡ Status.WriteFault) }
{
    match written {
        Ok(()) => status,
        Err(Failed) => Status::WriteFault,
    }
}

/// Writes the line that says how the program is called, for words that are no command line.
pub fn usage<W: Sink>(line: &'static [u8], out: &mut W) -> Status
    ensures ends { (told : Option (List (List ℕ × List ℕ))) (before now : List ℕ → ℕ)
        → EndsFor (nothing line.now) told before now
        (W.written out.old) (W.written out.new) result }
    ensures fault { result ≡ Status.WriteFault → Rose (W.faults out.old) (W.faults out.new) }
{
    after(put_all(out, line), Status::Usage)
}

/// Writes the line of what stops a run before its first report: `refused WHICH: ..` or `cannot read WHICH`. Running out of memory is
/// not written. The status is 3, 4 or 6, and 5 where the write failed.
pub fn write_stop<W: Sink>(stop: Stop, out: &mut W) -> Status
    ensures ends { Ends (IsLineOf stop) (IsTextOfOne (IsLineOf stop))
        (λ which. stop ≡ Stop.Unread which) (W.written out.old) (W.written out.new) result }
    ensures fault { result ≡ Status.WriteFault → Rose (W.faults out.old) (W.faults out.new) }
{
    match stop {
        Stop::Refused(why) => after(write_refusal(why, out), Status::Refused),
        Stop::Unread(which) => after(write_unread(which, out), Status::ReadFault),
        Stop::OutOfMemory => Status::OutOfMemory,
    }
}

/// The status of a session that is not stopped: 0 where it has no row, and else 1.
pub fn session_status(session: &Session) -> Status
    requires { session.now.stopped ≡ false }
    ensures { IsStatusOf session.now.state (number_of result) }
{
    match session.rows() {
        [] => Status::Clean,
        _ => Status::Rows,
    }
}
