//! A writer as a sink.

ghost use Rattle.std.specs.Prelude.{◌≡◌, ◌<◌, ◌≤◌, IfOk, IfErr, MatchResult, not, length, take};
ghost use Rattle.std.specs.Io.KnownBytes.{Appends, WriteAppends};
ghost use Rattle.drc_io.specs.FaultCounts.{HasCause};
ghost use Rattle.drc_outside.specs.OutsideFaults.{counted, takes_all};

use drc_io::{Failed, Sink};
use std::io::{ErrorKind, Write};

/// A writer of the system, which tells what it holds where the writer does.
#[derive(Drop)]
pub struct StdoutSink<W> {
    out: W,
    faults: u64,
}

impl<W> StdoutSink<W> {
    pub fn new(out: W) -> StdoutSink<W>
        ensures { result ≡ record { out = out; faults = 0 } }
    {
        StdoutSink { out, faults: 0 }
    }
}

/// Writes the whole piece, or says how many bytes were taken before a fault came. A write that takes none is a fault.
fn write_whole<W: Write>(out: &mut W, piece: &[u8]) -> Result<(), usize>
    ensures short { IfErr result (λ taken. taken < length piece.now) }
    ensures bytes { MatchResult result
        (λ _. Appends (W.contents out.old) (W.contents out.new) piece.now)
        (λ taken. Appends (W.contents out.old) (W.contents out.new) (take taken piece.now)) }
{
    let mut done = 0;
    for _ in 0..u64::MAX {
        if done == piece.len() {
            return Ok(());
        }
        match out.write(&piece[done..]) {
            Ok(n) if n > 0 => done += n,
            Err(e) if e.kind() == ErrorKind::Interrupted => {}
            _ => break,
        }
    }
    if done < piece.len() {
        Err(done)
    } else {
        Ok(())
    }
}

impl<W: Write> Sink for StdoutSink<W> {
    ghost written = { λ s. W.contents s.out };

    ghost faults = { λ s. s.faults };

    /// Where a fault comes after some bytes were taken, the answer counts these, and the next write meets it. The
    /// count rises exactly where less than the whole piece was taken.
    fn write(&mut self, piece: &[u8]) -> Result<usize, Failed>
        ensures bound { IfOk result (λ n. n ≤ length piece.now) }
        ensures some { IfOk result (λ n. 0 < length piece.now → 0 < n) }
        ensures bytes { WriteAppends
            (W.contents self.old.out) (W.contents self.new.out) result piece.now }
        ensures cause { HasCause self.old.faults self.new.faults result }
        ensures raised { self.new.faults
            ≡ counted self.old.faults (not (takes_all result piece.now)) }
    {
        match write_whole(&mut self.out, piece) {
            Ok(()) => Ok(piece.len()),
            Err(taken) => {
                self.faults = self.faults.saturating_add(1);
                if taken > 0 { Ok(taken) } else { Err(Failed) }
            }
        }
    }
}
