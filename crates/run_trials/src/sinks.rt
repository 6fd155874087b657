//! A sink that keeps what is written in memory.

ghost use Rattle.std.specs.Prelude.{◌≡◌, ◌<◌, ◌≤◌, [], Some, length, IfOk};
ghost use Rattle.std.specs.Io.KnownBytes.{WriteAppends};
ghost use Rattle.drc_io.specs.FaultCounts.{HasCause};

use drc_io::{Failed, Sink};
use std::alloc::Global;

/// A sink that keeps what is written, with room that grows. A write fails where memory runs out. A count of 64 bits
/// stays at its last value.
#[derive(Drop)]
pub(crate) struct KeptText {
    pub(crate) bytes: Vec<u8>,
    faults: u64,
}

impl KeptText {
    /// Without a text. It takes no memory.
    pub(crate) fn new(alloc: Global) -> KeptText
        ensures { result.bytes.items ≡ [] }
    {
        KeptText {
            bytes: Vec::new(alloc),
            faults: 0,
        }
    }
}

impl Sink for KeptText {
    ghost written = { λ s. Some s.bytes.items };

    ghost faults = { λ s. s.faults };

    /// Appends the whole piece.
    fn write(&mut self, piece: &[u8]) -> Result<usize, Failed> {
        match self.bytes.extend_from_slice(piece) {
            Ok(()) => Ok(piece.len()),
            Err(_) => {
                self.faults = self.faults.saturating_add(1);
                Err(Failed)
            }
        }
    }
}
