ghost use Rattle.std.specs.Prelude.{◌≡◌, ◌<◌, ◌≤◌, ◌↔◌, [], Some, length, vec_capacity, vec_len, IfOk, IsErr, is_err};
ghost use Rattle.std.specs.Io.KnownBytes.{WriteAppends};
ghost use Rattle.drc_io.specs.FaultCounts.{HasCause};
ghost use Rattle.drc_io.specs.Memory.{SinkState, Refuses, taken_of, after_write};

use crate::{Failed, Sink};
use std::alloc::{AllocError, Global};
use std::marker::Model;

/// A sink in memory with room for so many bytes. A write takes at most so many bytes of its piece, and those
/// writes fail that it is told, by their numbers from 1. The number of a write stays at the last value of a counter.
#[derive(Drop)]
pub struct MemSink {
    bytes: Vec<u8>,
    most: usize,
    room: usize,
    fails: Vec<u64>,
    calls: u64,
    faults: u64,
}

impl Model for MemSink {
    ghost Value = { SinkState };

    ghost view = { λ s. record {
      bytes = s.bytes.items;
      most = s.most;
      room = s.room;
      fails = s.fails.items;
      calls = s.calls;
      faults = s.faults;
    } };

    ghost invariant = { λ s. (1 ≤ s.most) × (vec_len s.bytes ≤ s.room)
        × (s.room ≤ vec_capacity s.bytes) };
}

impl MemSink {
    /// Takes the memory for `room` bytes at once; no write takes any. `most` is how many bytes a write takes at most.
    pub fn new(
        alloc: Global,
        most: usize,
        room: usize,
        fails: Vec<u64>,
    ) -> Result<MemSink, AllocError>
        requires { 1 ≤ most }
        ensures { IfOk result (λ sink. sink ≡ record {
          bytes = [];
          most = most;
          room = room;
          fails = fails.items;
          calls = 0;
          faults = 0;
        }) }
    {
        Ok(MemSink {
            bytes: Vec::with_capacity(alloc, room)?,
            most,
            room,
            fails,
            calls: 0,
            faults: 0,
        })
    }

    /// What was written.
    pub fn bytes(&self) -> &[u8]
        ensures { result.now ≡ self.now.bytes }
    {
        &self.bytes
    }
}

impl Sink for MemSink {
    ghost written = { λ s. Some s.bytes };

    ghost faults = { λ s. s.faults };

    /// Appends the front of the piece, at most `most` bytes and never beyond the reserved room. It fails where
    /// this write is one of the listed ones, and where a piece of one byte or more finds the room used up.
    fn write(&mut self, piece: &[u8]) -> Result<usize, Failed>
        ensures bound { IfOk result (λ n. n ≤ length piece.now) }
        ensures some { IfOk result (λ n. 0 < length piece.now → 0 < n) }
        ensures bytes { WriteAppends (Some self.old.bytes) (Some self.new.bytes) result piece.now }
        ensures cause { HasCause self.old.faults self.new.faults result }
        ensures refused { IsErr result ↔ Refuses self.old piece.now }
        ensures taken { IfOk result (λ n. n ≡ taken_of self.old piece.now) }
        ensures state { self.new ≡ after_write self.old piece.now (is_err result) }
    {
        self.calls = self.calls.saturating_add(1);
        let left = self.room - self.bytes.len();
        if self.fails.contains(&self.calls) || (!piece.is_empty() && left == 0) {
            self.faults = self.faults.saturating_add(1);
            return Err(Failed);
        }
        let n = piece.len().min(self.most).min(left);
        self.bytes.extend_from_slice(&piece[..n]).unwrap();
        Ok(n)
    }
}
