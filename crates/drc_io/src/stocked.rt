ghost use Rattle.std.specs.Prelude.{◌≡◌, ◌≤◌, ◌↔◌, ◌++◌, ℕ, List, Some, None, min, take, drop, length, IfOk, OnErr, IsErr, MatchOption, MatchResult, is_err};
ghost use Rattle.drc_io.specs.FaultCounts.{Rose};
ghost use Rattle.drc_io.specs.Files.{ReadsFrom, file_of};
ghost use Rattle.drc_io.specs.Memory.{ShelfState, Misses, shown, after_read, bytes_from};

use crate::{Failed, Name, Shelf};
use std::marker::Model;

/// Files in memory, of which the first of a name counts. A read gives at most so many bytes. Those reads fail that it
/// is told, by their numbers from 1, and each read of a name that is not there. The number of a read stays at the last
/// value of a counter. One count of faults serves every name.
#[derive(Drop)]
pub struct MemShelf {
    files: Vec<(Name, Vec<u8>)>,
    fails: Vec<u64>,
    most: usize,
    calls: u64,
    faults: u64,
}

impl Model for MemShelf {
    ghost Value = { ShelfState };

    ghost view = { λ s. record {
      files = shown s.files.items;
      fails = s.fails.items;
      most = s.most;
      calls = s.calls;
      faults = s.faults;
    } };

    ghost invariant = { λ s. 1 ≤ s.most };
}

impl MemShelf {
    /// The shelf with these files. `fails` lists the numbers of the reads that fail.
    pub fn new(files: Vec<(Name, Vec<u8>)>, fails: Vec<u64>) -> MemShelf
        ensures { result ≡ record {
          files = shown files.items;
          fails = fails.items;
          most = 18446744073709551615;
          calls = 0;
          faults = 0;
        } }
    {
        MemShelf::in_pieces(files, fails, usize::MAX)
    }

    /// A shelf with these files, of which a read gives at most `most` bytes, at least 1. The reads of the numbers in `fails` fail.
    pub fn in_pieces(files: Vec<(Name, Vec<u8>)>, fails: Vec<u64>, most: usize) -> MemShelf
        requires { 1 ≤ most }
        ensures { result ≡ record {
          files = shown files.items;
          fails = fails.items;
          most = most;
          calls = 0;
          faults = 0;
        } }
    {
        MemShelf {
            files,
            fails,
            most,
            calls: 0,
            faults: 0,
        }
    }
}

/// The bytes of the first file of that name.
fn find<'a>(files: &'a [(Name, Vec<u8>)], name: &str) -> Option<&'a [u8]>
    ensures { MatchOption result (file_of (shown files.now) name.now ≡ None)
        (λ bytes. file_of (shown files.now) name.now ≡ Some bytes.now) }
{
    for (title, bytes) in files {
        if title.bytes() == name.as_bytes() {
            return Some(bytes);
        }
    }
    None
}

/// Copies the bytes from a place on, as many as there is room for, and at most so many.
fn copy_from(bytes: &[u8], at: u64, most: usize, buf: &mut [u8]) -> usize
    ensures count { result ≡ min most (min (length buf.old) (length (drop at bytes.now))) }
    ensures copied { buf.new ≡ take result (drop at bytes.now) ++ drop result buf.old }
{
    if at >= bytes.len() as u64 {
        return 0;
    }
    let rest = &bytes[at as usize..];
    let n = most.min(buf.len().min(rest.len()));
    buf[..n].copy_from_slice(&rest[..n]);
    n
}

impl Shelf for MemShelf {
    ghost files = { λ s. Some s.files };

    ghost faults = { λ s _. s.faults };

    /// Gives as many bytes as there are, the buffer has room for, and a read of this shelf gives at most. `Failed` comes exactly where the number of the
    /// read is listed, or the name is not there; the buffer then stays as it was.
    fn read(&mut self, name: &str, at: u64, buf: &mut [u8]) -> Result<usize, Failed>
        ensures bound { IfOk result (λ n. n ≤ length buf.old) }
        ensures bytes { IfOk result (λ n. ReadsFrom (Some self.old.files) name.now at n buf.new) }
        ensures same { Some self.new.files ≡ Some self.old.files }
        ensures counts { (other : List ℕ) → self.old.faults ≤ self.new.faults }
        ensures cause { OnErr result (Rose self.old.faults self.new.faults) }
        ensures refused { IsErr result ↔ Misses self.old name.now }
        ensures given { let rest = bytes_from
            (file_of self.old.files name.now) at in MatchResult result
            (λ n. (n ≡ min self.old.most (min (length buf.old) (length rest)))
            × (buf.new ≡ take n rest ++ drop n buf.old)) (λ _. buf.new ≡ buf.old) }
        ensures state { self.new ≡ after_read self.old (is_err result) }
    {
        self.calls = self.calls.saturating_add(1);
        if self.fails.contains(&self.calls) {
            self.faults = self.faults.saturating_add(1);
            return Err(Failed);
        }
        let Some(bytes) = find(&self.files, name) else {
            self.faults = self.faults.saturating_add(1);
            return Err(Failed);
        };
        Ok(copy_from(bytes, at, self.most, buf))
    }
}
