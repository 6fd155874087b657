//! What the program reads from and writes to, and names.
//!
//! A [`Shelf`] holds files by name, a [`Sink`] takes a text. Each keeps a count of its faults, by which a caller
//! sees that an answer `Failed` has its cause. [`fetch`] reads a whole file and [`put_all`] writes a whole text.
//! [`MemShelf`] and [`MemSink`] are a shelf and a sink in memory that fail where they are told to.
#![tactic(auto)]

ghost use Rattle.std.specs.Prelude.{◌≡◌, ◌<◌, ◌≤◌, ◌^◌, ◌⊎◌, ℕ, List, Option, length, vec_len, IfOk, IfErr, IfSome, OnErr};
ghost use Rattle.std.specs.Io.KnownBytes.{WriteAppends};
ghost use Rattle.drc_io.specs.FaultCounts.{HasCause, Rose};
ghost use Rattle.drc_io.specs.Fetching.{Decides};
ghost use Rattle.drc_io.specs.Files.{ReadsFrom, ReadsBehind, IsWholeFile, IsLonger, file_of};
ghost use Rattle.drc_io.specs.Sinks.{Wrote};
ghost use Rattle.drc_io.specs.declared.FetchError.TheVariants.{OutOfMemory, Failed as FaultOfShelf};

use plain_types::crosses_threads;
use std::alloc::{AllocError, Global};
use std::error::Error;
use std::fmt;

mod memory;
mod name;
mod stocked;
mod text;

pub use memory::MemSink;
pub use name::Name;
pub use stocked::MemShelf;

/// A read or a write did not come about.
#[derive(Clone, Copy, Debug, PartialEq, Eq)]
pub struct Failed;

/// Files by name.
pub trait Shelf {
    /// The names with their bytes, where the shelf tells them. The first entry of a name counts.
    ghost files: { Self → Option (List (List ℕ × List ℕ)) };

    /// How many faults there were, for each name. A counter of 64 bits stays at its last value.
    ghost faults: { Self → List ℕ → ℕ };

    /// Reads bytes of the file from the place `at` on into the front of `buf`, and says how many. With a buffer
    /// that is not empty the answer is 0 only at the end of the file. `Failed` comes only where the count of that
    /// name rose, and of a shelf that tells it is the only answer for a name that is not there.
    fn read(&mut self, name: &str, at: u64, buf: &mut [u8]) -> Result<usize, Failed>
        ensures bound { IfOk result (λ n. n ≤ length buf.old) }
        ensures bytes { IfOk result (λ n. ReadsFrom (files self.old) name.now at n buf.new) }
        ensures same { files self.new ≡ files self.old }
        ensures counts { (other : List ℕ) → faults self.old other ≤ faults self.new other }
        ensures cause { OnErr result (Rose (faults self.old name.now) (faults self.new name.now)) };
}

/// Where a text is written to.
pub trait Sink {
    /// The bytes so far, where the sink tells them.
    ghost written: { Self → Option (List ℕ) };

    /// How many faults there were. A counter of 64 bits stays at its last value.
    ghost faults: { Self → ℕ };

    /// Appends a prefix of the piece and says how many bytes it has, at least one where the piece is not
    /// empty. `Failed` comes only where the count of faults rose, and then nothing was appended.
    fn write(&mut self, piece: &[u8]) -> Result<usize, Failed>
        ensures bound { IfOk result (λ n. n ≤ length piece.now) }
        ensures some { IfOk result (λ n. 0 < length piece.now → 0 < n) }
        ensures bytes { WriteAppends (written self.old) (written self.new) result piece.now }
        ensures cause { HasCause (faults self.old) (faults self.new) result };
}

/// Writes the whole text. It takes no memory. `Failed` comes only where the sink's count of faults rose, and then
/// a prefix of the text was written.
pub fn put_all<W: Sink>(sink: &mut W, text: &[u8]) -> Result<(), Failed>
    ensures { Wrote W.written W.faults sink.old sink.new text.now result }
{
    let mut done = 0;
    while done < text.len() {
        done += sink.write(&text[done..])?;
    }
    Ok(())
}

/// Why a file was not fetched. Running out of memory has no number.
#[derive(Clone, Copy, Debug, PartialEq, Eq)]
pub enum FetchError {
    /// The shelf failed.
    Failed = 1,

    /// The file has more bytes than the limit.
    TooLong = 2,

    OutOfMemory,
}

impl fmt::Display for FetchError {
    ghost use Rattle.std.specs.Prelude.{Some};
    ghost use Rattle.drc_io.specs.FaultMessage.{message_of};

    ghost output = { λ error. Some (message_of error) };

    fn fmt<W: fmt::Write>(&self, f: &mut fmt::Formatter<W>) -> fmt::Result {
        f.write_str(match self {
            FetchError::Failed => "Failed (1)",
            FetchError::TooLong => "TooLong (2)",
            FetchError::OutOfMemory => "OutOfMemory",
        })
    }
}

impl Error for FetchError {}

impl From<AllocError> for FetchError {
    ghost from_gives = { λ _ e. e ≡ OutOfMemory };

    fn from(_: AllocError) -> Self {
        FetchError::OutOfMemory
    }
}

impl From<Failed> for FetchError {
    ghost from_gives = { λ _ e. e ≡ FaultOfShelf };

    fn from(_: Failed) -> Self {
        FetchError::Failed
    }
}

/// What a read fills: it asks for so many bytes. They are appended as one piece, which costs a small part of what it would cost one by one.
const BLANK: [u8; 32_768] = [0; 32_768];

/// Reads a piece of the file to the end of the text, which has the bytes before it, and says how many came.
fn read_piece<F: Shelf>(shelf: &mut F, name: &str, text: &mut Vec<u8>) -> Result<usize, FetchError>
    requires { vec_len text.old < 2 ^ 33 }
    ensures read { IfOk result (λ n.
        ReadsBehind (F.files shelf.old) name.now text.old.items n text.new.items) }
    ensures fault { IfErr result (λ e. (e ≡ FetchError.OutOfMemory)
        ⊎ ((e ≡ FetchError.Failed) × Rose (F.faults shelf.old name.now)
        (F.faults shelf.new name.now))) }
    ensures same { F.files shelf.new ≡ F.files shelf.old }
    ensures counts { (other : List ℕ) → F.faults shelf.old other ≤ F.faults shelf.new other }
{
    let done = text.len();
    text.extend_from_slice(&BLANK)?;
    let n = shelf.read(name, done as u64, &mut text[done..])?;
    text.truncate(done + n);
    Ok(n)
}

/// Reads a whole file, of at most `limit` bytes. `Failed` comes only where the shelf's count for that name rose.
/// Of a shelf that tells, `TooLong` comes only where the file has more than `limit` bytes, and what comes where
/// the count did not rise and memory was there is decided by the file alone.
pub fn fetch<F: Shelf>(
    alloc: Global,
    shelf: &mut F,
    name: &str,
    limit: u32,
) -> Result<Vec<u8>, FetchError>
    ensures whole { IfOk result (λ text. IsWholeFile (F.files shelf.old) name.now text.items) }
    ensures short { IfOk result (λ text. length text.items ≤ limit) }
    ensures failed { result ≡ Err FetchError.Failed
        → Rose (F.faults shelf.old name.now) (F.faults shelf.new name.now) }
    ensures too_long { result ≡ Err FetchError.TooLong
        → IsLonger (F.files shelf.old) name.now limit }
    ensures decided { IfSome (F.files shelf.old)
        (λ files. Decides (file_of files name.now) limit (F.faults shelf.old name.now)
        (F.faults shelf.new name.now) result) }
    ensures same { F.files shelf.new ≡ F.files shelf.old }
    ensures counts { (other : List ℕ) → F.faults shelf.old other ≤ F.faults shelf.new other }
{
    let mut text = Vec::new(alloc);
    'pieces: while text.len() <= limit as usize {
        if read_piece(shelf, name, &mut text)? == 0 {
            // what the text leaves of its room is free for what comes next
            text.shrink_to_fit();
            return Ok(text);
        }
    }
    Err(FetchError::TooLong)
}

fn all_cross() {
    crosses_threads::<Failed>();
    crosses_threads::<FetchError>();
    crosses_threads::<Name>();
    crosses_threads::<MemShelf>();
    crosses_threads::<MemSink>();
}
