//! The words of the command line.

ghost use Rattle.std.specs.Prelude.{◌≡◌, ◌≢◌, [], IfOk, MatchResult};
ghost use Rattle.std.specs.IoError.{error_kind};
ghost use Rattle.std.specs.Vec.Iter.{into_iter_items};

use std::alloc::{AllocError, AllocGlobal, Global};
use std::env::{Args, Env};
use std::io::ErrorKind;
use std::{env, io};

/// All the words, as they came.
fn all_of(alloc: Global, words: Args) -> Result<Vec<String>, AllocError>
    ensures { IfOk result (λ line. line.items ≡ into_iter_items words) }
{
    words.collect(alloc)
}

/// The words of a line that were given. A line that is not text has none.
fn gathered(alloc: Global, given: io::Result<Args>) -> Result<Vec<String>, AllocError>
    ensures { IfOk result (λ line. MatchResult given
        (λ words. line.items ≡ into_iter_items words)
        (λ e. (error_kind e ≢ ErrorKind.OutOfMemory) × (line.items ≡ []))) }
{
    match given {
        Ok(words) => all_of(alloc, words),
        Err(e) if e.kind() == ErrorKind::OutOfMemory => Err(AllocError),
        Err(_) => Ok(Vec::new(alloc)),
    }
}

/// The words of the command line with the program's name. A line that is not text has none, and so no reading.
pub fn command_line<R: Env + AllocGlobal>(rt: &R) -> Result<Vec<String>, AllocError> {
    gathered(rt.alloc(), env::args(rt))
}
