//! Why a run breaks off between two of its texts, and what a report tells of the tiles.

ghost use Rattle.std.specs.Prelude.{◌≡◌, length, MatchResult, Ok, Err};
ghost use Rattle.run_output.specs.declared.breaks.Break.{Break};

use drc_io::Failed;
use drc_session::Applied;
use run_reports::Tiles;

/// Why a run breaks off.
#[derive(Clone, Copy)]
pub enum Break {
    /// A write failed.
    Unwritten,
    /// Memory ran out.
    OutOfMemory,
}

/// Whether a text was written, or else that the run breaks off as a write failed.
pub fn or_break(written: Result<(), Failed>) -> Result<(), Break>
    ensures { MatchResult written (λ u. result ≡ Ok u) (λ _. result ≡ Err Break.Unwritten) }
{
    match written {
        Ok(()) => Ok(()),
        Err(Failed) => Err(Break::Unwritten),
    }
}

/// How many tiles a call of a session went through, and how many hold an item, as a report tells them.
pub fn tiles_of(applied: &Applied) -> Tiles
    ensures done { result.done ≡ length applied.now.tiles.items }
    ensures held { result.held ≡ applied.now.held }
{
    Tiles {
        done: applied.tiles.len() as u64,
        held: applied.held,
    }
}
