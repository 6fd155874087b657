//! Why a command does nothing to a board.

use board_items::BoardError;
use std::alloc::AllocError;

/// Why a command does nothing to a board. The first three are tested in this order, for what a name stands for.
#[derive(Clone, Copy, Debug, PartialEq, Eq, Drop)]
pub enum Refusal {
    /// No unit has the name.
    NoSuchItem,
    /// Several units have it.
    SharedName,
    /// A part of a footprint has it, and the footprint has another.
    PartOfFootprint,
    /// An added list is refused, or a unit would leave the board.
    Item(BoardError),
    /// Memory ran out.
    OutOfMemory,
}

impl From<AllocError> for Refusal {
    ghost use Rattle.std.specs.Prelude.{◌≡◌};
    ghost use Rattle.board_edits.specs.declared.refusal.Refusal.TheVariants.{OutOfMemory};

    ghost from_gives = { λ _ e. e ≡ OutOfMemory };

    fn from(_: AllocError) -> Refusal {
        Refusal::OutOfMemory
    }
}
