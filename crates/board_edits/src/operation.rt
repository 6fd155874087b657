//! What is done to a board.

use board_items::{Item, Kept, Nm};

/// What is done to a board. Contracts see it by `plain_operation`.
#[derive(Drop)]
pub enum Operation {
    /// The board stays as it is.
    Nothing,
    /// Items go last, one after another. They are of the unit that comes next.
    Append { items: Vec<Item> },
    /// Items of one unit are put back under the ids that they had.
    PutBack { items: Vec<Kept> },
    /// All items of the unit are taken out.
    TakeOut { unit: u32 },
    /// All items of the unit but notes are moved, by so many nanometres.
    Shift { unit: u32, dx: Nm, dy: Nm },
}
