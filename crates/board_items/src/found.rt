//! What a name is found to stand for.

/// What a name stands for on a board.
#[derive(Clone, Copy, Debug, PartialEq, Eq, Drop)]
pub enum Found {
    /// No unit holds an item of that name, or the name is empty.
    None,
    /// Two units or more do.
    Shared,
    /// One footprint does, and it has another name itself.
    Inside,
    /// This unit.
    Unit(u32),
}
