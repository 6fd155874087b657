//! Kinds of items, and where a value comes from.

/// The kind of an item, as `board_items::What` has it.
#[derive(Clone, Copy, Debug, Drop, PartialEq, Eq)]
pub enum ItemKind {
    Track,
    Via,
    Pad,
    Graphic,
    Fill,
    Edge,
    Area,
    Body,
    Note,
}

/// Where a value comes from.
#[derive(Clone, Copy, Debug, Drop, PartialEq, Eq)]
pub enum Source {
    /// From the classes of the nets, or from the board's least distances and sizes.
    Default,
    /// From an item's own clearance.
    Local,
    /// From the rule with this number. The first rule has number 0.
    Rule(u32),
}
