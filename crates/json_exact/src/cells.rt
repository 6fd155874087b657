//! The flat form of a text: a cell for each value and each name, in the order in which they begin.

#[derive(Clone, Copy, Debug, Drop, PartialEq, Eq)]
pub(crate) enum Kind {
    Null,
    True,
    False,
    Number,
    String,
    List,
    Object,
}

/// Where a value begins and ends in the text, and how many cells its brackets hold.
#[derive(Clone, Copy, Debug, Drop)]
pub(crate) struct Cell {
    pub(crate) kind: Kind,
    pub(crate) at: u32,
    pub(crate) end: u32,
    pub(crate) inside: u32,
}
