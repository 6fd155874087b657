//! What the walks over layers go through, and what they find.

use board_items::{Item, Nm};
use kind_subjects::RowLayer;
use rule_pick::{Facts, Picked};

/// A single item with its facts.
#[derive(Clone, Copy)]
pub struct Single<'a> {
    pub item: &'a Item,
    pub facts: &'a Facts,
}

/// Two items with their facts.
#[derive(Clone, Copy)]
pub(crate) struct Pair<'a> {
    pub(crate) a: &'a Item,
    pub(crate) b: &'a Item,
    pub(crate) facts_a: &'a Facts,
    pub(crate) facts_b: &'a Facts,
}

/// A layer on which two items are too near, what is picked there, and the gap in nanometres.
#[derive(Clone, Copy)]
pub(crate) struct Near {
    pub(crate) layer: RowLayer,
    pub(crate) picked: Picked,
    pub(crate) gap: Nm,
}

/// A limit that is broken, in nanometres: the greatest value rather than the least.
#[derive(Clone, Copy)]
pub(crate) struct Limit {
    pub(crate) over: bool,
    pub(crate) nm: Nm,
}

/// A layer on which an item breaks something, and what is picked there.
#[derive(Clone, Copy)]
pub(crate) struct Off {
    pub(crate) layer: RowLayer,
    pub(crate) picked: Picked,
    pub(crate) limit: Limit,
}

/// A layer on which an item is forbidden, and what is picked there.
#[derive(Clone, Copy)]
pub(crate) struct Forbidden {
    pub(crate) layer: RowLayer,
    pub(crate) picked: Picked,
}
