//! The rows of a pair, or of an item.

ghost use Rattle.std.specs.Prelude.{◌≡◌, [], ◌∷◌, ◌++◌, ◌<◌, length};

use crate::row::Row;
use cond_lang::{Kind, Severity};
use kind_subjects::RowLayer;
use rule_pick::Source;
use smallvec::SmallVec;
use std::alloc::{Allocator, Global};
use std::default::MadeWith;
use std::marker::Model;

// A place in a list that holds no row yet has this one.
impl<A: Allocator> MadeWith<A> for Row {
    fn made_with(_: A) -> Row {
        Row {
            first: 0,
            second: 1,
            kind: Kind::Short,
            layer: RowLayer::Copper(0),
            value: 0,
            gap: 0,
            over: false,
            source: Source::Default,
            severity: Severity::Error,
        }
    }
}

/// The rows of a pair or of an item, by rising kinds: at most eight, kept in place. Contracts see it as a list.
#[derive(Drop)]
pub struct PairRows {
    pub(crate) list: SmallVec<Row, 8>,
}

impl Model for PairRows {
    ghost use Rattle.std.specs.Prelude.{◌≡◌, List};
    ghost use Rattle.pair_check.specs.PlainRow.{PlainRow};

    ghost Value = { List PlainRow };

    ghost view = { λ rows. rows.list.items };

    ghost invariant = { λ rows. rows.list.capacity ≡ 8 };
}

impl PairRows {
    /// No rows. It takes no memory.
    pub fn new(alloc: Global) -> PairRows
        ensures { result ≡ [] }
    {
        PairRows {
            list: SmallVec::new(alloc),
        }
    }

    /// Takes all rows out. It takes no memory.
    pub(crate) fn clear(&mut self)
        ensures { self.new ≡ [] }
    {
        self.list.clear();
    }

    /// Appends a row, which has a place. It takes no memory.
    pub(crate) fn push(&mut self, row: Row)
        requires { length self.old < 8 }
        ensures { self.new ≡ self.old ++ row ∷ [] }
    {
        self.list.push_reserved(row);
    }

    /// The rows in their order. It takes no memory.
    pub fn as_slice(&self) -> &[Row]
        ensures { result.now ≡ self.now }
    {
        self.list.as_slice()
    }
}
