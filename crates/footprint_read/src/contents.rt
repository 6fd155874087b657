//! The contents of a footprint: the items that its children give, each with the place of its list,
//! and what they give the courtyards of both sides.

ghost use Rattle.std.specs.Prelude.{◌≡◌, ◌++◌, [], OnOk};
ghost use Rattle.footprint_read.specs.FootprintOf.{empty, given_at};

use crate::sides::CourtSide;
use board_items::Item;
use std::alloc::{AllocError, Global};
use std::marker::Model;

/// An item, and the place of the list that gives it.
#[derive(Drop)]
pub struct Given {
    pub place: u32,
    pub item: Item,
}

/// Items with the places of the lists that give them. Contracts see the list.
#[derive(Drop)]
pub struct AllGiven {
    list: Vec<Given>,
}

impl Model for AllGiven {
    ghost use Rattle.std.specs.Prelude.{List};
    ghost use Rattle.footprint_read.specs.declared.contents.Given.{Given};

    ghost Value = { List Given };

    ghost view = { λ g. g.list.items };
}

/// Puts the items of the list at this place behind the others.
fn append_items(list: &mut Vec<Given>, place: u32, items: Vec<Item>) -> Result<(), AllocError>
    ensures { OnOk result (list.new.items ≡ list.old.items ++ given_at place items.items) }
{
    for item in items {
        list.push(Given { place, item })?;
    }
    Ok(())
}

/// Puts these behind the others.
fn append_given(list: &mut Vec<Given>, more: Vec<Given>) -> Result<(), AllocError>
    ensures { OnOk result (list.new.items ≡ list.old.items ++ more.items) }
{
    for given in more {
        list.push(given)?;
    }
    Ok(())
}

impl AllGiven {
    /// An empty list of items.
    pub(crate) fn new(alloc: Global) -> AllGiven
        ensures { result ≡ [] }
    {
        AllGiven {
            list: Vec::new(alloc),
        }
    }

    /// Puts the items of the list at this place behind the others.
    pub(crate) fn append(&mut self, place: u32, items: Vec<Item>) -> Result<(), AllocError>
        ensures { OnOk result (self.new ≡ self.old ++ given_at place items.items) }
    {
        append_items(&mut self.list, place, items)
    }

    /// Puts these behind the others.
    pub(crate) fn append_all(&mut self, more: AllGiven) -> Result<(), AllocError>
        ensures { OnOk result (self.new ≡ self.old ++ more) }
    {
        append_given(&mut self.list, more.list)
    }

    /// The list alone.
    pub(crate) fn into_list(self) -> Vec<Given>
        ensures { result.items ≡ self }
    {
        self.list
    }
}

/// Items in the order of the text, and the sides.
#[derive(Drop)]
pub struct Contents {
    pub given: AllGiven,
    pub front: CourtSide,
    pub back: CourtSide,
}

impl Contents {
    /// Nothing is given yet.
    pub(crate) fn new(alloc: Global) -> Contents
        ensures { result ≡ empty }
    {
        Contents {
            given: AllGiven::new(alloc),
            front: CourtSide::new(alloc),
            back: CourtSide::new(alloc),
        }
    }
}
