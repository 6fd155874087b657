//! Places in lists, and where they are moved to.

ghost use Rattle.std.specs.Prelude.{◌≡◌, ◌≤◌, unsigned_abs, IfSome, option_map, Some};
ghost use Rattle.sexpr_read.specs.Tree.{value};
ghost use Rattle.sexpr_read.specs.TreeViews.{tree_of};
ghost use Rattle.roundtrip_lists.specs.Translated.{is_place_head, place_moved, both};
ghost use Rattle.board_write.specs.Marks.{plain_shift};
ghost use Rattle.board_write.specs.Settings.{inside};
ghost use Rattle.board_write.specs.MovedPlaces.{atom_moved, list_numbers, StandsIn};

use crate::distance::Distance;
use exact_dec::{Nm, mm_cut};
use list_read::has_head;
use sexpr_read::{Children, Node};

/// Numbers are at most so far from 0, in nanometres.
const FARTHEST: i128 = 1_000_000_000_000;

/// Which places are moved in the lists that are still to come.
#[derive(Clone, Copy)]
pub(crate) enum Moving {
    Nothing,
    /// That of the first list with the head `at`.
    First(Distance),
    /// Those of all lists, at any depth.
    All(Distance),
}

/// An atom that is replaced by a number.
#[derive(Clone, Copy)]
pub(crate) struct Number<'d, 't> {
    pub atom: Node<'d, 't>,
    pub nm: Nm,
}

/// The place of a list: its head, two numbers that replace those that stand there, and what follows them.
#[derive(Clone, Copy)]
pub(crate) struct Place<'d, 't> {
    pub head: Node<'d, 't>,
    pub x: Number<'d, 't>,
    pub y: Number<'d, 't>,
    pub rest: Children<'d, 't>,
}

/// Whether it is a word that stands before a place.
fn is_place_head(head: Node<'_, '_>) -> bool
    ensures { result ≡ is_place_head (value (tree_of head.entry)) }
{
    head.is(b"at") || head.is(b"start") || head.is(b"end") || head.is(b"center") || head.is(b"xy")
}

/// The number of an atom, moved by so much, unless it is none or would go too far.
fn moved<'d, 't>(atom: Node<'d, 't>, by: i128) -> Option<Number<'d, 't>>
    ensures number { option_map (λ number. number.nm) result ≡ atom_moved by (tree_of atom.entry) }
    ensures atom { IfSome result (λ number. tree_of number.atom ≡ tree_of atom.entry) }
    ensures near { IfSome result (λ number. unsigned_abs number.nm ≤ 1000000000000) }
{
    let content = atom.atom()?;
    let nm = mm_cut(content).ok()?;
    let there = by.checked_add(i128::from(nm))?;
    if there < -FARTHEST || FARTHEST < there {
        return None;
    }
    Some(Number {
        atom,
        nm: there as i64,
    })
}

/// A place with both its numbers, if both can be moved.
fn both<'d, 't>(
    head: Node<'d, 't>,
    x: Option<Number<'d, 't>>,
    y: Option<Number<'d, 't>>,
    rest: Children<'d, 't>,
) -> Option<Place<'d, 't>>
    ensures numbers { option_map list_numbers result ≡ both (option_map (λ number.
        number.nm) x.entry) (option_map (λ number. number.nm) y.entry) }
    ensures place { IfSome result (λ place. (x.entry ≡ Some place.x) × (y.entry ≡ Some place.y)
        × (place.head ≡ head.entry) × (place.rest ≡ rest.entry)) }
{
    match x {
        None => None,
        Some(x) => match y {
            None => None,
            Some(y) => Some(Place { head, x, y, rest }),
        },
    }
}

/// The place of a list, moved, if it has one of which both numbers can be.
fn place_of<'d, 't>(list: Node<'d, 't>, by: Distance) -> Option<Place<'d, 't>>
    ensures numbers { option_map list_numbers result
        ≡ place_moved (plain_shift by) (inside (tree_of list.entry)) }
    ensures stands { IfSome result (StandsIn (inside (tree_of list.entry))) }
{
    let mut rest = list.children();
    let head = rest.next()?;
    if !is_place_head(head) {
        return None;
    }
    let x = rest.next()?;
    let y = rest.next()?;
    both(head, moved(x, by.dx), moved(y, by.dy), rest)
}

impl Moving {
    ghost use Rattle.std.specs.Prelude.{◌≡◌, IfSome, option_map};
    ghost use Rattle.sexpr_read.specs.TreeViews.{tree_of};
    ghost use Rattle.board_write.specs.Settings.{inside, own_place, within, behind, unit_moving};
    ghost use Rattle.board_write.specs.MovedPlaces.{list_numbers, StandsIn};

    /// What is moved in the list of a unit: in a footprint its own place, in another all of them.
    pub(crate) fn of_unit(list: Node<'_, '_>, by: Distance) -> Moving
        ensures { result ≡ unit_moving by (inside (tree_of list.entry)) }
    {
        if has_head(list, b"footprint") {
            Moving::First(by)
        } else {
            Moving::All(by)
        }
    }

    /// The place of a list itself, if it is moved.
    pub(crate) fn own_place<'d, 't>(self, list: Node<'d, 't>) -> Option<Place<'d, 't>>
        ensures numbers { option_map list_numbers result
            ≡ own_place self (inside (tree_of list.entry)) }
        ensures stands { IfSome result (StandsIn (inside (tree_of list.entry))) }
    {
        match self {
            Moving::Nothing => None,
            Moving::First(by) => {
                if has_head(list, b"at") {
                    place_of(list, by)
                } else {
                    None
                }
            }
            Moving::All(by) => place_of(list, by),
        }
    }

    /// What is moved in a list, its own place aside.
    pub(crate) fn within(self) -> Moving
        ensures { result ≡ within self }
    {
        match self {
            Moving::Nothing | Moving::First(_) => Moving::Nothing,
            Moving::All(by) => Moving::All(by),
        }
    }

    /// What is moved behind a list.
    pub(crate) fn behind(self, list: Node<'_, '_>) -> Moving
        ensures { result ≡ behind self (inside (tree_of list.entry)) }
    {
        match self {
            Moving::Nothing => Moving::Nothing,
            Moving::First(by) => {
                if has_head(list, b"at") {
                    Moving::Nothing
                } else {
                    Moving::First(by)
                }
            }
            Moving::All(by) => Moving::All(by),
        }
    }
}
