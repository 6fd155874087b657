//! What the kind of an item says.

ghost use Rattle.std.specs.Prelude.{◌≡◌, Some};
ghost use Rattle.rule_pick.specs.FactsOf.{kind_of, width_of, diameter_of, hole_of, is_micro, is_blind, is_edge, is_plated};

use board_items::{Hole, Item, What};
use rule_pick::{ItemKind, LengthIf};

pub(crate) fn kind_of(what: &What) -> ItemKind
    ensures { result ≡ kind_of what.now }
{
    match what {
        What::Track { .. } => ItemKind::Track,
        What::Via { .. } => ItemKind::Via,
        What::Pad { .. } => ItemKind::Pad,
        What::Graphic => ItemKind::Graphic,
        What::Fill => ItemKind::Fill,
        What::Edge { .. } => ItemKind::Edge,
        What::Area { .. } => ItemKind::Area,
        What::Body { .. } => ItemKind::Body,
        What::Note { .. } => ItemKind::Note,
    }
}

pub(crate) fn width_of(item: &Item) -> LengthIf
    ensures { result ≡ width_of item.now.what }
{
    match &item.what {
        What::Track { width } => LengthIf::of(Some(*width)),
        _ => LengthIf::of(None),
    }
}

pub(crate) fn diameter_of(item: &Item) -> LengthIf
    ensures { result ≡ diameter_of item.now.what }
{
    match &item.what {
        What::Via { size, .. } => LengthIf::of(Some(*size)),
        _ => LengthIf::of(None),
    }
}

fn least_of(hole: &Hole) -> LengthIf
    ensures { result ≡ Some hole.now.least }
{
    LengthIf::of(Some(hole.least))
}

pub(crate) fn hole_of(item: &Item) -> LengthIf
    ensures { result ≡ hole_of item.now.what item.now.hole }
{
    match (&item.what, &item.hole) {
        (What::Via { .. }, Some(hole)) => least_of(hole),
        _ => LengthIf::of(None),
    }
}

pub(crate) fn local_of(item: &Item) -> LengthIf
    ensures { result ≡ item.now.local }
{
    LengthIf::of(item.local)
}

pub(crate) fn is_micro(what: &What) -> bool
    ensures { result ≡ is_micro what.now }
{
    match what {
        What::Via { micro, .. } => *micro,
        _ => false,
    }
}

pub(crate) fn is_blind(what: &What) -> bool
    ensures { result ≡ is_blind what.now }
{
    match what {
        What::Via { blind, .. } => *blind,
        _ => false,
    }
}

pub(crate) fn is_edge(what: &What) -> bool
    ensures { result ≡ is_edge what.now }
{
    matches!(what, What::Edge { .. })
}

pub(crate) fn is_plated(hole: &Option<Hole>) -> bool
    ensures { result ≡ is_plated hole.now }
{
    match hole {
        None => false,
        Some(hole) => hole.plated,
    }
}
