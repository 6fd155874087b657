//! Which pairs of items are compared.

ghost use Rattle.std.specs.Prelude.{◌≡◌};
ghost use Rattle.one_item.specs.ItemKinds.{is_body};
ghost use Rattle.kind_subjects.specs.Compared.{share_net, is_pad, is_graphic, pad_number, are_pads_of_one_number, are_graphic_and_pad, belong_together, is_micro_via, is_disc, are_round_holes, does_ban, keeps_out, is_edge, may_be_near, is_compared};

use board_items::{Bans, Hole, Item, What};
use cond_lang::Kind;
use geo_seg::Core;

fn is_pad(item: &Item) -> bool
    ensures { result ≡ is_pad item.now.what }
{
    matches!(item.what, What::Pad { .. })
}

fn is_graphic(item: &Item) -> bool
    ensures { result ≡ is_graphic item.now.what }
{
    matches!(item.what, What::Graphic)
}

/// The number of a pad; what is no pad has none.
fn pad_number(item: &Item) -> &[u8]
    ensures { result.now ≡ pad_number item.now.what }
{
    match &item.what {
        What::Pad { number, .. } => number.get().bytes(),
        _ => b"",
    }
}

/// Whether both are pads with one number, which is not empty.
fn are_pads_of_one_number(a: &Item, b: &Item) -> bool
    ensures { result ≡ are_pads_of_one_number a.now b.now }
{
    let number = pad_number(a);
    !number.is_empty() && number == pad_number(b)
}

/// Whether the one is a graphic and the other a pad.
fn are_graphic_and_pad(a: &Item, b: &Item) -> bool
    ensures { result ≡ are_graphic_and_pad a.now b.now }
{
    (is_graphic(a) && is_pad(b)) || (is_pad(a) && is_graphic(b))
}

/// Whether they are a graphic and a pad of one footprint, or two of its pads with one number.
fn belong_together(a: &Item, b: &Item) -> bool
    ensures { result ≡ belong_together a.now b.now }
{
    a.unit == b.unit && (are_graphic_and_pad(a, b) || are_pads_of_one_number(a, b))
}

/// Whether both are on one net.
pub fn share_net(a: &Item, b: &Item) -> bool
    ensures { result ≡ share_net a.now b.now }
{
    a.net == b.net && a.net != 0
}

/// Whether the two are compared for a clearance. Most that are not are told by their nets.
fn may_be_near(a: &Item, b: &Item) -> bool
    ensures { result ≡ may_be_near a.now b.now }
{
    if a.net == b.net {
        return false;
    }
    !(is_graphic(a) && is_graphic(b)) && !belong_together(a, b)
}

fn is_micro_via(item: &Item) -> bool
    ensures { result ≡ is_micro_via item.now.what }
{
    match &item.what {
        What::Via { micro, .. } => *micro,
        _ => false,
    }
}

/// Whether the core is a single point, so that the shape is a disc.
fn is_disc(core: &Core) -> bool
    ensures { result ≡ is_disc core.now }
{
    match core {
        Core::Line(line) => line.a.x == line.b.x && line.a.y == line.b.y,
        Core::Area(_) => false,
    }
}

/// Whether both holes are round and go through a layer together.
fn are_round(a: &Hole, b: &Hole) -> bool
    ensures { result ≡ are_round_holes (Some a.now) (Some b.now) }
{
    a.layers.bits & b.layers.bits != 0 && is_disc(&a.shape.core) && is_disc(&b.shape.core)
}

/// Whether both have holes, which are round and go through a layer together.
fn are_round_holes(a: &Item, b: &Item) -> bool
    ensures { result ≡ are_round_holes a.now.hole b.now.hole }
{
    match (&a.hole, &b.hole) {
        (Some(own), Some(other)) => are_round(own, other),
        _ => false,
    }
}

/// Whether an area with these bans keeps out items of this kind.
fn does_ban(bans: Bans, what: &What) -> bool
    ensures { result ≡ does_ban bans what.now }
{
    match what {
        What::Track { .. } => bans.tracks,
        What::Via { .. } => bans.vias,
        What::Pad { .. } => bans.pads,
        What::Body { .. } => bans.footprints,
        _ => false,
    }
}

/// Whether the one is a rule area that keeps out the other.
fn keeps_out(area: &Item, other: &Item) -> bool
    ensures { result ≡ keeps_out area.now.what other.now.what }
{
    match &area.what {
        What::Area { bans, .. } => does_ban(*bans, &other.what),
        _ => false,
    }
}

fn is_edge(item: &Item) -> bool
    ensures { result ≡ is_edge item.now.what }
{
    matches!(item.what, What::Edge { .. })
}

fn is_body(item: &Item) -> bool
    ensures { result ≡ is_body item.now.what }
{
    matches!(item.what, What::Body { .. })
}

/// Whether the pair is compared for the kind. Nets and units are looked at first, and the kinds of most items tell the rest.
#[inline(always)]
#[tactic(auto, unfolding(crate::specs::Compared::is_compared))]
pub fn is_compared(kind: Kind, a: &Item, b: &Item) -> bool
    ensures { result ≡ is_compared kind a.now b.now }
{
    match kind {
        Kind::Short => a.net != 0 && b.net != 0 && may_be_near(a, b),
        Kind::Clearance => may_be_near(a, b),
        Kind::HoleClearance => !share_net(a, b) && !belong_together(a, b),
        Kind::HoleToHole => are_round_holes(a, b) && !is_micro_via(a) && !is_micro_via(b),
        Kind::EdgeClearance => a.unit != b.unit && !(is_edge(a) && is_edge(b)),
        Kind::CourtyardClearance => is_body(a) && is_body(b),
        Kind::Keepout => a.unit != b.unit && (keeps_out(a, b) || keeps_out(b, a)),
        Kind::PhysicalClearance | Kind::PhysicalHoleClearance => a.unit != b.unit,
        Kind::TrackWidth
        | Kind::ViaDiameter
        | Kind::HoleSize
        | Kind::AnnularWidth
        | Kind::Disallow
        | Kind::Assertion => false,
    }
}
