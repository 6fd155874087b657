//! What faces each other: whether it meets, and how near it is.

ghost use Rattle.std.specs.Prelude.{◌≡◌, ◌<◌, ◌⊎◌, ℤ, ◌↔◌, IsTrue, false, [], ◌∷◌};
ghost use Rattle.plain_types.specs.Lengths.{IsLength};
ghost use Rattle.geo_seg.specs.Distances.{IsGap};
ghost use Rattle.one_item.specs.CopperPairs.{on_layer};
ghost use Rattle.one_item.specs.ItemParts.{hole_parts};
ghost use Rattle.rule_pick.specs.FactsOf.{parts_asked};
ghost use Rattle.item_copper.specs.MeasuredSides.{parts_at};
ghost use Rattle.kind_subjects.specs.declared.layer.RowLayer.TheVariants.{Copper, Nowhere};
ghost use Rattle.kind_subjects.specs.MeasuredPair.{copper_on, hole_on, hole_alone, lines_of, front_of, back_of, area_on, yard_on, placed_on, both_ways, copper_pairs, hole_pairs, faced, measured_pairs, MeetAt, KeepAt};
ghost use Rattle.kind_subjects.specs.PairSides.{IsInStack, measured_pairs_of, yard_pairs, SomeMeasuredPairMeets, AllMeasuredPairsKeep};

use crate::layer::RowLayer;
use crate::subject::{OperandKinds, Subject, subject_of};
use board_items::{Hole, Item, Nm, Part, Parts, What};
use cond_lang::Kind;
use item_copper::{ListedParts, SinglePart, SomeParts, is_empty, sides_gap, sides_meet};

/// Parts of the one item, and those of the other that they are measured against.
#[derive(Clone, Copy)]
pub struct Faced<'a> {
    own: SomeParts<'a>,
    others: SomeParts<'a>,
}

/// All that faces each other.
#[derive(Clone, Copy)]
pub enum MeasuredPairs<'a> {
    Nothing,
    OneWay(Faced<'a>),
    BothWays(Faced<'a>, Faced<'a>),
}

// ---- the parts of an item

/// All parts of the list.
fn all(parts: &Parts) -> SomeParts<'_>
    ensures { parts_at result ≡ parts.now }
{
    SomeParts::Listed(ListedParts {
        parts: parts.as_slice(),
        layer: None,
    })
}

/// The copper on the layer.
fn copper_on(item: &Item, layer: u32) -> SomeParts<'_>
    requires { layer < 32 }
    ensures { parts_at result ≡ copper_on layer item.now }
{
    SomeParts::Listed(ListedParts {
        parts: item.copper.as_slice(),
        layer: Some(layer),
    })
}

/// The hole, if there is one.
fn whole_hole(hole: &Option<Hole>) -> SomeParts<'_>
    ensures { parts_at result ≡ hole_parts hole.now }
{
    match hole {
        Some(hole) => SomeParts::Single(SinglePart {
            layers: hole.layers,
            shape: &hole.shape,
        }),
        None => SomeParts::Nothing,
    }
}

/// The hole, where it goes through the layer.
fn hole_on(item: &Item, layer: u32) -> SomeParts<'_>
    requires { layer < 32 }
    ensures { parts_at result ≡ hole_on layer item.now }
{
    match &item.hole {
        Some(hole) if hole.layers.has(layer) => SomeParts::Single(SinglePart {
            layers: hole.layers,
            shape: &hole.shape,
        }),
        _ => SomeParts::Nothing,
    }
}

/// The hole of an item without copper.
fn hole_alone(item: &Item) -> SomeParts<'_>
    ensures { parts_at result ≡ hole_alone item.now }
{
    if item.copper.as_slice().is_empty() {
        whole_hole(&item.hole)
    } else {
        SomeParts::Nothing
    }
}

/// The lines of an edge of the board.
fn lines_of(what: &What) -> SomeParts<'_>
    ensures { parts_at result ≡ lines_of what.now }
{
    match what {
        What::Edge { lines } => all(lines.get()),
        _ => SomeParts::Nothing,
    }
}

/// The courtyard of the front.
fn front_of(what: &What) -> SomeParts<'_>
    ensures { parts_at result ≡ front_of what.now }
{
    match what {
        What::Body { front, .. } => all(front.get()),
        _ => SomeParts::Nothing,
    }
}

/// The courtyard of the back.
fn back_of(what: &What) -> SomeParts<'_>
    ensures { parts_at result ≡ back_of what.now }
{
    match what {
        What::Body { back, .. } => all(back.get()),
        _ => SomeParts::Nothing,
    }
}

/// The part, where it has the layer.
fn part_on(part: &Part, layer: u32) -> SomeParts<'_>
    requires { layer < 32 }
    ensures { parts_at result ≡ on_layer layer (part.now ∷ []) }
{
    if part.layers.has(layer) {
        SomeParts::Single(SinglePart {
            layers: part.layers,
            shape: &part.shape,
        })
    } else {
        SomeParts::Nothing
    }
}

/// A rule area, where it has the layer.
fn area_on(what: &What, layer: u32) -> SomeParts<'_>
    requires { layer < 32 }
    ensures { parts_at result ≡ area_on layer what.now }
{
    match what {
        What::Area { shape, .. } => part_on(shape.get(), layer),
        _ => SomeParts::Nothing,
    }
}

/// The courtyard on the layer: that of the front on F.Cu, and that of the back on B.Cu.
fn yard_on<'a>(front: &'a Parts, back: &'a Parts, layer: u32) -> SomeParts<'a>
    ensures { parts_at result ≡ yard_on layer front.now back.now }
{
    match layer {
        0 => all(front),
        31 => all(back),
        _ => SomeParts::Nothing,
    }
}

/// The copper on the layer, or without any copper the hole there.
fn asked_on(item: &Item, layer: u32) -> SomeParts<'_>
    requires { layer < 32 }
    ensures { parts_at result ≡ on_layer layer (parts_asked item.now) }
{
    if item.copper.as_slice().is_empty() {
        hole_on(item, layer)
    } else {
        copper_on(item, layer)
    }
}

/// Where the item is on the layer, as an area sees it.
fn placed_on(item: &Item, layer: u32) -> SomeParts<'_>
    requires { layer < 32 }
    ensures { parts_at result ≡ placed_on layer item.now item.now.what }
{
    match &item.what {
        What::Body { front, back, .. } => yard_on(front.get(), back.get(), layer),
        _ => asked_on(item, layer),
    }
}

// ---- what faces what

/// The copper of both on the layer.
fn copper_pairs<'a>(a: &'a Item, b: &'a Item, layer: u32) -> MeasuredPairs<'a>
    requires { layer < 32 }
    ensures { measured_pairs_of result ≡ copper_pairs layer a.now b.now }
{
    MeasuredPairs::OneWay(Faced {
        own: copper_on(a, layer),
        others: copper_on(b, layer),
    })
}

/// The hole of each and the copper of the other.
fn hole_pairs<'a>(a: &'a Item, b: &'a Item, layer: u32) -> MeasuredPairs<'a>
    requires { layer < 32 }
    ensures { measured_pairs_of result ≡ hole_pairs layer a.now b.now }
{
    let there = Faced {
        own: hole_on(a, layer),
        others: copper_on(b, layer),
    };
    let back = Faced {
        own: hole_on(b, layer),
        others: copper_on(a, layer),
    };
    MeasuredPairs::BothWays(there, back)
}

/// The lines of an edge and copper on the layer.
fn edge_pairs<'a>(a: &'a Item, b: &'a Item, layer: u32) -> MeasuredPairs<'a>
    requires { layer < 32 }
    ensures { measured_pairs_of result
        ≡ both_ways (lines_of a.now.what) (copper_on layer b.now) (lines_of b.now.what)
        (copper_on layer a.now) }
{
    let there = Faced {
        own: lines_of(&a.what),
        others: copper_on(b, layer),
    };
    let back = Faced {
        own: lines_of(&b.what),
        others: copper_on(a, layer),
    };
    MeasuredPairs::BothWays(there, back)
}

/// The lines of an edge and the hole of an item without copper.
fn edge_hole_pairs<'a>(a: &'a Item, b: &'a Item) -> MeasuredPairs<'a>
    ensures { measured_pairs_of result
        ≡ both_ways (lines_of a.now.what) (hole_alone b.now) (lines_of b.now.what)
        (hole_alone a.now) }
{
    let there = Faced {
        own: lines_of(&a.what),
        others: hole_alone(b),
    };
    let back = Faced {
        own: lines_of(&b.what),
        others: hole_alone(a),
    };
    MeasuredPairs::BothWays(there, back)
}

/// A rule area and where the other is on the layer.
fn area_pairs<'a>(a: &'a Item, b: &'a Item, layer: u32) -> MeasuredPairs<'a>
    requires { layer < 32 }
    ensures { measured_pairs_of result
        ≡ both_ways (area_on layer a.now.what) (placed_on layer b.now b.now.what)
        (area_on layer b.now.what) (placed_on layer a.now a.now.what) }
{
    let there = Faced {
        own: area_on(&a.what, layer),
        others: placed_on(b, layer),
    };
    let back = Faced {
        own: area_on(&b.what, layer),
        others: placed_on(a, layer),
    };
    MeasuredPairs::BothWays(there, back)
}

/// What faces each other on a copper layer.
#[inline(always)]
fn faced_on<'a>(
    operand_kinds: OperandKinds,
    layer: u32,
    a: &'a Item,
    b: &'a Item,
) -> MeasuredPairs<'a>
    requires { layer < 32 }
    ensures { measured_pairs_of result ≡ faced operand_kinds (Copper layer) a.now b.now }
{
    match operand_kinds {
        OperandKinds::Coppers => copper_pairs(a, b, layer),
        OperandKinds::HolesAndCopper => hole_pairs(a, b, layer),
        OperandKinds::EdgesAndCopper => edge_pairs(a, b, layer),
        OperandKinds::Areas => area_pairs(a, b, layer),
        OperandKinds::Holes | OperandKinds::Yards => MeasuredPairs::Nothing,
    }
}

/// What faces each other on no layer.
fn faced_nowhere<'a>(operand_kinds: OperandKinds, a: &'a Item, b: &'a Item) -> MeasuredPairs<'a>
    ensures { measured_pairs_of result ≡ faced operand_kinds Nowhere a.now b.now }
{
    match operand_kinds {
        OperandKinds::Holes => MeasuredPairs::OneWay(Faced {
            own: whole_hole(&a.hole),
            others: whole_hole(&b.hole),
        }),
        OperandKinds::EdgesAndCopper => edge_hole_pairs(a, b),
        OperandKinds::Coppers
        | OperandKinds::HolesAndCopper
        | OperandKinds::Yards
        | OperandKinds::Areas => MeasuredPairs::Nothing,
    }
}

/// What faces each other of two courtyards on the same side.
fn faced_yards<'a>(
    operand_kinds: OperandKinds,
    own: SomeParts<'a>,
    others: SomeParts<'a>,
) -> MeasuredPairs<'a>
    ensures { measured_pairs_of result
        ≡ yard_pairs operand_kinds (parts_at own.entry) (parts_at others.entry) }
{
    match operand_kinds {
        OperandKinds::Yards => MeasuredPairs::OneWay(Faced { own, others }),
        OperandKinds::Coppers
        | OperandKinds::HolesAndCopper
        | OperandKinds::Holes
        | OperandKinds::EdgesAndCopper
        | OperandKinds::Areas => MeasuredPairs::Nothing,
    }
}

/// Which of these parts face each other on the layer.
#[inline(always)]
fn faced_at<'a>(
    operand_kinds: OperandKinds,
    layer: RowLayer,
    a: &'a Item,
    b: &'a Item,
) -> MeasuredPairs<'a>
    requires { IsInStack layer }
    ensures { measured_pairs_of result ≡ faced operand_kinds layer a.now b.now }
{
    match layer {
        RowLayer::Copper(layer) => faced_on(operand_kinds, layer, a, b),
        RowLayer::FrontYard => faced_yards(operand_kinds, front_of(&a.what), front_of(&b.what)),
        RowLayer::BackYard => faced_yards(operand_kinds, back_of(&a.what), back_of(&b.what)),
        RowLayer::Nowhere => faced_nowhere(operand_kinds, a, b),
    }
}

/// All that faces each other for the kind on the layer.
#[inline(always)]
#[tactic(auto, unfolding(crate::specs::MeasuredPair::measured_pairs))]
pub fn measured_pairs_at<'a>(
    kind: Kind,
    layer: RowLayer,
    a: &'a Item,
    b: &'a Item,
) -> MeasuredPairs<'a>
    requires { IsInStack layer }
    ensures { measured_pairs_of result ≡ measured_pairs kind layer a.now b.now }
{
    match subject_of(kind) {
        Subject::Sides(operand_kinds) => faced_at(operand_kinds, layer, a, b),
        Subject::Length(_) | Subject::Whole => MeasuredPairs::Nothing,
    }
}

// ---- what is asked of it

/// Whether there are parts on both sides.
#[inline(always)]
fn is_faced(faced: &Faced<'_>) -> bool
    ensures { result ≡ false → (parts_at faced.now.own ≡ []) ⊎ (parts_at faced.now.others ≡ []) }
{
    !is_empty(&faced.own) && !is_empty(&faced.others)
}

/// Whether anything faces anything. Shapes are not looked at.
#[inline(always)]
fn may_meet(measured_pairs: &MeasuredPairs<'_>) -> bool
    ensures meet { result ≡ false → ¬
        (SomeMeasuredPairMeets (measured_pairs_of measured_pairs.now)) }
    ensures keep { result ≡ false → (v : ℤ) → AllMeasuredPairsKeep
        (measured_pairs_of measured_pairs.now) v }
{
    match measured_pairs {
        MeasuredPairs::Nothing => false,
        MeasuredPairs::OneWay(one) => is_faced(one),
        MeasuredPairs::BothWays(there, back) => is_faced(there) || is_faced(back),
    }
}

/// Whether some of what faces each other meets.
fn do_meet(measured_pairs: &MeasuredPairs<'_>) -> bool
    ensures { IsTrue result ↔ SomeMeasuredPairMeets (measured_pairs_of measured_pairs.now) }
{
    match measured_pairs {
        MeasuredPairs::Nothing => false,
        MeasuredPairs::OneWay(one) => sides_meet(&one.own, &one.others),
        MeasuredPairs::BothWays(there, back) => {
            sides_meet(&there.own, &there.others) || sides_meet(&back.own, &back.others)
        }
    }
}

/// The gap of all that faces each other.
fn gap_of(measured_pairs: &MeasuredPairs<'_>, most: Nm) -> Nm
    requires { IsLength most }
    ensures { IsGap (AllMeasuredPairsKeep (measured_pairs_of measured_pairs.now)) most result }
{
    match measured_pairs {
        MeasuredPairs::Nothing => most,
        MeasuredPairs::OneWay(one) => sides_gap(&one.own, &one.others, most),
        MeasuredPairs::BothWays(there, back) => {
            let gap = sides_gap(&there.own, &there.others, most);
            sides_gap(&back.own, &back.others, gap)
        }
    }
}

// The next three take the kind, the layer and the items for their contracts alone, which say of these what the measured pairs show.

/// Whether anything may face anything. It is a quick test: only a no is sure.
#[inline(always)]
pub fn may_face(
    faced: &MeasuredPairs<'_>,
    _kind: Kind,
    _layer: RowLayer,
    _a: &Item,
    _b: &Item,
) -> bool
    requires { measured_pairs_of faced.now ≡ measured_pairs _kind _layer _a.now _b.now }
    ensures meet { result ≡ false → ¬ (MeetAt _kind _layer _a.now _b.now) }
    ensures keep { result ≡ false → (v : ℤ) → KeepAt _kind _layer _a.now _b.now v }
{
    may_meet(faced)
}

/// Whether some of what faces each other touches or overlaps.
pub(crate) fn meet_at(
    faced: &MeasuredPairs<'_>,
    _kind: Kind,
    _layer: RowLayer,
    _a: &Item,
    _b: &Item,
) -> bool
    requires { measured_pairs_of faced.now ≡ measured_pairs _kind _layer _a.now _b.now }
    ensures { IsTrue result ↔ MeetAt _kind _layer _a.now _b.now }
{
    do_meet(faced)
}

/// The greatest whole number of nanometres from 1 to `most` that all that faces each other keeps, or 0.
pub(crate) fn gap_at(
    faced: &MeasuredPairs<'_>,
    _kind: Kind,
    _layer: RowLayer,
    _a: &Item,
    _b: &Item,
    most: Nm,
) -> Nm
    requires same { measured_pairs_of faced.now ≡ measured_pairs _kind _layer _a.now _b.now }
    requires most { IsLength most }
    ensures { IsGap (KeepAt _kind _layer _a.now _b.now) most result }
{
    gap_of(faced, most)
}
