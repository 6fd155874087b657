//! What two items break.
//!
//! The walks over layers are laid into their callers, which know the kind, and with it what faces what.

ghost use Rattle.std.specs.Prelude.{◌≡◌, ◌+◌, ◌<◌, ◌≤◌, true, false, IsTrue, IsSome, [], length, MatchOption};
ghost use Rattle.plain_types.specs.Limits.{AreCounted};
ghost use Rattle.board_items.specs.Boards.{item_at};
ghost use Rattle.cond_lang.specs.declared.kind.Family.{Family};
ghost use Rattle.cond_lang.specs.declared.kind.Kind.TheVariants.{HoleClearance};
ghost use Rattle.cond_lang.specs.CheckKinds.{family, kind_number};
ghost use Rattle.pair_check.specs.PlainRow.{PlainRow};
ghost use Rattle.kind_subjects.specs.TriedLayers.{IsTried, IsFirst, HoldsNowhere};
ghost use Rattle.kind_subjects.specs.Compared.{is_compared};
ghost use Rattle.kind_subjects.specs.MeasuredPair.{measured_pairs};
ghost use Rattle.kind_subjects.specs.PairSides.{measured_pairs_of};
ghost use Rattle.rule_pick.specs.Picks.{pick_of};
ghost use Rattle.pair_check.specs.Pairs.{IsPickOf, IsGivenPlace, IsNearAt};
ghost use Rattle.pair_check.specs.Asked.{AsksNothing, IsNoteOf};
ghost use Rattle.pair_check.specs.Rows.{Stands, AreRowsWhere, AreRowsOfPair};
ghost use Rattle.pair_check.specs.CheckViews.{checked_by, deciders_of, IsWholeView};
ghost use Rattle.pair_check.specs.Stages.{pair_of, AreUnfaced, IsTooNear, IsNearOrMeets, IsOfPair, IsOfKind, AreRowsBelow};

use crate::asked::{ANYTHING, Asked};
use crate::found::{Near, Pair, Single};
use crate::pair_rows::PairRows;
use crate::passed::{are_copper, have_holes, is_one_fill};
use crate::row::{Row, counts};
use crate::single::single_at;
use crate::steps::Steps;
use crate::view::CheckView;
use cond_lang::{Kind, Severity};
use kind_subjects::{
    MeasuredPairs, RowLayer, are_kept, first_meeting, gap_if_near, is_compared, may_face,
    measured_pairs_at, places_between, share_net, tried_at,
};
use rule_pick::{Picked, Source, pick};
use std::alloc::Global;
use std::sync::ledger::Ledger;

/// What is picked on the layer for what faces each other there. Where nothing does, nothing is picked.
#[inline(always)]
fn picked_at(
    view: &CheckView,
    kind: Kind,
    pair: Pair<'_>,
    layer: RowLayer,
    faced: &MeasuredPairs<'_>,
) -> Option<Picked>
    requires few { AreCounted view.now.rules.now }
    requires measured { family kind ≡ Family.Keeps }
    requires same { measured_pairs_of faced.now ≡ measured_pairs kind layer pair.a.now pair.b.now }
    ensures { MatchOption result (AreUnfaced kind (pair_of pair.entry) layer)
        (λ picked. IsPickOf (deciders_of view.now) kind (pair_of pair.entry) layer
        (pick_of picked)) }
{
    if !may_face(faced, kind, layer, pair.a, pair.b) {
        return None;
    }
    let mins = view.classes.mins();
    Some(pick(
        view.rules,
        mins,
        kind,
        pair.facts_a,
        Some(pair.facts_b),
        layer.asked(),
    ))
}

/// What is broken on the layer, if anything is.
#[inline(always)]
fn near_at(view: &CheckView, kind: Kind, pair: Pair<'_>, layer: RowLayer) -> Option<Near>
    requires few { AreCounted view.now.rules.now }
    requires measured { family kind ≡ Family.Keeps }
    requires tried { IsTried view.now.board.now.copper layer }
    ensures { MatchOption result
        (¬ (IsNearAt (deciders_of view.now) kind (pair_of pair.entry) layer))
        (λ near. (near.layer ≡ layer)
        × IsTooNear (deciders_of view.now) kind (pair_of pair.entry) near) }
{
    let faced = measured_pairs_at(kind, layer, pair.a, pair.b);
    let picked = picked_at(view, kind, pair, layer, &faced)?;
    if !counts(picked.severity) {
        return None;
    }
    let gap = gap_if_near(&faced, kind, layer, pair.a, pair.b, picked.least)?;
    Some(Near { layer, picked, gap })
}

/// The first layer on which the two are too near. No layer is tried before the first on which they face each other, or after the last.
#[inline(always)]
fn first_near(view: &CheckView, kind: Kind, pair: Pair<'_>) -> Option<Near>
    requires few { AreCounted view.now.rules.now }
    requires measured { family kind ≡ Family.Keeps }
    ensures { MatchOption result
        (HoldsNowhere view.now.board.now.copper
        (IsNearAt (deciders_of view.now) kind (pair_of pair.entry)))
        (λ near. IsTooNear (deciders_of view.now) kind (pair_of pair.entry) near
        × IsFirst view.now.board.now.copper
        (IsNearAt (deciders_of view.now) kind (pair_of pair.entry)) near.layer) }
{
    let places = places_between(kind, pair.a, pair.b);
    for place in places.from..places.to {
        if let Some(layer) = tried_at(view.board.copper(), place) {
            if let Some(near) = near_at(view, kind, pair, layer) {
                return Some(near);
            }
        }
    }
    None
}

/// The row that the two meet, if they do: always an error, whatever the rules say.
#[inline(always)]
fn meeting_row(view: &CheckView, kind: Kind, first: u32, second: u32, pair: Pair<'_>) -> Option<Row>
    requires meets { family kind ≡ Family.Meets }
    requires ordered { first < second }
    ensures { MatchOption result
        ((row : PlainRow)
        → ¬ (IsOfKind (IsOfPair (deciders_of view.now) (pair_of pair.entry) first second) kind row))
        (λ row. IsOfKind (IsOfPair (deciders_of view.now) (pair_of pair.entry) first second) kind
        row) }
{
    if !is_compared(kind, pair.a, pair.b) {
        return None;
    }
    let layer = first_meeting(view.board.copper(), kind, pair.a, pair.b)?;
    Some(Row {
        first,
        second,
        kind,
        layer,
        value: 0,
        gap: 0,
        over: false,
        source: Source::Default,
        severity: Severity::Error,
    })
}

/// The row that the two are too near, if they are.
#[inline(always)]
fn near_row(view: &CheckView, kind: Kind, first: u32, second: u32, pair: Pair<'_>) -> Option<Row>
    requires few { AreCounted view.now.rules.now }
    requires measured { family kind ≡ Family.Keeps }
    requires place { IsGivenPlace (deciders_of view.now) kind (pair_of pair) }
    requires compared { IsTrue (is_compared kind pair.a.now pair.b.now) }
    requires ordered { first < second }
    ensures { MatchOption result
        ((row : PlainRow)
        → ¬ (IsOfKind (IsOfPair (deciders_of view.now) (pair_of pair.entry) first second) kind row))
        (λ row. IsOfKind (IsOfPair (deciders_of view.now) (pair_of pair.entry) first second) kind
        row) }
{
    let near = first_near(view, kind, pair)?;
    Some(Row {
        first,
        second,
        kind,
        layer: near.layer,
        value: near.picked.least,
        gap: near.gap,
        over: false,
        source: near.picked.source,
        severity: near.picked.severity,
    })
}

/// Appends the row of a kind that measures, if the two break it.
#[inline(always)]
fn add_measured(
    view: &CheckView,
    kind: Kind,
    first: u32,
    second: u32,
    pair: Pair<'_>,
    rows: &mut PairRows,
)
    requires few { AreCounted view.now.rules.now }
    requires measured { family kind ≡ Family.Keeps }
    requires place { IsGivenPlace (deciders_of view.now) kind (pair_of pair) }
    requires compared { IsTrue (is_compared kind pair.a.now pair.b.now) }
    requires ordered { first < second }
    requires room { length rows.old < 8 }
    requires below { AreRowsBelow (IsOfPair (deciders_of view.now) (pair_of pair) first second)
        (kind_number kind) rows.old }
    ensures rows { AreRowsBelow (IsOfPair (deciders_of view.now) (pair_of pair.entry) first second)
        (kind_number kind + 1) rows.new }
    ensures count { length rows.new ≤ length rows.old + 1 }
{
    if let Some(row) = near_row(view, kind, first, second, pair) {
        rows.push(row);
    }
}

/// Appends the row of a kind that measures gaps, where anything is asked of the kind, the two are compared for it, and they are nearer
/// than is picked.
#[inline(always)]
fn add_near(
    view: &CheckView,
    asked: bool,
    kind: Kind,
    first: u32,
    second: u32,
    pair: Pair<'_>,
    rows: &mut PairRows,
)
    requires few { AreCounted view.now.rules.now }
    requires asked { asked ≡ false → AsksNothing (deciders_of view.now) kind }
    requires measured { family kind ≡ Family.Keeps }
    requires place { IsGivenPlace (deciders_of view.now) kind (pair_of pair) }
    requires ordered { first < second }
    requires room { length rows.old < 8 }
    requires below { AreRowsBelow (IsOfPair (deciders_of view.now) (pair_of pair) first second)
        (kind_number kind) rows.old }
    ensures rows { AreRowsBelow (IsOfPair (deciders_of view.now) (pair_of pair.entry) first second)
        (kind_number kind + 1) rows.new }
    ensures count { length rows.new ≤ length rows.old + 1 }
{
    if asked && is_compared(kind, pair.a, pair.b) {
        add_measured(view, kind, first, second, pair, rows);
    }
}

/// Whether the copper of the two keeps on the layer what is picked there for a clearance, so that it does not meet there either.
/// Only a yes is sure.
#[inline(always)]
fn is_kept_at(view: &CheckView, pair: Pair<'_>, layer: RowLayer) -> bool
    requires few { AreCounted view.now.rules.now }
    requires tried { IsTried view.now.board.now.copper layer }
    ensures { result ≡ true → ¬ (IsNearOrMeets (deciders_of view.now) (pair_of pair.entry) layer) }
{
    let kind = Kind::Clearance;
    let faced = measured_pairs_at(kind, layer, pair.a, pair.b);
    match picked_at(view, kind, pair, layer, &faced) {
        Some(picked) => are_kept(&faced, kind, layer, pair.a, pair.b, picked.least),
        None => true,
    }
}

/// Whether it does on each layer. Most pairs do, and one walk over the layers and over what is there tells so of both kinds. Only a
/// yes is sure.
fn is_kept(view: &CheckView, pair: Pair<'_>) -> bool
    requires few { AreCounted view.now.rules.now }
    ensures { result ≡ true
        → HoldsNowhere view.now.board.now.copper
        (IsNearOrMeets (deciders_of view.now) (pair_of pair.entry)) }
{
    let places = places_between(Kind::Clearance, pair.a, pair.b);
    for place in places.from..places.to {
        if let Some(layer) = tried_at(view.board.copper(), place) {
            if !is_kept_at(view, pair, layer) {
                return false;
            }
        }
    }
    true
}

/// Appends the row of the clearance of a hole, if anything is asked of it.
fn add_of_hole(
    view: &CheckView,
    asked: Asked,
    first: u32,
    second: u32,
    pair: Pair<'_>,
    rows: &mut PairRows,
)
    requires few { AreCounted view.now.rules.now }
    requires asked { IsNoteOf (deciders_of view.now) asked }
    requires place { IsGivenPlace (deciders_of view.now) HoleClearance (pair_of pair) }
    requires ordered { first < second }
    requires room { length rows.old < 8 }
    requires below { AreRowsBelow
        (IsOfPair (deciders_of view.now) (pair_of pair) first second) 3 rows.old }
    ensures rows { AreRowsBelow
        (IsOfPair (deciders_of view.now) (pair_of pair.entry) first second) 4 rows.new }
    ensures count { length rows.new ≤ length rows.old + 1 }
{
    add_near(
        view,
        asked.hole_clearance,
        Kind::HoleClearance,
        first,
        second,
        pair,
        rows,
    );
}

/// Appends the row of a short, or those of a clearance and of that of a hole, whose place it takes. What is of one net may meet.
fn add_of_nets(
    view: &CheckView,
    asked: Asked,
    first: u32,
    second: u32,
    pair: Pair<'_>,
    rows: &mut PairRows,
)
    requires few { AreCounted view.now.rules.now }
    requires asked { IsNoteOf (deciders_of view.now) asked }
    requires ordered { first < second }
    requires none { length rows.old ≡ 0 }
    requires below { AreRowsBelow
        (IsOfPair (deciders_of view.now) (pair_of pair) first second) 1 rows.old }
    ensures rows { AreRowsBelow
        (IsOfPair (deciders_of view.now) (pair_of pair.entry) first second) 4 rows.new }
    ensures count { length rows.new ≤ 2 }
{
    if share_net(pair.a, pair.b) {
        return;
    }
    if is_one_fill(pair.a, pair.b) && is_kept(view, pair) {
        add_of_hole(view, asked, first, second, pair, rows);
        return;
    }
    match meeting_row(view, Kind::Short, first, second, pair) {
        Some(row) => rows.push(row),
        None => {
            add_near(view, true, Kind::Clearance, first, second, pair, rows);
            add_of_hole(view, asked, first, second, pair, rows);
        }
    }
}

/// Appends the row of an area that keeps the other item out.
fn add_keepout(view: &CheckView, first: u32, second: u32, pair: Pair<'_>, rows: &mut PairRows)
    requires ordered { first < second }
    requires room { length rows.old < 8 }
    requires below { AreRowsBelow
        (IsOfPair (deciders_of view.now) (pair_of pair) first second) 7 rows.old }
    ensures rows { AreRowsBelow
        (IsOfPair (deciders_of view.now) (pair_of pair.entry) first second) 8 rows.new }
    ensures count { length rows.new ≤ length rows.old + 1 }
{
    if let Some(row) = meeting_row(view, Kind::Keepout, first, second, pair) {
        rows.push(row);
    }
}

/// Appends the row of two holes.
fn add_of_holes(
    view: &CheckView,
    asked: Asked,
    first: u32,
    second: u32,
    pair: Pair<'_>,
    rows: &mut PairRows,
)
    requires few { AreCounted view.now.rules.now }
    requires asked { IsNoteOf (deciders_of view.now) asked }
    requires ordered { first < second }
    requires room { length rows.old < 8 }
    requires below { AreRowsBelow
        (IsOfPair (deciders_of view.now) (pair_of pair) first second) 4 rows.old }
    ensures rows { AreRowsBelow
        (IsOfPair (deciders_of view.now) (pair_of pair.entry) first second) 5 rows.new }
    ensures count { length rows.new ≤ length rows.old + 1 }
{
    if have_holes(pair.a, pair.b) {
        add_near(
            view,
            asked.hole_to_hole,
            Kind::HoleToHole,
            first,
            second,
            pair,
            rows,
        );
    }
}

/// Appends the rows of an edge, of two courtyards and of an area that keeps the other item out. Two pieces of copper have none.
fn add_of_outlines(
    view: &CheckView,
    asked: Asked,
    first: u32,
    second: u32,
    pair: Pair<'_>,
    rows: &mut PairRows,
)
    requires few { AreCounted view.now.rules.now }
    requires asked { IsNoteOf (deciders_of view.now) asked }
    requires ordered { first < second }
    requires room { length rows.old < 6 }
    requires below { AreRowsBelow
        (IsOfPair (deciders_of view.now) (pair_of pair) first second) 5 rows.old }
    ensures rows { AreRowsBelow
        (IsOfPair (deciders_of view.now) (pair_of pair.entry) first second) 8 rows.new }
    ensures count { length rows.new ≤ length rows.old + 3 }
{
    if are_copper(pair.a, pair.b) {
        return;
    }
    add_near(
        view,
        asked.edge_clearance,
        Kind::EdgeClearance,
        first,
        second,
        pair,
        rows,
    );
    add_near(
        view,
        true,
        Kind::CourtyardClearance,
        first,
        second,
        pair,
        rows,
    );
    add_keepout(view, first, second, pair, rows);
}

/// Appends the rows of physical distances, which rules alone ask for.
fn add_physical(
    view: &CheckView,
    asked: Asked,
    first: u32,
    second: u32,
    pair: Pair<'_>,
    rows: &mut PairRows,
)
    requires few { AreCounted view.now.rules.now }
    requires asked { IsNoteOf (deciders_of view.now) asked }
    requires ordered { first < second }
    requires room { length rows.old < 7 }
    requires below { AreRowsBelow
        (IsOfPair (deciders_of view.now) (pair_of pair) first second) 8 rows.old }
    ensures { AreRowsWhere
        (IsOfPair (deciders_of view.now) (pair_of pair.entry) first second) rows.new }
{
    if !asked.physical_clearance && !asked.physical_hole_clearance {
        return;
    }
    add_near(
        view,
        asked.physical_clearance,
        Kind::PhysicalClearance,
        first,
        second,
        pair,
        rows,
    );
    add_near(
        view,
        asked.physical_hole_clearance,
        Kind::PhysicalHoleClearance,
        first,
        second,
        pair,
        rows,
    );
}

/// The rows of the pair, in a list that had none.
fn add_all(
    view: &CheckView,
    asked: Asked,
    first: u32,
    second: u32,
    pair: Pair<'_>,
    rows: &mut PairRows,
)
    requires few { AreCounted view.now.rules.now }
    requires asked { IsNoteOf (deciders_of view.now) asked }
    requires ordered { first < second }
    requires none { rows.old ≡ [] }
    ensures { AreRowsWhere
        (IsOfPair (deciders_of view.now) (pair_of pair.entry) first second) rows.new }
{
    add_of_nets(view, asked, first, second, pair, rows);
    add_of_holes(view, asked, first, second, pair, rows);
    add_of_outlines(view, asked, first, second, pair, rows);
    add_physical(view, asked, first, second, pair, rows);
}

/// Leaves in the list all rows of a pair of items that are at hand, the one with the lesser id first, by rising kinds; they are those
/// of `test_pair`. `asked` is what the board and the rules ask for. What the list had before goes. It takes no step, and no memory.
pub fn test_two(
    view: &CheckView,
    asked: Asked,
    first: u32,
    one: Single<'_>,
    second: u32,
    other: Single<'_>,
    rows: &mut PairRows,
)
    requires view { IsWholeView view.now }
    requires asked { IsNoteOf (deciders_of view.now) asked }
    requires ordered { first < second }
    requires first { Stands (checked_by view.now) first one.item.now one.facts.now }
    requires second { Stands (checked_by view.now) second other.item.now other.facts.now }
    ensures { AreRowsOfPair (checked_by view.now) first second rows.new }
{
    let pair = Pair {
        a: one.item,
        b: other.item,
        facts_a: one.facts,
        facts_b: other.facts,
    };
    rows.clear();
    add_all(view, asked, first, second, pair, rows);
}

/// All rows of a pair of items, the one with the lesser id first, by rising kinds. It takes one step, and no memory.
///
/// The pair has one row at most of each kind for which it is compared, on the first layer on which something is broken: a
/// short or a keepout where the two meet, another kind where they are nearer than what is picked there, and where that is an
/// error or a warning. A short takes the place of a clearance, and of the clearance of a hole. Lengths are in nanometres.
pub fn test_pair<L: Ledger>(
    alloc: Global,
    view: &CheckView,
    first: u32,
    second: u32,
    steps: &mut Steps<L>,
) -> PairRows
    requires view { IsWholeView view.now }
    requires ordered { first < second }
    requires first { IsSome (item_at (checked_by view.now).board.items first) }
    requires second { IsSome (item_at (checked_by view.now).board.items second) }
    ensures rows { AreRowsOfPair (checked_by view.now) first second result }
    ensures step { steps.new ≡ steps.old + 1 }
{
    steps.tick();
    let mut rows = PairRows::new(alloc);
    if let (Some(one), Some(other)) = (single_at(view, first), single_at(view, second)) {
        test_two(view, ANYTHING, first, one, second, other, &mut rows);
    }
    rows
}
