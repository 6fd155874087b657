//! What a single item breaks.

ghost use Rattle.std.specs.Prelude.{◌≡◌, ◌↔◌, ◌+◌, ◌<◌, ◌≤◌, ℤ, Bool, IsTrue, IsSome, IfSome, None, length, MatchOption};
ghost use Rattle.plain_types.specs.Limits.{AreCounted};
ghost use Rattle.plain_types.specs.Lengths.{IsLength};
ghost use Rattle.one_item.specs.declared.item.Item.{Item};
ghost use Rattle.board_items.specs.Boards.{item_at};
ghost use Rattle.cond_lang.specs.declared.kind.Family.{Family};
ghost use Rattle.cond_lang.specs.CheckKinds.{family, kind_number};
ghost use Rattle.rule_pick.specs.Picks.{pick_of};
ghost use Rattle.kind_subjects.specs.LimitedLengths.{IsNearZero, length_of};
ghost use Rattle.pair_check.specs.PlainRow.{PlainRow};
ghost use Rattle.kind_subjects.specs.declared.layer.RowLayer.{RowLayer};
ghost use Rattle.kind_subjects.specs.TriedLayers.{IsTried, IsFirst, HoldsNowhere};
ghost use Rattle.kind_subjects.specs.SingleLayers.{IsAskedAt, IsMeasuredAt};
ghost use Rattle.pair_check.specs.Singles.{BreaksLimit, bans_what, bans_item, Forbids};
ghost use Rattle.pair_check.specs.Rows.{Stands, AreRowsWhere, AreRowsOfItem};
ghost use Rattle.pair_check.specs.CheckViews.{checked_by, deciders_of, IsOffIn, IsForbiddenIn, IsWholeView};
ghost use Rattle.pair_check.specs.Stages.{IsOff, IsForbidden, IsOfSingle, IsOfKind, AreRowsBelow};

use crate::asked::some_asks;
use crate::found::{Forbidden, Limit, Off, Single};
use crate::pair_rows::PairRows;
use crate::row::{Row, counts};
use crate::view::CheckView;
use board_items::{Item, Nm, What};
use cond_lang::{Disallow, Kind};
use kind_subjects::{
    RowLayer, counted, is_asked_at, is_measured_at, length_of, length_once, places_measured,
    places_of_items, tried_at,
};
use rule_pick::{Picked, pick};
use std::alloc::Global;

/// The item of the id, with its facts, if the board has it. It takes no memory.
pub fn single_at<'a>(view: &CheckView<'a>, id: u32) -> Option<Single<'a>>
    requires { IsWholeView view.now }
    ensures { MatchOption result (item_at (checked_by view.now).board.items id ≡ None)
        (λ s. Stands (checked_by view.now) id s.item.now s.facts.now) }
{
    let item = view.board.get(id)?;
    let facts = view.facts.get(id)?;
    Some(Single { item, facts })
}

/// The limit that the measured length breaks.
fn broken_limit(kind: Kind, n: Nm, picked: Picked) -> Option<Limit>
    requires { IsNearZero n }
    ensures broken { MatchOption result
        ((over : Bool) (limit : ℤ) → ¬ (BreaksLimit kind n (pick_of picked) over limit))
        (λ l. BreaksLimit kind n (pick_of picked) l.over l.nm) }
    ensures range { IfSome result (λ l. IsLength l.nm) }
{
    if n < counted(kind, picked.least) {
        return Some(Limit {
            over: false,
            nm: picked.least,
        });
    }
    match picked.most {
        Some(most) => {
            if counted(kind, most) < n {
                Some(Limit {
                    over: true,
                    nm: most,
                })
            } else {
                None
            }
        }
        None => None,
    }
}

/// The limit that is broken on the layer, if one is.
fn off_at(view: &CheckView, kind: Kind, single: Single<'_>, n: Nm, layer: RowLayer) -> Option<Off>
    requires few { AreCounted view.now.rules.now }
    requires limit { family kind ≡ Family.Limits }
    requires within { IsNearZero n }
    requires tried { IsTried view.now.board.now.copper layer }
    ensures broken { MatchOption result (¬ (IsOffIn view.now kind single.entry n layer))
        (λ off. (off.layer ≡ layer) × IsMeasuredAt kind single.entry.item.now layer
        × IsOff (deciders_of view.now) kind single.entry.facts.now n off) }
    ensures range { IfSome result (λ off. IsLength off.limit.nm) }
{
    if !is_measured_at(view.board.copper(), kind, single.item, layer) {
        return None;
    }
    let picked = pick(
        view.rules,
        view.classes.mins(),
        kind,
        single.facts,
        None,
        layer.asked(),
    );
    if !counts(picked.severity) {
        return None;
    }
    let limit = broken_limit(kind, n, picked)?;
    Some(Off {
        layer,
        picked,
        limit,
    })
}

/// The first layer on which a limit is broken. Only places where the kind is measured are tried.
fn first_off(view: &CheckView, kind: Kind, single: Single<'_>, n: Nm) -> Option<Off>
    requires few { AreCounted view.now.rules.now }
    requires limit { family kind ≡ Family.Limits }
    requires within { IsNearZero n }
    ensures broken { MatchOption result
        (HoldsNowhere view.now.board.now.copper (IsOffIn view.now kind single.entry n))
        (λ off. IsOff (deciders_of view.now) kind single.entry.facts.now n off
        × IsFirst view.now.board.now.copper (IsOffIn view.now kind single.entry n) off.layer) }
    ensures range { IfSome result (λ off. IsLength off.limit.nm) }
{
    let places = places_measured(kind, single.item.copper.as_slice());
    for place in places.from..places.to {
        if let Some(layer) = tried_at(view.board.copper(), place) {
            if let Some(off) = off_at(view, kind, single, n, layer) {
                return Some(off);
            }
        }
    }
    None
}

/// The row of a limit that is broken, if one is.
fn limit_row(view: &CheckView, kind: Kind, id: u32, single: Single<'_>) -> Option<Row>
    requires few { AreCounted view.now.rules.now }
    requires limit { family kind ≡ Family.Limits }
    ensures { MatchOption result
        ((row : PlainRow)
        → ¬ (IsOfKind (IsOfSingle
        (deciders_of view.now) single.entry.item.now single.entry.facts.now id) kind row))
        (λ row. IsOfKind (IsOfSingle
        (deciders_of view.now) single.entry.item.now single.entry.facts.now id) kind row) }
{
    let n = length_of(kind, single.item)?;
    let off = first_off(view, kind, single, n)?;
    Some(Row {
        first: id,
        second: id,
        kind,
        layer: off.layer,
        value: off.limit.nm,
        gap: length_once(kind, n),
        over: off.limit.over,
        source: off.picked.source,
        severity: off.picked.severity,
    })
}

/// Whether the bans are against items of this kind.
fn bans_what(bans: Disallow, what: &What) -> bool
    ensures { result ≡ bans_what bans what.now }
{
    match what {
        What::Track { .. } => bans.tracks,
        What::Via { micro, blind, .. } => {
            bans.vias || (*micro && bans.micro_vias) || (*blind && bans.buried_vias)
        }
        What::Pad { .. } => bans.pads,
        What::Graphic => bans.graphics,
        What::Fill => bans.zones,
        What::Body { .. } => bans.footprints,
        What::Edge { .. } | What::Area { .. } | What::Note { .. } => false,
    }
}

/// Whether the bans are against the item: by its kind, or by its hole.
fn bans_item(bans: Disallow, item: &Item) -> bool
    ensures { result ≡ bans_item bans item.now }
{
    bans_what(bans, &item.what) || (item.hole.is_some() && bans.holes)
}

/// Whether what was picked forbids the item.
fn forbids(kind: Kind, picked: Picked, item: &Item) -> bool
    ensures { IsTrue result ↔ Forbids kind (pick_of picked) item.now }
{
    if kind.is_assertion() {
        !picked.holds
    } else {
        bans_item(picked.bans, item)
    }
}

/// What forbids the item on the layer, if anything does.
fn forbidden_at(
    view: &CheckView,
    kind: Kind,
    single: Single<'_>,
    layer: RowLayer,
) -> Option<Forbidden>
    requires few { AreCounted view.now.rules.now }
    requires ban { family kind ≡ Family.Forbids }
    requires tried { IsTried view.now.board.now.copper layer }
    ensures { MatchOption result (¬ (IsForbiddenIn view.now kind single.entry layer))
        (λ found. (found.layer ≡ layer)
        × IsAskedAt single.entry.item.now single.entry.item.now.what layer
        × IsForbidden (deciders_of view.now) kind single.entry.item.now single.entry.facts.now
        found) }
{
    if !is_asked_at(view.board.copper(), single.item, layer) {
        return None;
    }
    let picked = pick(
        view.rules,
        view.classes.mins(),
        kind,
        single.facts,
        None,
        layer.asked(),
    );
    if counts(picked.severity) && forbids(kind, picked, single.item) {
        Some(Forbidden { layer, picked })
    } else {
        None
    }
}

/// The first layer on which the item is forbidden.
fn first_forbidden(view: &CheckView, kind: Kind, single: Single<'_>) -> Option<Forbidden>
    requires few { AreCounted view.now.rules.now }
    requires ban { family kind ≡ Family.Forbids }
    ensures { MatchOption result
        (HoldsNowhere view.now.board.now.copper (IsForbiddenIn view.now kind single.entry))
        (λ found. IsForbidden
        (deciders_of view.now) kind single.entry.item.now single.entry.facts.now found
        × IsFirst view.now.board.now.copper
        (IsForbiddenIn view.now kind single.entry) found.layer) }
{
    let places = places_of_items();
    for place in places.from..places.to {
        if let Some(layer) = tried_at(view.board.copper(), place) {
            if let Some(found) = forbidden_at(view, kind, single, layer) {
                return Some(found);
            }
        }
    }
    None
}

/// The row that the item is forbidden, if it is.
fn ban_row(view: &CheckView, kind: Kind, id: u32, single: Single<'_>) -> Option<Row>
    requires few { AreCounted view.now.rules.now }
    requires ban { family kind ≡ Family.Forbids }
    ensures { MatchOption result
        ((row : PlainRow)
        → ¬ (IsOfKind (IsOfSingle
        (deciders_of view.now) single.entry.item.now single.entry.facts.now id) kind row))
        (λ row. IsOfKind (IsOfSingle
        (deciders_of view.now) single.entry.item.now single.entry.facts.now id) kind row) }
{
    let found = first_forbidden(view, kind, single)?;
    Some(Row {
        first: id,
        second: id,
        kind,
        layer: found.layer,
        value: 0,
        gap: 0,
        over: false,
        source: found.picked.source,
        severity: found.picked.severity,
    })
}

/// Appends the row of a kind that limits a length, if the item breaks it.
fn add_limit(view: &CheckView, kind: Kind, id: u32, single: Single<'_>, rows: &mut PairRows)
    requires few { AreCounted view.now.rules.now }
    requires limit { family kind ≡ Family.Limits }
    requires room { length rows.old < 8 }
    requires below { AreRowsBelow
        (IsOfSingle (deciders_of view.now) single.item.now single.facts.now id)
        (kind_number kind) rows.old }
    ensures rows { AreRowsBelow
        (IsOfSingle (deciders_of view.now) single.entry.item.now single.entry.facts.now id)
        (kind_number kind + 1) rows.new }
    ensures count { length rows.new ≤ length rows.old + 1 }
{
    if let Some(row) = limit_row(view, kind, id, single) {
        rows.push(row);
    }
}

/// Appends the row of a kind that forbids, if the item is forbidden.
#[inline(never)]
fn add_forbidden(view: &CheckView, kind: Kind, id: u32, single: Single<'_>, rows: &mut PairRows)
    requires few { AreCounted view.now.rules.now }
    requires ban { family kind ≡ Family.Forbids }
    requires room { length rows.old < 8 }
    requires below { AreRowsBelow
        (IsOfSingle (deciders_of view.now) single.item.now single.facts.now id)
        (kind_number kind) rows.old }
    ensures rows { AreRowsBelow
        (IsOfSingle (deciders_of view.now) single.entry.item.now single.entry.facts.now id)
        (kind_number kind + 1) rows.new }
    ensures count { length rows.new ≤ length rows.old + 1 }
{
    if let Some(row) = ban_row(view, kind, id, single) {
        rows.push(row);
    }
}

/// Appends the row of a kind that forbids, if the item is forbidden. Where no rule asks for the kind nothing is.
#[inline(always)]
fn add_ban(view: &CheckView, kind: Kind, id: u32, single: Single<'_>, rows: &mut PairRows)
    requires few { AreCounted view.now.rules.now }
    requires ban { family kind ≡ Family.Forbids }
    requires room { length rows.old < 8 }
    requires below { AreRowsBelow
        (IsOfSingle (deciders_of view.now) single.item.now single.facts.now id)
        (kind_number kind) rows.old }
    ensures rows { AreRowsBelow
        (IsOfSingle (deciders_of view.now) single.entry.item.now single.entry.facts.now id)
        (kind_number kind + 1) rows.new }
    ensures count { length rows.new ≤ length rows.old + 1 }
{
    if some_asks(view.rules, kind) {
        add_forbidden(view, kind, id, single, rows);
    }
}

/// The rows of the item.
fn rows_of(alloc: Global, view: &CheckView, id: u32, single: Single<'_>) -> PairRows
    requires few { AreCounted view.now.rules.now }
    ensures { AreRowsWhere
        (IsOfSingle (deciders_of view.now) single.entry.item.now single.entry.facts.now id) result }
{
    let mut rows = PairRows::new(alloc);
    add_limit(view, Kind::TrackWidth, id, single, &mut rows);
    add_limit(view, Kind::ViaDiameter, id, single, &mut rows);
    add_limit(view, Kind::HoleSize, id, single, &mut rows);
    add_limit(view, Kind::AnnularWidth, id, single, &mut rows);
    add_ban(view, Kind::Disallow, id, single, &mut rows);
    add_ban(view, Kind::Assertion, id, single, &mut rows);
    rows
}

/// All rows of a single item, by rising kinds. It takes no memory.
///
/// The item has one row at most of each kind: of a limit on the first layer on which its length is below the least value that
/// is picked there, or else above the greatest; of a ban on the first layer on which the rule that is picked bans it; of a
/// claim on the first layer on which that of the rule does not hold; and where what is picked is an error or a warning. An
/// item is asked on the layers of its copper, a footprint on that of its side, and an item without copper on none; edges,
/// areas and notes are not asked. Lengths are in nanometres.
pub fn test_item(alloc: Global, view: &CheckView, id: u32) -> PairRows
    requires view { IsWholeView view.now }
    requires item { IsSome (item_at (checked_by view.now).board.items id) }
    ensures { AreRowsOfItem (checked_by view.now) id result }
{
    match single_at(view, id) {
        Some(single) => rows_of(alloc, view, id, single),
        None => PairRows::new(alloc),
    }
}
