//! The rows of a tile.

ghost use Rattle.std.specs.Prelude.{◌≡◌, ◌+◌, ◌<◌, ◌≤◌, ◌∷◌, ◌++◌, Bool, All, length, filter, IfOk, OnOk};
ghost use Rattle.std.specs.List.Sorted.{IsStrictlyIncreasing};
ghost use Rattle.geo_seg.specs.Boxes.{FitsIndex, widened};
ghost use Rattle.board_index.specs.IndexedItems.{IsEntryOf};
ghost use Rattle.box_index.specs.declared.entry.Entry.{Entry};
ghost use Rattle.box_index.specs.Tiles.{IsRising, IsSoundIndex, margin, near_of};
ghost use Rattle.pair_check.specs.Rows.{AreRowsOfPair};
ghost use Rattle.pair_check.specs.CheckViews.{checked_by, deciders_of, IsWholeView};
ghost use Rattle.row_check.specs.Asks.{AreAsksOf};
ghost use Rattle.row_check.specs.Blocks.{AreBoxes, StartsOwned};
ghost use Rattle.row_check.specs.Operands.{StandsAt};
ghost use Rattle.row_check.specs.RowsOfTile.{IsIndexOf, AreRowsOfTile, is_changed, most_steps};
ghost use Rattle.row_check.specs.EntryWalks.{is_owned, partners_of, pairs_with, IsEndOf, AreRowsOfPairs, HasAddedRows};

use crate::asks::PairAsks;
use crate::blocks::{Boxes, LONG, SHORT, boxes_of, is_far, no_boxes};
use crate::changed::is_changed;
use crate::copper::are_apart;
use crate::operands::{Operand, operand_at, operand_of, operands_of};
use box_index::{Entry, TileIndex, do_boxes_meet};
use geo_seg::Bounds;
use pair_check::{CheckView, PairRows, Row, Steps, test_two};
use std::alloc::{AllocError, Global};
use std::sync::ledger::Ledger;

/// How many entries change where all items are looked up first.
const MANY: usize = 256;

/// What is tested, what is asked of pairs there, and items that are at hand.
#[derive(Clone, Copy)]
struct Tested<'a, 'h, 'b> {
    view: &'a CheckView<'b>,
    asks: PairAsks,
    operands: &'h [Operand<'b>],
}

/// A tile of an index, and the boxes of the blocks of the entries that are walked there.
#[derive(Clone, Copy)]
struct At<'a, 'b> {
    index: &'a TileIndex,
    tile: u32,
    boxes: Boxes<'b>,
}

/// The rows so far, and a list for those of one pair.
#[derive(Drop)]
struct RowSink {
    pair: PairRows,
    rows: Vec<Row>,
}

/// The entries that changed.
fn touched_of(alloc: Global, near: &[Entry], changed: &[u32]) -> Result<Vec<Entry>, AllocError>
    requires { IsStrictlyIncreasing changed.now }
    ensures { IfOk result
        (λ touched. touched.items ≡ filter (λ (e : Entry). is_changed changed.now e.id) near.now) }
{
    let mut touched = Vec::with_capacity(alloc, near.len().min(changed.len()))?;
    for entry in near {
        if is_changed(changed, entry.id) {
            touched.push(*entry)?;
        }
    }
    Ok(touched)
}

/// Whether the two are near, and the tile answers for them. Boxes decide first: `wide` is that of the first, widened.
fn is_owned(index: &TileIndex, tile: u32, first: &Entry, wide: Bounds, second: &Entry) -> bool
    requires first { FitsIndex first.now.bounds }
    requires second { FitsIndex second.now.bounds }
    requires wide { wide ≡ widened first.now.bounds (margin index.now) }
    ensures { result ≡ is_owned index.now tile first.now second.now }
{
    do_boxes_meet(wide, second.bounds) && index.owner(first.bounds, second.bounds) == tile
}

/// With which of the later entries the first is tested, with their boxes, and those of the later that changed. `touched` has
/// the entries that changed, the first among them; they have no boxes.
fn partners<'a>(
    first: &Entry,
    later: &'a [Entry],
    boxes: Boxes<'a>,
    touched: &'a [Entry],
) -> (&'a [Entry], Boxes<'a>, &'a [Entry])
    requires rising { IsRising (first.now ∷ later.now) }
    requires blocks { AreBoxes boxes later.now }
    ensures blocks { AreBoxes result.1 result.0.now }
    ensures partners { (changed : Entry → Bool) → touched.now
        ≡ filter changed (first.now ∷ later.now) → result.0.now
        ≡ partners_of changed first.now later.now }
    ensures touched { (changed : Entry → Bool) → touched.now
        ≡ filter changed (first.now ∷ later.now) → result.2.now ≡ filter changed later.now }
{
    let Some((head, rest)) = touched.split_first() else {
        return (touched, no_boxes(touched), touched);
    };
    if head.id == first.id {
        (later, boxes, rest)
    } else {
        (touched, no_boxes(touched), touched)
    }
}

/// Appends these rows. Of most pairs there are none.
#[inline(always)]
fn push_any(rows: &mut Vec<Row>, more: &[Row]) -> Result<(), AllocError>
    ensures { OnOk result (rows.new.items ≡ rows.old.items ++ more.now) }
{
    if more.is_empty() {
        return Ok(());
    }
    rows.extend_from_slice(more)
}

/// Appends the rows of a pair, the items of these two entries.
fn push_pair<L: Ledger>(
    tested: &Tested<'_, '_, '_>,
    first: &Entry,
    one: Operand<'_>,
    second: &Entry,
    other: Operand<'_>,
    row_sink: &mut RowSink,
    steps: &mut Steps<L>,
) -> Result<(), AllocError>
    requires view { IsWholeView tested.now.view.now }
    requires asks { AreAsksOf (deciders_of tested.now.view.now) tested.now.asks }
    requires ordered { one.id < other.id }
    requires first { StandsAt (checked_by tested.now.view.now) one }
    requires second { StandsAt (checked_by tested.now.view.now) other }
    requires first_is { one.id ≡ first.now.id }
    requires second_is { other.id ≡ second.now.id }
    requires first_fits { FitsIndex first.now.bounds }
    requires second_fits { FitsIndex second.now.bounds }
    requires first_there { IsEntryOf (checked_by tested.now.view.now).board first.now }
    requires second_there { IsEntryOf (checked_by tested.now.view.now).board second.now }
    ensures rows { OnOk result
        (HasAddedRows (AreRowsOfPair (checked_by tested.now.view.now) one.entry.id other.entry.id)
        row_sink.old.rows.items row_sink.new.rows.items) }
    ensures step { steps.new ≡ steps.old + 1 }
{
    steps.tick();
    if are_apart(
        tested.asks.of_copper,
        first,
        one.single,
        second,
        other.single,
    ) {
        return Ok(());
    }
    test_two(
        tested.view,
        tested.asks.kinds,
        one.id,
        one.single,
        other.id,
        other.single,
        &mut row_sink.pair,
    );
    push_any(&mut row_sink.rows, row_sink.pair.as_slice())
}

/// The others from the first for which the tile answers. Blocks that are far are passed over whole.
fn owned_from<'a>(at: &At<'_, '_>, first: &Entry, others: &'a [Entry]) -> &'a [Entry]
    requires fits { All (λ e. FitsIndex e.bounds) (first.now ∷ others.now) }
    requires blocks { AreBoxes at.now.boxes others.now }
    ensures end { IsEndOf at.now.index.now at.now.tile first.now others.now result.now }
    ensures owned { StartsOwned at.now.index.now at.now.tile first.now result.now }
{
    let wide = at.index.widened(first.bounds);
    let mut left = others;
    'walk: while let Some((second, rest)) = left.split_first() {
        // a block of either size begins where a short one may
        let begins = left.len() % SHORT == 0;
        if begins && is_far(wide, LONG, at.boxes.long, left.len()) {
            left = &left[LONG..];
        } else if begins && is_far(wide, SHORT, at.boxes.short, left.len()) {
            left = &left[SHORT..];
        } else if is_owned(at.index, at.tile, first, wide, second) {
            return left;
        } else {
            left = rest;
        }
    }
    left
}

/// Appends the rows of an entry, whose item is at hand, with others, for the first of which the tile answers.
fn push_beside<L: Ledger>(
    tested: &Tested<'_, '_, '_>,
    at: &At<'_, '_>,
    first: &Entry,
    one: Operand<'_>,
    others: &[Entry],
    row_sink: &mut RowSink,
    steps: &mut Steps<L>,
) -> Result<(), AllocError>
    requires view { IsWholeView tested.now.view.now }
    requires asks { AreAsksOf (deciders_of tested.now.view.now) tested.now.asks }
    requires operands { All (StandsAt (checked_by tested.now.view.now)) tested.now.operands.now }
    requires same { one.id ≡ first.now.id }
    requires first { StandsAt (checked_by tested.now.view.now) one }
    requires rising { IsRising (first.now ∷ others.now) }
    requires fits { All (λ e. FitsIndex e.bounds) (first.now ∷ others.now) }
    requires there { All (IsEntryOf (checked_by tested.now.view.now).board)
        (first.now ∷ others.now) }
    requires blocks { AreBoxes at.now.boxes others.now }
    requires owned { StartsOwned at.now.index.now at.now.tile first.now others.now }
    ensures rows { OnOk result
        (HasAddedRows (AreRowsOfPairs (checked_by tested.now.view.now)
        (pairs_with at.now.index.now at.now.tile first.now others.now)) row_sink.old.rows.items
        row_sink.new.rows.items) }
    ensures steps { OnOk result
        (steps.new ≡ steps.old + length
        (pairs_with at.now.index.now at.now.tile first.now others.now)) }
    ensures most { steps.new ≤ steps.old + length
        (pairs_with at.now.index.now at.now.tile first.now others.now) }
{
    let mut left = others;
    'walk: while let Some((second, rest)) = left.split_first() {
        let Some(other) = operand_at(tested.view, tested.operands, left.len(), second.id) else {
            return Ok(());
        };
        push_pair(tested, first, one, second, other, row_sink, steps)?;
        left = owned_from(at, first, rest);
    }
    Ok(())
}

/// Appends the rows of an entry with others. Its item is looked up once, and only where there is something to test.
fn push_rows<L: Ledger>(
    tested: &Tested<'_, '_, '_>,
    at: &At<'_, '_>,
    first: &Entry,
    others: &[Entry],
    row_sink: &mut RowSink,
    steps: &mut Steps<L>,
) -> Result<(), AllocError>
    requires view { IsWholeView tested.now.view.now }
    requires asks { AreAsksOf (deciders_of tested.now.view.now) tested.now.asks }
    requires operands { All (StandsAt (checked_by tested.now.view.now)) tested.now.operands.now }
    requires rising { IsRising (first.now ∷ others.now) }
    requires fits { All (λ e. FitsIndex e.bounds) (first.now ∷ others.now) }
    requires there { All (IsEntryOf (checked_by tested.now.view.now).board)
        (first.now ∷ others.now) }
    requires blocks { AreBoxes at.now.boxes others.now }
    ensures rows { OnOk result
        (HasAddedRows (AreRowsOfPairs (checked_by tested.now.view.now)
        (pairs_with at.now.index.now at.now.tile first.now others.now)) row_sink.old.rows.items
        row_sink.new.rows.items) }
    ensures steps { OnOk result
        (steps.new ≡ steps.old + length
        (pairs_with at.now.index.now at.now.tile first.now others.now)) }
    ensures most { steps.new ≤ steps.old + length
        (pairs_with at.now.index.now at.now.tile first.now others.now) }
{
    let owned = owned_from(at, first, others);
    if owned.is_empty() {
        return Ok(());
    }
    let Some(one) = operand_of(tested.view, first.id) else {
        return Ok(());
    };
    push_beside(tested, at, first, one, owned, row_sink, steps)
}

/// The items of all entries, where enough of them changed: a pair is then a look less.
fn operands_if<'a>(
    alloc: Global,
    view: &CheckView<'a>,
    near: &[Entry],
    count: usize,
) -> Result<Vec<Operand<'a>>, AllocError>
    requires { IsWholeView view.now }
    ensures { IfOk result (λ operands. All (StandsAt (checked_by view.now)) operands.items) }
{
    if count < MANY {
        return Ok(Vec::new(alloc));
    }
    operands_of(alloc, view, near)
}

/// The rows of the pairs of the entries near a tile that have an id that changed and for which the tile answers, pair by pair.
/// `touched` are those of the entries that changed, and the boxes are those of the blocks of the entries.
fn rows_near<L: Ledger>(
    alloc: Global,
    tested: &Tested<'_, '_, '_>,
    at: At<'_, '_>,
    near: &[Entry],
    touched: &[Entry],
    changed: &[u32],
    steps: &mut Steps<L>,
) -> Result<Vec<Row>, AllocError>
    requires view { IsWholeView tested.now.view.now }
    requires asks { AreAsksOf (deciders_of tested.now.view.now) tested.now.asks }
    requires operands { All (StandsAt (checked_by tested.now.view.now)) tested.now.operands.now }
    requires index { IsIndexOf (checked_by tested.now.view.now) at.index.now }
    requires sound { IsSoundIndex at.index.now }
    requires near { near.now ≡ near_of at.index.now at.tile }
    requires touched { touched.now ≡ filter (λ (e : Entry). is_changed changed.now e.id) near.now }
    requires blocks { AreBoxes at.boxes near.now }
    ensures rows { IfOk result
        (λ rows. AreRowsOfTile
        (checked_by tested.now.view.now) at.entry.index.now at.entry.tile changed.now
        rows.items) }
    ensures steps { steps.new ≤ steps.old + most_steps at.entry.index.now at.entry.tile
        changed.now }
{
    let rows = Vec::new(alloc);
    let pair = PairRows::new(alloc);
    let mut row_sink = RowSink { pair, rows };
    let mut later = near;
    let mut left = touched;
    'entries: while let Some((first, others)) = later.split_first() {
        let (with, boxes, rest) = partners(first, others, at.boxes, left);
        let beside = At {
            index: at.index,
            tile: at.tile,
            boxes,
        };
        push_rows(tested, &beside, first, with, &mut row_sink, steps)?;
        later = others;
        left = rest;
    }
    Ok(row_sink.rows)
}

/// The rows of all pairs that have an id in `changed` and for which the tile answers, by the first id, then by the second,
/// then by the number of the kind. Each pair is tested in one tile.
///
/// `changed` rises, and `asks` is what the rules of the view and its board ask for. The index holds the items of the board under
/// their bounds, and reaches as far as anything is asked for. A pair costs one step at most, and none where the widened bounds do
/// not meet. Only running out of memory fails it.
pub fn test_tile_by<L: Ledger>(
    alloc: Global,
    view: &CheckView,
    asks: PairAsks,
    index: &TileIndex,
    tile: u32,
    changed: &[u32],
    steps: &mut Steps<L>,
) -> Result<Vec<Row>, AllocError>
    requires view { IsWholeView view.now }
    requires asks { AreAsksOf (deciders_of view.now) asks }
    requires index { IsIndexOf (checked_by view.now) index.now }
    requires changed { IsStrictlyIncreasing changed.now }
    ensures rows { IfOk result
        (λ rows. AreRowsOfTile (checked_by view.now) index.now tile changed.now rows.items) }
    ensures steps { steps.new ≤ steps.old + most_steps index.now tile changed.now }
{
    let near = index.near(tile);
    // What is large lies in many tiles that answer for none of its pairs.
    if !index.may_answer(tile) {
        return Ok(Vec::new(alloc));
    }
    let touched = touched_of(alloc, near, changed)?;
    let short_boxes = boxes_of(alloc, near, SHORT)?;
    let long_boxes = boxes_of(alloc, near, LONG)?;
    let all_operands = operands_if(alloc, view, near, touched.len())?;
    let boxes = Boxes {
        short: &short_boxes,
        long: &long_boxes,
    };
    let operands: &[Operand<'_>] = &all_operands;
    let tested = Tested {
        view,
        asks,
        operands,
    };
    let at = At { index, tile, boxes };
    rows_near(alloc, &tested, at, near, &touched, changed, steps)
}

/// The rows of all pairs that have an id in `changed` and for which the tile answers, by the first id, then by the second,
/// then by the number of the kind. Each pair is tested in one tile.
///
/// `changed` rises. The index holds the items of the board under their bounds, and reaches as far as anything is asked for. A
/// pair costs one step at most, and none where the widened bounds do not meet. Only running out of memory fails it.
pub fn test_tile<L: Ledger>(
    alloc: Global,
    view: &CheckView,
    index: &TileIndex,
    tile: u32,
    changed: &[u32],
    steps: &mut Steps<L>,
) -> Result<Vec<Row>, AllocError>
    requires view { IsWholeView view.now }
    requires index { IsIndexOf (checked_by view.now) index.now }
    requires changed { IsStrictlyIncreasing changed.now }
    ensures rows { IfOk result
        (λ rows. AreRowsOfTile (checked_by view.now) index.now tile changed.now rows.items) }
    ensures steps { steps.new ≤ steps.old + most_steps index.now tile changed.now }
{
    let asks = PairAsks::by(view);
    test_tile_by(alloc, view, asks, index, tile, changed, steps)
}
