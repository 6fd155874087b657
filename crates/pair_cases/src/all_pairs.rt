//! The rows of a board over all pairs and all items, with no index.

ghost use Rattle.std.specs.Prelude.{◌≡◌, ◌<◌, IsTrue, All, OnOk, IfOk, map};
ghost use Rattle.cond_lang.specs.Rules.{plain_rule};
ghost use Rattle.pair_check.specs.Rows.{HasItems, HasSource};
ghost use Rattle.pair_check.specs.CheckViews.{IsWholeView};

use board_items::Board;
use row_check::{CheckView, Row, Steps, test_item, test_pair};
use rule_pick::Source;
use std::alloc::{AllocError, Global};
use std::marker::Brand;
use std::sync::ledger::{Blank, Ledger};

/// Whether the items of the row are on the board.
fn has_items(board: &Board, row: &Row) -> bool
    ensures { IsTrue result → HasItems board.now row.now }
{
    board.get(row.first()).is_some() && board.get(row.second()).is_some()
}

/// Whether a rule that asks for what the row says is there.
fn has_source(view: &CheckView<'_>, row: &Row) -> bool
    ensures { IsTrue result → HasSource (map plain_rule view.now.rules.now) row.now }
{
    match row.source() {
        Source::Rule(number) => (number as usize) < view.rules.len(),
        Source::Default | Source::Local => true,
    }
}

/// Appends a row that can be written. One that cannot is left out, so that it is missed where rows are compared.
fn push_row(view: &CheckView<'_>, row: &Row, rows: &mut Vec<Row>) -> Result<(), AllocError>
    requires items { All (HasItems view.now.board.now) rows.old.items }
    requires sources { All (HasSource (map plain_rule view.now.rules.now)) rows.old.items }
    ensures items { OnOk result (All (HasItems view.now.board.now) rows.new.items) }
    ensures sources { OnOk result (All
        (HasSource (map plain_rule view.now.rules.now)) rows.new.items) }
{
    if has_items(view.board, row) && has_source(view, row) {
        rows.push(*row)?;
    }
    Ok(())
}

/// Appends rows that can be written.
fn push_rows(view: &CheckView<'_>, found: &[Row], rows: &mut Vec<Row>) -> Result<(), AllocError>
    requires items { All (HasItems view.now.board.now) rows.old.items }
    requires sources { All (HasSource (map plain_rule view.now.rules.now)) rows.old.items }
    ensures items { OnOk result (All (HasItems view.now.board.now) rows.new.items) }
    ensures sources { OnOk result (All
        (HasSource (map plain_rule view.now.rules.now)) rows.new.items) }
{
    for row in found {
        push_row(view, row, rows)?;
    }
    Ok(())
}

/// Appends the rows of a pair.
fn push_pair<L: Ledger>(
    alloc: Global,
    view: &CheckView<'_>,
    first: u32,
    second: u32,
    rows: &mut Vec<Row>,
    steps: &mut Steps<L>,
) -> Result<(), AllocError>
    requires view { IsWholeView view.now }
    requires items { All (HasItems view.now.board.now) rows.old.items }
    requires sources { All (HasSource (map plain_rule view.now.rules.now)) rows.old.items }
    ensures items { OnOk result (All (HasItems view.now.board.now) rows.new.items) }
    ensures sources { OnOk result (All
        (HasSource (map plain_rule view.now.rules.now)) rows.new.items) }
{
    if first < second && view.board.get(first).is_some() && view.board.get(second).is_some() {
        let found = test_pair(alloc, view, first, second, steps);
        push_rows(view, found.as_slice(), rows)?;
    }
    Ok(())
}

/// Appends the rows of an item with all later ones.
fn push_pairs<L: Ledger>(
    alloc: Global,
    view: &CheckView<'_>,
    first: u32,
    rows: &mut Vec<Row>,
    steps: &mut Steps<L>,
) -> Result<(), AllocError>
    requires view { IsWholeView view.now }
    requires items { All (HasItems view.now.board.now) rows.old.items }
    requires sources { All (HasSource (map plain_rule view.now.rules.now)) rows.old.items }
    ensures items { OnOk result (All (HasItems view.now.board.now) rows.new.items) }
    ensures sources { OnOk result (All
        (HasSource (map plain_rule view.now.rules.now)) rows.new.items) }
{
    for (second, _) in view.board.iter() {
        push_pair(alloc, view, first, second, rows, steps)?;
    }
    Ok(())
}

/// Appends the rows of an item alone.
fn push_item(
    alloc: Global,
    view: &CheckView<'_>,
    id: u32,
    rows: &mut Vec<Row>,
) -> Result<(), AllocError>
    requires view { IsWholeView view.now }
    requires items { All (HasItems view.now.board.now) rows.old.items }
    requires sources { All (HasSource (map plain_rule view.now.rules.now)) rows.old.items }
    ensures items { OnOk result (All (HasItems view.now.board.now) rows.new.items) }
    ensures sources { OnOk result (All
        (HasSource (map plain_rule view.now.rules.now)) rows.new.items) }
{
    if view.board.get(id).is_some() {
        let found = test_item(alloc, view, id);
        push_rows(view, found.as_slice(), rows)?;
    }
    Ok(())
}

fn counted<L: Ledger>(
    alloc: Global,
    view: &CheckView<'_>,
    blank: Blank,
) -> Result<Vec<Row>, AllocError>
    requires name { blank.name ≡ L.name }
    requires parts { blank.parts ≡ L.parts }
    requires some { 0 < blank.parts }
    requires view { IsWholeView view.now }
    ensures items { IfOk result (λ rows. All (HasItems view.now.board.now) rows.items) }
    ensures sources { IfOk result (λ rows.
        All (HasSource (map plain_rule view.now.rules.now)) rows.items) }
{
    let mut steps: Steps<L> = Steps::new(blank);
    let mut rows = Vec::new(alloc);
    for (first, _) in view.board.iter() {
        push_item(alloc, view, first, &mut rows)?;
        push_pairs(alloc, view, first, &mut rows, &mut steps)?;
    }
    Ok(rows)
}

/// The rows of all items and of all pairs, in their order: each item's own rows, and then those with each later item.
pub(crate) fn rows_of_all_pairs(alloc: Global, view: &CheckView<'_>) -> Result<Vec<Row>, AllocError>
    requires { IsWholeView view.now }
    ensures items { IfOk result (λ rows. All (HasItems view.now.board.now) rows.items) }
    ensures sources { IfOk result (λ rows.
        All (HasSource (map plain_rule view.now.rules.now)) rows.items) }
{
    counted::<Brand>(alloc, view, Blank::new(1))
}
