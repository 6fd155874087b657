//! The test that lines are closed: how many ends stand at each place, counted in a map, and whether
//! each end equals exactly one other. The ends may lie off the board.

ghost use Rattle.std.specs.Prelude.{◌≡◌, ◌+◌, ℕ, suc, ℤ, cond, ◌==◌, Some, OnOk, IfOk};
ghost use Rattle.std.specs.BTreeMap as tree;
ghost use Rattle.courtyard.specs.Ends.{is_same};
ghost use Rattle.courtyard.specs.EndGroups.{place_cmp};
ghost use Rattle.footprint_read.specs.Closing.{tally, AreCounts};
ghost use Rattle.footprint_read.specs.Courtyards.{at, is_long, ends_at, many_at, is_met, is_closed};

use crate::sides::RawSegment;
use part_read::RawPoint;
use std::alloc::{AllocError, Global};
use std::collections::BTreeMap;

/// How many ends stand at a place, as far as it matters.
#[derive(Clone, Copy, Debug, PartialEq, Eq, Drop)]
pub enum Count {
    One,
    Two,
    Many,
}

/// The place of a raw point, as a key.
fn key_of(raw_point: RawPoint) -> (i64, i64)
    ensures { result ≡ at raw_point }
{
    (raw_point.x, raw_point.y)
}

/// Whether the line has a length.
pub(crate) fn is_long(line: RawSegment) -> bool
    ensures { result ≡ is_long line }
{
    !(line.a.x == line.b.x && line.a.y == line.b.y)
}

/// The count with one end more.
fn more(found: Option<Count>) -> Count
    ensures { (n : ℕ) → found ≡ tally n → Some result ≡ tally (suc n) }
{
    match found {
        None => Count::One,
        Some(Count::One) => Count::Two,
        Some(_) => Count::Many,
    }
}

/// Enters an end at its place.
fn enter(counts: &mut BTreeMap<(i64, i64), Count>, raw_point: RawPoint) -> Result<(), AllocError>
    ensures { OnOk result ((k : ℤ × ℤ) (n : ℕ) → tree.get place_cmp counts.old k ≡ tally n
        → tree.get place_cmp counts.new k ≡ tally (n + cond (is_same (at raw_point) k) 1 0)) }
{
    let key = key_of(raw_point);
    let found = counts.get(&key).copied();
    counts.insert(key, more(found))?;
    Ok(())
}

/// Enters both ends of a line that has a length.
fn enter_line(counts: &mut BTreeMap<(i64, i64), Count>, line: RawSegment) -> Result<(), AllocError>
    ensures { OnOk result ((k : ℤ × ℤ) (n : ℕ) → tree.get place_cmp counts.old k ≡ tally n
        → tree.get place_cmp counts.new k ≡ tally (n + ends_at k line)) }
{
    if !is_long(line) {
        return Ok(());
    }
    enter(counts, line.a)?;
    enter(counts, line.b)
}

/// The ends of all lines that have a length.
fn counts_of(alloc: Global, lines: &[RawSegment]) -> Result<BTreeMap<(i64, i64), Count>, AllocError>
    ensures { IfOk result (AreCounts lines.now) }
{
    let mut counts = BTreeMap::new(alloc);
    for line in lines {
        enter_line(&mut counts, *line)?;
    }
    Ok(counts)
}

/// Whether exactly two ends stand at a raw point.
fn has_two(lines: &[RawSegment], counts: &BTreeMap<(i64, i64), Count>, raw_point: RawPoint) -> bool
    requires { AreCounts lines.now counts.now }
    ensures { result ≡ many_at (at raw_point) lines.now == 2 }
{
    let key = key_of(raw_point);
    is_two(counts.get(&key).copied())
}

/// Whether exactly two ends were counted.
fn is_two(found: Option<Count>) -> bool
    ensures { (n : ℕ) → found ≡ tally n → result ≡ n == 2 }
{
    matches!(found, Some(Count::Two))
}

/// Whether each end of the line equals exactly one other.
fn is_met(lines: &[RawSegment], counts: &BTreeMap<(i64, i64), Count>, line: RawSegment) -> bool
    requires { AreCounts lines.now counts.now }
    ensures { result ≡ is_met lines.now line }
{
    !is_long(line) || (has_two(lines, counts, line.a) && has_two(lines, counts, line.b))
}

/// Whether each end of each line equals exactly one other.
fn all_met(lines: &[RawSegment], counts: &BTreeMap<(i64, i64), Count>) -> bool
    requires { AreCounts lines.now counts.now }
    ensures { result ≡ is_closed lines.now }
{
    for line in lines {
        if !is_met(lines, counts, *line) {
            return false;
        }
    }
    true
}

/// Whether no end of the lines is loose: each equals exactly one other. Lines of no length are
/// passed over.
pub(crate) fn is_closed(alloc: Global, lines: &[RawSegment]) -> Result<bool, AllocError>
    ensures { IfOk result (λ closed. closed ≡ is_closed lines.now) }
{
    let counts = counts_of(alloc, lines)?;
    Ok(all_met(lines, &counts))
}
