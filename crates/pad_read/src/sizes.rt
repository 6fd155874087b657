//! The sizes of pads, and their drills: the sizes of a hole and the offset of the copper.

ghost use Rattle.std.specs.Prelude.{◌≡◌, ◌≤ℤ◌, pos, codes, option_map, IfOk, IfSome};
ghost use Rattle.sexpr_read.specs.TreeViews.{tree_of};
ghost use Rattle.list_read.specs.NamedElements.{element};
ghost use Rattle.part_read.specs.ElementResults.{given_or, atom_or};
ghost use Rattle.part_read.specs.BoardNumbers.{size_in, raw_point_at};
ghost use Rattle.part_read.specs.Placements.{greatest_size, IsReadRawPoint};
ghost use Rattle.pad_read.specs.PadSizes.{AreRead, sizes_at, sizes_of, least_of, are_equal, oval_sizes, drilled_by, no_offset, drilling_at, drilling_of};

use crate::places::{first_part, third_part};
use board_items::{BoardError, Nm};
use list_read::element;
use part_read::{RawPoint, first_atom, missing, raw_point_in, second_atom, size_in};
use sexpr_read::Node;

/// Two sizes in nanometres.
#[derive(Clone, Copy, Debug, PartialEq, Eq, Drop)]
pub struct Sizes {
    pub w: Nm,
    pub h: Nm,
}

/// The sizes of a hole, if there is one, and how far the copper stands from it.
#[derive(Clone, Copy, Debug, PartialEq, Eq, Drop)]
pub struct Drilling {
    pub sizes: Option<Sizes>,
    pub offset: RawPoint,
}

/// All within a radius of a box, which is given by how far its edges are from its middle; all in
/// half nanometres.
#[derive(Clone, Copy, Debug, PartialEq, Eq, Drop)]
pub struct RoundedRect {
    pub x: i64,
    pub y: i64,
    pub radius: i64,
}

/// A size, which is at most 10^12 nanometres.
fn size_within(atom: Node<'_, '_>) -> Result<Nm, BoardError>
    ensures size { result ≡ size_in (tree_of atom.entry) }
    ensures from { IfOk result (λ size. pos 0 ≤ℤ size) }
    ensures to { IfOk result (λ size. size ≤ℤ greatest_size) }
{
    let size = size_in(atom)?;
    Ok(size)
}

/// The sizes of `(size W H)`.
#[tactic(auto, unfolding(crate::specs::PadSizes::sizes_at))]
fn sizes_at(list: Node<'_, '_>) -> Result<Sizes, BoardError>
    ensures sizes { result ≡ sizes_at (tree_of list.entry) }
    ensures read { IfOk result AreRead }
{
    let w = size_within(first_atom(list)?)?;
    let h = size_within(second_atom(list)?)?;
    Ok(Sizes { w, h })
}

/// The sizes of a pad, which must be there.
pub(crate) fn sizes_of(node: Node<'_, '_>) -> Result<Sizes, BoardError>
    ensures sizes { result ≡ sizes_of (tree_of node.entry) }
    ensures read { IfOk result AreRead }
{
    match element(node, b"size") {
        None => Err(missing(node)),
        Some(list) => sizes_at(list),
    }
}

/// The smaller size.
pub(crate) fn least_of(sizes: Sizes) -> Nm
    ensures { result ≡ least_of sizes }
{
    if sizes.w <= sizes.h { sizes.w } else { sizes.h }
}

/// Whether both sizes are equal.
pub(crate) fn are_equal(one: Sizes, other: Sizes) -> bool
    ensures { result ≡ are_equal one other }
{
    one.w == other.w && one.h == other.h
}

// ---- drills

/// The second size of an oval hole, which is the first where it is missing.
fn other_size(w: Nm, found: Option<Node<'_, '_>>) -> Result<Nm, BoardError>
    requires from { pos 0 ≤ℤ w }
    requires to { w ≤ℤ greatest_size }
    ensures size { result ≡ atom_or w size_in (option_map tree_of found.entry) }
    ensures from { IfOk result (λ size. pos 0 ≤ℤ size) }
    ensures to { IfOk result (λ size. size ≤ℤ greatest_size) }
{
    match found {
        None => Ok(w),
        Some(part) => {
            if part.is_list() {
                return Ok(w);
            }
            size_within(part)
        }
    }
}

/// The sizes of `(drill oval W H)`.
#[tactic(auto, unfolding(crate::specs::PadSizes::oval_sizes))]
fn oval_sizes(list: Node<'_, '_>) -> Result<Sizes, BoardError>
    ensures sizes { result ≡ oval_sizes (tree_of list.entry) }
    ensures read { IfOk result AreRead }
{
    let w = size_within(second_atom(list)?)?;
    let h = other_size(w, third_part(list))?;
    Ok(Sizes { w, h })
}

/// The sizes of the hole of a drill, if it has one.
fn drilled_by(list: Node<'_, '_>, found: Option<Node<'_, '_>>) -> Result<Option<Sizes>, BoardError>
    ensures sizes { result ≡ drilled_by (tree_of list.entry) (option_map tree_of found.entry) }
    ensures read { IfOk result (λ sizes. IfSome sizes AreRead) }
{
    let Some(part) = found else {
        return Ok(None);
    };
    if part.is_list() {
        return Ok(None);
    }
    if part.is(b"oval") {
        return Ok(Some(oval_sizes(list)?));
    }
    let d = size_within(part)?;
    Ok(Some(Sizes { w: d, h: d }))
}

/// The offset of `(offset X Y)`, 0 where it is missing.
fn offset_of(list: Node<'_, '_>) -> Result<RawPoint, BoardError>
    ensures offset { result
        ≡ given_or no_offset raw_point_at (element (codes "offset") (tree_of list.entry)) }
    ensures within { IfOk result IsReadRawPoint }
{
    match element(list, b"offset") {
        None => Ok(RawPoint { x: 0, y: 0 }),
        Some(offset) => raw_point_in(offset),
    }
}

/// The hole and the offset that this `drill` gives.
#[tactic(auto, unfolding(crate::specs::PadSizes::drilling_at))]
fn drilling_at(list: Node<'_, '_>) -> Result<Drilling, BoardError>
    ensures drilling { result ≡ drilling_at (tree_of list.entry) }
    ensures within { IfOk result (λ drilling. IsReadRawPoint drilling.offset) }
    ensures read { IfOk result (λ drilling. IfSome drilling.sizes AreRead) }
{
    let sizes = drilled_by(list, first_part(list))?;
    let offset = offset_of(list)?;
    Ok(Drilling { sizes, offset })
}

/// The hole and the offset of its copper that the drill of a pad gives.
pub(crate) fn drilling_of(node: Node<'_, '_>) -> Result<Drilling, BoardError>
    ensures drilling { result ≡ drilling_of (tree_of node.entry) }
    ensures within { IfOk result (λ drilling. IsReadRawPoint drilling.offset) }
    ensures read { IfOk result (λ drilling. IfSome drilling.sizes AreRead) }
{
    match element(node, b"drill") {
        None => Ok(Drilling {
            sizes: None,
            offset: RawPoint { x: 0, y: 0 },
        }),
        Some(list) => drilling_at(list),
    }
}
