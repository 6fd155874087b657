//! Placements: where a footprint or a pad stands and how it is turned; and its clearance, which both
//! read alike.

ghost use Rattle.std.specs.Prelude.{◌≡◌, ◌<◌, option_map, IfOk, IfSome};
ghost use Rattle.sexpr_read.specs.TreeViews.{tree_of};
ghost use Rattle.part_read.specs.Placements.{IsReadRawPoint};
ghost use Rattle.pad_read.specs.LocalPlacements.{angle_by, local_placement_at, local_placement_of, quarters_of, clearance_of};

use crate::places::third_part;
use board_items::{BoardError, Nm};
use list_read::element;
use part_read::{RawPoint, first_atom, length_in, missing, raw_point_in};
use sexpr_read::Node;

/// Where something stands, and how it is turned.
#[derive(Clone, Copy, Debug, PartialEq, Eq, Drop)]
pub struct LocalPlacement {
    /// In nanometres.
    pub at: RawPoint,
    /// Read as lengths are: 1,000,000 is a degree.
    pub angle: Nm,
}

/// The angle of `(at X Y ANGLE)`, 0 where it is missing.
fn angle_by(found: Option<Node<'_, '_>>) -> Result<Nm, BoardError>
    ensures { result ≡ angle_by (option_map tree_of found.entry) }
{
    match found {
        None => Ok(0),
        Some(part) => {
            if part.is_list() {
                return Ok(0);
            }
            length_in(part)
        }
    }
}

/// The position and the angle of `(at X Y ANGLE)`.
#[tactic(auto, unfolding(crate::specs::LocalPlacements::local_placement_at))]
fn local_placement_at(list: Node<'_, '_>) -> Result<LocalPlacement, BoardError>
    ensures local_placement { result ≡ local_placement_at (tree_of list.entry) }
    ensures within { IfOk result (λ local_placement. IsReadRawPoint local_placement.at) }
{
    let at = raw_point_in(list)?;
    let angle = angle_by(third_part(list))?;
    Ok(LocalPlacement { at, angle })
}

/// The position and the angle of the `(at X Y ANGLE)` of a list, each coordinate at most 10^12
/// nanometres from 0; an angle that is missing is 0.
///
/// It is refused as Missing at the list where `at` is missing, and at `at` where X or Y is; what is
/// no number, or too far from 0 to be read, is refused as BadNumber where it stands.
pub fn local_placement_of(node: Node<'_, '_>) -> Result<LocalPlacement, BoardError>
    ensures local_placement { result ≡ local_placement_of (tree_of node.entry) }
    ensures within { IfOk result (λ local_placement. IsReadRawPoint local_placement.at) }
{
    match element(node, b"at") {
        None => Err(missing(node)),
        Some(list) => local_placement_at(list),
    }
}

/// How many quarter turns an angle is, from 0 to 3 with whole turns left out, or nothing where it
/// is no multiple of 90 degrees.
pub fn quarters_of(local_placement: LocalPlacement) -> Option<u32>
    ensures quarters { result ≡ quarters_of local_placement.angle }
    ensures below { IfSome result (λ quarter. quarter < 4) }
{
    let rest = local_placement.angle.rem_euclid(360_000_000);
    if rest % 90_000_000 == 0 {
        return Some((rest / 90_000_000) as u32);
    }
    None
}

/// The clearance of a footprint or a pad in nanometres, at most 10^12 from 0, and 0 where it is
/// missing. One below 0 is given as it stands.
///
/// It is refused as Missing at `clearance` where its number is missing, and as BadNumber at what is
/// no number.
#[tactic(auto, unfolding(crate::specs::LocalPlacements::clearance_of))]
pub fn clearance_of(node: Node<'_, '_>) -> Result<Nm, BoardError>
    ensures { result ≡ clearance_of (tree_of node.entry) }
{
    match element(node, b"clearance") {
        None => Ok(0),
        Some(list) => length_in(first_atom(list)?),
    }
}
