//! The least sizes of a project.

ghost use Rattle.std.specs.Prelude.{◌≡◌};
ghost use Rattle.net_class.specs.ProjectMembers.{length_in, length_or_none_in};
ghost use Rattle.net_class.specs.ClassesOf.{or_plain, distances_in, sizes_in, mins_in, rules_in};
ghost use Rattle.net_class.specs.ClassValues.{json_if, length_read, distances_read, sizes_read, mins_read};

use crate::error::ProjectError;
use crate::lengths::Mins;
use crate::members::{length_in, length_or_none_in, object_in};
use json_exact::Value;
use plain_types::Length;

/// Without a project.
pub(crate) const PLAIN: Mins = Mins {
    min_clearance: 0,
    min_copper_edge_clearance: 500_000,
    min_hole_clearance: 250_000,
    min_hole_to_hole: 250_000,
    min_through_hole_diameter: 300_000,
    min_track_width: 0,
    min_via_annular_width: 100_000,
    min_via_diameter: 500_000,
};

/// The least distances: from copper to copper, to the edge, from a hole to copper, from hole to hole.
#[derive(Clone, Copy, Drop)]
struct Distances {
    clearance: Length,
    edge: Length,
    hole: Length,
    holes: Length,
}

/// The least sizes.
#[derive(Clone, Copy, Drop)]
struct Sizes {
    drill: Length,
    track: Length,
    ring: Length,
    via: Length,
}

/// The length of a member, or the plain one where it is not there.
fn min_in(rules: Option<Value<'_, '_>>, name: &[u8], plain: Length) -> Result<Length, ProjectError>
    ensures { length_read result ≡ or_plain (length_in name.now (json_if rules.entry)) plain.nm }
{
    match length_in(rules, name)? {
        Some(nm) => Ok(Length { nm }),
        None => Ok(plain),
    }
}

/// The distance from the edge that a member says, or the plain one where it is not there. A negative one counts as not
/// there.
fn edge_in(rules: Option<Value<'_, '_>>, name: &[u8], plain: Length) -> Result<Length, ProjectError>
    ensures { length_read result
        ≡ or_plain (length_or_none_in name.now (json_if rules.entry)) plain.nm }
{
    match length_or_none_in(rules, name)? {
        Some(nm) => Ok(Length { nm }),
        None => Ok(plain),
    }
}

/// The least distances of the rules.
#[tactic(auto, unfolding(crate::specs::ClassesOf::distances_in))]
fn distances_in(rules: Option<Value<'_, '_>>) -> Result<Distances, ProjectError>
    ensures { distances_read result ≡ distances_in (json_if rules.entry) }
{
    let clearance = min_in(rules, b"min_clearance", Length { nm: 0 })?;
    let edge = edge_in(rules, b"min_copper_edge_clearance", Length { nm: 500_000 })?;
    let hole = min_in(rules, b"min_hole_clearance", Length { nm: 250_000 })?;
    let holes = min_in(rules, b"min_hole_to_hole", Length { nm: 250_000 })?;
    Ok(Distances {
        clearance,
        edge,
        hole,
        holes,
    })
}

/// The least sizes of the rules.
#[tactic(auto, unfolding(crate::specs::ClassesOf::sizes_in))]
fn sizes_in(rules: Option<Value<'_, '_>>) -> Result<Sizes, ProjectError>
    ensures { sizes_read result ≡ sizes_in (json_if rules.entry) }
{
    let drill = min_in(rules, b"min_through_hole_diameter", Length { nm: 300_000 })?;
    let track = min_in(rules, b"min_track_width", Length { nm: 0 })?;
    let ring = min_in(rules, b"min_via_annular_width", Length { nm: 100_000 })?;
    let via = min_in(rules, b"min_via_diameter", Length { nm: 500_000 })?;
    Ok(Sizes {
        drill,
        track,
        ring,
        via,
    })
}

/// The least distances and sizes of the rules.
#[tactic(auto, unfolding(crate::specs::ClassesOf::mins_in))]
fn mins_in(rules: Option<Value<'_, '_>>) -> Result<Mins, ProjectError>
    ensures { mins_read result ≡ mins_in (json_if rules.entry) }
{
    let distances = distances_in(rules)?;
    let sizes = sizes_in(rules)?;
    Ok(Mins {
        min_clearance: distances.clearance.nm,
        min_copper_edge_clearance: distances.edge.nm,
        min_hole_clearance: distances.hole.nm,
        min_hole_to_hole: distances.holes.nm,
        min_through_hole_diameter: sizes.drill.nm,
        min_track_width: sizes.track.nm,
        min_via_annular_width: sizes.ring.nm,
        min_via_diameter: sizes.via.nm,
    })
}

/// The least sizes in `board.design_settings.rules`.
#[tactic(auto, unfolding(crate::specs::ClassesOf::rules_in))]
pub(crate) fn rules_in(root: Option<Value<'_, '_>>) -> Result<Mins, ProjectError>
    ensures { mins_read result ≡ rules_in (json_if root.entry) }
{
    let board = object_in(root, b"board")?;
    let settings = object_in(board, b"design_settings")?;
    let rules = object_in(settings, b"rules")?;
    mins_in(rules)
}
