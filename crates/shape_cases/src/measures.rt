//! Calls on points, segments, polygons and shapes that answer numbers. They are written as for calls that ask whether
//! something holds.

use crate::outlines::add_corners;
use crate::shapes::{distance, one_point, polygon, segment, shape};
use case_lines::{Fault, crosses_threads, parts_of, told};
use geo_poly::{poly_gap, poly_seg_gap};
use geo_seg::{Bounds, Shape, seg_gap};
use std::alloc::Global;

fn gap_of(alloc: Global, name: &str, a: &[i64], b: &[i64], most: &[i64]) -> Result<i64, Fault> {
    if name == "gap" {
        let most = distance(most, 500_000_000)?;
        return Ok(geo_shape::gap(&shape(alloc, a)?, &shape(alloc, b)?, most));
    }
    let most = distance(most, 2_000_000_000)?;
    Ok(match name {
        "seg_gap" => seg_gap(segment(a)?, segment(b)?, most),
        "poly_seg_gap" => poly_seg_gap(&polygon(alloc, a)?, segment(b)?, most),
        "poly_gap" => poly_gap(&polygon(alloc, a)?, &polygon(alloc, b)?, most),
        _ => return Err(Fault::UnknownCall),
    })
}

/// The four sides of a box, as a case writes them.
fn sides(alloc: Global, bounds: Bounds) -> Result<Vec<u8>, Fault> {
    let Bounds {
        left,
        top,
        right,
        bottom,
    } = bounds;
    Ok(format!(in alloc; "{left} {top} {right} {bottom}")?.into_bytes())
}

/// The box that is kept round a run of the edges of a polygon, from the first edge on and so many.
fn run_box(alloc: Global, poly: &[i64], run: &[i64]) -> Result<Vec<u8>, Fault> {
    let [low, size] = run else {
        return Err(Fault::BadNumber);
    };
    let low = low.unsigned_abs() as usize;
    let size = size.unsigned_abs() as usize;
    match polygon(alloc, poly)?.run_box(low, size) {
        Some(bounds) => sides(alloc, bounds),
        None => Ok(b"none".to_vec(alloc)?),
    }
}

/// The corners that a polygon gives back.
fn corners(alloc: Global, part: &[i64]) -> Result<Vec<u8>, Fault> {
    let corners = polygon(alloc, part)?.into_corners();
    let mut out = Vec::new(alloc);
    add_corners(alloc, &mut out, &corners)?;
    Ok(out)
}

/// The sides of the least box around a shape.
fn bounds(alloc: Global, shape: &Shape) -> Result<Vec<u8>, Fault> {
    crosses_threads(shape);
    sides(alloc, shape.bounds())
}

fn of_one(alloc: Global, name: &str, a: &[i64]) -> Result<Vec<u8>, Fault> {
    match name {
        "bounds" => bounds(alloc, &shape(alloc, a)?),
        "corners" => corners(alloc, a),
        _ => Err(Fault::UnknownCall),
    }
}

fn of_two(alloc: Global, name: &str, a: &[i64], b: &[i64]) -> Result<Vec<u8>, Fault> {
    match name {
        "union" => {
            let union = shape(alloc, a)?.bounds().union(shape(alloc, b)?.bounds());
            sides(alloc, union)
        }
        "side_of" => {
            let side = segment(a)?.side_of(one_point(b)?);
            told(alloc, &side)
        }
        "run_box" => run_box(alloc, a, b),
        _ => Err(Fault::UnknownCall),
    }
}

/// The answer of the call of this name.
pub fn answer(alloc: Global, name: &str, written: &str) -> Result<Vec<u8>, Fault> {
    let parts = parts_of(alloc, written)?;
    match parts.as_slice() {
        [a] => of_one(alloc, name, a),
        [a, b] => of_two(alloc, name, a, b),
        [a, b, most] => told(alloc, &gap_of(alloc, name, a, b, most)?),
        _ => Err(Fault::UnknownCall),
    }
}
