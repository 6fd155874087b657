//! Calls on lines, as segments are written.

use crate::shapes::segment;
use case_lines::{Fault, add, parts_of};
use courtyard::chain;
use geo_seg::{Point, Poly, Seg};
use std::alloc::Global;

/// The most lines that are chained.
const MOST: usize = 1_000_000;

fn lines_of(alloc: Global, written: &str) -> Result<Vec<Seg>, Fault> {
    let mut lines = Vec::new(alloc);
    for part in &parts_of(alloc, written)? {
        if !part.is_empty() {
            lines.push(segment(part)?)?;
        }
    }
    Ok(lines)
}

/// Adds the corners of a polygon.
pub fn add_corners(alloc: Global, out: &mut Vec<u8>, corners: &[Point]) -> Result<(), Fault> {
    for corner in corners {
        let Point { x, y } = *corner;
        let space: &[u8] = if out.is_empty() { b"" } else { b" " };
        add(out, space)?;
        add(out, format!(in alloc; "{x} {y}")?.as_bytes())?;
    }
    Ok(())
}

/// The polygons, with `|` between them.
fn shown(alloc: Global, polys: &[Poly]) -> Result<Vec<u8>, Fault> {
    if polys.is_empty() {
        return Ok(b"none".to_vec(alloc)?);
    }
    let mut out = Vec::new(alloc);
    for poly in polys {
        let bar: &[u8] = if out.is_empty() { b"" } else { b" |" };
        add(&mut out, bar)?;
        add_corners(alloc, &mut out, poly.corners())?;
    }
    Ok(out)
}

/// The closed outlines of the lines.
pub fn chained(alloc: Global, written: &str) -> Result<Vec<u8>, Fault> {
    let lines = lines_of(alloc, written)?;
    if lines.len() > MOST {
        return Err(Fault::TooLong);
    }
    match chain(alloc, &lines) {
        Ok(polys) => shown(alloc, &polys),
        Err(error) => {
            let number = error.code();
            Ok(format!(in alloc; "{error} ({number})")?.into_bytes())
        }
    }
}
