//! Calls on points, segments, polygons and shapes, in half nanometres.
//!
//! `|` stands between the parts of a call, and spaces between the numbers of a part. A point has two, a segment four,
//! a polygon six and more; a shape has its radius and then the numbers of a point, a segment or a polygon.

ghost use Rattle.std.specs.Prelude.{◌≤ℤ◌, pos, IfOk};

use case_lines::{Fault, parts_of, told};
use geo_poly::{holds, poly_apart, poly_seg_apart, poly_seg_within, poly_within};
use geo_seg::{
    Core, Point, Poly, Seg, Shape, point_apart, point_within, seg_apart, seg_meet, seg_within,
};
use geo_shape::{apart, meet};
use std::alloc::Global;

fn point(x: i64, y: i64) -> Result<Point, Fault> {
    if x.unsigned_abs() > 1_000_000_000 || y.unsigned_abs() > 1_000_000_000 {
        return Err(Fault::BadNumber);
    }
    Ok(Point { x, y })
}

pub fn one_point(part: &[i64]) -> Result<Point, Fault> {
    match part {
        [x, y] => point(*x, *y),
        _ => Err(Fault::BadNumber),
    }
}

pub fn segment(part: &[i64]) -> Result<Seg, Fault> {
    match part {
        [ax, ay, bx, by] => Ok(Seg {
            a: point(*ax, *ay)?,
            b: point(*bx, *by)?,
        }),
        _ => Err(Fault::BadNumber),
    }
}

pub fn polygon(alloc: Global, part: &[i64]) -> Result<Poly, Fault> {
    let mut corners = Vec::new(alloc);
    for corner in part.chunks(2) {
        corners.push(one_point(corner)?)?;
    }
    if corners.len() < 3 {
        return Err(Fault::BadNumber);
    }
    Ok(Poly::indexed(alloc, corners)?)
}

pub fn shape(alloc: Global, part: &[i64]) -> Result<Shape, Fault> {
    let [radius, core @ ..] = part else {
        return Err(Fault::BadNumber);
    };
    let radius = *radius;
    if radius < 0 || 500_000_000 < radius {
        return Err(Fault::BadNumber);
    }
    let core = match core.len() {
        2 => {
            let at = one_point(core)?;
            Core::Line(Seg { a: at, b: at })
        }
        4 => Core::Line(segment(core)?),
        _ => Core::Area(polygon(alloc, core)?),
    };
    Ok(Shape { core, radius })
}

/// A distance from 0 to `most`.
pub fn distance(part: &[i64], most: i64) -> Result<i64, Fault>
    ensures from { IfOk result (λ d. pos 0 ≤ℤ d) }
    ensures to { IfOk result (λ d. d ≤ℤ most) }
{
    match part {
        [d] => {
            let d = *d;
            if d < 0 || most < d {
                return Err(Fault::BadNumber);
            }
            Ok(d)
        }
        _ => Err(Fault::BadNumber),
    }
}

/// What a call answers that is asked whether something holds.
fn test(alloc: Global, name: &str, parts: &[Vec<i64>]) -> Result<bool, Fault> {
    match parts {
        [a, b] => test_two(alloc, name, a, b),
        [a, b, d] => test_at(alloc, name, a, b, d),
        _ => Err(Fault::UnknownCall),
    }
}

fn test_two(alloc: Global, name: &str, a: &[i64], b: &[i64]) -> Result<bool, Fault> {
    Ok(match name {
        "seg_meet" => seg_meet(segment(a)?, segment(b)?),
        "holds" => holds(&polygon(alloc, a)?, one_point(b)?),
        "meet" => meet(&shape(alloc, a)?, &shape(alloc, b)?),
        _ => return Err(Fault::UnknownCall),
    })
}

fn test_at(alloc: Global, name: &str, a: &[i64], b: &[i64], d: &[i64]) -> Result<bool, Fault> {
    match name {
        "apart" => {
            let c = distance(d, 1_000_000_000)?;
            Ok(apart(&shape(alloc, a)?, &shape(alloc, b)?, c))
        }
        "is_clear" => {
            let d = distance(d, 2_000_000_000)?;
            let other = shape(alloc, b)?.bounds();
            Ok(shape(alloc, a)?.bounds().is_clear(other, d))
        }
        "poly_seg_apart" | "poly_seg_within" => {
            area_and_line(name, &polygon(alloc, a)?, segment(b)?, d)
        }
        "poly_apart" | "poly_within" => areas(name, &polygon(alloc, a)?, &polygon(alloc, b)?, d),
        _ => lines(name, a, b, d),
    }
}

fn area_and_line(name: &str, a: &Poly, b: Seg, d: &[i64]) -> Result<bool, Fault> {
    let d = distance(d, 2_000_000_000)?;
    Ok(if name == "poly_seg_apart" {
        poly_seg_apart(a, b, d)
    } else {
        poly_seg_within(a, b, d)
    })
}

/// Whether two polygons are apart, or within a distance of each other.
fn areas(name: &str, a: &Poly, b: &Poly, d: &[i64]) -> Result<bool, Fault> {
    let d = distance(d, 2_000_000_000)?;
    Ok(if name == "poly_apart" {
        poly_apart(a, b, d)
    } else {
        poly_within(a, b, d)
    })
}

fn lines(name: &str, a: &[i64], b: &[i64], d: &[i64]) -> Result<bool, Fault> {
    let b = segment(b)?;
    let d = distance(d, 2_000_000_000)?;
    Ok(match name {
        "point_apart" => point_apart(one_point(a)?, b, d),
        "point_within" => point_within(one_point(a)?, b, d),
        "seg_apart" => seg_apart(segment(a)?, b, d),
        "seg_within" => seg_within(segment(a)?, b, d),
        _ => return Err(Fault::UnknownCall),
    })
}

/// The answer of the call of this name.
pub fn answer(alloc: Global, name: &str, written: &str) -> Result<Vec<u8>, Fault> {
    let parts = parts_of(alloc, written)?;
    told(alloc, &test(alloc, name, &parts)?)
}
