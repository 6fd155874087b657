// About how far segments are from each other. Nothing is sure here: a guess only says where to look first.

use crate::near::crosses;
use crate::points::{Point, Seg};
use crate::vectors::{between, cross, dot};
use std::num::{nearest_i64_to_f64, saturating_f64_to_u32};

/// About the squared distance of a point and a segment.
fn squared(p: Point, s: Seg) -> f64 {
    let way = between(s.a, s.b);
    let from_start = between(s.a, p);
    let along = dot(way, from_start);
    let length = dot(way, way);
    if along <= 0 {
        return nearest_i64_to_f64(dot(from_start, from_start));
    }
    if along >= length {
        let from_end = between(s.b, p);
        return nearest_i64_to_f64(dot(from_end, from_end));
    }
    let across = nearest_i64_to_f64(cross(way, from_start));
    across * across / nearest_i64_to_f64(length)
}

fn lesser(a: f64, b: f64) -> f64 {
    if b < a { b } else { a }
}

fn from_ends(ends: Seg, s: Seg) -> f64 {
    lesser(squared(ends.a, s), squared(ends.b, s))
}

/// About the distance of the segments, in half nanometres: that of an end and the other segment.
pub(crate) fn guess(a: Seg, b: Seg) -> u32 {
    if crosses(a, b) {
        return 0;
    }
    let least = lesser(from_ends(a, b), from_ends(b, a));
    saturating_f64_to_u32(least.sqrt())
}
