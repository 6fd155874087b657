// Fills of copper: combs, whose teeth have ragged sides. The second is hung over the first, so that
// its teeth stand around those of the first.

use crate::plane::{Numbers, point, seg};
use geo_poly::{poly_apart, poly_seg_apart, poly_seg_within, poly_within};
use geo_seg::{Core, Point, Poly, Seg, Shape};
use geo_shape::gap;
use std::alloc::Global;

/// From a tooth to the next.
const PITCH: i64 = 4_000_000;

/// From one corner on the side of a tooth of the first comb to the next.
const RISE: i64 = 250_000;

/// Each tooth begins at the height `root`, and has so many corners on each side; from one to the next
/// it is `rise`. The bar beyond the roots ends at `foot`.
#[derive(Clone, Copy, Drop)]
struct Comb {
    left: i64,
    foot: i64,
    root: i64,
    rise: i64,
    width: i64,
    teeth: u32,
    steps: u32,
}

/// Corners on a side of a tooth of the first comb, where it has about so many in all.
fn steps(corners: u32) -> u32 {
    corners / 100
}

fn first(corners: u32) -> Comb {
    Comb {
        left: 0,
        foot: -2_000_000,
        root: 0,
        rise: RISE,
        width: 2_000_000,
        teeth: 50,
        steps: steps(corners),
    }
}

/// A fourth as many corners, and a gap of about 400,000 on each side of a tooth.
fn second(corners: u32) -> Comb {
    let root = i64::from(steps(corners)) * RISE + 2_000_000;
    Comb {
        left: -1_600_000,
        foot: root + 2_000_000,
        root,
        rise: -4 * RISE,
        width: 1_200_000,
        teeth: 51,
        steps: steps(corners) / 4,
    }
}

/// As many corners as the first comb, and the same gap.
fn twin(corners: u32) -> Comb {
    let root = i64::from(steps(corners)) * RISE + 2_000_000;
    Comb {
        left: -1_600_000,
        foot: root + 2_000_000,
        root,
        rise: -RISE,
        width: 1_200_000,
        teeth: 51,
        steps: steps(corners),
    }
}

impl Comb {
    /// The corners of the tooth that begins at x, up its one side and down the other.
    fn draw_tooth(self, x: i64, corners: &mut Vec<Point>) -> anyhow::Result<()> {
        let steps = i64::from(self.steps);
        for k in 0..2 * steps {
            let dent = (k & 3) * 40_000;
            let (x, level) = if k < steps {
                (x.wrapping_add(dent), k)
            } else {
                (
                    x.wrapping_add(self.width).wrapping_sub(dent),
                    2 * steps - 1 - k,
                )
            };
            let y = self.root.wrapping_add(level.wrapping_mul(self.rise));
            corners.push(point(x, y))?;
        }
        Ok(())
    }

    fn polygon(self, alloc: Global) -> anyhow::Result<Poly> {
        let mut corners = Vec::new(alloc);
        let mut x = self.left;
        for _ in 0..self.teeth {
            self.draw_tooth(x, &mut corners)?;
            x = x.wrapping_add(PITCH);
        }
        corners.push(point(x, self.root))?;
        corners.push(point(x, self.foot))?;
        corners.push(point(self.left, self.foot))?;
        Ok(Poly::indexed(alloc, corners)?)
    }
}

/// A via or a track somewhere in or about the first comb: five vias, then three tracks.
fn drawn(k: u32, numbers: &mut Numbers, steps: u32) -> Seg {
    let x = numbers.draw().wrapping_mul(13).wrapping_sub(8_000_000);
    let y = numbers.draw().wrapping_mul(i64::from(steps)) >> 6;
    let u = numbers.draw() & 0x7_ffff;
    let v = numbers.draw() >> 1;
    if k & 7 < 5 {
        seg(x, y, 0, 0)
    } else {
        seg(x, y, u, v)
    }
}

fn answers(fill: &Poly, s: Seg, k: u32) -> u64 {
    let d = 400_000 + i64::from(k & 0xff);
    u64::from(poly_seg_apart(fill, s, d)) | u64::from(poly_seg_within(fill, s, d)) << 1
}

/// How many answers are yes, those within the distance twice, for a fill of about so many corners and
/// a tenth as many vias and tracks.
pub fn fill(alloc: Global, corners: u32) -> anyhow::Result<u64> {
    let fill = first(corners).polygon(alloc)?;
    let mut numbers = Numbers { state: 7 };
    let mut count: u64 = 0;
    for k in 0..corners / 10 {
        let s = drawn(k, &mut numbers, steps(corners));
        count = count.wrapping_add(answers(&fill, s, k));
    }
    Ok(count)
}

/// A via inside the box of the first comb: of eight one anywhere, the others between its teeth.
fn via(k: u32, numbers: &mut Numbers, steps: u32) -> Seg {
    let tooth = numbers.draw() % 50;
    let along = numbers.draw() & 0x1f_ffff;
    let y = numbers.draw().wrapping_mul(i64::from(steps)) >> 6;
    let x = tooth.wrapping_mul(PITCH).wrapping_add(along);
    if k & 7 == 0 {
        seg(x, y, 0, 0)
    } else {
        seg(x.wrapping_add(2_000_000), y, 0, 0)
    }
}

/// Counts answers for vias near a fill: three vias for each four corners of the fill.
pub fn vias(alloc: Global, corners: u32) -> anyhow::Result<u64> {
    let fill = first(corners).polygon(alloc)?;
    let mut numbers = Numbers { state: 7 };
    let mut count: u64 = 0;
    for k in 0..corners / 4 * 3 {
        let s = via(k, &mut numbers, steps(corners));
        count = count.wrapping_add(answers(&fill, s, k));
    }
    Ok(count)
}

/// The sum of the gaps of vias to the fill, up to 0.4 mm, in nanometres: one via where the fill has four corners.
pub fn gaps(alloc: Global, corners: u32) -> anyhow::Result<u64> {
    let fill = Shape {
        core: Core::Area(first(corners).polygon(alloc)?),
        radius: 0,
    };
    let mut numbers = Numbers { state: 7 };
    let mut sum: u64 = 0;
    for k in 0..corners / 4 {
        let disc = Shape {
            core: Core::Line(via(k, &mut numbers, steps(corners))),
            radius: 100_000,
        };
        sum = sum.wrapping_add(gap(&disc, &fill, 400_000) as u64);
    }
    Ok(sum)
}

/// Counts answers for two fills at many distances, where each fill comes first in the question and then second.
fn both(a: &Poly, b: &Poly) -> u64 {
    let mut count: u64 = 0;
    for round in 0..16_u32 {
        let d = 399_000 + 100 * i64::from(round);
        count = count.wrapping_add(u64::from(poly_apart(a, b, d)));
        count = count.wrapping_add(u64::from(poly_apart(b, a, d)));
        count = count.wrapping_add(u64::from(poly_within(a, b, d)) << 1);
        count = count.wrapping_add(u64::from(poly_within(b, a, d)) << 1);
    }
    count
}

pub fn fills(alloc: Global, corners: u32) -> anyhow::Result<u64> {
    let a = first(corners).polygon(alloc)?;
    let b = second(corners).polygon(alloc)?;
    Ok(both(&a, &b))
}

/// Two fills of about so many corners each.
pub fn combs(alloc: Global, corners: u32) -> anyhow::Result<u64> {
    let a = first(corners).polygon(alloc)?;
    let b = twin(corners).polygon(alloc)?;
    Ok(both(&a, &b))
}
