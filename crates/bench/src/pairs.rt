// Pairs of segments that lie far from each other, side by side, and across each other.

use crate::plane::{Numbers, seg};
use geo_seg::{Seg, seg_apart, seg_within};
use std::alloc::Global;

const PAIRS: usize = 1024;

#[derive(Clone, Copy, Drop)]
struct Pair {
    first: Seg,
    second: Seg,
}

#[derive(Clone, Copy, Drop)]
pub enum PairKind {
    Far,
    Near,
    Crossing,
}

impl PairKind {
    /// The kind that is called so.
    pub fn named(name: &str) -> Option<PairKind> {
        match name {
            "far" => Some(PairKind::Far),
            "near" => Some(PairKind::Near),
            "crossing" => Some(PairKind::Crossing),
            _ => None,
        }
    }
}

fn drawn(kind: PairKind, numbers: &mut Numbers) -> Pair {
    let x = numbers.draw();
    let y = numbers.draw();
    let u = numbers.draw().wrapping_add(2_000_000);
    let v = numbers.draw().wrapping_add(2_000_000);
    let shift = numbers.draw() & 0xf_ffff;
    match kind {
        PairKind::Far => Pair {
            first: seg(x, y, u, v),
            second: seg(x.wrapping_add(100_000_000), y, v, u),
        },
        PairKind::Near => Pair {
            first: seg(x, y, u, v),
            second: seg(x.wrapping_add(shift), y.wrapping_sub(shift), u, v),
        },
        PairKind::Crossing => Pair {
            first: seg(x, y, u, v),
            second: seg(
                x,
                y.wrapping_add(v),
                u.wrapping_add(shift),
                v.wrapping_neg(),
            ),
        },
    }
}

fn answers(pairs: &[Pair], rounds: u32) -> u64 {
    let mut count: u64 = 0;
    for round in 0..rounds {
        let d = 400_000 + i64::from(round & 0xff);
        for p in pairs {
            count = count.wrapping_add(u64::from(seg_apart(p.first, p.second, d)));
            count = count.wrapping_add(u64::from(seg_within(p.first, p.second, d)) << 1);
        }
    }
    count
}

/// How many answers are yes, and those within the distance twice.
pub fn count(alloc: Global, kind: PairKind, rounds: u32) -> anyhow::Result<u64> {
    let mut numbers = Numbers { state: 7 };
    let mut pairs = Vec::with_capacity(alloc, PAIRS)?;
    for _ in 0..PAIRS {
        pairs.push(drawn(kind, &mut numbers))?;
    }
    Ok(answers(&pairs, rounds))
}
