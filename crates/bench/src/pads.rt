// Pads: small polygons close to each other, and a via beside each.

use crate::plane::{Numbers, point, seg};
use geo_poly::{poly_apart, poly_seg_apart, poly_seg_within, poly_within};
use geo_seg::{Poly, Seg};
use std::alloc::Global;

const PADS: usize = 1024;

#[derive(Drop)]
struct Pad {
    area: Poly,
    via: Seg,
}

fn drawn(alloc: Global, numbers: &mut Numbers) -> anyhow::Result<Pad> {
    let x = numbers.draw() & 0xf_ffff;
    let y = numbers.draw() & 0xf_ffff;
    let u = numbers.draw() & 0xf_ffff;
    let v = numbers.draw() & 0xf_ffff;
    let corners = [
        point(x, y),
        point(x.wrapping_add(600_000), y.wrapping_add(100_000)),
        point(x.wrapping_add(500_000), y.wrapping_add(900_000)),
        point(x.wrapping_sub(100_000), y.wrapping_add(800_000)),
    ];
    Ok(Pad {
        area: Poly::of(Vec::from_array(alloc, corners)?),
        via: seg(u, v, 0, 0),
    })
}

fn via_answers(pad: &Pad, round: u32) -> u64 {
    let d = 400_000 + i64::from(round & 0xff);
    u64::from(poly_seg_apart(&pad.area, pad.via, d))
        | u64::from(poly_seg_within(&pad.area, pad.via, d)) << 1
}

fn area_answers(a: &Poly, b: &Poly, round: u32) -> u64 {
    let d = 400_000 + i64::from(round & 0xff);
    u64::from(poly_apart(a, b, d)) | u64::from(poly_within(a, b, d)) << 1
}

fn answers(pads: &[Pad], rounds: u32) -> u64 {
    let mut count: u64 = 0;
    for round in 0..rounds {
        for pair in pads.windows(2) {
            count = count.wrapping_add(via_answers(&pair[0], round));
            count = count.wrapping_add(area_answers(&pair[0].area, &pair[1].area, round));
        }
    }
    count
}

/// How many answers are yes, and those within the distance twice.
pub fn count(alloc: Global, rounds: u32) -> anyhow::Result<u64> {
    let mut numbers = Numbers { state: 7 };
    let mut pads = Vec::with_capacity(alloc, PADS)?;
    for _ in 0..PADS {
        pads.push(drawn(alloc, &mut numbers)?)?;
    }
    Ok(answers(&pads, rounds))
}
