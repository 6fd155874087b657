// Points and segments of the plane, and numbers that are drawn for them.

ghost use Rattle.std.specs.Prelude.{◌≤◌, unsigned_abs};

use geo_seg::{Point, Seg};

/// A linear congruential generator, whose high bits serve.
#[derive(Drop)]
pub struct Numbers {
    pub state: u64,
}

impl Numbers {
    /// A number from 0 to 2^24 - 1.
    pub fn draw(&mut self) -> i64 {
        self.state = self
            .state
            .wrapping_mul(6_364_136_223_846_793_005)
            .wrapping_add(1);
        (self.state >> 40) as i64
    }
}

pub fn point(x: i64, y: i64) -> Point {
    Point {
        x: within_plane(x),
        y: within_plane(y),
    }
}

fn within_plane(x: i64) -> i64
    ensures { unsigned_abs result ≤ 1000000000 }
{
    if x > 1_000_000_000 {
        1_000_000_000
    } else if x < -1_000_000_000 {
        -1_000_000_000
    } else {
        x
    }
}

/// The segment from (x, y) to (x + u, y + v).
pub fn seg(x: i64, y: i64, u: i64, v: i64) -> Seg {
    Seg {
        a: point(x, y),
        b: point(x.wrapping_add(u), y.wrapping_add(v)),
    }
}
