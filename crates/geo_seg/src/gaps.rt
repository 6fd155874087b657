// The greatest distance at which segments are apart.

ghost use Rattle.std.specs.Prelude.{ℤ, ◌≤◌, ◌<◌, ◌≤ℤ◌, pos, IsTrue, ◌↔◌};
ghost use Rattle.geo_seg.specs.Points.{IsOn};
ghost use Rattle.geo_seg.specs.Nearer.{IsDistance, AreApart};
ghost use Rattle.geo_seg.specs.Distances.{IsGap};

use crate::guesses::guess;
use crate::near::{boxes_apart, seg_apart};
use crate::points::Seg;

/// Whether the segments are apart at d.
fn keeps(a: Seg, b: Seg, d: i64) -> bool
    requires { IsDistance d }
    ensures apart { IsTrue result ↔ AreApart (IsOn a) (IsOn b) d }
    // What keeps a greater distance keeps this one.
    ensures greater { (e : ℤ) → d ≤ℤ e → AreApart (IsOn a) (IsOn b) e → IsTrue result }
{
    seg_apart(a, b, d)
}

/// What is tried next, above `low` and up to `high`: what is nearest to the guess, and after some tries the middle.
fn next_of(low: u32, high: u32, guess: u32, tries: u32) -> u32
    requires { low < high }
    ensures above { low < result }
    ensures within { result ≤ high }
{
    if tries == 0 {
        low + 1 + (high - low - 1) / 2
    } else if guess <= low {
        low + 1
    } else if high < guess {
        high
    } else {
        guess
    }
}

/// `seg_gap` by halves: `low` is kept, and nothing above `high` is. A good guess spares most of them.
fn greatest(a: Seg, b: Seg, most: u32) -> u32
    requires { most ≤ 2000000000 }
    ensures { IsGap (λ d. AreApart (IsOn a) (IsOn b) d) (pos most) (pos result) }
{
    let mut low = 0;
    let mut high = most;
    let guess = guess(a, b);
    let mut tries: u32 = 4;
    'halves: while low < high {
        let middle = next_of(low, high, guess, tries);
        tries = tries.saturating_sub(1);
        if keeps(a, b, i64::from(middle)) {
            low = middle;
        } else {
            high = middle - 1;
        }
    }
    low
}

/// The greatest whole number from 1 to `most` at which `seg_apart` answers true, or 0 where there is
/// none. `most` is from 0 to 2,000,000,000 half nanometres.
pub fn seg_gap(a: Seg, b: Seg, most: i64) -> i64
    requires { IsDistance most }
    ensures { IsGap (λ d. AreApart (IsOn a) (IsOn b) d) most result }
{
    if boxes_apart(a, b, most) {
        most
    } else {
        i64::from(greatest(a, b, most as u32))
    }
}
