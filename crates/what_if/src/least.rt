//! The least of counts.

ghost use Rattle.std.specs.Prelude.{◌≡◌, ◌++◌, ◌∷◌, [], ◌≤◌, ℕ, List, Option, length};
ghost use Rattle.what_if.specs.Trials.{IsLeast};
ghost use Rattle.what_if.specs.Fewest.{IsFewest};

/// A count, and its place among all of them.
#[derive(Clone, Copy, Drop)]
pub(crate) struct Fewest {
    pub(crate) place: u32,
    pub(crate) count: u64,
}

/// The first of the least counts once there is one more, at the place behind them.
fn fewer(fewest: Option<Fewest>, place: u32, count: Option<u64>) -> Option<Fewest>
    ensures { (before : List (Option ℕ)) → length before ≡ place → IsFewest before fewest
        → IsFewest (before ++ count ∷ []) result }
{
    let Some(count) = count else {
        return fewest;
    };
    match fewest {
        Some(least) if least.count <= count => Some(least),
        _ => Some(Fewest { place, count }),
    }
}

/// The first place of the least count.
pub(crate) fn first_least(counts: &[Option<u64>]) -> Option<u32>
    requires { length counts.now ≤ 4294967296 }
    ensures { IsLeast counts.now result }
{
    let mut fewest = None;
    for place in 0..counts.len() {
        fewest = fewer(fewest, place as u32, counts[place]);
    }
    match fewest {
        Some(least) => Some(least.place),
        None => None,
    }
}
