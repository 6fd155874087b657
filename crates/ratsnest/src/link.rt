//! Links, and the order of links of one list of anchors.

ghost use Rattle.std.proofs.Common.{rules};
ghost use Rattle.std.specs.Cmp.{partial_order_from_own_ties};
ghost use Rattle.std.specs.Cmp.Rules.{comparing};
ghost use Rattle.std.specs.Ordering.{nat_cmp, on, then_cmp, as_partial_cmp};

use std::cmp::Ordering;

/// A pair of anchors, by their places in the list of anchors, the lower one first, and the square of their distance in
/// nanometres.
#[derive(Clone, Copy, Debug, PartialEq, Eq, Drop)]
pub struct Link {
    pub first: u32,
    pub second: u32,
    pub square: u64,
}

// By square, then by the places. Anchors rise by id and number, so that is the order of links.
impl Ord for Link {
    ghost cmp = { then_cmp (on (λ l. l.square) nat_cmp)
        (then_cmp (on (λ l. l.first) nat_cmp) (on (λ l. l.second) nat_cmp)) };

    ghost total = { Prim.search (comparing, rules) };

    ghost matches_partial_cmp = { Prim.search (comparing, rules) };

    ghost matches_eq = { Prim.search (comparing, rules) };

    fn cmp(&self, other: &Link) -> Ordering {
        self.square.cmp(&other.square).then(
            self.first
                .cmp(&other.first)
                .then(self.second.cmp(&other.second)),
        )
    }
}

impl PartialOrd for Link {
    ghost partial_cmp = { as_partial_cmp (then_cmp (on (λ l. l.square) nat_cmp)
        (then_cmp (on (λ l. l.first) nat_cmp) (on (λ l. l.second) nat_cmp))) };

    ghost laws = { partial_order_from_own_ties (Prim.search (comparing, rules))
        (Prim.search (comparing, rules)) };

    fn partial_cmp(&self, other: &Link) -> Option<Ordering> {
        Some(self.cmp(other))
    }
}
