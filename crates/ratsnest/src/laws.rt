//! Laws of nests. The functions do nothing: each clause holds for all anchors and links.

ghost use Rattle.std.specs.Prelude.{◌≡◌, ◌<◌, ◌^◌, List, length};
ghost use Rattle.ratsnest.specs.declared.anchor.Anchor.{Anchor};
ghost use Rattle.ratsnest.specs.declared.link.Link.{Link};
ghost use Rattle.ratsnest.specs.NestOf.{AnchorsRise, IsNest, IsLeast};

/// Anchors have one nest.
pub fn one_nest()
    ensures { (anchors : List Anchor) → AnchorsRise anchors → length anchors < 2 ^ 32
        → (a b : List Link) → IsNest anchors a → IsNest anchors b → a ≡ b }
{}

/// A nest joins all groups at the least sum of squares, whoever made it.
pub fn nests_are_least()
    ensures { (anchors : List Anchor) → AnchorsRise anchors → length anchors < 2 ^ 32
        → (links : List Link) → IsNest anchors links → IsLeast anchors links }
{}
