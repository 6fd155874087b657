//! Copper that touches, on any layer.

ghost use Rattle.std.specs.Prelude.{IsTrue, ◌↔◌};
ghost use Rattle.std.specs.List.{Any};
ghost use Rattle.one_item.specs.CopperPairs.{PartsMeet, CopperMeets};

use crate::layers::share_layer;
use board_items::{Item, Part};

/// Whether the two lie on a layer together and meet there. It takes no memory.
pub fn touches(part: &Part, other: &Part) -> bool
    ensures { IsTrue result ↔ PartsMeet part.now other.now }
{
    share_layer(part.layers, other.layers) && geo_shape::meet(&part.shape, &other.shape)
}

/// Whether the part touches one of the others.
fn touches_some(part: &Part, others: &[Part]) -> bool
    ensures { IsTrue result ↔ Any (λ other. PartsMeet part.now other) others.now }
{
    for other in others {
        if touches(part, other) {
            return true;
        }
    }
    false
}

/// Whether the copper of the two items touches or overlaps on some layer. Nets are not looked at. It takes no memory.
pub fn copper_meets(a: &Item, b: &Item) -> bool
    ensures { IsTrue result ↔ CopperMeets a.now b.now }
{
    for part in a.copper.as_slice() {
        if touches_some(part, b.copper.as_slice()) {
            return true;
        }
    }
    false
}
