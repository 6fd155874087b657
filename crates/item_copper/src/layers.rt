//! Layers that two parts share.

ghost use Rattle.std.specs.Prelude.{ℕ, IsTrue, ◌↔◌};
ghost use Rattle.copper_layers.specs.Layers.{has_layer};

use copper_layers::LayerSet;

/// Whether some layer is in both sets. It takes no memory.
pub fn share_layer(a: LayerSet, b: LayerSet) -> bool
    ensures { IsTrue result ↔ ((layer : ℕ) × IsTrue (has_layer a layer)
        × IsTrue (has_layer b layer)) }
{
    a.bits & b.bits != 0
}
