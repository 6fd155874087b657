//! Sets of copper layers.

/// A set of copper layers, a bit a layer. Bit 0 is F.Cu, bits 1 to 30 are In1.Cu to In30.Cu, and bit 31 is B.Cu, as
/// the layers lie in the board from front to back.
#[derive(Clone, Copy, Debug, PartialEq, Eq, Drop)]
pub struct LayerSet {
    pub bits: u32,
}

impl LayerSet {
    ghost use Rattle.std.specs.Prelude.{◌≡◌, ◌<◌, ◌≤◌, ◌↔◌, ◌⊎◌, ℕ, min, max, IsTrue};
    ghost use Rattle.copper_layers.specs.declared.set.LayerSet.{LayerSet};
    ghost use Rattle.copper_layers.specs.Layers.{has_layer, is_within, single_layer, union_of, layers_between};

    /// The set of one layer.
    pub fn of(layer: u32) -> LayerSet
        requires { layer < 32 }
        ensures value { result ≡ single_layer layer }
        ensures within { (set : LayerSet) → (IsTrue (is_within result set)
            ↔ IsTrue (has_layer set layer)) }
    {
        LayerSet { bits: 1 << layer }
    }

    /// Whether the layer with this number is in the set.
    pub fn has(self, layer: u32) -> bool
        requires { layer < 32 }
        ensures { result ≡ has_layer self layer }
    {
        (self.bits >> layer) & 1 == 1
    }

    /// Whether `other` has all layers of this set.
    pub fn is_within(self, other: LayerSet) -> bool
        ensures value { result ≡ is_within self other }
        ensures each { IsTrue result ↔ ((layer : ℕ) → IsTrue (has_layer self layer)
            → IsTrue (has_layer other layer)) }
    {
        self.bits & other.bits == self.bits
    }

    /// The layers of either set.
    pub fn union(self, other: LayerSet) -> LayerSet
        ensures value { result ≡ union_of self other }
        ensures each { (layer : ℕ) → (IsTrue (has_layer result layer)
            ↔ (IsTrue (has_layer self layer) ⊎ IsTrue (has_layer other layer))) }
    {
        LayerSet {
            bits: self.bits | other.bits,
        }
    }

    /// The layers of this set from the one to the other, both among them, whichever is above.
    pub fn between(self, a: u32, b: u32) -> LayerSet
        requires first { a < 32 }
        requires second { b < 32 }
        ensures value { result ≡ layers_between self a b }
        ensures within { IsTrue (is_within result self) }
        ensures each { (layer : ℕ) → (IsTrue (has_layer result layer)
            ↔ (IsTrue (has_layer self layer) × (min a b ≤ layer) × (layer ≤ max a b))) }
    {
        // all layers up to the greater number, less those below the lesser
        let up_to = u32::MAX >> (31 - a.max(b));
        let below = (1 << a.min(b)) - 1;
        LayerSet {
            bits: self.bits & (up_to - below),
        }
    }
}
