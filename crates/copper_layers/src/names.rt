//! Copper layers by their names.

ghost use Rattle.std.specs.Prelude.{◌≡◌, ◌<◌, Some, slice_get};
ghost use Rattle.copper_layers.specs.Layers.{layer_names};

/// The name of the copper layer with this number, as board files write it.
#[tactic(auto, unfolding(crate::specs::Layers::layer_names))]
pub fn layer_name(layer: u32) -> &'static [u8]
    requires { layer < 32 }
    ensures { slice_get layer_names layer ≡ Some result.now }
{
    match layer {
        0 => b"F.Cu",
        1 => b"In1.Cu",
        2 => b"In2.Cu",
        3 => b"In3.Cu",
        4 => b"In4.Cu",
        5 => b"In5.Cu",
        6 => b"In6.Cu",
        7 => b"In7.Cu",
        8 => b"In8.Cu",
        9 => b"In9.Cu",
        10 => b"In10.Cu",
        11 => b"In11.Cu",
        12 => b"In12.Cu",
        13 => b"In13.Cu",
        14 => b"In14.Cu",
        15 => b"In15.Cu",
        16 => b"In16.Cu",
        17 => b"In17.Cu",
        18 => b"In18.Cu",
        19 => b"In19.Cu",
        20 => b"In20.Cu",
        21 => b"In21.Cu",
        22 => b"In22.Cu",
        23 => b"In23.Cu",
        24 => b"In24.Cu",
        25 => b"In25.Cu",
        26 => b"In26.Cu",
        27 => b"In27.Cu",
        28 => b"In28.Cu",
        29 => b"In29.Cu",
        30 => b"In30.Cu",
        _ => b"B.Cu",
    }
}
