//! The layers of rows.

ghost use Rattle.std.specs.Prelude.{◌≡◌};
ghost use Rattle.kind_subjects.specs.TriedLayers.{asked_layer};

/// The layer of a row.
#[derive(Clone, Copy, Debug, Drop, PartialEq, Eq)]
pub enum RowLayer {
    /// A copper layer by its number in stack order, from 0 to 31.
    Copper(u32),
    /// F.CrtYd.
    FrontYard,
    /// B.CrtYd.
    BackYard,
    /// None.
    Nowhere,
}

impl RowLayer {
    /// The number of the copper layer for which rules are asked: a courtyard counts as F.Cu or B.Cu.
    pub fn asked(self) -> Option<u32>
        ensures { result ≡ asked_layer self }
    {
        match self {
            RowLayer::Copper(layer) => Some(layer),
            RowLayer::FrontYard => Some(0),
            RowLayer::BackYard => Some(31),
            RowLayer::Nowhere => None,
        }
    }
}
