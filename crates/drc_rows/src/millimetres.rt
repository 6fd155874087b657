//! A length as it is written.

ghost use Rattle.std.specs.Prelude.{◌≡◌, ◌≤◌, ℕ, List, take, unsigned_abs};
ghost use Rattle.exact_dec.specs.MillimetreText.{mm_text};

use exact_dec::{Nm, write_mm};
use std::marker::Model;

/// The text of a length in millimetres.
#[derive(Drop)]
pub(crate) struct Millimetres {
    bytes: [u8; 16],
    len: usize,
}

impl Model for Millimetres {
    ghost Value = { List ℕ };

    ghost view = { λ m. take m.len m.bytes };

    ghost invariant = { λ m. m.len ≤ 16 };
}

impl Millimetres {
    /// The text of at most 10^12 nanometres either way.
    pub(crate) fn of(nm: Nm) -> Millimetres
        requires { unsigned_abs nm ≤ 1000000000000 }
        ensures { result ≡ mm_text nm }
    {
        let mut bytes = [0; 16];
        let len = write_mm(nm, &mut bytes);
        Millimetres { bytes, len }
    }

    pub(crate) fn as_bytes(&self) -> &[u8]
        ensures { result.now ≡ self.now }
    {
        &self.bytes[..self.len]
    }
}
