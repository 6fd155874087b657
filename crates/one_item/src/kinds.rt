//! Whether an item is a note, a body or a mark.

ghost use Rattle.std.specs.Prelude.{◌≡◌};
ghost use Rattle.one_item.specs.ItemKinds.{is_note, is_mark, is_body};

use crate::item::What;

impl What {
    /// Whether it is a note, which is read and not checked, and does not move with its unit.
    pub fn is_note(&self) -> bool
        ensures { result ≡ is_note self.now }
    {
        matches!(self, What::Note { .. })
    }

    /// Whether it is a footprint as a whole.
    pub fn is_body(&self) -> bool
        ensures { result ≡ is_body self.now }
    {
        matches!(self, What::Body { .. })
    }

    /// Whether it is an area or a body, of which the facts of other items speak.
    pub fn is_mark(&self) -> bool
        ensures { result ≡ is_mark self.now }
    {
        matches!(self, What::Area { .. } | What::Body { .. })
    }
}
