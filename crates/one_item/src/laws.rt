//! A law of items. The function does nothing: its clause holds for all items.

ghost use Rattle.std.specs.Prelude.{◌≡◌, ◌≢◌, ℤ, pos, []};
ghost use Rattle.one_item.specs.declared.item.Item.{Item};
ghost use Rattle.one_item.specs.ItemParts.{parts_of, FirstHasPoints};
ghost use Rattle.one_item.specs.ItemMoves.{IsShiftedItem};

/// An item with parts, of which the first has points, is moved onto its own parts only by nothing.
pub fn moved_by_nothing()
    ensures { (dx dy : ℤ) (a b : Item) → FirstHasPoints (parts_of a) → parts_of a ≢ [] →
        IsShiftedItem dx dy a b → parts_of a ≡ parts_of b → (dx ≡ pos 0) × (dy ≡ pos 0) }
{}
