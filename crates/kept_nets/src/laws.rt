//! Laws of what is found of nets. The functions do nothing: each clause holds for all boards.

ghost use Rattle.std.specs.Prelude.{◌≡◌, ℕ, false, List, Contains};
ghost use Rattle.one_item.specs.declared.item.Item.{Item};
ghost use Rattle.board_items.specs.Boards.{PlainBoard};
ghost use Rattle.net_groups.specs.NetGroups.{is_of_net, items_of};
ghost use Rattle.board_laws.specs.Edits.{IsEdit, WasOrIs};

/// A net of whose items an edit touches none keeps its items.
pub fn net_stays()
    ensures { (old new : PlainBoard) (ids : List ℕ) → IsEdit old new ids → (net : ℕ)
        → ((id : ℕ) (item : Item) → Contains ids id → WasOrIs old new id item
        → is_of_net net item ≡ false) → items_of net new.items ≡ items_of net old.items }
{}
