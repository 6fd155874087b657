//! Laws of facts. The functions do nothing: each clause holds for all values.

ghost use Rattle.std.specs.Prelude.{◌≡◌, ◌⊎◌, ℕ, Bool, List};
ghost use Rattle.one_item.specs.declared.item.Item.{Item};
ghost use Rattle.board_items.specs.Boards.{PlainBoard};
ghost use Rattle.net_class.specs.NetClasses.{PlainClasses};
ghost use Rattle.rule_pick.specs.declared.facts.Facts.{Facts};
ghost use Rattle.rule_pick.specs.FactsOf.{MeetsArea, MeetsCourtyard, AreFactsOf};
ghost use Rattle.item_facts.specs.NearItems.{MayMeetItem, IsNearSame};

/// What an item meets of an area or of courtyards is near it: their boxes meet.
pub fn met_is_near()
    ensures { (item other : Item) (name : List ℕ) → MeetsArea item other.what name
        ⊎ MeetsCourtyard item other.what name → MayMeetItem item other }
{}

/// The facts of an item depend on the areas and courtyards near it alone: on two boards with the same nets it has the same facts,
/// where the items that a test passes are the same, and the test passes all that is near.
pub fn facts_by_near()
    ensures { (old new : PlainBoard) (classes : PlainClasses) (item : Item) (facts : Facts)
        (test : ℕ × Item → Bool) → new.nets ≡ old.nets → IsNearSame old.items new.items item test
        → AreFactsOf old classes item facts → AreFactsOf new classes item facts }
{}
