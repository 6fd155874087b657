//! Laws of facts that are kept. The functions do nothing: each clause holds for all boards and facts.

ghost use Rattle.std.specs.Prelude.{ℕ, List, Option};
ghost use Rattle.one_item.specs.declared.item.Item.{Item};
ghost use Rattle.board_items.specs.Boards.{PlainBoard};
ghost use Rattle.net_class.specs.NetClasses.{PlainClasses};
ghost use Rattle.rule_pick.specs.declared.facts.Facts.{Facts};
ghost use Rattle.rule_pick.specs.AllFacts.{HasFacts};
ghost use Rattle.rule_pick.specs.FactsOf.{AreFactsOf};
ghost use Rattle.board_laws.specs.Edits.{IsEdit};
ghost use Rattle.pair_check.specs.Rows.{Checked};
ghost use Rattle.kept_rows.specs.CheckChanges.{IsCheckChange};
ghost use Rattle.kept_facts.specs.FactUpdates.{IsUnconcerned, IsFoundAgain, AreNoted};

/// An item keeps its facts where each area and body of the edit gives it the same name before and after, or none both times.
pub fn facts_stay()
    ensures { (old new : PlainBoard) (ids : List ℕ) → IsEdit old new ids → (item : Item)
        → IsUnconcerned old new ids item → (classes : PlainClasses) (facts : Facts)
        → AreFactsOf old classes item facts → AreFactsOf new classes item facts }
{}

/// Once the suspects of an edit have their facts again, all items have theirs.
pub fn facts_are_kept()
    ensures { (old new : PlainBoard) (classes : PlainClasses) (ids suspects : List ℕ)
        (kept now : List (Option Facts)) → IsFoundAgain old new classes ids suspects kept now
        → HasFacts new classes now }
{}

/// After an edit, what is checked of an item that is not noted as changed did not change.
pub fn is_step()
    ensures { (old : Checked) (new : PlainBoard) (ids suspects : List ℕ)
        (kept now : List (Option Facts))
        → IsFoundAgain old.board new old.classes ids suspects kept now
        → (changed : List ℕ) → AreNoted ids suspects kept now changed
        → IsCheckChange old (record old { board = new }) changed }
{}
