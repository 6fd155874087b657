//! Laws of facts and picks. The functions do nothing: each clause holds for all values.

ghost use Rattle.std.specs.Prelude.{◌≡◌, ℕ, List, Option, IsTrue, ◌↔◌};
ghost use Rattle.copper_layers.specs.declared.set.LayerSet.{LayerSet};
ghost use Rattle.one_item.specs.declared.item.Item.{Item};
ghost use Rattle.board_items.specs.Boards.{PlainBoard};
ghost use Rattle.copper_layers.specs.Layers.{has_layer};
ghost use Rattle.net_class.specs.NetClasses.{PlainClasses, PlainMins};
ghost use Rattle.cond_lang.specs.declared.kind.Kind.{Kind};
ghost use Rattle.cond_lang.specs.Rules.{PlainRule};
ghost use Rattle.rule_pick.specs.declared.facts.Facts.{Facts};
ghost use Rattle.rule_pick.specs.FactsOf.{AreFactsOf, AreFacts};
ghost use Rattle.rule_pick.specs.Deciding.{IsPick};
ghost use Rattle.rule_pick.specs.Picks.{Pick};

/// Two sets with the same layers are the same.
pub fn one_set()
    ensures { (s t : LayerSet)
        → ((layer : ℕ) → (IsTrue (has_layer s layer) ↔ IsTrue (has_layer t layer))) → s ≡ t }
{}

/// An item has one record of facts.
pub fn one_facts()
    ensures { (board : PlainBoard) (classes : PlainClasses) (item : Item) (f g : Facts)
        → AreFactsOf board classes item f → AreFactsOf board classes item g → f ≡ g }
{}

/// The item of an id has one record of facts.
pub fn one_facts_at()
    ensures { (board : PlainBoard) (classes : PlainClasses) (id : ℕ) (f g : Facts)
        → AreFacts board classes id f → AreFacts board classes id g → f ≡ g }
{}

/// A kind of check has one pick between two items, or of one.
pub fn one_pick()
    ensures { (rules : List PlainRule) (mins : PlainMins) (kind : Kind) (a : Facts)
        (b : Option Facts) (layer : Option ℕ) (p q : Pick) → IsPick rules mins kind a b layer p
        → IsPick rules mins kind a b layer q → p ≡ q }
{}
