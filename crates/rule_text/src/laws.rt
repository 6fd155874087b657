//! Laws of what texts say. The functions do nothing: each clause holds for all texts.

ghost use Rattle.std.specs.Prelude.{◌≡◌, ℕ, List, Result};
ghost use Rattle.rule_text.specs.declared.error.RuleError.{RuleError};
ghost use Rattle.rule_text.specs.RulesOf.{PlainRules};
ghost use Rattle.rule_text.specs.ListText.{Here, SaysList};
ghost use Rattle.rule_text.specs.RuleText.{RulesSays};

use sexpr_read::laws::one_tree;

/// The text of a rule file says one thing at most: its rules, or why there are none.
pub fn one_reading()
    ensures { (text : List ℕ) (a b : Result PlainRules RuleError) → RulesSays text a
        → RulesSays text b
        → a ≡ b }
{
    one_tree();
}

/// No list of rules says two things, by the places of its own text.
fn one_reading_here()
    ensures { (text : List ℕ) (a b : Result PlainRules RuleError) → Here text a → Here text b
        → a ≡ b }
{
    one_tree();
}

/// A list of rules in a text says one thing at most: its rules, or why there are none.
pub fn one_list_reading()
    ensures { (text : List ℕ) (by : ℕ) (a b : Result PlainRules RuleError) → SaysList text by a
        → SaysList text by b → a ≡ b }
{
    one_reading_here();
}
