//! Laws of the trees that texts spell. The functions do nothing: each clause holds for all texts and trees.

ghost use Rattle.std.specs.Prelude.{◌≡◌, ◌+◌, ◌-◌, ◌≤◌, ℕ, List, length};
ghost use Rattle.sexpr_read.specs.Tree.{Tree, span};
ghost use Rattle.sexpr_read.specs.Spelling.{Spells, SpellsAll};
ghost use Rattle.sexpr_read.specs.TreePlaces.{PartsStandBetween};

/// No text spells two trees, and none two lists of forms.
pub fn one_tree()
    ensures one { (text : List ℕ) (s t : Tree) → Spells text s → Spells text t → s ≡ t }
    ensures forms { (text : List ℕ) (s t : Tree) → SpellsAll text s → SpellsAll text t → s ≡ t }
{}

/// At every depth what lies between the brackets of a list are the spans of its parts, one after another, and an
/// atom's content is what the text has there, the quotes of a string left away. So do forms in the whole text.
pub fn spans_in_order()
    ensures one { (text : List ℕ) (t : Tree) → Spells text t
        → ((span t).end ≤ length text)
        × PartsStandBetween text ((span t).at + 1) ((span t).end - 1) t }
    ensures forms { (text : List ℕ) (t : Tree) → SpellsAll text t
        → PartsStandBetween text 0 (length text) t }
{}
