//! Laws. The functions do nothing.

ghost use Rattle.std.specs.Prelude.{◌≡◌, ◌+◌, ◌++◌, ℕ, Bool, List, length, slice_range, IsUtf8};
ghost use Rattle.sexpr_read.specs.Tree.{Forest, none, atom, branch};
ghost use Rattle.sexpr_read.specs.declared.place.Span.{Span};
ghost use Rattle.sexpr_read.specs.ByteClasses.{sign_of};
ghost use Rattle.sexpr_read.specs.Spelling.{SpellsForest, Spells, SpellsAll};
ghost use Rattle.roundtrip_text.specs.RewrittenText.{edited_whole, Disposition, AllStay, edited, insides, insides_after, text_rewritten, IsRespelled, spaced, AreAtoms};
ghost use Rattle.roundtrip_text.specs.Utf8.{AreUtf8};
ghost use Rattle.roundtrip_text.specs.Edited.{Root, inside_root, FitBehindHead, FitInRoot, MayBeAdded, WritesEdited, SpellsEdited};
ghost use Rattle.roundtrip_text.specs.Pieces.{WritesForest, IsWordEnd, SpellsPart, SameTrees};

/// What a part of a text spells is spelled by its bytes, wherever they stand; and what bytes spell, but for spans, they spell wherever
/// they are set into a text before something that is no byte of a word.
pub fn pieces()
    ensures cut { (text : List ℕ) (from to : ℕ) (f : Forest) → SpellsPart text from to f
        → WritesForest (slice_range text from to) f }
    ensures set { (prefix bytes behind : List ℕ) (f : Forest) → IsWordEnd behind
        → WritesForest bytes f
        → let text : List ℕ = prefix ++ (bytes ++ behind) in (g : Forest) × SameTrees f g
        × SpellsForest (sign_of text) text (length prefix) (length prefix + length bytes) g }
{}

/// What is rewritten spells the trees that it is written from.
pub fn writing()
    ensures text_rewritten { (text : List ℕ) (f g : Forest) (from to : ℕ)
        → SpellsPart text from to f
        → IsRespelled f g → WritesForest (text_rewritten text from to g) g }
    ensures alone { (first : Bool) (f : Forest) → AreAtoms f → WritesForest (spaced first f) f }
{}

/// A text of which lists are left out or rewritten spells the others, in order; its head stays, where what follows it does.
pub fn editing()
    ensures { (text : List ℕ) (dispositions : List Disposition) (s : Span) (q : Bool)
        (content : List ℕ)
        (others : Forest) (from to : ℕ) → SpellsPart text from to (atom s q content others)
        → FitBehindHead dispositions others
        → WritesEdited (edited text from to dispositions (atom s q content others)) s q content
        (insides_after dispositions others) }
{}

/// What is UTF-8 spells atoms of UTF-8, and is spelled by them.
pub fn utf8()
    ensures apart { (bytes : List ℕ) (f : Forest) → WritesForest bytes f → IsUtf8 bytes
        → AreUtf8 f }
    ensures joined { (bytes : List ℕ) (f : Forest) → WritesForest bytes f → AreUtf8 f
        → IsUtf8 bytes }
{}

/// The atoms of a text of forms are atoms that any text may have, and UTF-8.
pub fn forms()
    ensures { (text : List ℕ) (s : Span) (f : Forest) → SpellsAll text (branch s f)
        → AreAtoms f × AreUtf8 f }
{}

/// The text of one list of at most 64 levels, of which parts have their dispositions and trees are added last, is the text of one list of
/// at most 64 levels: with its head, the lists that are left, as they have become, and the trees that were added, but for spans.
pub fn whole()
    ensures { (text : List ℕ) (root : Root text) (dispositions : List Disposition) (added : Forest)
        → FitInRoot dispositions root.others → MayBeAdded added
        → SpellsEdited (edited_whole text root.span dispositions
        (inside_root root) added) root.quoted root.head
        (insides_after dispositions root.others ++ insides added) }
{}

/// A text of which all lists stay, and to which nothing is added, is as it was; so is each part of it.
pub fn staying()
    ensures parts { (text : List ℕ) (f : Forest) (dispositions : List Disposition) (from to : ℕ)
        → SpellsPart text from to f → AllStay dispositions
        → edited text from to dispositions f ≡ slice_range text from to }
    ensures whole { (text : List ℕ) (s : Span) (dispositions : List Disposition) (inside : Forest)
        → Spells text (branch s inside) → AllStay dispositions
        → edited_whole text s dispositions inside none ≡ text }
{}
