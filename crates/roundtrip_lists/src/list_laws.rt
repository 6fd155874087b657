//! Laws. The functions do nothing: each clause holds for all trees.

ghost use Rattle.std.specs.Prelude.{◌≡◌, ◌+◌, ◌≤◌, ◌+ℤ◌, ◌-ℤ◌, ℕ, ℤ, true, false, List, Option, None, Some, unsigned_abs};
ghost use Rattle.std.specs.List.{AllZip};
ghost use Rattle.sexpr_read.specs.declared.place.Span.{Span};
ghost use Rattle.sexpr_read.specs.Tree.{Forest, Tree, branch};
ghost use Rattle.geo_seg.specs.declared.shapes.Core.{Core};
ghost use Rattle.geo_seg.specs.Shifts.{IsShiftedCore};
ghost use Rattle.one_item.specs.declared.item.Item.{Item};
ghost use Rattle.copper_layers.specs.declared.set.LayerSet.{LayerSet};
ghost use Rattle.one_item.specs.declared.parts.Part.{Part};
ghost use Rattle.board_items.specs.Boards.{PlainBoard, name_of};
ghost use Rattle.one_item.specs.ItemMoves.{AreShifted, IsShiftedItem};
ghost use Rattle.part_read.specs.declared.numbers.RawPoint.{RawPoint};
ghost use Rattle.part_read.specs.declared.radii.Radius.{Radius};
ghost use Rattle.part_read.specs.Circles.{root, square_between};
ghost use Rattle.list_read.specs.ListHeads.{has_head};
ghost use Rattle.list_read.specs.NamedElements.{element};
ghost use Rattle.part_read.specs.ElementResults.{name_in};
ghost use Rattle.part_read.specs.Figures.{parts_around};
ghost use Rattle.part_read.specs.BoardLayers.{layer_of};
ghost use Rattle.part_read.specs.NetsOf.{net_of};
ghost use Rattle.part_read.specs.BoardNumbers.{raw_point_of, size_of};
ghost use Rattle.roundtrip_text.specs.Pieces.{SameTrees};
ghost use Rattle.roundtrip_text.specs.RewrittenText.{IsRespelled, AreAtoms};
ghost use Rattle.roundtrip_text.specs.Utf8.{AreUtf8};
ghost use Rattle.roundtrip_lists.specs.Agreeing.{Agrees, Same, FoundTranslated};
ghost use Rattle.roundtrip_lists.specs.Translated.{Shift, is_place_word, Translated, TranslatedTrees};
ghost use Rattle.roundtrip_lists.specs.Carried.{IsCarried};
ghost use Rattle.roundtrip_lists.specs.Moved.{IsMovedRawPoint};
ghost use Rattle.roundtrip_lists.specs.Moving.{moved};

/// What is moved is equal up to translation, may be written, and is equal up to translation whatever its spans are. What is not is equal up
/// to translation itself.
pub fn moving()
    ensures translated { (d : Shift) (f : Forest) → Translated (Some d) f (moved d f) }
    ensures written { (d : Shift) (f : Forest) → AreAtoms f → IsRespelled f (moved d f) }
    ensures utf8 { (d : Shift) (f : Forest) → AreUtf8 f → AreUtf8 (moved d f) }
    ensures same { (d : Option Shift) (f g h : Forest) → Translated d f g → SameTrees g h
        → Translated d f h }
    ensures itself { (f : Forest) → Translated None f f }
{}

/// The elements of lists equal up to translation are equal up to translation, and have the same heads.
pub fn elements()
    ensures heads { (d : Option Shift) (t u : Tree) (word : List ℕ) → TranslatedTrees d t u
        → has_head word t ≡ has_head word u }
    ensures found { (d : Option Shift) (word : List ℕ) (s t : Span) (f g : Forest)
        → Translated d f g
        → FoundTranslated d (has_head word) (element word (branch s f))
        (element word (branch t g)) }
{}

/// Sizes, names, layers and nets of lists equal up to translation are the same, where the first list has them; points are moved.
pub fn numbers()
    ensures raw_points { (d : Option Shift) (word : List ℕ) → is_place_word word ≡ true
        → (i j : Forest) (s r : Span) → Translated d i j
        → Agrees (IsMovedRawPoint d) (raw_point_of word (branch s i))
        (raw_point_of word (branch r j)) }
    ensures sizes { (d : Option Shift) (word : List ℕ) → is_place_word word ≡ false
        → (i j : Forest) (s r : Span) → Translated d i j
        → Agrees Same (size_of word (branch s i)) (size_of word (branch r j)) }
    ensures names { (d : Option Shift) (i j : Forest) (s r : Span) → Translated d i j
        → name_in (branch s i) ≡ name_in (branch r j) }
    ensures layers { (d : Option Shift) (copper : LayerSet) (i j : Forest) (s r : Span)
        → Translated d i j → Agrees Same (layer_of copper (branch s i))
        (layer_of copper (branch r j)) }
    ensures nets { (d : Option Shift) (board other : PlainBoard)
        → ((n : ℕ) → name_of board n ≡ name_of other n) → (i j : Forest) (s r : Span)
        → Translated d i j
        → Agrees Same (net_of board (branch s i)) (net_of other (branch r j)) }
{}

/// The moved parts of cores with a radius around them are the parts of moved cores; and what is carried and then moved is carried by both.
pub fn carrying()
    ensures parts { (dx dy : ℤ) (layers : LayerSet) (r : Radius) (cores : List Core)
        (parts : List Part) → AreShifted dx dy (parts_around layers r cores) parts
        → (others : List Core) × AllZip (IsShiftedCore dx dy) cores others
        × (parts ≡ parts_around layers r others) }
    ensures both { (d e : Shift) (a b c : Item) → IsCarried d a b → IsShiftedItem e.dx e.dy b c
        → IsCarried (record { dx = d.dx +ℤ e.dx; dy = d.dy +ℤ e.dy }) a c }
    ensures ends { (center end : RawPoint) (most : ℕ) → root (square_between center end) ≤ most
        → (unsigned_abs (end.x -ℤ center.x) ≤ most + 1)
        × (unsigned_abs (end.y -ℤ center.y) ≤ most + 1) }
{}
