//! Laws. The functions do nothing: each clause holds for all lists.

ghost use Rattle.std.specs.Prelude.{◌≡◌, ℕ, true, List, codes, None, Ok};
ghost use Rattle.sexpr_read.specs.declared.place.Span.{Span};
ghost use Rattle.sexpr_read.specs.Tree.{Forest, Tree, branch, trees};
ghost use Rattle.one_item.specs.declared.item.Item.{Item};
ghost use Rattle.board_items.specs.Boards.{PlainBoard};
ghost use Rattle.list_read.specs.ListHeads.{first_is};
ghost use Rattle.footprint_read.specs.FootprintOf.{FootprintSays};
ghost use Rattle.roundtrip_text.specs.Pieces.{SameTrees};
ghost use Rattle.roundtrip_lists.specs.Translated.{Shift, place_moved, Translated};
ghost use Rattle.roundtrip_lists.specs.Carried.{shift_of, ItemsOf};
ghost use Rattle.roundtrip_lists.specs.SameLayersAndNames.{SameLayersAndNames};
ghost use Rattle.roundtrip_lists.specs.Moving.{put_if};
ghost use Rattle.roundtrip_footprints.specs.FootprintResults.{FootprintCarried};
ghost use Rattle.roundtrip_footprints.specs.FootprintPlaces.{IsPlaceAgain, AtMoved};

/// The list of a footprint, of which the first place may be moved, gives its items, carried, where the board has room: its body with
/// its courtyards, its pads, graphics and notes. They are of the unit asked for, and lie on a board.
pub fn footprints()
    ensures carried { (d : Shift) (board other : PlainBoard) → SameLayersAndNames board other
        → (unit own : ℕ) (i j : Forest) (s r : Span) → AtMoved d i j
        → FootprintCarried d board other unit own (branch s i) (branch r j) }
    ensures stand { (board : PlainBoard) (unit : ℕ) (tree : Tree) (items : List Item)
        → FootprintSays board unit tree (Ok items) → ItemsOf unit items }
{}

/// A place that is rewritten is that place, moved, and lists that are the same but for spans are moved by nothing.
pub fn places()
    ensures moved { (d : Shift) (i j : Forest) → first_is (trees i) (codes "at") ≡ true
        → SameTrees (put_if (place_moved d i) i) j → IsPlaceAgain d i j }
    ensures kept { (i j : Forest) → Translated None i j → AtMoved (shift_of None) i j }
{}
