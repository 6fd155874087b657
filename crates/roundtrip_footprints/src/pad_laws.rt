//! Laws. The functions do nothing: each clause holds for all lists.

ghost use Rattle.std.specs.Prelude.{◌≡◌, ◌∷◌, ℕ, [], None, Ok};
ghost use Rattle.sexpr_read.specs.declared.place.Span.{Span};
ghost use Rattle.sexpr_read.specs.Tree.{Forest, Tree, branch};
ghost use Rattle.one_item.specs.declared.item.Item.{Item};
ghost use Rattle.board_items.specs.Boards.{PlainBoard};
ghost use Rattle.pad_read.specs.declared.head.Head.{Head};
ghost use Rattle.pad_read.specs.PadOf.{pad_of};
ghost use Rattle.roundtrip_lists.specs.Translated.{Shift, Translated};
ghost use Rattle.roundtrip_lists.specs.Carried.{ItemsOf, IfAccepted, ReadsCarried};
ghost use Rattle.roundtrip_lists.specs.SameLayersAndNames.{SameLayersAndNames};
ghost use Rattle.roundtrip_footprints.specs.MovedHeads.{moved_head};

/// The list of a pad gives the pad, carried, in a footprint that is moved. A pad is of the unit asked for, and lies on a board.
pub fn pads()
    ensures carried { (d : Shift) (board other : PlainBoard) → SameLayersAndNames board other
        → (unit own : ℕ) (head : Head) (i j : Forest) (s r : Span) → Translated None i j
        → IfAccepted (ReadsCarried d own) (pad_of board unit head (branch s i))
        (pad_of other own (moved_head d head) (branch r j)) }
    ensures stand { (board : PlainBoard) (unit : ℕ) (head : Head) (tree : Tree) (item : Item)
        → pad_of board unit head tree ≡ Ok item → ItemsOf unit (item ∷ []) }
{}
