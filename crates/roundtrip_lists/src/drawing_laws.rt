//! Laws. The functions do nothing: each clause holds for all lists.

ghost use Rattle.std.specs.Prelude.{◌≡◌, ℕ, List, Option, Ok};
ghost use Rattle.sexpr_read.specs.declared.place.Span.{Span};
ghost use Rattle.sexpr_read.specs.Tree.{Forest, Tree, branch};
ghost use Rattle.one_item.specs.declared.item.About.{About};
ghost use Rattle.copper_layers.specs.declared.set.LayerSet.{LayerSet};
ghost use Rattle.one_item.specs.declared.item.Item.{Item};
ghost use Rattle.board_items.specs.Boards.{PlainBoard};
ghost use Rattle.part_read.specs.declared.placements.Placement.{Placement};
ghost use Rattle.part_read.specs.declared.drawings.GraphicKind.{GraphicKind};
ghost use Rattle.part_read.specs.declared.graphics.LayerRole.{LayerRole};
ghost use Rattle.part_read.specs.Drawings.{drawing_of};
ghost use Rattle.part_read.specs.Graphics.{layer_role_of, graphic_by, text_by};
ghost use Rattle.roundtrip_lists.specs.Agreeing.{Agrees, Same};
ghost use Rattle.roundtrip_lists.specs.Translated.{Shift, Translated};
ghost use Rattle.roundtrip_lists.specs.Carried.{ItemsOf, IfAccepted, ReadsItems};
ghost use Rattle.roundtrip_lists.specs.Drawn.{DrawingRead};

/// The drawings of lists equal up to translation are of the same width and fill, and their points are moved.
pub fn drawings()
    ensures { (d : Option Shift) (i j : Forest) (s r : Span) → Translated d i j
        → (kind : GraphicKind)
        → Agrees (DrawingRead d) (drawing_of kind (branch s i)) (drawing_of kind (branch r j)) }
{}

/// Lists equal up to translation lie on the same layer or have the same role, and the note of a text is the same.
pub fn texts()
    ensures layer_roles { (d : Option Shift) (copper : LayerSet) (i j : Forest) (s r : Span)
        → Translated d i j → Agrees Same (layer_role_of copper (branch s i))
        (layer_role_of copper (branch r j)) }
    ensures notes { (o : Option Shift) (d : Shift) (own unit : ℕ) (about : About) (i j : Forest)
        (s r : Span) (lies : LayerRole) → Translated o i j
        → IfAccepted (ReadsItems d own) (text_by unit about (branch s i) lies)
        (text_by own about (branch r j) lies) }
{}

/// The items of graphics and of texts are of the unit asked for, and lie on a board.
pub fn places()
    ensures graphics { (board : PlainBoard) (unit : ℕ) (placement : Placement) (kind : GraphicKind)
        (tree : Tree) (lies : LayerRole) (items : List Item)
        → graphic_by board unit placement kind tree lies ≡ Ok items → ItemsOf unit items }
    ensures notes { (unit : ℕ) (about : About) (tree : Tree) (lies : LayerRole) (items : List Item)
        → text_by unit about tree lies ≡ Ok items → ItemsOf unit items }
{}
