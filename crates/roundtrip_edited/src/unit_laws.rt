//! Laws. The functions do nothing: each clause holds for all boards and lists.

ghost use Rattle.std.specs.Prelude.{◌≡◌, false, ℕ, List, Option, Ok};
ghost use Rattle.sexpr_read.specs.declared.place.Span.{Span};
ghost use Rattle.sexpr_read.specs.Tree.{Forest, Tree, branch};
ghost use Rattle.one_item.specs.declared.item.About.{About};
ghost use Rattle.one_item.specs.declared.item.Item.{Item};
ghost use Rattle.board_items.specs.Boards.{PlainBoard};
ghost use Rattle.part_read.specs.declared.drawings.GraphicKind.{GraphicKind};
ghost use Rattle.pcb_read.specs.declared.sorts.Sort.{Sort};
ghost use Rattle.pcb_read.specs.declared.sorts.Sort.TheVariants.{Graphic, Text, Curve, Zone};
ghost use Rattle.pcb_read.specs.ItemsOf.{SaysItems};
ghost use Rattle.pcb_read.specs.Tracks.{track_of, via_of};
ghost use Rattle.roundtrip_lists.specs.Translated.{Shift, Translated};
ghost use Rattle.roundtrip_lists.specs.Carried.{shift_of, ItemsOf, IfAccepted, ReadsCarried};
ghost use Rattle.roundtrip_lists.specs.SameLayersAndNames.{SameLayersAndNames};
ghost use Rattle.roundtrip_boards.specs.Roots.{SameLayersAndNets};
ghost use Rattle.roundtrip_edited.specs.Footprints.{is_footprint};
ghost use Rattle.roundtrip_edited.specs.ListResults.{GivesCarried, GivesInCapacity};

/// A track's or a via's list that is equal up to translation gives the track or the via, carried.
pub fn tracks()
    ensures tracks { (d : Option Shift) (board other : PlainBoard) → SameLayersAndNames board other
        → (unit own : ℕ) (i j : Forest) (s r : Span) → Translated d i j
        → IfAccepted (ReadsCarried (shift_of d) own) (track_of board unit (branch s i))
        (track_of other own (branch r j)) }
    ensures vias { (d : Option Shift) (board other : PlainBoard) → SameLayersAndNames board other
        → (unit own : ℕ) (i j : Forest) (s r : Span) → Translated d i j
        → IfAccepted (ReadsCarried (shift_of d) own) (via_of board unit (branch s i))
        (via_of other own (branch r j)) }
{}

/// The list of a graphic, a curve or a text that is equal up to translation gives the same items, carried, on a board with the same layers
/// and nets and room for the items.
pub fn graphics()
    ensures graphics { (o : Option Shift) (board other : PlainBoard) (unit own : ℕ) (i j : Forest)
        (s r : Span) → SameLayersAndNets board other → Translated o i j → (kind : GraphicKind)
        → GivesInCapacity (shift_of o) (Graphic kind) board other unit own (branch s i)
        (branch r j) }
    ensures curves { (o : Option Shift) (board other : PlainBoard) (unit own : ℕ) (i j : Forest)
        (s r : Span) → SameLayersAndNets board other → Translated o i j
        → GivesCarried (shift_of o) Curve board other unit own (branch s i) (branch r j) }
    ensures texts { (o : Option Shift) (board other : PlainBoard) (unit own : ℕ) (i j : Forest)
        (s r : Span) → SameLayersAndNets board other → Translated o i j → (about : About)
        → GivesInCapacity (shift_of o) (Text about) board other unit own (branch s i) (branch r j) }
{}

/// The list of a zone that is equal up to translation gives the same items, carried, where there is room.
pub fn zones()
    ensures { (o : Option Shift) (board other : PlainBoard) (unit own : ℕ) (i j : Forest)
        (s r : Span) → SameLayersAndNames board other → Translated o i j
        → GivesInCapacity (shift_of o) Zone board other unit own (branch s i) (branch r j) }
{}

/// What the list of a unit other than a footprint gives is of the unit asked for, and lies on a board.
pub fn places()
    ensures { (board : PlainBoard) (unit : ℕ) (tree : Tree) (sort : Sort) (items : List Item)
        → is_footprint sort ≡ false → SaysItems board unit tree sort (Ok items)
        → ItemsOf unit items }
{}
