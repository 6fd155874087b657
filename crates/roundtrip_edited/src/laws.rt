//! Laws. The functions do nothing: each clause holds for all boards and lists.

ghost use Rattle.std.specs.Prelude.{◌≡◌, [], ◌∷◌, ℕ, suc, Bool, true, false, List, map, length, find, Option, None, Some, Ok};
ghost use Rattle.sexpr_read.specs.declared.place.Span.{Span};
ghost use Rattle.sexpr_read.specs.Tree.{Forest, atom, Tree, branch, trees, is_list};
ghost use Rattle.one_item.specs.declared.item.Item.{Item};
ghost use Rattle.board_items.specs.Boards.{PlainBoard};
ghost use Rattle.roundtrip_text.specs.Pieces.{SameTrees};
ghost use Rattle.roundtrip_text.specs.RewrittenText.{insides};
ghost use Rattle.pcb_read.specs.declared.sorts.Sort.{Sort};
ghost use Rattle.pcb_read.specs.declared.sorts.Sort.TheVariants.{Footprint};
ghost use Rattle.pcb_read.specs.Sorts.{sort_of};
ghost use Rattle.pcb_read.specs.ItemsOf.{SaysItems, has_capacity};
ghost use Rattle.pcb_read.specs.BoardOf.{Reading, with_other, header_in};
ghost use Rattle.roundtrip_lists.specs.Translated.{Shift, Translated, TranslatedTrees};
ghost use Rattle.roundtrip_lists.specs.Carried.{shift_of, of_unit, ItemsOf};
ghost use Rattle.roundtrip_edited.specs.Footprints.{is_footprint};
ghost use Rattle.roundtrip_boards.specs.Roots.{SameLayersAndNets, SameItems};
ghost use Rattle.roundtrip_boards.specs.WrittenBoard.{moved_if, IsWritten};
ghost use Rattle.roundtrip_boards.specs.Ledger.{Entry, AreNow};
ghost use Rattle.roundtrip_boards.specs.Reads.{IsUnit};
ghost use Rattle.roundtrip_boards.specs.SameBoards.{IsReadBack};
ghost use Rattle.roundtrip_edited.specs.Carries.{Carries};

/// A list is of the same sort when it is rewritten, and parts that give no items leave those of the board. Read on boards with the
/// same layers and nets, they leave those the same.
pub fn parts()
    ensures plain { (t u : Tree) → TranslatedTrees None t u → sort_of t ≡ sort_of u }
    ensures moved { (s r : Span) (i j : Forest) (o : Option Shift) → SameTrees (moved_if o i) j
        → sort_of (branch r j) ≡ sort_of (branch s i) }
    ensures kept { (a next : Reading) (t : Tree) → with_other a t ≡ Ok next
        → (next.board.items ≡ a.board.items) × (next.board.next_unit ≡ a.board.next_unit) }
    ensures others { (t u : Tree) (a b next : Reading) → TranslatedTrees None t u
        → SameLayersAndNets a.board b.board → b.layered ≡ a.layered → with_other a t ≡ Ok next
        → (new : Reading) × (with_other b u ≡ Ok new) × SameLayersAndNets next.board new.board
        × (new.layered ≡ next.layered) × SameItems b.board new.board }
{}

/// A root with the same head, of which the first list has the same contents, has an accepted header too.
pub fn header()
    ensures { (s p h t r : Span) (q : Bool) (c : List ℕ) (f kept forest i : Forest)
        (others : List Forest) (u : Unit {0}) → header_in (branch s (atom t q c f)) ≡ Ok u
        → find is_list (trees f) ≡ Some (branch r i) → SameTrees (atom h q c kept) forest
        → insides kept ≡ i ∷ others → header_in (branch p forest) ≡ Ok tt }
{}

/// The list of a unit, rewritten, carries the items that the unit has become, and gives them where the board has room, whatever it
/// is but a footprint. A unit takes one number.
pub fn lists()
    ensures carries { (sort : Sort) (s r : Span) (i j : Forest) (o : Option Shift) (e : Entry)
        → sort_of (branch s i) ≡ Some sort → SameTrees (moved_if o i) j → AreNow (shift_of o) e
        → Carries sort (branch s i) (branch r j) e.read (map (λ (x : ℕ × Item). x.1) e.now) }
    ensures without { (sort : Sort) (s r : Span) (i j : Forest) → sort_of (branch s i) ≡ Some sort
        → Translated None i j → Carries sort (branch s i) (branch r j) [] [] }
    ensures long { (sort : Sort) (t u : Tree) (items now : List Item) → Carries sort t u items now
        → length now ≡ length items }
    ensures carried { (sort : Sort) (board other : PlainBoard) (unit own : ℕ) (t u : Tree)
        (items now : List Item) → is_footprint sort ≡ false → SameLayersAndNets board other
        → SaysItems board unit t sort (Ok items) → Carries sort t u items now
        → has_capacity other own now ≡ true → SaysItems other own u sort (Ok (of_unit own now)) }
    ensures grows { (a next : Reading) (t : Tree) (i : Item) (items : List Item)
        → IsUnit a next t (i ∷ items) → ItemsOf a.board.next_unit (i ∷ items)
        → next.board.next_unit ≡ suc a.board.next_unit }
{}

/// The list of a footprint, rewritten, carries the items that the unit has become, and gives them where the board has room. A unit
/// takes one number.
pub fn footprints()
    ensures carried { (board other : PlainBoard) (unit own : ℕ) (t u : Tree) (items now : List Item)
        → SameLayersAndNets board other → SaysItems board unit t Footprint (Ok items)
        → Carries Footprint t u items now → has_capacity other own now ≡ true
        → SaysItems other own u Footprint (Ok (of_unit own now)) }
    ensures stand { (board : PlainBoard) (unit : ℕ) (t : Tree) (items : List Item)
        → SaysItems board unit t Footprint (Ok items) → ItemsOf unit items }
{}

/// The written text of an edited board is read again as the board that the commands left: with its layers, its nets and its items in
/// their order, which differ in nothing but ids and in how units are numbered. No added list may have more than 63 levels, which those of
/// a script have not. Where there is no command, the written text is the text itself.
pub fn read_back()
    ensures again { IsReadBack }
    ensures unchanged { (text out : List ℕ) (last : PlainBoard) → IsWritten text [] out last
        → out ≡ text }
{}
