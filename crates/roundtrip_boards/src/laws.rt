//! Laws. The functions do nothing: each clause holds for all boards and texts.

ghost use Rattle.std.specs.Prelude.{◌≡◌, ℕ, Bool, List, Result, Ok};
ghost use Rattle.sexpr_read.specs.declared.place.Span.{Span};
ghost use Rattle.sexpr_read.specs.Tree.{Forest, atom, branch, trees};
ghost use Rattle.board_items.specs.Boards.{PlainBoard};
ghost use Rattle.edit_script.specs.Commands.{PlainCommand};
ghost use Rattle.roundtrip_text.specs.RewrittenText.{Disposition, AreAtoms, AreFit, FirstIsThere};
ghost use Rattle.roundtrip_text.specs.Utf8.{AreUtf8, BecomeUtf8};
ghost use Rattle.pcb_read.specs.BoardOf.{Reading, header_in};
ghost use Rattle.board_edits.specs.declared.refusal.Refusal.{Refusal};
ghost use Rattle.board_edits.specs.Operations.{PlainOperation, DoAll};
ghost use Rattle.roundtrip_boards.specs.TextChanges.{Change, AreChanges, ChangeAll};
ghost use Rattle.roundtrip_boards.specs.WrittenBoard.{Draft, DispositionsAre};

/// What commands do to a board changes its text so, one after another.
pub fn changes()
    ensures { (commands : List PlainCommand) (answers : List (Result PlainOperation Refusal))
        (changes : List Change) (board last : PlainBoard) → DoAll board commands answers last
        → AreChanges commands answers changes → ChangeAll board changes last }
{}

/// The dispositions of a board's lists fit them, and the version, which stands first, stays.
pub fn dispositions()
    ensures fit { (draft : Draft) (f : Forest) (a : Reading) (dispositions : List Disposition)
        → DispositionsAre draft a (trees f) dispositions → AreAtoms f → AreUtf8 f
        → AreFit dispositions f × BecomeUtf8 dispositions f }
    ensures first { (draft : Draft) (a : Reading) (dispositions : List Disposition) (s t : Span)
        (q : Bool)
        (c : List ℕ) (f : Forest) (u : Unit {0}) → header_in (branch s (atom t q c f)) ≡ Ok u
        → DispositionsAre draft a (trees f) dispositions → FirstIsThere dispositions f }
{}
