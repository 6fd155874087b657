//! Laws of groups, anchors and parts of nets. The functions do nothing: each clause holds for all items or boards.

ghost use Rattle.std.specs.Prelude.{◌≡◌, ℕ, List, All};
ghost use Rattle.one_item.specs.declared.item.Item.{Item};
ghost use Rattle.board_items.specs.Boards.{PlainBoard, IsSound};
ghost use Rattle.ratsnest.specs.declared.anchor.Anchor.{Anchor};
ghost use Rattle.net_groups.specs.NetGroups.{AreGroupsOf, items_of};
ghost use Rattle.net_groups.specs.Anchors.{AreAnchorsOf};
ghost use Rattle.net_groups.specs.NetParts.{PlainNetPart, IsNetPart, AreParts, IsWritable};

/// The items of a net have one list of groups.
pub fn one_list()
    ensures { (items : List (ℕ × Item)) (groups others : List (List ℕ)) → AreGroupsOf items groups
        → AreGroupsOf items others → groups ≡ others }
{}

/// Groups have one list of anchors.
pub fn one_list_of_anchors()
    ensures { (items : List (ℕ × Item)) (groups : List (List ℕ)) (anchors others : List Anchor)
        → AreAnchorsOf items groups anchors → AreAnchorsOf items groups others → anchors ≡ others }
{}

/// A board has one list of parts.
pub fn one_list_of_parts()
    ensures { (board : PlainBoard) (parts others : List PlainNetPart) → AreParts board parts
        → AreParts board others → parts ≡ others }
{}

/// What is found of a net stays where its items stay.
pub fn part_stays()
    ensures { (old new : PlainBoard) (net : ℕ) → items_of net new.items ≡ items_of net old.items
        → (part : PlainNetPart) → IsNetPart old net part → IsNetPart new net part }
{}

/// The parts of a board have all that the lines of its nets ask for.
pub fn parts_are_writable()
    ensures { (board : PlainBoard) → IsSound board → (parts : List PlainNetPart)
        → AreParts board parts → All (IsWritable board) parts }
{}
