//! The facts of items. What makes those of one item is inlined, so that they are made where they stay.

ghost use Rattle.std.specs.Prelude.{◌≡◌, ℕ, None, IfOk, IfSome, OnOk, IsSome};
ghost use Rattle.std.specs.Option.{option_copied};
ghost use Rattle.board_items.specs.Boards.{IsSound, marks_of, item_at};
ghost use Rattle.net_class.specs.NetClasses.{PlainClasses};
ghost use Rattle.net_class.specs.ClassValues.{plain_class};
ghost use Rattle.rule_pick.specs.FactsOf.{AreFactsOf, AreFacts, class_of_net};
ghost use Rattle.rule_pick.specs.AllFacts.{HasFacts};
ghost use Rattle.rule_pick.specs.ById.{facts_at};
ghost use Rattle.item_facts.specs.Known.{AreKnown};
ghost use Rattle.item_facts.specs.NearItems.{AreEnough, HoldsMarks};

use crate::classes::class_of_net;
use crate::names::{areas_near, courtyards_near};
use crate::near::{index_marks, marks_near};
use crate::of_item::facts_with;
use board_items::{Board, Item};
use box_index::TileIndex;
use indexmap::IndexMap;
use net_class::{Class, Classes};
use plain_types::MOST_ITEMS;
use rule_pick::{Facts, FactsById};
use std::alloc::{AllocError, Global};

/// How many tests of an item against an area or a body are few.
const FEW_TESTS: usize = 8_192;

/// The class of a net, sought once for each net: patterns are dear. Only running out of memory refuses it; also then each net in `known`
/// has its class.
pub(crate) fn known_class<'c>(
    known: &mut IndexMap<u32, &'c Class>,
    board: &Board,
    classes: &'c Classes,
    net: u32,
) -> Result<&'c Class, AllocError>
    requires { AreKnown classes.now board.now known.old }
    ensures known { AreKnown classes.now board.now known.new }
    ensures value { IfOk result
        (λ class. plain_class class.now ≡ class_of_net classes.now board.now net) }
{
    if let Some(class) = known.get(&net) {
        return Ok(*class);
    }
    let class = class_of_net(board, classes, net);
    known.insert(net, class)?;
    Ok(class)
}

/// The facts of an item of this class, where the ids are enough to ask for the areas and bodies that it meets. Only running out of memory
/// refuses it.
#[inline(always)]
pub(crate) fn facts_among(
    alloc: Global,
    board: &Board,
    class: &Class,
    item: &Item,
    ids: &[u32],
) -> Result<Facts, AllocError>
    requires { AreEnough item.now board.now.items ids.now }
    ensures { (classes : PlainClasses) → plain_class class.now
        ≡ class_of_net classes board.now item.now.net
        → IfOk result (λ facts. AreFactsOf board.now classes item.now facts) }
{
    let areas = areas_near(alloc, board, item, ids)?;
    let courtyards = courtyards_near(alloc, board, item, ids)?;
    facts_with(alloc, board, class, item, areas, courtyards)
}

/// The facts of an item, which is asked only against the areas and bodies near it. The index has all areas and bodies of the
/// board, and may have its other items. `known` are classes of nets that were sought, and `scratch` is room for ids; a walk over
/// many items hands both on. Only running out of memory refuses it; also then each net in `known` has its class.
#[inline(always)]
pub fn facts_near<'c>(
    alloc: Global,
    board: &Board,
    classes: &'c Classes,
    index: &TileIndex,
    known: &mut IndexMap<u32, &'c Class>,
    scratch: &mut Vec<u32>,
    item: &Item,
) -> Result<Facts, AllocError>
    requires index { HoldsMarks board.now.items index.now }
    requires known { AreKnown classes.now board.now known.old }
    ensures known { AreKnown classes.now board.now known.new }
    ensures facts { IfOk result (AreFactsOf board.now classes.now item.now) }
{
    let class = known_class(known, board, classes, item.net)?;
    marks_near(board, index, item, scratch)?;
    facts_among(alloc, board, class, item, scratch)
}

/// The ids of all areas and bodies.
fn all_marks(board: &Board) -> &[u32]
    ensures marks { result.now ≡ marks_of board.now.items }
    ensures sound { IsSound board.now }
{
    board.soundness();
    board.marks()
}

/// The facts of an item, which is asked against all areas and bodies.
fn facts_of(
    alloc: Global,
    board: &Board,
    classes: &Classes,
    item: &Item,
) -> Result<Facts, AllocError>
    ensures { IfOk result (AreFactsOf board.now classes.now item.now) }
{
    let class = class_of_net(board, classes, item.net);
    facts_among(alloc, board, class, item, all_marks(board))
}

/// The facts of the item of this id, which is one of the board's: what rules may ask of it. The titles of the rule areas that
/// it meets, and the references of the footprints whose courtyards it meets, stand in the order of the items. Only running out of
/// memory refuses it.
pub fn facts(alloc: Global, board: &Board, classes: &Classes, id: u32) -> Result<Facts, AllocError>
    requires { IsSome (item_at board.now.items id) }
    ensures { IfOk result (AreFacts board.now classes.now id) }
{
    facts_of(alloc, board, classes, board.get(id).unwrap())
}

/// How many slots the facts of all items take, about: more where items were taken out.
fn slots_of(board: &Board) -> usize {
    MOST_ITEMS.saturating_sub(board.left() as usize)
}

/// Whether so few items are asked against so few areas and bodies that an index of these costs more than it saves.
fn are_few(board: &Board) -> bool {
    board.marks().len().saturating_mul(slots_of(board)) <= FEW_TESTS
}

/// The facts of an item, which is asked only against the areas and bodies near it where there is an index of these, and against all
/// where there is none.
#[inline(always)]
fn facts_by<'c>(
    alloc: Global,
    board: &Board,
    classes: &'c Classes,
    index: Option<&TileIndex>,
    known: &mut IndexMap<u32, &'c Class>,
    scratch: &mut Vec<u32>,
    item: &Item,
) -> Result<Facts, AllocError>
    requires index { IfSome (option_copied index) (HoldsMarks board.now.items) }
    requires known { AreKnown classes.now board.now known.old }
    ensures known { AreKnown classes.now board.now known.new }
    ensures facts { IfOk result (AreFactsOf board.now classes.now item.now) }
{
    match index {
        Some(index) => facts_near(alloc, board, classes, index, known, scratch, item),
        None => facts_of(alloc, board, classes, item),
    }
}

/// Puts in the facts of all items of the board. Each is asked only against the areas and bodies near it where there is an index of
/// these, and against all where there is none.
fn put_all(
    alloc: Global,
    board: &Board,
    classes: &Classes,
    index: Option<&TileIndex>,
    all: &mut FactsById,
) -> Result<(), AllocError>
    requires index { IfSome (option_copied index) (HoldsMarks board.now.items) }
    requires none { (id : ℕ) → facts_at all.old id ≡ None }
    ensures { OnOk result (HasFacts board.now classes.now all.new) }
{
    let mut known = IndexMap::new(alloc);
    let mut scratch = Vec::new(alloc);
    for (id, item) in board.iter() {
        let facts = facts_by(alloc, board, classes, index, &mut known, &mut scratch, item)?;
        all.insert(id, facts)?;
    }
    Ok(())
}

/// An index of the areas and bodies of the board, where it saves more than it costs.
fn index_if(alloc: Global, board: &Board) -> Result<Option<TileIndex>, AllocError>
    ensures { IfOk result (λ index. IfSome index (HoldsMarks board.now.items)) }
{
    if are_few(board) {
        return Ok(None);
    }
    Ok(Some(index_marks(alloc, board)?))
}

/// The facts of all items of the board, by id. Each is asked only against the areas and bodies near it, and the class of each
/// net is found once. Only running out of memory refuses it.
pub fn all_facts(alloc: Global, board: &Board, classes: &Classes) -> Result<FactsById, AllocError>
    ensures { IfOk result (HasFacts board.now classes.now) }
{
    let index = index_if(alloc, board)?;
    let mut all = FactsById::with_reserved(alloc, slots_of(board))?;
    put_all(alloc, board, classes, index.as_ref(), &mut all)?;
    Ok(all)
}
