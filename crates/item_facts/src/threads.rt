//! The facts of all items, found side by side.

ghost use Rattle.std.specs.Prelude.{◌≡◌, ◌<◌, true, ℕ, length, Some, IsSome, IfOk, IfSome};
ghost use Rattle.one_item.specs.declared.item.Item.{Item as PlainItem};
ghost use Rattle.board_items.specs.Boards.{item_at};
ghost use Rattle.net_class.specs.ClassValues.{plain_class};
ghost use Rattle.rule_pick.specs.AllFacts.{HasFacts};
ghost use Rattle.rule_pick.specs.ById.{facts_at};
ghost use Rattle.rule_pick.specs.FactsOf.{AreFactsOf, AreFacts, class_of_net};
ghost use Rattle.item_facts.specs.Known.{AreKnown};
ghost use Rattle.item_facts.specs.FactSlots.{AreReady, AreEmpty, AreFilled};

use crate::all::{all_facts, facts_among, known_class};
use crate::classes::class_of_net;
use crate::near::{index_marks, marks_near};
use board_items::{Board, Item};
use box_index::TileIndex;
use indexmap::IndexMap;
use net_class::{Class, Classes};
use rayon::prelude::*;
use rule_pick::{Facts, FactsById};
use std::alloc::{AllocError, Global};
use std::thread::Threads;

/// From how many slots on threads are worth their start.
const MANY: u32 = 2_000;

/// The classes of all declared nets.
fn classes_of<'c>(
    alloc: Global,
    board: &Board,
    classes: &'c Classes,
) -> Result<IndexMap<u32, &'c Class>, AllocError>
    ensures { IfOk result (AreKnown classes.now board.now) }
{
    let mut known = IndexMap::new(alloc);
    for (net, _) in board.nets() {
        known_class(&mut known, board, classes, net)?;
    }
    Ok(known)
}

/// The class of a net, which was mostly sought before.
fn class_in<'c>(
    known: &IndexMap<u32, &'c Class>,
    board: &Board,
    classes: &'c Classes,
    net: u32,
) -> &'c Class
    requires { AreKnown classes.now board.now known.now }
    ensures { plain_class result.now ≡ class_of_net classes.now board.now net }
{
    match known.get(&net) {
        Some(class) => *class,
        None => class_of_net(board, classes, net),
    }
}

/// What facts are found by. The classes are those of all declared nets.
#[derive(Clone, Copy)]
struct Sources<'a, 'c> {
    alloc: Global,
    board: &'a Board,
    classes: &'c Classes,
    index: &'a TileIndex,
    known: &'a IndexMap<u32, &'c Class>,
}

/// The facts of an item.
fn facts_of(sources: &Sources<'_, '_>, item: &Item) -> Result<Facts, AllocError>
    requires { AreReady sources.now }
    ensures { IfOk result (AreFactsOf sources.now.board.now sources.now.classes.now item.now) }
{
    let class = class_in(sources.known, sources.board, sources.classes, item.net);
    let mut ids = Vec::new(sources.alloc);
    marks_near(sources.board, sources.index, item, &mut ids)?;
    facts_among(sources.alloc, sources.board, class, item, &ids)
}

/// The facts of the item of an id; none where there is no such item, or memory runs out.
fn facts_of_id(sources: &Sources<'_, '_>, id: u32) -> Option<Facts>
    requires { AreReady sources.now }
    ensures { IfSome result (AreFacts sources.now.board.now sources.now.classes.now id) }
{
    match sources.board.get(id) {
        None => None,
        Some(item) => facts_of(sources, item).ok(),
    }
}

/// Fills the slots of all ids for which there are items, by as many threads as there are processors.
fn fill(rt: &(impl Threads + Sync), sources: &Sources<'_, '_>, slots: &mut [Option<Facts>])
    requires ready { AreReady sources.now }
    requires few { length slots.old < 4294967296 }
    ensures { AreFilled sources.now.board.now sources.now.classes.now slots.old slots.new }
{
    par_for_each_mut(
        rt,
        slots,
        |place: usize, slot: &mut Option<Facts>|
            requires ready { AreReady sources.now }
            requires few { place < 4294967296 }
            ensures { IfSome slot.new
                (AreFacts sources.entry.now.board.now sources.entry.now.classes.now place) }
        {
            *slot = facts_of_id(sources, place as u32);
        },
    );
}

/// So many empty slots.
fn empty_slots(alloc: Global, count: u32) -> Result<Vec<Option<Facts>>, AllocError>
    ensures { IfOk result (λ slots. AreEmpty count slots.items) }
{
    let mut slots = Vec::with_capacity(alloc, count as usize)?;
    for _ in 0..count {
        slots.push(None)?;
    }
    Ok(slots)
}

/// Whether each item has facts. Only a yes is sure.
fn have_all(board: &Board, facts: &FactsById) -> bool
    ensures { result ≡ true → (id : ℕ) (item : PlainItem) → item_at board.now.items id ≡ Some item
        → IsSome (facts_at facts.now id) }
{
    for (id, _) in board.iter() {
        if facts.get(id).is_none() {
            return false;
        }
    }
    true
}

/// The facts of all items of the board, which has so many ids, by as many threads as there are processors.
fn facts_of_all(
    rt: &(impl Threads + Sync),
    sources: &Sources<'_, '_>,
    count: u32,
) -> Result<FactsById, AllocError>
    requires { AreReady sources.now }
    ensures { IfOk result (HasFacts sources.now.board.now sources.now.classes.now) }
{
    let mut slots = empty_slots(sources.alloc, count)?;
    fill(rt, sources, &mut slots);
    let facts = FactsById::of(slots);
    if have_all(sources.board, &facts) {
        Ok(facts)
    } else {
        Err(AllocError)
    }
}

/// The facts of all items of the board, by id: with one worker, or for few items, as `all_facts` finds them, and else by as many threads
/// as there are processors. Only running out of memory refuses it.
pub fn all_facts_by(
    rt: &(impl Threads + Sync),
    alloc: Global,
    workers: u32,
    board: &Board,
    classes: &Classes,
) -> Result<FactsById, AllocError>
    ensures { IfOk result (HasFacts board.now classes.now) }
{
    let count = board.next_id();
    if workers == 1 || count < MANY {
        return all_facts(alloc, board, classes);
    }
    let index = index_marks(alloc, board)?;
    let known = classes_of(alloc, board, classes)?;
    let sources = Sources {
        alloc,
        board,
        classes,
        index: &index,
        known: &known,
    };
    facts_of_all(rt, &sources, count)
}
