//! The boxes of an index by their ids, so that the box of an item is known without asking the tiles.

ghost use Rattle.std.specs.Prelude.{◌≡◌, ℕ, ◌+◌, ◌≤◌, ◌<◌, [], pos, length, slice_get, Some, IfOk, OnOk, OnErr, IfSome, IfNone, ◌≤ℤ◌, neg_ℤ};
ghost use Rattle.geo_seg.specs.Boxes.{FitsIndex};
ghost use Rattle.box_index.specs.Tiles.{IsRising, placed, without};
ghost use Rattle.box_index.specs.Cuts.{IsCut};
ghost use Rattle.box_index.specs.BoxSlots.{bounds_of, entries_of, far_entries, all_entries, AreFar};

use crate::entry::Entry;
use geo_seg::Bounds;
use std::alloc::{AllocError, Global};
use std::collections::BTreeMap;
use std::marker::Model;
use std::mem::size_of;

/// The sides of a box that an index takes, in half nanometres. They reach at most 2,000,000,000, so 32 bits hold each.
#[derive(Clone, Copy, Drop)]
struct Sides {
    left: i32,
    top: i32,
    right: i32,
    bottom: i32,
}

// A large board has a slot for each of its items.
const _: () = prove!(size_of::<Option<Sides>>() == 20);

/// How long a row of slots may be at first.
const FIRST_SLOTS: usize = 1024;

/// By how much longer it may be for each box that is put in.
const SLOTS_FOR_EACH: usize = 2;

/// The number in 32 bits, into which it fits.
fn narrowed(z: i64) -> i32
    requires from { neg_ℤ (pos 2000000000) ≤ℤ z }
    requires to { z ≤ℤ pos 2000000000 }
    ensures { result ≡ z }
{
    z as i32
}

impl Sides {
    fn of(bounds: Bounds) -> Sides
        requires { FitsIndex bounds }
        ensures { bounds_of result ≡ bounds }
    {
        Sides {
            left: narrowed(bounds.left),
            top: narrowed(bounds.top),
            right: narrowed(bounds.right),
            bottom: narrowed(bounds.bottom),
        }
    }

    fn bounds(self) -> Bounds
        ensures { result ≡ bounds_of self }
    {
        Bounds {
            left: self.left as i64,
            top: self.top as i64,
            right: self.right as i64,
            bottom: self.bottom as i64,
        }
    }
}

/// Appends empty slots until there are that many.
fn fill_up(slots: &mut Vec<Option<Sides>>, count: usize) -> Result<(), AllocError>
    ensures filled { OnOk result (count ≤ length slots.new.items) }
    ensures within { (bound : ℕ) → length slots.old.items ≤ bound → count ≤ bound
        → length slots.new.items ≤ bound }
    ensures same { entries_of slots.new.items ≡ entries_of slots.old.items }
{
    'fill: while slots.len() < count {
        slots.push(None)?;
    }
    Ok(())
}

/// Puts a box into a slot that is there.
fn put(slots: &mut [Option<Sides>], id: u32, sides: Sides)
    requires { id < length slots.old }
    ensures { entries_of slots.new ≡ placed (record { id = id; bounds = bounds_of sides })
        (entries_of slots.old) }
{
    slots[id as usize] = Some(sides);
}

/// Puts a box into its slot. Where the row is too short, it is made long enough.
fn put_near(slots: &mut Vec<Option<Sides>>, id: u32, sides: Sides) -> Result<(), AllocError>
    ensures ok { OnOk result (entries_of slots.new.items
        ≡ placed (record { id = id; bounds = bounds_of sides }) (entries_of slots.old.items)) }
    ensures unchanged { OnErr result (entries_of slots.new.items ≡ entries_of slots.old.items) }
    ensures within { (bound : ℕ) → length slots.old.items ≤ bound → id < bound
        → length slots.new.items ≤ bound }
{
    fill_up(slots, id as usize + 1)?;
    put(slots, id, sides);
    Ok(())
}

/// Puts a box among the far ones.
fn put_far(far: &mut BTreeMap<u32, Sides>, id: u32, sides: Sides) -> Result<(), AllocError>
    requires { IsRising (far_entries far.old.entries) }
    ensures ok { OnOk result (far_entries far.new.entries
        ≡ placed (record { id = id; bounds = bounds_of sides }) (far_entries far.old.entries)) }
    ensures unchanged { OnErr result (far.new.entries ≡ far.old.entries) }
{
    far.insert(id, sides)?;
    Ok(())
}

/// Empties a slot, and gives what was in it.
fn take(slots: &mut [Option<Sides>], id: u32) -> Option<Entry>
    requires { id < length slots.old }
    ensures entries { entries_of slots.new ≡ without id (entries_of slots.old) }
    ensures found { IfSome result (λ e. IsCut (entries_of slots.old) e (entries_of slots.new)) }
    ensures none { IfNone result (entries_of slots.new ≡ entries_of slots.old) }
{
    match slots[id as usize].take() {
        Some(sides) => Some(Entry {
            id,
            bounds: sides.bounds(),
        }),
        None => None,
    }
}

/// Takes the box of this id out of the far ones.
fn take_far(far: &mut BTreeMap<u32, Sides>, id: u32) -> Option<Entry>
    requires { IsRising (far_entries far.old.entries) }
    ensures entries { far_entries far.new.entries ≡ without id (far_entries far.old.entries) }
    ensures found { IfSome result (λ e. IsCut (far_entries far.old.entries) e
        (far_entries far.new.entries)) }
    ensures none { IfNone result (far_entries far.new.entries ≡ far_entries far.old.entries) }
{
    match far.remove(&id) {
        Some(sides) => Some(Entry {
            id,
            bounds: sides.bounds(),
        }),
        None => None,
    }
}

/// The first of the far boxes, if its id is below the bound.
fn first_below(far: &BTreeMap<u32, Sides>, bound: usize) -> Option<(u32, Sides)>
    requires { IsRising (far_entries far.now.entries) }
    ensures below { IfSome result (λ first. first.0 < bound) }
    ensures first { IfSome result (λ first. slice_get far.now.entries 0 ≡ Some first) }
    ensures none { IfNone result (AreFar bound far.now.entries) }
{
    match far.first_key_value() {
        Some((id, sides)) => {
            if (*id as usize) < bound {
                Some((*id, *sides))
            } else {
                None
            }
        },
        None => None,
    }
}

/// Moves the first of the far boxes into its slot.
fn move_first(
    slots: &mut Vec<Option<Sides>>,
    far: &mut BTreeMap<u32, Sides>,
    first: (u32, Sides),
) -> Result<(), AllocError>
    requires first { slice_get far.old.entries 0 ≡ Some first }
    requires far { AreFar (length slots.old.items) far.old.entries }
    ensures same { all_entries slots.new.items far.new.entries
        ≡ all_entries slots.old.items far.old.entries }
    ensures far { AreFar (length slots.new.items) far.new.entries }
    ensures within { length slots.new.items ≤ first.0 + 1 }
    ensures fewer { OnOk result (length far.new.entries < length far.old.entries) }
{
    let (id, sides) = first;
    fill_up(slots, id as usize)?;
    slots.push(Some(sides))?;
    let _ = far.pop_first();
    Ok(())
}

/// Moves the far boxes of ids below the bound into their slots.
fn move_below(
    slots: &mut Vec<Option<Sides>>,
    far: &mut BTreeMap<u32, Sides>,
    bound: usize,
) -> Result<(), AllocError>
    requires far { AreFar (length slots.old.items) far.old.entries }
    requires within { length slots.old.items ≤ bound }
    ensures same { all_entries slots.new.items far.new.entries
        ≡ all_entries slots.old.items far.old.entries }
    ensures far { AreFar (length slots.new.items) far.new.entries }
    ensures within { length slots.new.items ≤ bound }
    ensures moved { OnOk result (AreFar bound far.new.entries) }
{
    'moves: while let Some(first) = first_below(far, bound) {
        move_first(slots, far, first)?;
    }
    Ok(())
}

/// Puts a box into its slot if its id is below the bound, and among the far ones if it is not. No far box is below the bound.
fn put_either(
    slots: &mut Vec<Option<Sides>>,
    far: &mut BTreeMap<u32, Sides>,
    bound: usize,
    id: u32,
    sides: Sides,
) -> Result<(), AllocError>
    requires far { AreFar bound far.old.entries }
    requires within { length slots.old.items ≤ bound }
    ensures ok { OnOk result (all_entries slots.new.items far.new.entries
        ≡ placed (record { id = id; bounds = bounds_of sides })
        (all_entries slots.old.items far.old.entries)) }
    ensures unchanged { OnErr result (all_entries slots.new.items far.new.entries
        ≡ all_entries slots.old.items far.old.entries) }
    ensures far { AreFar (length slots.new.items) far.new.entries }
    ensures within { length slots.new.items ≤ bound }
{
    if (id as usize) < bound {
        put_near(slots, id, sides)
    } else {
        put_far(far, id, sides)
    }
}

/// Boxes by id. Those of lower ids stand in a row of slots: slot k is for the id k, and it is empty where the id has no box. Each box
/// that is put in pays for two slots, so the row is long enough for dense ids, and no id makes it long by itself: the boxes of ids
/// past that stay in a map until the row may be so long. Contracts see the list of entries by rising id.
#[derive(Drop)]
pub(crate) struct KeptBoxes {
    slots: Vec<Option<Sides>>,
    // the boxes of ids past the row
    far: BTreeMap<u32, Sides>,
    // how long the row may be
    limit: usize,
}

impl Model for KeptBoxes {
    ghost use Rattle.std.specs.Prelude.{List, length, ◌≤◌};
    ghost use Rattle.box_index.specs.declared.entry.Entry.{Entry};
    ghost use Rattle.box_index.specs.BoxSlots.{all_entries, AreFar};

    ghost Value = { List Entry };

    ghost view = { λ k. all_entries k.slots.items k.far.entries };

    ghost invariant = { λ k. (length k.slots.items ≤ k.limit)
        × AreFar (length k.slots.items) k.far.entries };
}

impl KeptBoxes {
    /// No boxes. It takes no memory.
    pub(crate) fn new(alloc: Global) -> KeptBoxes
        ensures { result ≡ [] }
    {
        KeptBoxes {
            slots: Vec::new(alloc),
            far: BTreeMap::new(alloc),
            limit: FIRST_SLOTS,
        }
    }

    /// Equal boxes. Only running out of memory refuses it.
    pub(crate) fn copy(&self) -> Result<KeptBoxes, AllocError>
        ensures { IfOk result (λ copy. copy ≡ self.now) }
    {
        let mut slots = Vec::with_capacity(*self.slots.allocator(), self.slots.len())?;
        slots.extend_from_slice(&self.slots)?;
        Ok(KeptBoxes {
            slots,
            far: self.far.clone()?,
            limit: self.limit,
        })
    }

    /// Puts an entry into its place, in place of that of its id if there is one, or changes nothing. However great the id is, the
    /// row gets no longer than the boxes that were put in so far have paid for.
    pub(crate) fn put(&mut self, entry: Entry) -> Result<(), AllocError>
        requires bounds { FitsIndex entry.bounds }
        ensures ok { OnOk result (self.new ≡ placed entry self.old) }
        ensures unchanged { OnErr result (self.new ≡ self.old) }
    {
        let sides = Sides::of(entry.bounds);
        move_below(&mut self.slots, &mut self.far, self.limit)?;
        put_either(&mut self.slots, &mut self.far, self.limit, entry.id, sides)?;
        self.limit = self.limit.saturating_add(SLOTS_FOR_EACH);
        Ok(())
    }

    /// Takes out the entry of this id, if there is one. It takes no memory.
    pub(crate) fn take_out(&mut self, id: u32) -> Option<Entry>
        ensures entries { self.new ≡ without id self.old }
        ensures found { IfSome result (λ e. IsCut self.old e self.new) }
        ensures none { IfNone result (self.new ≡ self.old) }
    {
        if (id as usize) < self.slots.len() {
            take(&mut self.slots, id)
        } else {
            take_far(&mut self.far, id)
        }
    }
}
