//! Boards.

ghost use Rattle.std.specs.Prelude.{◌≡◌, ◌<◌, true, false, None, Some, Err, ◌≢◌, not, nat_eq, filter, ◌&&◌, ◌++◌, ◌∷◌, [], IfOk, IfErr, OnOk, OnErr, IfSome, length, vec_len, vec_capacity};
ghost use Rattle.std.specs.Option.{option_copied};
ghost use Rattle.std.specs.List.{list_all};
ghost use Rattle.plain_types.specs.Limits.{AreCounted};
ghost use Rattle.copper_layers.specs.Layers.{is_within};
ghost use Rattle.one_item.specs.ItemParts.{parts_of};
ghost use Rattle.board_items.specs.ItemRefusals.{refusal_of, reason_in, capacity_of};
ghost use Rattle.board_items.specs.Boards.{PlainBoard, IsSound, empty_board, name_of, with_net, item_at, with_item, is_admitted, marks_of, ids_of_net};
ghost use Rattle.board_items.specs.UnitMoves.{unit_stays, IsMoved, HaveFirstPoints};
ghost use Rattle.board_items.specs.ItemSlots.{present, without_id};
ghost use Rattle.board_items.specs.ItemNotes.{notes_of, body_of};
ghost use Rattle.board_items.specs.Units.{without_unit, found_of};
ghost use Rattle.board_items.specs.Tags.{tag_of};
ghost use Rattle.board_items.specs.BoardIterators.{items_left, unit_left, nets_left};

use crate::back::reserve_one;
use crate::found::Found;
use crate::moves::{shift_slots, slots_stay};
use crate::notes::{goes_on, last_body};
use crate::places::places_in;
use crate::slots::{drop_id, drop_if, item_at};
use crate::tags::tag_of;
use crate::units::found_of;
use crate::walk::{BoardIter, BoardNets, UnitIter};
use board_errors::ItemError;
use copper_layers::LayerSet;
use drc_io::Name;
use indexmap::IndexMap;
use one_item::{Item, Nm, Part, Step, is_near};
use plain_types::MOST_ITEMS;
use std::alloc::{AllocError, Global};
use std::marker::Model;

/// All ids and unit numbers are below this.
const LAST: u32 = 4_294_967_295;

/// A board: the layers of its copper, its nets, and at most 200,000 items. Contracts see it as plain lists.
///
/// Ids rise along the list of items, and neither an id nor a unit number is ever given again.
#[derive(Drop)]
pub struct Board {
    pub(crate) copper: LayerSet,
    pub(crate) names: IndexMap<u32, Name>,
    // of each net, in the order of the names, the ids of its items
    pub(crate) of_nets: Vec<Vec<u32>>,
    // slot k is for the id k, and is empty once its item was taken out
    pub(crate) slots: Vec<Option<Item>>,
    // of each slot the tag of its item, by which names are sought; it stays when the item is taken out
    pub(crate) tags: Vec<u32>,
    // of each slot the unit of its item, which stays too
    pub(crate) units: Vec<u32>,
    // whether no unit stands behind a greater one
    pub(crate) in_order: bool,
    // how many are full
    pub(crate) live: usize,
    pub(crate) marks: Vec<u32>,
    pub(crate) notes: Vec<u32>,
    pub(crate) next_unit: u32,
}

impl Model for Board {
    ghost use Rattle.std.specs.Prelude.{length};
    ghost use Rattle.board_items.specs.Boards.{PlainBoard};
    ghost use Rattle.board_items.specs.BoardCaches.{IsWholeBoard};
    ghost use Rattle.board_items.specs.ItemSlots.{present};

    ghost Value = { PlainBoard };

    ghost view = { λ b. record { copper = b.copper; nets = b.names.entries; items = present 0 b.slots.items; next_id = length b.slots.items; next_unit = b.next_unit } };

    ghost invariant = { λ b. IsWholeBoard (record { copper = b.copper; nets = b.names.entries; items = present 0 b.slots.items; next_id = length b.slots.items; next_unit = b.next_unit }) b.marks.items b.notes.items b.of_nets.items b.live b.slots.items b.tags.items b.units.items b.in_order };
}

/// Whether all these parts lie on layers of the board.
fn are_within(parts: &[Part], copper: LayerSet) -> bool
    ensures { result ≡ list_all (λ part. is_within part.layers copper) parts.now }
{
    parts.iter().all(|part| part.layers.is_within(copper))
}

/// Whether all parts of the item lie on layers of the board.
fn has_layers_of(copper: LayerSet, item: &Item) -> bool
    ensures { result ≡ list_all (λ part. is_within part.layers copper) (parts_of item.now) }
{
    let (first, second) = item.what.parts();
    let drilled = match &item.hole {
        None => true,
        Some(hole) => hole.layers.is_within(copper),
    };
    are_within(item.copper.as_slice(), copper)
        && drilled
        && are_within(first, copper)
        && are_within(second, copper)
}

/// The names of the nets of a new board: net 0 alone, whose name is empty.
fn first_names(alloc: Global) -> Result<IndexMap<u32, Name>, AllocError>
    ensures { IfOk result (λ names. names.entries ≡ (0, []) ∷ []) }
{
    let mut names = IndexMap::new(alloc);
    match names.insert(0, Name::of(Vec::new(alloc))) {
        Ok(before) => {
            drop(before);
            Ok(names)
        }
        Err(error) => {
            drop(error);
            drop(names);
            Err(AllocError)
        }
    }
}

impl Board {
    /// A board with these copper layers, and with no net but net 0, whose name is empty.
    pub fn new(alloc: Global, copper: LayerSet) -> Result<Board, AllocError>
        ensures { IfOk result (λ board. board ≡ empty_board copper) }
    {
        let names = first_names(alloc)?;
        let mut of_nets = Vec::new(alloc);
        if let Err(error) = of_nets.push(Vec::new(alloc)) {
            drop(error);
            drop(of_nets);
            drop(names);
            return Err(AllocError);
        }
        Ok(Board {
            copper,
            names,
            of_nets,
            slots: Vec::new(alloc),
            tags: Vec::new(alloc),
            units: Vec::new(alloc),
            in_order: true,
            live: 0,
            marks: Vec::new(alloc),
            notes: Vec::new(alloc),
            next_unit: 0,
        })
    }

    /// Sets the copper layers of a board that has none yet. It takes no memory.
    ///
    /// A reader may meet items before the list of layers. Their parts lie on no copper layer, so they may stay.
    pub fn set_copper(&mut self, copper: LayerSet)
        requires { self.old.copper.bits ≡ 0 }
        ensures { self.new ≡ record self.old { copper = copper } }
    {
        self.copper = copper;
    }

    /// Declares a net. Nothing changes where the number was declared before.
    pub fn declare(&mut self, net: u32, name: Name) -> Result<(), AllocError>
        ensures ok { OnOk result (self.new ≡ with_net self.old net name) }
        ensures err { OnErr result (self.new ≡ self.old) }
    {
        if self.names.contains_key(&net) {
            return Ok(());
        }
        self.of_nets.reserve(1)?;
        self.names.insert(net, name)?;
        let none = Vec::new(*self.slots.allocator());
        self.of_nets.push_reserved(none);
        Ok(())
    }

    /// Asks for room for so many more items in the rows that have an entry for each item, so that `add` has to ask less
    /// often. The board stays as it was.
    ///
    /// That is all that is proved. No clause says how much room there is then, and none says that `add` takes no memory:
    /// what is proved of `add` does not depend on room that was made before.
    pub fn reserve(&mut self, more: usize) -> Result<(), AllocError>
        ensures { self.new ≡ self.old }
    {
        self.tags.reserve(more)?;
        self.units.reserve(more)?;
        self.slots.reserve(more)
    }

    /// Appends an item and gives its id, one above the greatest that was ever given, or 0.
    ///
    /// Its refusals are those of `ItemError`, tested in that order. After each of them the board is as it was.
    // Inlined, as is what makes an item, so that the item is made in its slot.
    #[inline(always)]
    pub fn add(&mut self, item: Item) -> Result<u32, ItemError>
        requires { item.unit < 4294967295 }
        ensures refused { refusal_of self.old item ≡ reason_in result }
        ensures id { IfOk result (λ id. id ≡ self.old.next_id) }
        ensures added { OnOk result (self.new ≡ with_item self.old item) }
        ensures unchanged { OnErr result (self.new ≡ self.old) }
    {
        if let Err(error) = self.admit(&item) {
            drop(item);
            return Err(error);
        }
        Ok(self.push_admitted(item)?)
    }

    /// Appends an item that the board takes, and gives its id, one above the greatest that was ever given, or 0.
    ///
    /// That the board takes it was tested before: its position lies there, its net is declared, the board has all its layers,
    /// and there is room for it. Only running out of memory refuses it, and the board is then as it was.
    #[inline(always)]
    pub fn push_admitted(&mut self, item: Item) -> Result<u32, AllocError>
        requires unit { item.unit < 4294967295 }
        requires admitted { is_admitted self.old item ≡ true }
        requires spare_capacity { 0 < capacity_of self.old }
        ensures id { IfOk result (λ id. id ≡ self.old.next_id) }
        ensures added { OnOk result (self.new ≡ with_item self.old item) }
        ensures unchanged { OnErr result (self.new ≡ self.old) }
    {
        let Some(place) = self.names.get_index_of(&item.net) else {
            // The net of such an item is declared.
            unreachable!()
        };
        let next_unit = self.next_unit.max(item.unit + 1);
        let in_order = goes_on(self.in_order, &self.units, item.unit);
        let of_net = &mut self.of_nets[place];
        let tags = &mut self.tags;
        let units = &mut self.units;
        let marks = &mut self.marks;
        let notes = &mut self.notes;
        let id = push_slot(&mut self.slots, tags, units, marks, notes, of_net, item)?;
        self.in_order = in_order;
        self.live += 1;
        self.next_unit = next_unit;
        Ok(id)
    }

    /// Whether the item may be added, and else the first reason why not.
    fn admit(&self, item: &Item) -> Result<(), ItemError>
        ensures refused { refusal_of self.now item.now ≡ reason_in result }
        ensures admitted { OnOk result (is_admitted self.now item.now ≡ true) }
        ensures spare_capacity { OnOk result (0 < capacity_of self.now) }
        ensures only { result ≢ Err ItemError.OutOfMemory }
    {
        if !(is_near(item.x) && is_near(item.y)) {
            return Err(ItemError::OutOfBoard);
        }
        if !self.names.contains_key(&item.net) {
            return Err(ItemError::UnknownNet);
        }
        if !has_layers_of(self.copper, item) {
            return Err(ItemError::UnknownLayer);
        }
        if self.left() == 0 {
            return Err(ItemError::TooMany);
        }
        Ok(())
    }

    /// Removes every item that carries the unit's number. It takes no memory.
    pub fn remove(&mut self, unit: u32)
        ensures { self.new ≡ without_unit self.old unit }
    {
        let places = self.places_of(unit);
        for id in places.from..places.end {
            self.drop_if_of(id, unit);
        }
    }

    /// The id that is given next: one above the greatest of any item ever added, 0 at first.
    pub fn next_id(&self) -> u32
        ensures slots { result ≡ self.now.next_id }
        ensures sound { IsSound self.now }
    {
        self.slots.len() as u32
    }

    /// Takes the item with this id out if it is of the unit.
    fn drop_if_of(&mut self, id: u32, unit: u32)
        requires { id < self.old.next_id }
        ensures { self.new ≡ record self.old {
          items = filter
              (λ entry. not (nat_eq entry.0 id && nat_eq entry.1.unit unit)) self.old.items;
        } }
    {
        if self.units[id as usize] == unit {
            drop(self.take_out(id));
        }
    }

    /// Takes the item with this id out.
    pub(crate) fn take_out(&mut self, id: u32) -> Option<Item>
        ensures found { result ≡ item_at self.old.items id }
        ensures taken { self.new ≡ record self.old { items = without_id id self.old.items } }
    {
        let item = item_at(&self.slots, id)?;
        let is_mark = item.what.is_mark();
        let is_note = item.what.is_note();
        let place = self.names.get_index_of(&item.net)?;
        drop_id(&mut self.of_nets[place], id);
        drop_if(&mut self.marks, id, is_mark);
        drop_if(&mut self.notes, id, is_note);
        self.live -= 1;
        self.slots[id as usize].take()
    }

    /// Moves every item of the unit but its notes by `dx` and `dy` nanometres. It takes no memory.
    ///
    /// It refuses with `OutOfBoard` where a position, or a point of a shape, would be more than 500 mm from 0. The board
    /// is then as it was.
    pub fn moved(&mut self, unit: u32, dx: Nm, dy: Nm) -> Result<(), ItemError>
        ensures moved { OnOk result (IsMoved unit dx dy self.old self.new) }
        ensures stays { OnOk result (unit_stays unit dx dy self.old.items ≡ true) }
        ensures refused { IfErr result (λ e. (e ≡ ItemError.OutOfBoard) ×
            (unit_stays unit dx dy self.old.items ≡ false)) }
        ensures unchanged { OnErr result (self.new ≡ self.old) }
    {
        if !self.unit_stays(unit, dx, dy) {
            return Err(ItemError::OutOfBoard);
        }
        self.shift_unit(unit, dx, dy);
        Ok(())
    }

    /// Whether every item of the unit but its notes stays on the board where it is moved by `dx` and `dy` nanometres: its
    /// position and all points of its shapes are then at most 500 mm from 0.
    pub fn unit_stays(&self, unit: u32, dx: Nm, dy: Nm) -> bool
        ensures { result ≡ unit_stays unit dx dy self.now.items }
    {
        let places = places_in(&self.units, self.in_order, unit);
        slots_stay(&self.slots, &self.units, places, unit, Step { dx, dy })
    }

    /// Moves every item of the unit but its notes by `dx` and `dy` nanometres. That each of them stays on the board was tested
    /// before, as [`Board::unit_stays`] does. It takes no memory. The first part of each has points, so that none is moved onto
    /// itself.
    pub fn shift_unit(&mut self, unit: u32, dx: Nm, dy: Nm)
        requires { unit_stays unit dx dy self.old.items ≡ true }
        ensures moved { IsMoved unit dx dy self.old self.new }
        ensures points { HaveFirstPoints unit self.old.items }
    {
        let places = places_in(&self.units, self.in_order, unit);
        shift_slots(&mut self.slots, &self.units, places, unit, Step { dx, dy });
    }

    /// What the name stands for: no unit, several, a part of a footprint, or one unit. It takes no memory. It walks a row of
    /// tags of names, and looks at an item of another name only where the two names have one tag.
    pub fn find(&self, name: &Name) -> Found
        ensures { result ≡ found_of name.now self.now.items }
    {
        found_of(self, name)
    }

    /// The ids of all items of the net, rising; none where the net was not declared.
    pub fn of_net(&self, net: u32) -> &[u32]
        ensures { result.now ≡ ids_of_net net self.now.items }
    {
        match self.names.get_index_of(&net) {
            None => &[],
            Some(place) => &self.of_nets[place],
        }
    }

    /// The item with this id, by one look. It is one that `add` took.
    pub fn get(&self, id: u32) -> Option<&Item>
        ensures found { option_copied result ≡ item_at self.now.items id }
        ensures admitted { IfSome result (λ item. is_admitted self.now item.now ≡ true) }
    {
        item_at(&self.slots, id)
    }

    /// All items with their ids, by rising id.
    pub fn iter(&self) -> BoardIter<'_>
        ensures items { items_left result ≡ self.now.items }
        ensures sound { IsSound self.now }
    {
        BoardIter {
            slots: &self.slots,
            first: 0,
        }
    }

    /// The items of the unit with their ids, by rising id. It looks at no item of another unit: it walks a row of unit
    /// numbers, and where units rise along the items, as all readers give them, only those of the unit.
    pub fn of_unit(&self, unit: u32) -> UnitIter<'_>
        ensures items { unit_left result ≡ filter (λ entry.
            nat_eq entry.1.unit unit) self.now.items }
        ensures sound { IsSound self.now }
    {
        let places = places_in(&self.units, self.in_order, unit);
        let from = places.from as usize;
        let end = places.end as usize;
        UnitIter {
            slots: &self.slots[from..end],
            units: &self.units[from..end],
            first: places.from,
            unit,
        }
    }

    /// How many more items `add` takes before it answers `TooMany`.
    pub fn left(&self) -> u32
        ensures spare_capacity { result ≡ capacity_of self.now }
        ensures sound { IsSound self.now }
    {
        let places = MOST_ITEMS - self.live;
        (places as u32).min(LAST - self.next_id())
    }

    /// What holds of each board, as a step of a proof. It does nothing.
    pub fn soundness(&self)
        ensures sound { IsSound self.now }
    {
        let _ = &self.live;
    }

    /// The copper layers.
    pub fn copper(&self) -> LayerSet
        ensures { result ≡ self.now.copper }
    {
        self.copper
    }

    /// All nets with their names, in the order in which they were declared; net 0 is the first.
    pub fn nets(&self) -> BoardNets<'_>
        ensures nets { nets_left result ≡ self.now.nets }
        ensures sound { IsSound self.now }
    {
        BoardNets {
            nets: self.names.as_slice(),
        }
    }

    /// One above the greatest unit number of any item that was ever added, or 0.
    pub fn next_unit(&self) -> u32
        ensures { result ≡ self.now.next_unit }
    {
        self.next_unit
    }

    /// The ids of all areas and bodies, rising.
    pub fn marks(&self) -> &[u32]
        ensures { result.now ≡ marks_of self.now.items }
    {
        &self.marks
    }

    /// The ids of all notes, rising.
    pub fn notes(&self) -> &[u32]
        ensures { result.now ≡ notes_of self.now.items }
    {
        &self.notes
    }

    /// The body that stands last before the note among the items of the note's unit: that of the footprint of which the
    /// note speaks. None where there is none, and where no item has the id. Where units rise along the items, as all readers
    /// give them, it looks at none before the unit.
    pub fn body_of(&self, note: u32) -> Option<&Item>
        ensures { option_copied result ≡ body_of self.now note }
    {
        let item = item_at(&self.slots, note)?;
        last_body(&self.slots, &self.units, self.in_order, note, item.unit)
    }

    /// The name of a net; None exactly where the net was not declared.
    pub fn net_name(&self, net: u32) -> Option<&Name>
        ensures { option_copied result ≡ name_of self.now net }
    {
        self.names.get(&net)
    }
}

/// Makes room for one more in each row.
fn make_rows(
    slots: &mut Vec<Option<Item>>,
    tags: &mut Vec<u32>,
    units: &mut Vec<u32>,
) -> Result<(), AllocError>
    ensures slots_stay { slots.new.items ≡ slots.old.items }
    ensures tags_stay { tags.new.items ≡ tags.old.items }
    ensures units_stay { units.new.items ≡ units.old.items }
    ensures slots { OnOk result (vec_len slots.new < vec_capacity slots.new) }
    ensures tags { OnOk result (vec_len tags.new < vec_capacity tags.new) }
    ensures units { OnOk result (vec_len units.new < vec_capacity units.new) }
{
    slots.reserve(1)?;
    tags.reserve(1)?;
    units.reserve(1)
}

/// Makes room for one more in each row and in each list.
fn reserve_each(
    slots: &mut Vec<Option<Item>>,
    tags: &mut Vec<u32>,
    units: &mut Vec<u32>,
    marks: &mut Vec<u32>,
    notes: &mut Vec<u32>,
    of_net: &mut Vec<u32>,
) -> Result<(), AllocError>
    ensures slots_stay { slots.new.items ≡ slots.old.items }
    ensures tags_stay { tags.new.items ≡ tags.old.items }
    ensures units_stay { units.new.items ≡ units.old.items }
    ensures marks_stay { marks.new.items ≡ marks.old.items }
    ensures notes_stay { notes.new.items ≡ notes.old.items }
    ensures of_net_stays { of_net.new.items ≡ of_net.old.items }
    ensures slots { OnOk result (vec_len slots.new < vec_capacity slots.new) }
    ensures tags { OnOk result (vec_len tags.new < vec_capacity tags.new) }
    ensures units { OnOk result (vec_len units.new < vec_capacity units.new) }
    ensures marks { OnOk result (vec_len marks.new < vec_capacity marks.new) }
    ensures notes { OnOk result (vec_len notes.new < vec_capacity notes.new) }
    ensures of_net { OnOk result (vec_len of_net.new < vec_capacity of_net.new) }
{
    make_rows(slots, tags, units)?;
    reserve_one(marks, notes, of_net)
}

/// Appends a slot with the item, its tag and its unit, and its id to those of its net and where it is a mark or a note, or
/// changes nothing. The id is the place of the slot.
#[inline(always)]
fn push_slot(
    slots: &mut Vec<Option<Item>>,
    tags: &mut Vec<u32>,
    units: &mut Vec<u32>,
    marks: &mut Vec<u32>,
    notes: &mut Vec<u32>,
    of_net: &mut Vec<u32>,
    item: Item,
) -> Result<u32, AllocError>
    requires { AreCounted slots.old.items }
    ensures id { IfOk result (λ id. id ≡ length slots.old.items) }
    ensures slots { OnOk result (slots.new.items ≡ slots.old.items ++ Some item ∷ []) }
    ensures tags { OnOk result (tags.new.items ≡ tags.old.items ++ tag_of item.name ∷ []) }
    ensures units { OnOk result (units.new.items ≡ units.old.items ++ item.unit ∷ []) }
    ensures marks { IfOk result (λ id.
        marks.new.items ≡ marks.old.items ++ marks_of ((id, item) ∷ [])) }
    ensures notes { IfOk result (λ id.
        notes.new.items ≡ notes.old.items ++ notes_of ((id, item) ∷ [])) }
    ensures of_net { IfOk result (λ id. of_net.new.items ≡ of_net.old.items ++ id ∷ []) }
    ensures slots_stay { OnErr result (slots.new.items ≡ slots.old.items) }
    ensures tags_stay { OnErr result (tags.new.items ≡ tags.old.items) }
    ensures units_stay { OnErr result (units.new.items ≡ units.old.items) }
    ensures marks_stay { OnErr result (marks.new.items ≡ marks.old.items) }
    ensures notes_stay { OnErr result (notes.new.items ≡ notes.old.items) }
    ensures of_net_stays { OnErr result (of_net.new.items ≡ of_net.old.items) }
{
    let id = slots.len() as u32;
    let tag = tag_of(&item.name);
    let unit = item.unit;
    let is_mark = item.what.is_mark();
    let is_note = item.what.is_note();
    if let Err(error) = reserve_each(slots, tags, units, marks, notes, of_net) {
        drop(item);
        return Err(error);
    }
    // Nothing is refused from here on, so the item is moved once.
    slots.push_reserved(Some(item));
    tags.push_reserved(tag);
    units.push_reserved(unit);
    of_net.push_reserved(id);
    if is_mark {
        marks.push_reserved(id);
    }
    if is_note {
        notes.push_reserved(id);
    }
    Ok(id)
}
