//! Units that are taken out of a board, and put back under the ids that their items had.

ghost use Rattle.std.specs.Prelude.{◌≡◌, true, set, if◌then◌else◌, ◌<◌, ◌≤◌, ◌+◌, ◌++◌, ◌&&◌, [], Some, map, filter, not, nat_eq, length, vec_len, vec_capacity, IfOk, OnOk, IfErr, OnErr};
ghost use Rattle.board_items.specs.Boards.{IsSound, item_at};
ghost use Rattle.std.specs.List.{insert};
ghost use Rattle.board_items.specs.ItemSlots.{UnitsRise};
ghost use Rattle.board_items.specs.Units.{without_unit};
ghost use Rattle.board_items.specs.Back.{kept_entry, entries_of, own_at, id_placed, placed, FitsOne, FitsBack, IsPutBack};
ghost use Rattle.one_item.specs.declared.item.Item.{Item};

use crate::board::Board;
use crate::tags::tag_of;
use one_item::Item;
use std::alloc::AllocError;

/// An item that was taken out of a board, with the id under which it stood there.
#[derive(Drop)]
pub struct Kept {
    pub id: u32,
    pub item: Item,
}

// ---- taken out

impl Board {
    /// Takes every item of the unit out, as `remove` does, and gives them by rising id. After running out of memory the board is
    /// as it was.
    pub fn taken(&mut self, unit: u32) -> Result<Vec<Kept>, AllocError>
        ensures taken { OnOk result (self.new ≡ without_unit self.old unit) }
        ensures items { IfOk result (λ items.
            map kept_entry items.items ≡ entries_of unit self.old.items) }
        ensures unchanged { OnErr result (self.new ≡ self.old) }
    {
        let mut items = Vec::with_capacity(*self.slots.allocator(), self.count_of(unit))?;
        self.take_into(unit, &mut items);
        Ok(items)
    }

    /// How many items the unit has.
    fn count_of(&self, unit: u32) -> usize
        ensures { result ≡ length (entries_of unit self.now.items) }
    {
        let mut count = 0;
        for (_, item) in self.of_unit(unit) {
            let _own = item;
            count += 1;
        }
        count
    }

    /// The unit that stands beside a slot: that of its item.
    fn unit_at(&self, id: u32) -> u32
        requires { id < self.now.next_id }
        ensures own { (item : Item) → item_at self.now.items id ≡ Some item → item.unit ≡ result }
        ensures sound { IsSound self.now }
    {
        self.units[id as usize]
    }

    /// Takes every item of the unit out and appends them.
    fn take_into(&mut self, unit: u32, items: &mut Vec<Kept>)
        requires { vec_len items.old + length (entries_of unit self.old.items)
            ≤ vec_capacity items.old }
        ensures taken { self.new ≡ without_unit self.old unit }
        ensures items { map kept_entry items.new.items ≡ map kept_entry items.old.items ++
            entries_of unit self.old.items }
    {
        let places = self.places_of(unit);
        for id in places.from..places.end {
            self.take_own(id, unit, items);
        }
    }

    /// Takes the item with this id out if it is of the unit, and appends it.
    fn take_own(&mut self, id: u32, unit: u32, items: &mut Vec<Kept>)
        requires id { id < self.old.next_id }
        requires spare_capacity { vec_len items.old + length (own_at id unit self.old.items)
            ≤ vec_capacity items.old }
        ensures taken { self.new ≡ record self.old {
          items = filter
              (λ entry. not (nat_eq entry.0 id && nat_eq entry.1.unit unit)) self.old.items;
        } }
        ensures items { map kept_entry items.new.items ≡ map kept_entry items.old.items ++
            own_at id unit self.old.items }
        ensures len { vec_len items.new
            ≡ vec_len items.old + length (own_at id unit self.old.items) }
        ensures capacity { vec_capacity items.new ≡ vec_capacity items.old }
    {
        if self.unit_at(id) != unit {
            return;
        }
        let Some(item) = self.take_out(id) else {
            return;
        };
        items.push_reserved(Kept { id, item });
    }
}

// ---- put back

/// Where an id stands among others: before the first that is greater.
fn place_of(ids: &[u32], id: u32) -> usize
    ensures within { result ≤ length ids.now }
    ensures place { insert ids.now result id ≡ id_placed id ids.now }
{
    for place in 0..ids.len() {
        if id < ids[place] {
            return place;
        }
    }
    ids.len()
}

/// Puts an id among others, for which there is room.
fn put_id(ids: &mut Vec<u32>, id: u32)
    requires { vec_len ids.old < vec_capacity ids.old }
    ensures { ids.new.items ≡ id_placed id ids.old.items }
{
    let place = place_of(ids, id);
    let put = ids.insert(place, id).is_ok();
    prove!(put);
}

/// Puts an id among others where it belongs there, and for which there is room.
fn put_if(ids: &mut Vec<u32>, id: u32, listed: bool)
    requires { vec_len ids.old < vec_capacity ids.old }
    ensures { ids.new.items ≡ (if listed then id_placed id ids.old.items else ids.old.items) }
{
    if listed {
        put_id(ids, id);
    }
}

/// Makes room for one more in each list.
pub(crate) fn reserve_one(
    marks: &mut Vec<u32>,
    notes: &mut Vec<u32>,
    ids: &mut Vec<u32>,
) -> Result<(), AllocError>
    ensures marks_stay { marks.new.items ≡ marks.old.items }
    ensures notes_stay { notes.new.items ≡ notes.old.items }
    ensures ids_stay { ids.new.items ≡ ids.old.items }
    ensures marks { OnOk result (vec_len marks.new < vec_capacity marks.new) }
    ensures notes { OnOk result (vec_len notes.new < vec_capacity notes.new) }
    ensures ids { OnOk result (vec_len ids.new < vec_capacity ids.new) }
{
    marks.reserve(1)?;
    notes.reserve(1)?;
    ids.reserve(1)
}

/// Puts the unit of an item into the row of units. Whether the row is still known to be in order.
fn put_unit(in_order: bool, units: &mut Vec<u32>, id: u32, unit: u32) -> bool
    requires { id < vec_len units.old }
    ensures row { units.new.items ≡ set units.old.items id unit }
    ensures rise { (in_order ≡ true → UnitsRise 0 units.old.items) → result ≡ true →
        UnitsRise 0 units.new.items }
{
    let same = units[id as usize] == unit;
    units[id as usize] = unit;
    in_order && same
}

impl Board {
    /// Puts items back under the ids at which they stood, and leaves the list empty. It takes no memory but for the lists of
    /// ids. After running out of memory the board and the list are as they were.
    ///
    /// Their ids rise, were given before and are not in the board; they are of one unit, which was given before and is not
    /// in the board; each of them may stand there, and the board holds at most 200,000 items with them.
    pub fn put_back(&mut self, items: &mut Vec<Kept>) -> Result<(), AllocError>
        requires fits { FitsBack self.old (map kept_entry items.old.items) }
        ensures back { OnOk result (IsPutBack (map kept_entry items.old.items) self.old self.new) }
        ensures empty { OnOk result (items.new.items ≡ []) }
        ensures unchanged { OnErr result (self.new ≡ self.old) }
        ensures kept { OnErr result (items.new.items ≡ items.old.items) }
    {
        // what holds of each board is known from here on
        let _count = self.next_id();
        'items: while let Some(kept) = items.pop() {
            let unit = kept.item.unit;
            if let Err(kept) = self.put_one(kept) {
                items.push_reserved(kept);
                self.take_into(unit, items);
                return Err(AllocError);
            }
        }
        Ok(())
    }

    /// Puts one item back, or gives it back where memory runs out.
    fn put_one(&mut self, kept: Kept) -> Result<(), Kept>
        requires { FitsOne self.old (kept_entry kept) }
        ensures put { OnOk result (self.new ≡ record self.old {
          items = placed (kept_entry kept)
              self.old.items;
        }) }
        ensures same { IfErr result (λ other. other ≡ kept) }
        ensures unchanged { OnErr result (self.new ≡ self.old) }
    {
        let Some(place) = self.names.get_index_of(&kept.item.net) else {
            return Err(kept);
        };
        let ids = &mut self.of_nets[place];
        if reserve_one(&mut self.marks, &mut self.notes, ids).is_err() {
            return Err(kept);
        }
        let id = kept.id;
        let unit = kept.item.unit;
        put_id(ids, id);
        put_if(&mut self.marks, id, kept.item.what.is_mark());
        put_if(&mut self.notes, id, kept.item.what.is_note());
        let in_order = put_unit(self.in_order, &mut self.units, id, unit);
        self.in_order = in_order;
        self.tags[id as usize] = tag_of(&kept.item.name);
        self.live += 1;
        drop(self.slots[id as usize].replace(kept.item));
        Ok(())
    }
}
