//! Facts by id.

ghost use Rattle.std.specs.Prelude.{◌≡◌, ◌≤◌, ◌<◌, ℕ, length, None, Some, IfOk, OnOk, OnErr};
ghost use Rattle.std.specs.Option.{option_copied};
ghost use Rattle.rule_pick.specs.ById.{facts_at, IsPut, HasSameFacts};

use crate::facts::Facts;
use std::alloc::{AllocError, Global};
use std::marker::Model;

/// The facts of items by their ids. Contracts see it as a row of slots, slot k for the id k; `facts_at` of `specs/ById` says which
/// facts an id has.
#[derive(Debug, Drop)]
pub struct FactsById {
    slots: Vec<Option<Facts>>,
}

impl Model for FactsById {
    ghost use Rattle.std.specs.Prelude.{List, Option};
    ghost use Rattle.rule_pick.specs.declared.facts.Facts.{Facts};

    ghost Value = { List (Option Facts) };

    ghost view = { λ facts. facts.slots.items };
}

/// The facts in the slot, if there is such a slot.
#[tactic(auto, unfolding(crate::specs::ById::facts_at))]
fn facts_at(slots: &[Option<Facts>], place: usize) -> Option<&Facts>
    ensures { option_copied result ≡ facts_at slots.now place }
{
    match slots.get(place) {
        Some(Some(facts)) => Some(facts),
        _ => None,
    }
}

/// Appends empty slots until there are that many.
fn fill_up(slots: &mut Vec<Option<Facts>>, count: usize) -> Result<(), AllocError>
    ensures filled { OnOk result (count ≤ length slots.new.items) }
    ensures same { HasSameFacts slots.old.items slots.new.items }
{
    'fill: while slots.len() < count {
        slots.push(None)?;
    }
    Ok(())
}

/// Puts facts into a slot that is there.
fn put(slots: &mut [Option<Facts>], place: usize, facts: Facts)
    requires { place < length slots.old }
    ensures { IsPut place (Some facts) slots.old slots.new }
{
    slots[place] = Some(facts);
}

/// Empties a slot, and gives what was in it.
fn take(slots: &mut [Option<Facts>], place: usize) -> Option<Facts>
    ensures taken { result ≡ facts_at slots.old place }
    ensures rest { IsPut place None slots.old slots.new }
{
    if place < slots.len() {
        slots[place].take()
    } else {
        None
    }
}

fn copy_slot(slot: &Option<Facts>) -> Result<Option<Facts>, AllocError>
    ensures { IfOk result (λ copy. copy ≡ slot.now) }
{
    match slot {
        None => Ok(None),
        Some(facts) => Ok(Some(facts.copy()?)),
    }
}

impl FactsById {
    /// No facts. It takes no memory.
    pub fn new(alloc: Global) -> FactsById
        ensures { (id : ℕ) → facts_at result id ≡ None }
    {
        FactsById {
            slots: Vec::new(alloc),
        }
    }

    /// The facts in these slots, slot k for the id k. It takes no memory.
    pub fn of(slots: Vec<Option<Facts>>) -> FactsById
        ensures { result ≡ slots.items }
    {
        FactsById { slots }
    }

    /// No facts, with room for those of all ids below this number.
    pub fn with_reserved(alloc: Global, ids: usize) -> Result<FactsById, AllocError>
        ensures { IfOk result (λ facts. (id : ℕ) → facts_at facts id ≡ None) }
    {
        Ok(FactsById {
            slots: Vec::with_capacity(alloc, ids)?,
        })
    }

    /// The facts of the id, by one look; None where it has none.
    pub fn get(&self, id: u32) -> Option<&Facts>
        ensures { option_copied result ≡ facts_at self.now id }
    {
        facts_at(&self.slots, id as usize)
    }

    /// Gives the id these facts, in place of those that it had. Where memory runs out all ids have the facts that they had.
    /// Behind the greatest id so far it takes room for all ids between.
    #[inline(always)]
    pub fn insert(&mut self, id: u32, facts: Facts) -> Result<(), AllocError>
        ensures put { OnOk result (IsPut id (Some facts) self.old self.new) }
        ensures same { OnErr result (HasSameFacts self.old self.new) }
    {
        let place = id as usize;
        if place == self.slots.len() {
            self.slots.push(Some(facts))?;
            return Ok(());
        }
        fill_up(&mut self.slots, place + 1)?;
        put(&mut self.slots, place, facts);
        Ok(())
    }

    /// Takes the facts of the id out, if it has some. It takes no memory.
    pub fn remove(&mut self, id: u32) -> Option<Facts>
        ensures taken { result ≡ facts_at self.old id }
        ensures rest { IsPut id None self.old self.new }
    {
        take(&mut self.slots, id as usize)
    }

    /// Equal facts of the same ids.
    pub fn copy(&self) -> Result<FactsById, AllocError>
        ensures { IfOk result (λ copy. copy ≡ self.now) }
    {
        let mut slots = Vec::with_capacity(*self.slots.allocator(), self.slots.len())?;
        for slot in self.slots.iter() {
            slots.push(copy_slot(slot)?)?;
        }
        Ok(FactsById { slots })
    }
}
