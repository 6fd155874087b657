//! Equal boards, in memory of their own.

ghost use Rattle.std.specs.Prelude.{◌≡◌, ◌++◌, ◌∷◌, [], IfOk, OnOk, None, map, nat_eq, Vec, ℕ};
ghost use Rattle.std.specs.Map.{lookup};
ghost use Rattle.std.specs.declared.alloc.Global.{Global};
ghost use Rattle.board_items.specs.BoardIterators.{nets_left};
ghost use Rattle.board_items.specs.Boards.{AreDistinct};

use crate::board::Board;
use crate::walk::BoardNets;
use drc_io::Name;
use indexmap::IndexMap;
use one_item::Item;
use std::alloc::{AllocError, Global};

fn copy_slot(slot: &Option<Item>) -> Result<Option<Item>, AllocError>
    ensures { IfOk result (λ copy. copy ≡ slot.now) }
{
    match slot {
        None => Ok(None),
        Some(item) => Ok(Some(item.copy()?)),
    }
}

pub(crate) fn copy_slots(
    alloc: Global,
    slots: &[Option<Item>],
) -> Result<Vec<Option<Item>>, AllocError>
    ensures { IfOk result (λ copy. copy.items ≡ slots.now) }
{
    let mut list = Vec::with_capacity(alloc, slots.len())?;
    for slot in slots {
        list.push(copy_slot(slot)?)?;
    }
    Ok(list)
}

/// The ids of each net.
pub(crate) fn copy_ids(alloc: Global, of_nets: &[Vec<u32>]) -> Result<Vec<Vec<u32>>, AllocError>
    ensures { IfOk result (λ copy. map (λ (v : Vec ℕ Global). v.items) copy.items ≡ map
        (λ (v : Vec ℕ Global). v.items) of_nets.now) }
{
    let mut list = Vec::with_capacity(alloc, of_nets.len())?;
    for ids in of_nets {
        list.push(Vec::from_slice(alloc, ids)?)?;
    }
    Ok(list)
}

/// Puts a net with an equal name behind the others, none of which has its number.
fn push_net(names: &mut IndexMap<u32, Name>, net: u32, name: &Name) -> Result<(), AllocError>
    requires { lookup (nat_eq net) names.old.entries ≡ None }
    ensures { OnOk result (names.new.entries ≡ names.old.entries ++ (net, name.now) ∷ []) }
{
    let copy = name.copy()?;
    drop(names.insert(net, copy)?);
    Ok(())
}

/// The names of nets, no two of which have one number.
pub(crate) fn copy_nets(
    alloc: Global,
    nets: BoardNets<'_>,
    count: usize,
) -> Result<IndexMap<u32, Name>, AllocError>
    requires { AreDistinct (nets_left nets) }
    ensures { IfOk result (λ copy. copy.entries ≡ nets_left nets.entry) }
{
    let mut names = IndexMap::with_capacity(alloc, count)?;
    for (net, name) in nets {
        if let Err(error) = push_net(&mut names, net, name) {
            drop(names);
            return Err(error);
        }
    }
    Ok(names)
}

impl Board {
    /// An equal board.
    pub fn copy(&self) -> Result<Board, AllocError>
        ensures { IfOk result (λ copy. copy ≡ self.now) }
    {
        let alloc = *self.slots.allocator();
        let list = self.names.as_slice();
        let nets = BoardNets { nets: list };
        let tags = Vec::from_slice(alloc, &self.tags)?;
        let units = Vec::from_slice(alloc, &self.units)?;
        let marks = Vec::from_slice(alloc, &self.marks)?;
        let notes = Vec::from_slice(alloc, &self.notes)?;
        let of_nets = copy_ids(alloc, &self.of_nets)?;
        let slots = copy_slots(alloc, &self.slots)?;
        let names = copy_nets(alloc, nets, self.names.len())?;
        Ok(Board {
            copper: self.copper,
            names,
            of_nets,
            slots,
            tags,
            units,
            in_order: self.in_order,
            live: self.live,
            marks,
            notes,
            next_unit: self.next_unit,
        })
    }
}
