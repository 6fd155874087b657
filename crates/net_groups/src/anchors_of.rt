//! The anchors of a net.

ghost use Rattle.std.specs.Prelude.{◌≡◌, ◌<◌, ◌^◌, ℕ, true, Option, IfOk, OnOk, All, length};
ghost use Rattle.one_item.specs.Positions.{is_on_board};
ghost use Rattle.board_items.specs.Boards.{IsSound, ids_of_net};
ghost use Rattle.ratsnest.specs.NestOf.{AnchorsRise, GroupsOccur};
ghost use Rattle.net_groups.specs.NetGroups.{AreGroups, HasItem};
ghost use Rattle.net_groups.specs.ConnectedClasses.{Rises};
ghost use Rattle.net_groups.specs.Anchors.{AreAnchors};
ghost use Rattle.net_groups.specs.Numbering.{number_of, AreOwnAdded, AreAdded, AreAnchorsAmong};

use crate::ends::far_end;
use crate::group::Group;
use crate::numbering::number_groups;
use board_items::{Board, Item};
use ratsnest::Anchor;
use std::alloc::{AllocError, Global};

/// Appends the anchors of an item.
fn push_own(anchors: &mut Vec<Anchor>, item: &Item, id: u32, group: u32) -> Result<(), AllocError>
    requires { is_on_board item.now ≡ true }
    ensures { OnOk result (AreOwnAdded item.now id group anchors.old.items anchors.new.items) }
{
    anchors.push(Anchor {
        id,
        number: 0,
        group,
        x: item.x,
        y: item.y,
    })?;
    if let Some(end) = far_end(item) {
        anchors.push(Anchor {
            id,
            number: 1,
            group,
            x: end.x,
            y: end.y,
        })?;
    }
    Ok(())
}

/// Appends the anchors of the item of an id, if its group has a number.
fn push_numbered(
    anchors: &mut Vec<Anchor>,
    board: &Board,
    number: Option<u32>,
    id: u32,
) -> Result<(), AllocError>
    ensures { OnOk result
        ((numbers : ℕ → Option ℕ) → numbers id ≡ number
        → AreAdded board.now.items numbers id anchors.old.items anchors.new.items) }
{
    match (number, board.get(id)) {
        (Some(group), Some(item)) => push_own(anchors, item, id, group),
        _ => Ok(()),
    }
}

/// The anchors of those of the ids whose groups have numbers.
fn anchors_among(
    alloc: Global,
    board: &Board,
    numbers: &[Option<u32>],
    ids: &[u32],
) -> Result<Vec<Anchor>, AllocError>
    requires rises { Rises ids.now }
    requires many { length numbers.now ≡ length ids.now }
    ensures { IfOk result (λ anchors.
        AreAnchorsAmong board.now.items (number_of ids.now numbers.now) ids.now anchors.items) }
{
    // a track has two
    let mut anchors = Vec::with_capacity(alloc, ids.len().saturating_mul(2))?;
    for place in 0..ids.len() {
        push_numbered(&mut anchors, board, numbers[place], ids[place])?;
    }
    Ok(anchors)
}

/// The ids of all items of the net.
fn ids_of(board: &Board, net: u32) -> &[u32]
    ensures ids { result.now ≡ ids_of_net net board.now.items }
    ensures sound { IsSound board.now }
{
    board.soundness();
    board.of_net(net)
}

/// The anchors of a net: those of the members of its groups, by rising id and number, each with the number of its group.
///
/// A track has two anchors, its position and its other end; any other item has its position alone. Only running out of memory refuses
/// it. It takes about as long as the net has items.
pub fn anchors(
    alloc: Global,
    board: &Board,
    net: u32,
    groups: &[Group],
) -> Result<Vec<Anchor>, AllocError>
    requires { AreGroups board.now net groups.now }
    ensures anchors { IfOk result (λ anchors. AreAnchors board.now net groups.now anchors.items) }
    ensures rise { IfOk result (λ anchors. AnchorsRise anchors.items) }
    ensures occur { IfOk result (λ anchors. GroupsOccur anchors.items) }
    ensures few { IfOk result (λ anchors. length anchors.items < 2 ^ 32) }
    ensures placed { IfOk result (λ anchors.
        All (λ anchor. HasItem board.now anchor.id) anchors.items) }
{
    let ids = ids_of(board, net);
    let numbers = number_groups(alloc, ids, groups)?;
    anchors_among(alloc, board, &numbers, ids)
}
