//! What is found of a net.

ghost use Rattle.std.specs.Prelude.{◌≡◌, IfOk};
ghost use Rattle.net_groups.specs.NetParts.{is_open, IsNetPart, PlainNetPart};

use crate::anchors_of::anchors;
use crate::group::Group;
use crate::of_net::groups_of;
use board_items::Board;
use ratsnest::{Anchor, Links, Nest, nest};
use std::alloc::{AllocError, Global};
use std::marker::Model;

/// What is found of a net: its groups, where links may end, and the links that would join its groups. Contracts see the plain
/// record.
#[derive(Drop)]
pub struct NetPart {
    pub net: u32,
    pub groups: Vec<Group>,
    pub anchors: Vec<Anchor>,
    pub nest: Nest,
}

impl Model for NetPart {
    ghost Value = { PlainNetPart };

    ghost view = { λ part. record { net = part.net; groups = part.groups.items; anchors = part.anchors.items; links = part.nest.links } };
}

fn copy_group(alloc: Global, group: &Group) -> Result<Group, AllocError>
    ensures { IfOk result (λ copy. copy ≡ group.now) }
{
    Ok(Group::of(Vec::from_slice(alloc, group.members())?))
}

/// Equal groups.
fn copy_groups(alloc: Global, groups: &[Group]) -> Result<Vec<Group>, AllocError>
    ensures { IfOk result (λ copy. copy.items ≡ groups.now) }
{
    let mut copy = Vec::with_capacity(alloc, groups.len())?;
    for group in groups {
        copy.push(copy_group(alloc, group)?)?;
    }
    Ok(copy)
}

/// An equal nest.
fn copy_nest(alloc: Global, nest: &Nest) -> Result<Nest, AllocError>
    ensures { IfOk result (λ copy. copy.links ≡ nest.now.links) }
{
    let links = Vec::from_slice(alloc, nest.links.as_slice())?;
    Ok(Nest {
        links: Links::of(links),
    })
}

impl NetPart {
    /// An equal part. Only running out of memory refuses it.
    pub fn copy(&self) -> Result<NetPart, AllocError>
        ensures { IfOk result (λ copy. copy ≡ self.now) }
    {
        let alloc = *self.groups.allocator();
        Ok(NetPart {
            net: self.net,
            groups: copy_groups(alloc, &self.groups)?,
            anchors: Vec::from_slice(alloc, &self.anchors)?,
            nest: copy_nest(alloc, &self.nest)?,
        })
    }

    /// Whether its copper is in two pieces or more. It takes no memory.
    pub fn is_open(&self) -> bool
        ensures { result ≡ is_open self.now }
    {
        self.groups.len() >= 2
    }
}

/// What is found of a net. Only running out of memory refuses it.
pub(crate) fn part_of(alloc: Global, board: &Board, net: u32) -> Result<NetPart, AllocError>
    ensures { IfOk result (IsNetPart board.now net) }
{
    let groups = groups_of(alloc, board, net)?;
    let anchors = anchors(alloc, board, net, &groups)?;
    let nest = nest(alloc, &anchors)?;
    Ok(NetPart {
        net,
        groups,
        anchors,
        nest,
    })
}
