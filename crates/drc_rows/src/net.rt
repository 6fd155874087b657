//! The lines of a net that is not whole.

ghost use Rattle.std.specs.Prelude.{◌≡◌, ◌<◌, ◌++◌, All, IsSome, length, decimal};
ghost use Rattle.std.specs.List.{flat_map};
ghost use Rattle.board_items.specs.Boards.{name_of};
ghost use Rattle.drc_io.specs.Sinks.{Wrote};
ghost use Rattle.net_groups.specs.NetGroups.{HasItem};
ghost use Rattle.ratsnest.specs.NestOf.{anchor_at, HasPlaces};
ghost use Rattle.drc_rows.specs.Buffer.{Buffered};
ghost use Rattle.drc_rows.specs.NetBlock.{net_line, group_line, item_text_at, anchor_text, ends_text, link_line, net_block};

use crate::buffer::ReportBuffer;
use crate::items::{push_item_of, push_title};
use crate::pieces::{push_all, push_lengths, push_quoted};
use board_items::{Board, Item};
use drc_io::{Failed, Sink};
use itoa::Buffer;
use net_groups::Group;
use ratsnest::{Anchor, Link, Nest};

/// Puts a number between two texts into the buffer.
#[inline(always)]
fn push_number<W: Sink>(
    buffer: &mut ReportBuffer,
    out: &mut W,
    before: &[u8],
    number: u64,
    after: &[u8],
) -> Result<(), Failed>
    ensures { Buffered W.written W.faults out.old out.new buffer.old
        (before.now ++ decimal number ++ after.now) buffer.new result }
{
    let mut digits = Buffer::new();
    push_all(
        buffer,
        out,
        &[before, digits.format(number).as_bytes(), after],
    )
}

// ---- the net

/// Puts the name of a net and how many groups it has into the buffer.
fn push_head<W: Sink>(
    buffer: &mut ReportBuffer,
    out: &mut W,
    name: &[u8],
    count: usize,
) -> Result<(), Failed>
    ensures { Buffered W.written W.faults out.old out.new buffer.old
        (net_line name.now count) buffer.new result }
{
    push_quoted(buffer, out, b"net", name)?;
    push_number(buffer, out, b": ", count as u64, b" groups\n")
}

// ---- groups

/// Puts a group into the buffer: how many items it has, and the one of the least id.
fn push_group<W: Sink>(
    buffer: &mut ReportBuffer,
    out: &mut W,
    board: &Board,
    members: &[u32],
) -> Result<(), Failed>
    requires filled { 0 < length members.now }
    requires placed { All (HasItem board.now) members.now }
    ensures { Buffered W.written W.faults out.old out.new buffer.old
        (group_line board.now members.now) buffer.new result }
{
    push_number(buffer, out, b"group of ", members.len() as u64, b": ")?;
    push_item_of(buffer, out, board, members[0])?;
    buffer.push(out, b"\n")
}

/// Puts the lines of all groups together.
fn push_groups<W: Sink>(
    buffer: &mut ReportBuffer,
    out: &mut W,
    board: &Board,
    groups: &[Group],
) -> Result<(), Failed>
    requires filled { All (λ group. 0 < length group) groups.now }
    requires placed { All (All (HasItem board.now)) groups.now }
    ensures { Buffered W.written W.faults out.old out.new buffer.old
        (flat_map (group_line board.now) groups.now) buffer.new result }
{
    for group in groups {
        push_group(buffer, out, board, group.members())?;
    }
    Ok(())
}

// ---- links

/// Puts an item into the buffer, at the place of an anchor.
fn push_item_at<W: Sink>(
    buffer: &mut ReportBuffer,
    out: &mut W,
    item: &Item,
    anchor: Anchor,
) -> Result<(), Failed>
    ensures { Buffered W.written W.faults out.old out.new buffer.old
        (item_text_at item.now anchor) buffer.new result }
{
    push_title(buffer, out, item)?;
    push_lengths(buffer, out, b" at ", anchor.x, b" ", anchor.y)
}

/// Puts the item of an anchor into the buffer, at the place of the anchor.
fn push_anchor<W: Sink>(
    buffer: &mut ReportBuffer,
    out: &mut W,
    board: &Board,
    anchor: Anchor,
) -> Result<(), Failed>
    requires { HasItem board.now anchor.id }
    ensures { Buffered W.written W.faults out.old out.new buffer.old
        (anchor_text board.now anchor) buffer.new result }
{
    push_item_at(buffer, out, board.get(anchor.id).unwrap(), anchor)
}

/// Puts the two ends of a link into the buffer.
fn push_ends<W: Sink>(
    buffer: &mut ReportBuffer,
    out: &mut W,
    board: &Board,
    first: Anchor,
    second: Anchor,
) -> Result<(), Failed>
    requires first { HasItem board.now first.id }
    requires second { HasItem board.now second.id }
    ensures { Buffered W.written W.faults out.old out.new buffer.old
        (ends_text board.now first second) buffer.new result }
{
    push_anchor(buffer, out, board, first)?;
    buffer.push(out, b" | ")?;
    push_anchor(buffer, out, board, second)
}

fn anchor_at(anchors: &[Anchor], place: u32) -> Anchor
    requires { place < length anchors.now }
    ensures { result ≡ anchor_at anchors.now place }
{
    anchors[place as usize]
}

/// Puts a link into the buffer.
fn push_link<W: Sink>(
    buffer: &mut ReportBuffer,
    out: &mut W,
    board: &Board,
    anchors: &[Anchor],
    link: Link,
) -> Result<(), Failed>
    requires anchors { All (λ anchor. HasItem board.now anchor.id) anchors.now }
    requires places { HasPlaces anchors.now link }
    ensures { Buffered W.written W.faults out.old out.new buffer.old
        (link_line board.now anchors.now link) buffer.new result }
{
    let first = anchor_at(anchors, link.first);
    let second = anchor_at(anchors, link.second);
    push_number(buffer, out, b"link ", link.square, b": ")?;
    push_ends(buffer, out, board, first, second)?;
    buffer.push(out, b"\n")
}

/// Puts the lines of all links together.
fn push_links<W: Sink>(
    buffer: &mut ReportBuffer,
    out: &mut W,
    board: &Board,
    anchors: &[Anchor],
    links: &[Link],
) -> Result<(), Failed>
    requires anchors { All (λ anchor. HasItem board.now anchor.id) anchors.now }
    requires places { All (HasPlaces anchors.now) links.now }
    ensures { Buffered W.written W.faults out.old out.new buffer.old
        (flat_map (link_line board.now anchors.now) links.now) buffer.new result }
{
    for link in links {
        push_link(buffer, out, board, anchors, *link)?;
    }
    Ok(())
}

/// Puts the lines of a net into the buffer: its name and how many groups it has, a line for each group, and a line
/// for each link of its nest. A group is told by its first member, and each end of a link is at the place of its
/// anchor.
///
/// The net is declared; no group is empty, and all members and the items of all anchors are on the board; the links
/// join anchors of the list. `Failed` comes only where the sink's count of faults rose, and then a prefix of
/// what the buffer held and of these lines was written. It takes no memory.
#[tactic(auto, unfolding(crate::specs::NetBlock::net_block))]
pub fn push_net<W: Sink>(
    buffer: &mut ReportBuffer,
    out: &mut W,
    board: &Board,
    net: u32,
    groups: &[Group],
    anchors: &[Anchor],
    nest: &Nest,
) -> Result<(), Failed>
    requires declared { IsSome (name_of board.now net) }
    requires filled { All (λ group. 0 < length group) groups.now }
    requires members { All (All (HasItem board.now)) groups.now }
    requires anchors { All (λ anchor. HasItem board.now anchor.id) anchors.now }
    requires places { All (HasPlaces anchors.now) nest.now.links }
    ensures { Buffered W.written W.faults out.old out.new buffer.old
        (net_block board.now net groups.now anchors.now nest.now.links) buffer.new result }
{
    let name = board.net_name(net).unwrap();
    push_head(buffer, out, name.bytes(), groups.len())?;
    push_groups(buffer, out, board, groups)?;
    push_links(buffer, out, board, anchors, nest.links.as_slice())
}

/// Writes the lines of a net, under the conditions of `push_net`: its name and how many groups it has, a line for
/// each group, and a line for each link of its nest. `Failed` comes only where the sink's count of faults rose, and
/// then a prefix of the lines was written. It takes no memory.
pub fn write_net<W: Sink>(
    board: &Board,
    net: u32,
    groups: &[Group],
    anchors: &[Anchor],
    nest: &Nest,
    out: &mut W,
) -> Result<(), Failed>
    requires declared { IsSome (name_of board.now net) }
    requires filled { All (λ group. 0 < length group) groups.now }
    requires members { All (All (HasItem board.now)) groups.now }
    requires anchors { All (λ anchor. HasItem board.now anchor.id) anchors.now }
    requires places { All (HasPlaces anchors.now) nest.now.links }
    ensures { Wrote W.written W.faults out.old out.new
        (net_block board.now net groups.now anchors.now nest.now.links) result }
{
    let mut buffer = ReportBuffer::new();
    push_net(&mut buffer, out, board, net, groups, anchors, nest)?;
    buffer.end(out)
}
