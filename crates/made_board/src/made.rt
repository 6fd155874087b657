//! The text of the generated board.

ghost use Rattle.std.specs.Prelude.{◌≡◌, ◌<◌, ◌≤◌, ◌++◌, ◌+◌, [], length, unsigned_abs, IfOk, OnOk};
ghost use Rattle.std.specs.Thread.{IsSync};
ghost use Rattle.exact_dec.specs.MillimetreText.{mm_text};
ghost use Rattle.made_board.specs.MadeBoard.{x_of, y_of, end_of, site_text, end_text, net_and_stamp, via_line, segment_line, net_line, net_lines, item_lines, made_text};

use exact_dec::{Nm, write_mm};
use itoa::{Buffer, Integer};
use std::alloc::{AllocError, Global};
use std::thread::{Threads, join};

/// How many nets there are beside net 0.
const NETS: u32 = 1000;

/// The first three lines.
const HEAD: &[u8] =
    b"(kicad_pcb (version 20221018) (generator pcbnew)\n(layers (0 \"F.Cu\" signal) (31 \"B.Cu\" signal))\n(net 0 \"\")\n";

/// The most bytes of a net's line.
const NET_BYTES: usize = 19;

/// The most bytes of the two lines of a number.
const ITEM_BYTES: usize = 200;

/// From how many numbers on threads are worth their start.
const MANY: u32 = 2_000;

/// So many times the numbers are halved where threads write them: four threads do.
const HALVINGS: u32 = 2;

/// Where a number stands from left to right, in millimetres: from -450 to 447.
fn x_of(number: u32) -> i32
    ensures { result ≡ x_of number }
{
    3 * (number % 300) as i32 - 450
}

/// Where a number below 90,000 stands from top to bottom, in millimetres: from -450 to 447.
fn y_of(number: u32) -> i32
    requires { number < 90_000 }
    ensures { result ≡ y_of number }
{
    3 * (number / 300) as i32 - 450
}

/// Where the segment of a number ends from left to right, in nanometres.
fn end_of(number: u32) -> Nm
    ensures { result ≡ end_of number }
{
    let length = if number % 7 == 3 {
        2_300_000
    } else {
        1_200_000
    };
    1_000_000 * i64::from(x_of(number)) + length
}

/// Appends a piece.
fn push_piece(text: &mut Vec<u8>, piece: &[u8]) -> Result<(), AllocError>
    ensures { OnOk result (text.new.items ≡ text.old.items ++ piece.now) }
{
    text.extend_from_slice(piece)
}

/// Appends an integer.
fn push_integer<I: Integer>(text: &mut Vec<u8>, integer: I) -> Result<(), AllocError>
    ensures { OnOk result (text.new.items ≡ text.old.items ++ I.text integer) }
{
    push_piece(text, Buffer::new().format(integer).as_bytes())
}

/// Appends the line of a net.
#[tactic(auto, unfolding(crate::specs::MadeBoard::net_line))]
fn push_net(text: &mut Vec<u8>, net: u32) -> Result<(), AllocError>
    ensures { OnOk result (text.new.items ≡ text.old.items ++ net_line net) }
{
    push_piece(text, b"(net ")?;
    push_integer(text, net)?;
    push_piece(text, b" \"N")?;
    push_integer(text, net)?;
    push_piece(text, b"\")\n")
}

/// Appends the lines of so many nets, from 1 on.
#[tactic(auto, using(crate::proofs::MadeLines::no_net_lines, crate::proofs::MadeLines::net_lines_grow))]
fn push_nets(text: &mut Vec<u8>, count: u32) -> Result<(), AllocError>
    requires { count < 90_000 }
    ensures { OnOk result (text.new.items ≡ text.old.items ++ net_lines count) }
{
    for others in 0..count {
        push_net(text, 1 + others)?;
    }
    Ok(())
}

/// Appends where a number stands.
#[tactic(auto, unfolding(crate::specs::MadeBoard::site_text))]
fn push_site(text: &mut Vec<u8>, number: u32) -> Result<(), AllocError>
    requires { number < 90_000 }
    ensures { OnOk result (text.new.items ≡ text.old.items ++ site_text number) }
{
    push_integer(text, x_of(number))?;
    push_piece(text, b" ")?;
    push_integer(text, y_of(number))
}

/// Appends a length in millimetres, of at most 10^12 nanometres either way.
fn push_mm(text: &mut Vec<u8>, nm: Nm) -> Result<(), AllocError>
    requires { unsigned_abs nm ≤ 1000000000000 }
    ensures { OnOk result (text.new.items ≡ text.old.items ++ mm_text nm) }
{
    let mut bytes = [0; 16];
    let len = write_mm(nm, &mut bytes);
    push_piece(text, &bytes[..len])
}

/// Appends where the segment of a number ends.
#[tactic(auto, unfolding(crate::specs::MadeBoard::end_text))]
fn push_end(text: &mut Vec<u8>, number: u32) -> Result<(), AllocError>
    requires { number < 90_000 }
    ensures { OnOk result (text.new.items ≡ text.old.items ++ end_text number) }
{
    push_mm(text, end_of(number))?;
    push_piece(text, b" ")?;
    push_integer(text, y_of(number))
}

/// Appends the net and the stamp of a number, which is written behind a letter, and ends the line.
#[tactic(auto, unfolding(crate::specs::MadeBoard::net_and_stamp))]
fn push_net_and_stamp(text: &mut Vec<u8>, letter: &[u8], number: u32) -> Result<(), AllocError>
    ensures { OnOk result (text.new.items ≡ text.old.items ++ net_and_stamp letter.now number) }
{
    push_piece(text, b" (net ")?;
    push_integer(text, 1 + number % NETS)?;
    push_piece(text, b") (tstamp ")?;
    push_piece(text, letter)?;
    push_integer(text, number)?;
    push_piece(text, b"))\n")
}

/// Appends the line of the via of a number.
#[tactic(auto, unfolding(crate::specs::MadeBoard::via_line))]
fn push_via(text: &mut Vec<u8>, number: u32) -> Result<(), AllocError>
    requires { number < 90_000 }
    ensures { OnOk result (text.new.items ≡ text.old.items ++ via_line number) }
{
    push_piece(text, b"(via (at ")?;
    push_site(text, number)?;
    push_piece(text, b") (size 0.8) (drill 0.4) (layers \"F.Cu\" \"B.Cu\")")?;
    push_net_and_stamp(text, b"v", number)
}

/// Appends the line of the segment of a number.
#[tactic(auto, unfolding(crate::specs::MadeBoard::segment_line))]
fn push_segment(text: &mut Vec<u8>, number: u32) -> Result<(), AllocError>
    requires { number < 90_000 }
    ensures { OnOk result (text.new.items ≡ text.old.items ++ segment_line number) }
{
    push_piece(text, b"(segment (start ")?;
    push_site(text, number)?;
    push_piece(text, b") (end ")?;
    push_end(text, number)?;
    push_piece(text, b") (width 0.25) (layer \"F.Cu\")")?;
    push_net_and_stamp(text, b"s", number)
}

/// Appends the lines of so many numbers from one on.
#[tactic(auto, using(crate::proofs::MadeLines::no_item_lines, crate::proofs::MadeLines::item_lines_grow))]
fn push_items(text: &mut Vec<u8>, first: u32, count: u32) -> Result<(), AllocError>
    requires { first + count ≤ 90_000 }
    ensures { OnOk result (text.new.items ≡ text.old.items ++ item_lines first count) }
{
    for others in 0..count {
        push_via(text, first + others)?;
        push_segment(text, first + others)?;
    }
    Ok(())
}

/// The text with the lines of so many numbers from one on behind it.
fn with_items(mut text: Vec<u8>, first: u32, count: u32) -> Result<Vec<u8>, AllocError>
    requires { first + count ≤ 90_000 }
    ensures { IfOk result (λ whole. whole.items ≡ text.items ++ item_lines first count) }
{
    push_items(&mut text, first, count)?;
    Ok(text)
}

/// Room for the lines of so many numbers.
fn room_for(alloc: Global, count: u32) -> Result<Vec<u8>, AllocError>
    ensures { IfOk result (λ text. text.items ≡ []) }
{
    Vec::with_capacity(alloc, count as usize * ITEM_BYTES)
}

/// Appends the lists of the items of so many numbers. The numbers are halved so many times, and each half has a thread of its own.
fn with_halves<R: Threads + Sync>(
    rt: &R,
    alloc: Global,
    halvings: u32,
    text: Vec<u8>,
    first: u32,
    count: u32,
) -> Result<Vec<u8>, AllocError>
    requires { first + count ≤ 90_000 }
    ensures { IfOk result (λ whole. whole.items ≡ text.items ++ item_lines first count) }
{
    if halvings == 0 {
        return with_items(text, first, count);
    }
    let low = count / 2;
    let high = count - low;
    let rest = room_for(alloc, high)?;
    let (prefix, back) = join(
        rt,
        move || -> Result<Vec<u8>, AllocError>
            requires { IsSync R.row × (0 < halvings) × (first + low ≤ 90_000) }
            ensures { IfOk result (λ whole. whole.items ≡ text.items ++ item_lines first low) }
        { with_halves(rt, alloc, halvings - 1, text, first, low) },
        move || -> Result<Vec<u8>, AllocError>
            requires { IsSync R.row × (0 < halvings) × (first + low + high ≤ 90_000) }
            ensures { IfOk result (λ whole.
                whole.items ≡ rest.items ++ item_lines (first + low) high) }
        { with_halves(rt, alloc, halvings - 1, rest, first + low, high) },
    );
    let mut whole = prefix?;
    push_piece(&mut whole, &back?)?;
    Ok(whole)
}

/// Appends the lists of the items of the first numbers: on the thread of the caller with one worker or for few numbers, and else by four threads.
fn with_items_by<R: Threads + Sync>(
    rt: &R,
    alloc: Global,
    workers: u32,
    text: Vec<u8>,
    count: u32,
) -> Result<Vec<u8>, AllocError>
    requires { count ≤ 90_000 }
    ensures { IfOk result (λ whole. whole.items ≡ text.items ++ item_lines 0 count) }
{
    if workers == 1 || count < MANY {
        with_items(text, 0, count)
    } else {
        with_halves(rt, alloc, HALVINGS, text, 0, count)
    }
}

/// The text of the generated board of so many vias and segments, from 1 to 90,000, put together by four threads where there are several
/// workers. Only running out of memory refuses it.
#[tactic(auto, unfolding(crate::specs::MadeBoard::made_text))]
pub fn made_text(
    rt: &(impl Threads + Sync),
    alloc: Global,
    workers: u32,
    count: u32,
) -> Result<Vec<u8>, AllocError>
    requires { (1 ≤ count) × (count ≤ 90_000) }
    ensures text { IfOk result (λ text. text.items ≡ made_text count) }
    ensures short { IfOk result (λ text. length text.items ≤ 33_554_432) }
{
    let room = HEAD.len() + NETS as usize * NET_BYTES + count as usize * ITEM_BYTES + 2;
    let mut head = Vec::with_capacity(alloc, room)?;
    push_piece(&mut head, HEAD)?;
    push_nets(&mut head, NETS)?;
    let mut text = with_items_by(rt, alloc, workers, head, count)?;
    push_piece(&mut text, b")\n")?;
    Ok(text)
}
