//! The frame of a pad, read from the front of its list: what it is made for, its shape, where it
//! stands on the board, its quarter turns, its sizes and its drill.

ghost use Rattle.std.specs.Prelude.{◌≡◌, ◌<◌, IfOk};
ghost use Rattle.sexpr_read.specs.TreeViews.{tree_of};
ghost use Rattle.part_read.specs.Placements.{IsReadRawPoint, stood};
ghost use Rattle.pad_read.specs.PadFrames.{frame_of, IsPadRawPoint, IsFramed};

use crate::local_placements::local_placement_of;
use crate::pads::Frame;
use crate::sizes::{drilling_of, sizes_of};
use crate::turning::quarter_of;
use crate::words::{type_of, word_of};
use board_items::BoardError;
use list_read::place;
use part_read::{Placement, RawPoint, stand};
use sexpr_read::Node;

/// Where a raw point of a footprint that stands so is on the board, or off it.
fn position_of(placement: Placement, raw_point: RawPoint) -> RawPoint
    requires quarter { placement.quarter < 4 }
    requires at { IsReadRawPoint placement.at }
    requires raw_point { IsReadRawPoint raw_point }
    ensures stood { result ≡ stood placement raw_point }
    ensures within { IsPadRawPoint result }
{
    stand(placement, raw_point)
}

/// The frame of a pad in a footprint that stands so.
#[tactic(auto, unfolding(crate::specs::PadFrames::frame_of))]
pub(crate) fn frame_of(placement: Placement, node: Node<'_, '_>) -> Result<Frame, BoardError>
    requires quarter { placement.quarter < 4 }
    requires at { IsReadRawPoint placement.at }
    ensures frame { result ≡ frame_of placement (tree_of node.entry) }
    ensures framed { IfOk result IsFramed }
{
    let pad_type = type_of(node)?;
    let word = word_of(node)?;
    let local_placement = local_placement_of(node)?;
    let sizes = sizes_of(node)?;
    let drilling = drilling_of(node)?;
    let Some(quarter) = quarter_of(word, drilling, pad_type, local_placement) else {
        return Err(BoardError::Turned { at: place(node) });
    };
    Ok(Frame {
        pad_type,
        word,
        at: position_of(placement, local_placement.at),
        quarter,
        sizes,
        drilling,
    })
}
