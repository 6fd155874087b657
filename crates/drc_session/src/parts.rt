//! What a session holds.

use board_items::{Board, Nm};
use box_index::TileIndex;
use net_class::Classes;
use net_groups::NetPart;
use row_check::Row;
use rule_pick::FactsById;
use rule_text::Rules;

/// What a session holds: what is edited, and what was found of it.
#[derive(Drop)]
pub(crate) struct Parts {
    pub(crate) board: Board,
    pub(crate) classes: Classes,
    pub(crate) rules: Rules,
    pub(crate) facts: FactsById,
    /// As far as anything is asked for, in nanometres: the reach of the index.
    pub(crate) reach: Nm,
    pub(crate) index: TileIndex,
    pub(crate) rows: Vec<Row>,
    pub(crate) nets: Vec<NetPart>,
}
