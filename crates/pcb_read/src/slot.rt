//! Parts of the root that wait for their turn.

ghost use Rattle.std.specs.Prelude.{IfSome};
ghost use Rattle.std.proofs.Props.{props};
ghost use Rattle.sexpr_read.specs.TreeViews.{tree_of};
ghost use Rattle.pcb_read.specs.Drafts.{IsDraft};

use crate::drafts::Draft;
use board_items::Board;
use copper_layers::LayerSet;
use sexpr_read::{Children, Node};

/// A part of the root, and the draft of its track or via, which holds where the board has these copper layers. It has one lifetime for
/// those of the tree and of its text: with two, no function was proved that joins a closure which is lent such parts.
#[derive(Drop)]
pub(crate) struct Slot<'d> {
    pub(crate) node: Node<'d, 'd>,
    pub(crate) copper: LayerSet,
    pub(crate) draft: Option<Draft>,
    ghost says: { IfSome draft (IsDraft copper (tree_of node)) } by { Prim.hlevel props },
}

/// The block of parts that comes next, and the parts behind it. It has one lifetime, as a slot has.
#[derive(Drop)]
pub(crate) struct Ahead<'d> {
    pub(crate) block: Vec<Slot<'d>>,
    pub(crate) left: Children<'d, 'd>,
}

/// The board so far, and whether its layers were listed.
#[derive(Drop)]
pub(crate) struct Read {
    pub(crate) board: Board,
    pub(crate) layered: bool,
}
