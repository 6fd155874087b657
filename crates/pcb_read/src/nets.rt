//! The list of nets at the root.

ghost use Rattle.std.specs.Prelude.{◌≡◌, OnOk};
ghost use Rattle.sexpr_read.specs.TreeViews.{tree_of};
ghost use Rattle.part_read.specs.NodeResults.{Leaves};
ghost use Rattle.pcb_read.specs.Nets.{with_net_of};

use board_items::{Board, BoardError};
use list_read::name_from;
use part_read::{first_atom, number_in, second_atom};
use sexpr_read::Node;
use std::alloc::Global;

/// Declares the net of `(net NUMBER NAME)`.
#[tactic(auto, unfolding(crate::specs::Nets::with_net_of))]
pub(crate) fn read_net(
    alloc: Global,
    board: &mut Board,
    list: Node<'_, '_>,
) -> Result<(), BoardError>
    ensures read { Leaves result board.new (with_net_of board.old (tree_of list.entry)) }
    ensures copper { OnOk result (board.new.copper ≡ board.old.copper) }
    ensures unit { OnOk result (board.new.next_unit ≡ board.old.next_unit) }
{
    let number = number_in(first_atom(list)?)?;
    let name = name_from(alloc, second_atom(list)?)?;
    board.declare(number, name)?;
    Ok(())
}
