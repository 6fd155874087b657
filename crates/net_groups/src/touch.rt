//! When two items touch.

ghost use Rattle.std.specs.Prelude.{IsTrue, ◌↔◌};
ghost use Rattle.net_groups.specs.Touching.{Touching, TouchOn};

use board_items::{Board, Item};
use item_copper::copper_meets;

/// Whether the two have one net and their copper meets on some layer.
fn touch(a: &Item, b: &Item) -> bool
    ensures { IsTrue result ↔ Touching a.now b.now }
{
    a.net == b.net && a.net != 0 && copper_meets(a, b)
}

/// Whether there are items of both ids and they touch.
pub(crate) fn touch_on(board: &Board, first: u32, second: u32) -> bool
    ensures { IsTrue result ↔ TouchOn board.now first second }
{
    match (board.get(first), board.get(second)) {
        (Some(a), Some(b)) => touch(a, b),
        _ => false,
    }
}
