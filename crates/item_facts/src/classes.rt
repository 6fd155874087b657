//! The class of an item's net.

ghost use Rattle.std.specs.Prelude.{◌≡◌};
ghost use Rattle.net_class.specs.ClassValues.{plain_class};
ghost use Rattle.rule_pick.specs.FactsOf.{class_of_net};

use board_items::Board;
use net_class::{Class, Classes};

/// The class of a net, sought by its name. It takes no memory.
#[tactic(auto, unfolding(rule_pick::specs::FactsOf::class_of_net))]
pub(crate) fn class_of_net<'c>(board: &Board, classes: &'c Classes, net: u32) -> &'c Class
    ensures { plain_class result.now ≡ class_of_net classes.now board.now net }
{
    if net == 0 {
        return classes.of_none();
    }
    match board.net_name(net) {
        None => classes.of_none(),
        Some(name) => classes.of_net(name),
    }
}
