//! How far checks reach.

ghost use Rattle.std.specs.Prelude.{◌≡◌, ◌∷◌, [], map};
ghost use Rattle.std.specs.Option.{option_map};
ghost use Rattle.plain_types.specs.Lengths.{IsLength};
ghost use Rattle.net_class.specs.NetClasses.{greatest_clearance};
ghost use Rattle.net_class.specs.ClassValues.{mins_of};
ghost use Rattle.cond_lang.specs.Rules.{plain_rule};
ghost use Rattle.rule_pick.specs.Raised.{IsRaised};
ghost use Rattle.rule_pick.specs.Reach.{least_distances, local_clearances, IsReach};

use crate::asking::{Between, raised, raised_by_rules, raised_if};
use board_items::{Board, Item, Nm};
use cond_lang::Rule;
use net_class::{Classes, Mins};
use plain_types::Length;

fn own_clearance(item: &Item) -> Option<Length>
    ensures { option_map (λ l. l.nm) result ≡ item.now.local }
{
    match item.local {
        None => None,
        Some(nm) => Some(Length { nm }),
    }
}

fn raised_by_items(n: Length, board: &Board) -> Length
    ensures { IsRaised n.nm (local_clearances board.now.items) result.nm }
{
    let mut greatest = n;
    for (_, item) in board.iter() {
        greatest = raised_if(greatest, own_clearance(item));
    }
    greatest
}

fn raised_to(n: Length, nm: Nm) -> Length
    requires { IsLength nm }
    ensures { IsRaised n.nm (nm ∷ []) result.nm }
{
    raised(n, Length { nm })
}

/// The length, or the greatest of the board's least distances where that is more.
fn raised_by_mins(n: Length, mins: &Mins) -> Length
    ensures { IsRaised n.nm (least_distances (mins_of mins.now)) result.nm }
{
    let with_clearance = raised_to(n, mins.min_clearance);
    let with_hole = raised_to(with_clearance, mins.min_hole_clearance);
    let with_holes = raised_to(with_hole, mins.min_hole_to_hole);
    raised_to(with_holes, mins.min_copper_edge_clearance)
}

/// The greatest clearance of all net classes.
fn greatest_class(classes: &Classes) -> Length
    ensures { result.nm ≡ greatest_clearance classes.now }
{
    Length {
        nm: classes.greatest(),
    }
}

/// How far checks of the board reach: the greatest distance that a rule, a class, the board or an item asks for between two
/// items, in nanometres, from 0 to 500 mm. It takes no memory.
pub fn reach(board: &Board, classes: &Classes, rules: &[Rule]) -> Nm
    ensures value { IsReach board.now classes.now (map plain_rule rules.now) result }
    ensures in_range { IsLength result }
{
    let of_classes = greatest_class(classes);
    let of_board = raised_by_items(raised_by_mins(of_classes, classes.mins()), board);
    raised_by_rules(of_board, Between::Items, rules).nm
}
