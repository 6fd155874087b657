//! What rules and the board ask of pairs of items.

ghost use Rattle.pair_check.specs.CheckViews.{deciders_of};
ghost use Rattle.row_check.specs.Asks.{AreAsksOf};

use pair_check::{Asked, CheckView};
use plain_types::Length;
use rule_pick::asked_of_copper;

/// What rules and the board ask of pairs of items: of which kinds anything at all, and how much of two pieces of copper at most. It
/// is the same for all tiles, so that it is found once for all of them.
#[derive(Clone, Copy, Drop)]
pub struct PairAsks {
    pub(crate) kinds: Asked,
    pub(crate) of_copper: Length,
}

impl PairAsks {
    /// What the rules of the view and its board ask for. It takes no memory.
    pub fn by(view: &CheckView) -> PairAsks
        ensures { AreAsksOf (deciders_of view.now) result }
    {
        PairAsks {
            kinds: Asked::by(view),
            of_copper: asked_of_copper(view.classes.mins(), view.rules),
        }
    }
}
