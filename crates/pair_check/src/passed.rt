//! What is told of two items at a look, so that kinds are passed over: most items are copper, and most copper has no hole.

ghost use Rattle.std.specs.Prelude.{◌≡◌, ◌⊎◌, None, false};
ghost use Rattle.pair_check.specs.Coppers.{is_copper, are_copper};

use board_items::{Item, What};

/// Whether it is copper: no edge, no area, no footprint and no note.
fn is_copper(what: &What) -> bool
    ensures { result ≡ is_copper what.now }
{
    match what {
        What::Track { .. } | What::Via { .. } | What::Pad { .. } | What::Graphic | What::Fill =>
            true,
        What::Edge { .. } | What::Area { .. } | What::Body { .. } | What::Note { .. } => false,
    }
}

/// Whether both are copper, so that neither is an edge, an area, a footprint or a note.
pub fn are_copper(a: &Item, b: &Item) -> bool
    ensures { result ≡ are_copper a.now b.now }
{
    is_copper(&a.what) && is_copper(&b.what)
}

/// Whether both have holes. Only a no is sure.
pub(crate) fn have_holes(a: &Item, b: &Item) -> bool
    ensures { result ≡ false → (a.now.hole ≡ None) ⊎ (b.now.hole ≡ None) }
{
    a.hole.is_some() && b.hole.is_some()
}

/// Whether one of them is a fill, whose outline may be long. It decides how rows are found, and not which: no clause needs more of it.
pub(crate) fn is_one_fill(a: &Item, b: &Item) -> bool {
    matches!(a.what, What::Fill) || matches!(b.what, What::Fill)
}
