//! The form of a pad: a rounded rectangle by its shape and its sizes, and the primitives of a custom pad.

ghost use Rattle.std.specs.Prelude.{◌≡◌, IfOk};
ghost use Rattle.sexpr_read.specs.TreeViews.{tree_of};
ghost use Rattle.part_read.specs.NodeResults.{Gives};
ghost use Rattle.pad_read.specs.PadSizes.{AreRead};
ghost use Rattle.pad_read.specs.PadShapes.{IsSmall};
ghost use Rattle.pad_read.specs.PadOf.{without_primitives, form_of};

use crate::customs::{anchor_of, primitives_of};
use crate::pads::PadWord;
use crate::primitives::Primitives;
use crate::rounded_rects::{
    circle_rounded_rect, oval_rounded_rect, rect_rounded_rect, round_radius, round_rounded_rect,
};
use crate::sizes::{RoundedRect, Sizes};
use board_items::BoardError;
use sexpr_read::Node;
use std::alloc::Global;

/// What a pad's copper is made of: all that is within a radius of a box, and what else is drawn.
#[derive(Drop)]
pub struct Form {
    pub rounded_rect: RoundedRect,
    pub primitives: Primitives,
}

/// The form that is a rounded rectangle alone.
fn without_primitives(alloc: Global, rounded_rect: RoundedRect) -> Form
    ensures { result ≡ without_primitives rounded_rect }
{
    Form {
        rounded_rect,
        primitives: Primitives::none(alloc),
    }
}

/// The form of a pad of this shape.
pub(crate) fn form_of(
    alloc: Global,
    word: PadWord,
    sizes: Sizes,
    node: Node<'_, '_>,
) -> Result<Form, BoardError>
    requires { AreRead sizes }
    ensures form { Gives result (form_of word sizes (tree_of node.entry)) }
    ensures small { IfOk result (λ form. IsSmall form.rounded_rect) }
{
    match word {
        PadWord::Circle => Ok(without_primitives(alloc, circle_rounded_rect(sizes))),
        PadWord::Rect => Ok(without_primitives(alloc, rect_rounded_rect(sizes))),
        PadWord::Oval => Ok(without_primitives(alloc, oval_rounded_rect(sizes))),
        PadWord::RoundRect => {
            let radius = round_radius(sizes, node)?;
            Ok(without_primitives(alloc, round_rounded_rect(sizes, radius)))
        }
        PadWord::Custom => {
            let rounded_rect = anchor_of(sizes, node)?;
            let primitives = primitives_of(alloc, node)?;
            Ok(Form {
                rounded_rect,
                primitives,
            })
        }
    }
}
