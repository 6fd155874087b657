//! The note of something in a footprint that is not checked.

ghost use Rattle.std.specs.Prelude.{◌≡◌, IfOk};
ghost use Rattle.sexpr_read.specs.TreeViews.{tree_of};
ghost use Rattle.part_read.specs.ElementResults.{name_in};
ghost use Rattle.part_read.specs.Graphics.{note_of};

use board_items::{About, Boxed, Item, What};
use drc_io::Name;
use part_read::{RawPoint, name_of_list, no_parts, plain_item};
use sexpr_read::Node;
use std::alloc::{AllocError, Global};

/// The note of something on the layer of this name, by the name of the list that gives it.
pub(crate) fn note_on(
    alloc: Global,
    unit: u32,
    about: About,
    layer: &str,
    node: Node<'_, '_>,
) -> Result<Item, AllocError>
    ensures { IfOk result (λ note.
        note ≡ note_of (name_in (tree_of node.entry)) unit about layer.now) }
{
    let layer = Boxed::new(alloc, Name::from_slice(alloc, layer.as_bytes())?)?;
    let at = RawPoint { x: 0, y: 0 };
    match name_of_list(alloc, node) {
        Ok(name) => Ok(plain_item(
            name,
            unit,
            0,
            at,
            no_parts(alloc),
            What::Note { about, layer },
        )),
        Err(error) => {
            drop(layer);
            Err(error)
        }
    }
}
