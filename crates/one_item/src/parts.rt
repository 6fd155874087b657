//! Parts of items.

use copper_layers::LayerSet;
use geo_seg::{Core, Point, Seg, Shape};
use smallvec::SmallVec;
use std::alloc::Allocator;
use std::default::MadeWith;
use std::marker::Model;

/// A shape, and the layers on which it lies. The lines of edges and the courtyards lie on no copper layer.
#[derive(Drop)]
pub struct Part {
    pub layers: LayerSet,
    pub shape: Shape,
}

impl<A: Allocator> MadeWith<A> for Part {
    fn made_with(_: A) -> Part {
        let origin = Point { x: 0, y: 0 };
        Part {
            layers: LayerSet { bits: 0 },
            shape: Shape {
                core: Core::Line(Seg {
                    a: origin,
                    b: origin,
                }),
                radius: 0,
            },
        }
    }
}

/// A list of parts. One is kept in place, since most items have no more.
#[derive(Drop)]
pub struct Parts {
    pub(crate) list: SmallVec<Part, 1>,
}

impl Model for Parts {
    ghost use Rattle.std.specs.Prelude.{List};
    ghost use Rattle.one_item.specs.declared.parts.Part.{Part};

    ghost Value = { List Part };

    ghost view = { λ parts. parts.list.items };
}

impl Parts {
    ghost use Rattle.std.specs.Prelude.{◌≡◌};

    /// The parts of this list. It takes no memory.
    pub fn of(list: SmallVec<Part, 1>) -> Parts
        ensures { result ≡ list.items }
    {
        Parts { list }
    }

    /// All parts in order.
    pub fn as_slice(&self) -> &[Part]
        ensures { result.now ≡ self.now }
    {
        self.list.as_slice()
    }
}
