//! Equal items, in memory of their own.

ghost use Rattle.std.specs.Prelude.{◌≡◌, ◌++◌, ◌∷◌, [], IfOk, OnOk};

use crate::boxed::Boxed;
use crate::item::{Bans, Hole, Item, What};
use crate::parts::{Part, Parts};
use drc_io::Name;
use geo_seg::{Core, Poly, Shape};
use smallvec::SmallVec;
use std::alloc::{AllocError, Global};

// ---- parts

/// An equal polygon. One of many corners gets the boxes of its runs again.
fn copy_poly(alloc: Global, poly: &Poly) -> Result<Poly, AllocError>
    ensures { IfOk result (λ copy. copy ≡ poly.now) }
{
    Poly::indexed(alloc, Vec::from_slice(alloc, poly.corners())?)
}

fn copy_core(alloc: Global, core: &Core) -> Result<Core, AllocError>
    ensures { IfOk result (λ copy. copy ≡ core.now) }
{
    match core {
        Core::Line(seg) => Ok(Core::Line(*seg)),
        Core::Area(poly) => Ok(Core::Area(copy_poly(alloc, poly)?)),
    }
}

#[tactic(auto, using(crate::proofs::EqualItems::shape_is))]
fn copy_shape(alloc: Global, shape: &Shape) -> Result<Shape, AllocError>
    ensures { IfOk result (λ copy. copy ≡ shape.now) }
{
    Ok(Shape {
        core: copy_core(alloc, &shape.core)?,
        radius: shape.radius,
    })
}

fn copy_part(alloc: Global, part: &Part) -> Result<Part, AllocError>
    ensures { IfOk result (λ copy. copy ≡ part.now) }
{
    Ok(Part {
        layers: part.layers,
        shape: copy_shape(alloc, &part.shape)?,
    })
}

/// Puts an equal part behind the others.
fn push_part(list: &mut SmallVec<Part, 1>, alloc: Global, part: &Part) -> Result<(), AllocError>
    ensures { OnOk result (list.new.items ≡ list.old.items ++ part.now ∷ []) }
{
    let copy = copy_part(alloc, part)?;
    list.push(copy)?;
    Ok(())
}

fn copy_list(alloc: Global, parts: &[Part]) -> Result<SmallVec<Part, 1>, AllocError>
    ensures { IfOk result (λ copy. copy.items ≡ parts.now) }
{
    let mut list = SmallVec::with_capacity(alloc, parts.len())?;
    for part in parts {
        if let Err(error) = push_part(&mut list, alloc, part) {
            drop(list);
            return Err(error);
        }
    }
    Ok(list)
}

impl Parts {
    /// Equal parts. They are made with the allocator that the list keeps.
    pub(crate) fn copy(&self) -> Result<Parts, AllocError>
        ensures { IfOk result (λ copy. copy ≡ self.now) }
    {
        let alloc = *self.list.allocator();
        Ok(Parts::of(copy_list(alloc, self.as_slice())?))
    }
}

// ---- items

impl Hole {
    /// An equal hole.
    #[tactic(auto, using(crate::proofs::EqualItems::hole_is))]
    pub(crate) fn copy(&self, alloc: Global) -> Result<Hole, AllocError>
        ensures { IfOk result (λ copy. copy ≡ self.now) }
    {
        Ok(Hole {
            shape: copy_shape(alloc, &self.shape)?,
            layers: self.layers,
            plated: self.plated,
            least: self.least,
        })
    }
}

fn copy_hole(alloc: Global, hole: &Option<Hole>) -> Result<Option<Hole>, AllocError>
    ensures { IfOk result (λ copy. copy ≡ hole.now) }
{
    match hole {
        None => Ok(None),
        Some(hole) => Ok(Some(hole.copy(alloc)?)),
    }
}

fn copy_name(alloc: Global, name: &Boxed<Name>) -> Result<Boxed<Name>, AllocError>
    ensures { IfOk result (λ copy. copy ≡ name.now) }
{
    Boxed::new(alloc, name.get().copy()?)
}

fn copy_parts(alloc: Global, parts: &Boxed<Parts>) -> Result<Boxed<Parts>, AllocError>
    ensures { IfOk result (λ copy. copy ≡ parts.now) }
{
    Boxed::new(alloc, parts.get().copy()?)
}

/// What a pad is with equal names.
fn copy_pad(
    alloc: Global,
    number: &Boxed<Name>,
    reference: &Boxed<Name>,
) -> Result<What, AllocError>
    ensures { IfOk result (λ copy. copy ≡ What.Pad number.now reference.now) }
{
    let number = copy_name(alloc, number)?;
    match copy_name(alloc, reference) {
        Ok(reference) => Ok(What::Pad { number, reference }),
        Err(error) => {
            drop(number);
            Err(error)
        }
    }
}

/// What a rule area is with an equal name and area.
fn copy_area(
    alloc: Global,
    title: &Boxed<Name>,
    bans: Bans,
    shape: &Boxed<Part>,
) -> Result<What, AllocError>
    ensures { IfOk result (λ copy. copy ≡ What.Area title.now bans shape.now) }
{
    let shape = Boxed::new(alloc, copy_part(alloc, shape.get())?)?;
    match copy_name(alloc, title) {
        Ok(title) => Ok(What::Area { title, bans, shape }),
        Err(error) => {
            drop(shape);
            Err(error)
        }
    }
}

/// What a footprint is with an equal reference and courtyards.
fn copy_body(
    alloc: Global,
    reference: &Boxed<Name>,
    front: &Boxed<Parts>,
    back: &Boxed<Parts>,
    on_back: bool,
) -> Result<What, AllocError>
    ensures { IfOk result (λ copy. copy ≡ What.Body reference.now front.now back.now on_back) }
{
    let front = copy_parts(alloc, front)?;
    let back = match copy_parts(alloc, back) {
        Ok(back) => back,
        Err(error) => {
            drop(front);
            return Err(error);
        }
    };
    match copy_name(alloc, reference) {
        Ok(reference) => Ok(What::Body {
            reference,
            front,
            back,
            on_back,
        }),
        Err(error) => {
            drop(front);
            drop(back);
            Err(error)
        }
    }
}

impl What {
    /// A copy of what the item is.
    pub(crate) fn copy(&self, alloc: Global) -> Result<What, AllocError>
        ensures { IfOk result (λ copy. copy ≡ self.now) }
    {
        match self {
            What::Track { width } => Ok(What::Track { width: *width }),
            What::Via {
                size,
                drill,
                micro,
                blind,
            } => Ok(What::Via {
                size: *size,
                drill: *drill,
                micro: *micro,
                blind: *blind,
            }),
            What::Pad { number, reference } => copy_pad(alloc, number, reference),
            What::Graphic => Ok(What::Graphic),
            What::Fill => Ok(What::Fill),
            What::Edge { lines } => Ok(What::Edge {
                lines: copy_parts(alloc, lines)?,
            }),
            What::Area { title, bans, shape } => copy_area(alloc, title, *bans, shape),
            What::Body {
                reference,
                front,
                back,
                on_back,
            } => copy_body(alloc, reference, front, back, *on_back),
            What::Note { about, layer } => Ok(What::Note {
                about: *about,
                layer: copy_name(alloc, layer)?,
            }),
        }
    }
}

impl Item {
    /// An equal item. It is made with the allocator that the list of its copper keeps.
    #[tactic(auto, using(crate::proofs::EqualItems::item_is))]
    pub fn copy(&self) -> Result<Item, AllocError>
        ensures { IfOk result (λ copy. copy ≡ self.now) }
    {
        let alloc = *self.copper.list.allocator();
        let name = self.name.copy()?;
        let copper = match self.copper.copy() {
            Ok(copper) => copper,
            Err(error) => {
                drop(name);
                return Err(error);
            }
        };
        let hole = match copy_hole(alloc, &self.hole) {
            Ok(hole) => hole,
            Err(error) => {
                drop(name);
                drop(copper);
                return Err(error);
            }
        };
        let what = match self.what.copy(alloc) {
            Ok(what) => what,
            Err(error) => {
                drop(name);
                drop(copper);
                drop(hole);
                return Err(error);
            }
        };
        Ok(Item {
            name,
            unit: self.unit,
            net: self.net,
            x: self.x,
            y: self.y,
            copper,
            hole,
            local: self.local,
            what,
        })
    }
}
