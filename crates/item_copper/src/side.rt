//! Sides: some parts of an item, which face some parts of another.

ghost use Rattle.item_copper.specs.Stack.{IsLayerIfSome};

use board_items::Part;
use copper_layers::LayerSet;
use geo_seg::Shape;

/// The parts of a list, or those of them that lie on one copper layer.
#[derive(Clone, Copy)]
pub struct ListedParts<'a> {
    pub parts: &'a [Part],
    /// Its number in stack order, from 0 to 31.
    pub layer: Option<u32>,
    pub ghost layer_in_range: { IsLayerIfSome layer },
}

/// A single part, as a hole is.
#[derive(Clone, Copy)]
pub struct SinglePart<'a> {
    pub layers: LayerSet,
    pub shape: &'a Shape,
}

/// Some parts of an item. Contracts see them as a list.
#[derive(Clone, Copy)]
pub enum SomeParts<'a> {
    Nothing,
    Listed(ListedParts<'a>),
    Single(SinglePart<'a>),
}
