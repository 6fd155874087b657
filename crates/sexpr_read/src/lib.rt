//! S-expressions: a text is read once into a flat row of cells, and its tree is walked from there.
//!
//! Texts are UTF-8, and blank, tab, line feed and carriage return separate what stands in them. Round brackets
//! enclose a list, whose parts are lists and atoms. An atom without quotes is a word and goes on until a separator,
//! a bracket or a quote. An atom in quotes is a string; there a backslash takes the next character as it is, but
//! for `\n` and `\r`, which mean the two line ends. Places are bytes of the text, from 0.
#![tactic(auto)]

mod arena;
mod byte_lanes;
mod bytes;
mod cell_estimate;
mod comments;
mod decode;
pub mod laws;
mod place;
mod reader;
mod runs;
mod view;

pub use place::{Span, TextError};
pub use reader::{parse_all, parse_one};
pub use view::{Children, Doc, Node};
