//! An exact reader of JSON (RFC 8259, in UTF-8). Numbers stay slices of the text, strings stay where
//! they are until they are asked for, and a refusal says at which byte the text went wrong.
#![tactic(auto)]

mod cells;
mod decode;
mod error;
mod handles;
mod parsing;
mod reader;
mod scan;
mod strings;

pub use error::JsonError;
pub use handles::{Items, Json, Span, Value};
pub use parsing::{one_value, parse};
