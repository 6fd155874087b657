//! Lists of a text by their heads, the elements in them, and what their atoms stand for: what all readers of
//! S-expressions share.
#![tactic(auto)]

mod elements;
mod heads;
mod names;

pub use elements::{Wanted, element, find_elements, is_naming, naming, pick};
pub use heads::{behind_head, has_head, has_word_head, has_words, place};
pub use names::name_from;
