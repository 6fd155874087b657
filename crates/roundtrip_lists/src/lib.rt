//! Lists of a board that are equal up to translation are read alike: the same but for where they stand in the text, and with their places
//! moved where a shift is given. Closed outlines of lines that are moved, and what is drawn of graphics and texts, go with them. Laws of
//! the readers' definitions alone: no function here does anything.
#![tactic(auto)]

pub mod court_laws;
pub mod drawing_laws;
pub mod list_laws;
