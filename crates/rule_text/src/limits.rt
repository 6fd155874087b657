//! What is known so far of the lengths of a constraint.

use plain_types::Length;

/// The least and the most length, and whether the one between was given.
#[derive(Clone, Copy)]
pub(crate) struct Limits {
    pub(crate) least: Option<Length>,
    pub(crate) wished: bool,
    pub(crate) most: Option<Length>,
}
