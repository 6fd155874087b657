//! What all seats share.

use crate::rule::Other;
use std::alloc::Global;

/// The work, what is called around its tests, the deques, and how many numbers there are.
#[derive(Drop)]
pub(crate) struct Job<'a, T, G> {
    pub(crate) alloc: Global,
    pub(crate) work: &'a T,
    pub(crate) gate: &'a G,
    pub(crate) others: &'a [Other],
    pub(crate) tiles: u32,
}
