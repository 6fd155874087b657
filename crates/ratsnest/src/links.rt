//! Lists of links, and nests.

use crate::link::Link;
use plain_types::Listed;

/// A list of links. Contracts see it as that list.
pub type Links = Listed<Link>;

/// The nest of a net: the links that are still to be routed.
#[derive(Debug, Drop)]
pub struct Nest {
    pub links: Links,
}
