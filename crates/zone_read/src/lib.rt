//! Zones, read from their lists: rule areas, and the copper that a zone was filled with.
#![tactic(auto)]

mod zone;

pub use zone::read_zone;
