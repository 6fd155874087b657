//! The text of an edited board is read as the board that the commands left: lists of tracks, vias, graphics, texts and zones that are equal
//! up to translation give the same items, carried, and so does the whole. Laws alone: no function here does anything.
#![tactic(auto)]

pub mod laws;
pub mod unit_laws;
