//! What a text spells of which lists are left out, written with other numbers, or added last. Laws of trees and texts alone: no
//! function here does anything.
#![tactic(auto)]

pub mod laws;
