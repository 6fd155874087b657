//! What the commands of a script do to the units of a board in its text: which lists are left out, written with other places, or
//! added. The text after the commands is read as the board after the commands. Laws alone: no function here does anything. What a
//! list of each sort gives is a parameter of the last of them, `proofs/Together`.
#![tactic(auto)]

pub mod laws;
