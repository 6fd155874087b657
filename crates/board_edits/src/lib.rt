//! What commands do to a board: what a command asks for is found first, or why it is refused, and then it is done.
#![tactic(auto)]

pub mod laws;
mod making;
mod operation;
mod planning;
mod refusal;
mod touching;

pub use making::{Made, make};
pub use operation::Operation;
pub use planning::operation_of;
pub use refusal::Refusal;
pub use touching::ids_touched;
