//! What each kind looks at: what faces each other of two items, a length of a single item, or the item as a whole; on which layers,
//! whether what faces each other meets, and how near it is.
//!
//! Shapes are in half nanometres, and are compared with no rounding; distances are whole nanometres. No call takes memory. What is
//! called for each pair is laid into its callers, since these know the kind.
#![tactic(auto)]

mod compared;
mod layer;
mod lengths;
mod measure;
mod meeting;
mod near;
mod operand_kinds;
mod places;
mod single_layers;
mod subject;

pub use compared::{is_compared, share_net};
pub use layer::RowLayer;
pub use lengths::{counted, length_of, length_once};
pub use measure::{Faced, MeasuredPairs, may_face, measured_pairs_at};
pub use meeting::first_meeting;
pub use near::{are_kept, gap_if_near, may_not_meet};
pub use operand_kinds::places_between;
pub use places::{Places, places_of_items, tried_at};
use plain_types::crosses_threads;
pub use single_layers::{is_asked_at, is_measured_at, places_measured};
pub use subject::{Measure, OperandKinds, Subject};

fn layers_cross() {
    crosses_threads::<RowLayer>();
}
