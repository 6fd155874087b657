//! Where the lists of units stand in the text of a board.

use plain_types::Listed;
use sexpr_read::Span;

/// The spans of lists, in the order of the text: entry k is that of the list whose items have the unit number k. Contracts
/// see the list.
pub type Spans = Listed<Span>;
