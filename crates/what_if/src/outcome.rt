//! What a trial and a survey give.

use drc_session::Session;
use drc_state::Change;
use row_check::Row;

/// A session that took the commands, and which rows come and which go by them. Rows are told apart by all that their readers give.
#[derive(Drop)]
pub struct Trial {
    /// It is not stopped. It is a copy: the session that was lent is as it was.
    pub session: Session,
    /// The rows that it has and the lent session has not, in order.
    pub come: Vec<Row>,
    /// The rows that the lent session has and it has not, in order.
    pub gone: Vec<Row>,
}

/// What a command did to a session: which rows came and which went by it, and the inverse change. Rows are told apart by all that
/// their readers give.
#[derive(Drop)]
pub struct Taken {
    /// The rows that the session has and had not before, in order.
    pub come: Vec<Row>,
    /// The rows that it had before and has no more, in order.
    pub gone: Vec<Row>,
    /// It leads back to the state from before, but for the numbers that come next.
    pub back: Change,
}

/// What each of the commands would leave if it were the only one.
#[derive(Drop)]
pub struct Survey {
    /// How many rows there are after each command alone, in the order of the commands. There is none where the command is refused.
    pub counts: Vec<Option<u64>>,
    /// The first place of the least count, from 0. There is none where every command is refused.
    pub least: Option<u32>,
}
