//! What commands would do to a session.
//!
//! [`trial`] and [`survey`] go on copies: the session is lent and stays as it is, so any number of callers may use one session, from threads
//! of their own. [`take`] and [`turn_back`] go on the session itself, which costs no copy.
#![tactic(auto)]

mod difference;
mod error;
mod here;
pub mod laws;
mod least;
mod outcome;
mod runs;
mod surveying;
mod trial_scratch;
mod trying;
mod work;

pub use error::TrialError;
pub use here::{is_turned_back, take, turn_back};
pub use outcome::{Survey, Taken, Trial};
pub use surveying::{survey, survey_of};
pub use trying::trial;
