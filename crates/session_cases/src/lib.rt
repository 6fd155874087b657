//! Calls on sessions, on trials and on the writing of boards, as a case has them: each takes a board and a script.
#![tactic(auto)]

mod alike;
mod answers;
mod opening;
mod stopping;
mod surveys;
mod texts;
mod trying;
mod writing;

use case_gates::Turns;
use case_reader::{Given, Reason};
use std::alloc::AllocGlobal;
use std::io::Print;
use std::thread::Threads;
pub use texts::{LIMIT, Texts};

/// What the call of this name answers, made on these texts of the case. By how many workers it is made counts for `trial` and `survey`, and
/// the gate for all but `apply` and `write`.
///
/// - `apply`: carries the first command out, and tells whether a session that ran out of memory is stopped.
/// - `alike`: tries each command by two threads, and tells whether a caller alone is told the same.
/// - `trial`: tries all commands, one after another.
/// - `survey`: tries each command alone, and tells which leaves the fewest rows.
/// - `write`: the text of the board after the commands.
///
/// A reason says why there is nothing to tell: no such call, a text that is too long or not read, a number that is none, or no memory.
pub fn answer<R: Threads + Sync + AllocGlobal + Print>(
    rt: &R,
    name: &str,
    given: &Given,
    texts: Texts<'_>,
    workers: u32,
    gate: &Turns,
) -> Result<Vec<u8>, Reason> {
    match name {
        "apply" => stopping::told(rt, texts),
        "alike" => alike::told(rt, texts, gate),
        "trial" => trying::told(rt, texts, workers, gate),
        "survey" => surveys::told(rt, texts, workers, gate),
        "write" => writing::told(rt, given, texts),
        _ => Err(Reason::NoCall),
    }
}
