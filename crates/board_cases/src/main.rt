//! Runs cases of the calls on boards and on the facts of their items that are written as data: each word of the command line
//! names a file of them.
//!
//! Prints each case with ` ok`, or with what differs, and ends with status 1 where one differs. `docs/CASES.md` has the
//! format.
#![tactic(auto)]

mod apart;
mod asked;
mod boards;
mod edits;
mod tested;

use case_lines::{Fault, first_word, try_files};
use std::alloc::Global;
use std::io;
use std::process::ExitCode;

/// The answer of a call. Each module has a line here, and answers its calls by their names.
fn answer(alloc: Global, call: &str) -> Result<Vec<u8>, Fault> {
    let (name, written) = first_word(call);
    match name {
        "groups" => apart::answer(alloc, written),
        "add" => boards::filled(alloc, written),
        "read_board" => boards::read(alloc, written),
        "read_with_spans" => boards::spanned(alloc, written),
        "read_item" => boards::listed(alloc, written),
        "rows_of" | "rows_of_changed" | "test_tile" => tested::answer(alloc, name, written),
        "remove" | "taken" | "moved" | "find" => edits::answer(alloc, name, written),
        _ => asked::answer(alloc, name, written),
    }
}

fn main(rt: HostRuntime) -> io::Result<ExitCode> {
    let alloc = rt.alloc();
    try_files(&rt, |call| answer(alloc, call))
}
