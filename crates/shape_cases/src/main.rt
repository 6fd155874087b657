//! Runs cases of the calls on points, segments, polygons, shapes, outlines, tiles and links that are written as data: each
//! word of the command line names a file of them.
//!
//! Prints each case with ` ok`, or with what differs, and ends with status 1 where one differs. `docs/CASES.md` has the
//! format.
#![tactic(auto)]

mod measures;
mod nests;
mod outlines;
mod shapes;
mod tiles;

use case_lines::{Fault, first_word, try_files};
use std::alloc::Global;
use std::io;
use std::process::ExitCode;

/// The answer of a call. Each module has a line here, and answers its calls by their names.
fn answer(alloc: Global, call: &str) -> Result<Vec<u8>, Fault> {
    let (name, written) = first_word(call);
    match name {
        "near_tiles" | "held" | "dirty" | "remove" | "ids_near" => tiles::answer(
            alloc, name, written,
        ),
        "chain" => outlines::chained(alloc, written),
        "nest" | "check_nest" => nests::answer(alloc, name, written),
        "bounds"
        | "union"
        | "side_of"
        | "corners"
        | "run_box"
        | "gap"
        | "seg_gap"
        | "poly_seg_gap"
        | "poly_gap" => measures::answer(alloc, name, written),
        _ => shapes::answer(alloc, name, written),
    }
}

fn main(rt: HostRuntime) -> io::Result<ExitCode> {
    let alloc = rt.alloc();
    try_files(&rt, |call| answer(alloc, call))
}
