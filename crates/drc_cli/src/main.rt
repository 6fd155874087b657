//! Checks a circuit board, and again after each edit of a script:
//! `drc [BOARD] [--project FILE] [--rules FILE] [--script FILE] [--workers N] [--make N]`.
//!
//! The reports go to standard output, and the exit status says how the run ended.
#![tactic(auto)]

use drc_outside::{FileShelf, StdoutSink, SystemFiles, command_line};
use drc_run::answer;
use std::io;
use std::process::ExitCode;
use tile_pool::NoGate;

fn main(rt: HostRuntime) -> ExitCode {
    let mut shelf = FileShelf::new(rt.alloc(), SystemFiles::new(&rt));
    let mut out = StdoutSink::new(io::writer(&rt));
    answer(&rt, command_line(&rt), &mut shelf, &mut out, &NoGate)
}
