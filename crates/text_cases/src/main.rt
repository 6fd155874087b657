//! Runs cases of the calls on texts, numbers, files, names, projects and rules that are written as data: each word of the
//! command line names a file of them.
//!
//! Prints each case with ` ok`, or with what differs, and ends with status 1 where one differs. `docs/CASES.md` has the
//! format.
#![tactic(auto)]

mod classes;
mod decimals;
mod files;
mod rules;
mod scripts;
mod trees;
mod values;

use case_lines::{Fault, first_word, try_files};
use std::alloc::Global;
use std::io;
use std::process::ExitCode;

/// The answer of a call. Each module has a line here, and answers its calls by their names.
fn answer(alloc: Global, call: &str) -> Result<Vec<u8>, Fault> {
    let (name, written) = first_word(call);
    match name {
        "parse_one" | "parse_all" | "is" | "value" => trees::answer(alloc, name, written),
        "json" | "json_member" | "json_text" => values::answer(alloc, name, written),
        "fetch" | "put_all" | "copy_name" | "same_name" => files::answer(alloc, name, written),
        "wild" | "wild_fold" => classes::matched(alloc, name == "wild_fold", written),
        "of_net" | "greatest" | "mins" => classes::answer(alloc, name, written),
        "parse_cond" | "read_rules" | "read_rule_list" => rules::answer(alloc, name, written),
        "read_script" | "read_steps" => scripts::answer(alloc, name, written),
        _ => decimals::answer(alloc, name, written),
    }
}

fn main(rt: HostRuntime) -> io::Result<ExitCode> {
    let alloc = rt.alloc();
    try_files(&rt, |call| answer(alloc, call))
}
