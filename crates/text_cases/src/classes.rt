//! Calls on the classes of a project, and on patterns. Where no text is written there is no project. What is said of classes
//! is said of their copy.

ghost use Rattle.std.specs.Prelude.{◌≤◌, length};

use crate::files::name_of;
use case_lines::{Fault, first_word, refused, text_of, told};
use drc_io::Name;
use net_class::{Classes, Mins, ProjectError, read_project, wild};
use plain_types::HasReason;
use std::alloc::Global;

fn classes(alloc: Global, text: &[u8]) -> Result<Classes, ProjectError>
    requires { length text.now ≤ 33_554_432 }
{
    if text.is_empty() {
        return Ok(Classes::plain(alloc)?);
    }
    read_project(alloc, text)
}

fn shown(alloc: Global, mins: &Mins) -> Result<Vec<u8>, Fault> {
    let copper = mins.min_clearance;
    let edge = mins.min_copper_edge_clearance;
    let hole = mins.min_hole_clearance;
    let holes = mins.min_hole_to_hole;
    let drill = mins.min_through_hole_diameter;
    let track = mins.min_track_width;
    let ring = mins.min_via_annular_width;
    let via = mins.min_via_diameter;
    let shown = format!(in alloc; "{copper} {edge} {hole} {holes} {drill} {track} {ring} {via}")?;
    Ok(shown.into_bytes())
}

/// What these classes say.
fn said(alloc: Global, call: &str, net: &Name, classes: &Classes) -> Result<Vec<u8>, Fault> {
    match call {
        "of_net" => told(alloc, &classes.of_net(net).clearance),
        "greatest" => told(alloc, &classes.greatest()),
        _ => shown(alloc, classes.mins()),
    }
}

/// The answer of a call on a project. Of a net the name is written first.
pub fn answer(alloc: Global, call: &str, written: &str) -> Result<Vec<u8>, Fault> {
    let (net, text) = if call == "of_net" {
        first_word(written)
    } else {
        ("", written)
    };
    let net = name_of(alloc, net)?;
    match classes(alloc, &text_of(alloc, text)?) {
        Ok(classes) => said(alloc, call, &net, &classes.copy()?),
        Err(error) => refused(alloc, &error, error.reason().place()),
    }
}

/// Whether a pattern matches a name.
pub fn matched(alloc: Global, fold: bool, written: &str) -> Result<Vec<u8>, Fault> {
    let (pattern, name) = first_word(written);
    let is_match = wild(&text_of(alloc, pattern)?, &text_of(alloc, name)?, fold);
    told(alloc, &is_match)
}
