//! The lengths of a single item that kinds limit, in nanometres.

ghost use Rattle.std.specs.Prelude.{◌≡◌, ℤ, pos, ◌*ℤ◌, ◌≤ℤ◌, IfSome, if◌then◌else◌};
ghost use Rattle.std.specs.Option.{option_map};
ghost use Rattle.plain_types.specs.Lengths.{IsLength};
ghost use Rattle.kind_subjects.specs.LimitedLengths.{IsNearZero, ring_of, track_width, via_size, length_by, length_of, times, IsQuotient};

use crate::subject::{Measure, Subject, subject_of};
use board_items::{Item, Nm, What};
use cond_lang::Kind;

/// Twice the width of the copper round the hole of a via.
fn ring_of(item: &Item) -> Option<Nm>
    ensures value { result ≡ ring_of item.now.what item.now.hole }
    ensures range { IfSome result IsNearZero }
{
    match (&item.what, &item.hole) {
        (What::Via { size, drill, .. }, Some(_)) => Some(*size - *drill),
        _ => None,
    }
}

fn track_width(item: &Item) -> Option<Nm>
    ensures value { result ≡ track_width item.now.what }
    ensures range { IfSome result IsNearZero }
{
    match &item.what {
        What::Track { width } => Some(*width),
        _ => None,
    }
}

fn via_size(item: &Item) -> Option<Nm>
    ensures value { result ≡ via_size item.now.what }
    ensures range { IfSome result IsNearZero }
{
    match &item.what {
        What::Via { size, .. } => Some(*size),
        _ => None,
    }
}

fn hole_size(item: &Item) -> Option<Nm>
    ensures value { result ≡ option_map (λ hole. hole.least) item.now.hole }
    ensures range { IfSome result IsNearZero }
{
    match &item.hole {
        Some(hole) => Some(hole.least),
        None => None,
    }
}

fn length_by(measure: Measure, item: &Item) -> Option<Nm>
    ensures value { result ≡ length_by measure item.now }
    ensures range { IfSome result IsNearZero }
{
    match measure {
        Measure::Width => track_width(item),
        Measure::Diameter => via_size(item),
        Measure::Bore => hole_size(item),
        Measure::Ring => ring_of(item),
    }
}

/// The length that the kind limits, in nanometres; of the copper round a hole twice the width.
pub fn length_of(kind: Kind, item: &Item) -> Option<Nm>
    ensures value { result ≡ length_of kind item.now }
    ensures range { IfSome result IsNearZero }
{
    match subject_of(kind) {
        Subject::Length(measure) => length_by(measure, item),
        Subject::Sides(_) | Subject::Whole => None,
    }
}

/// Whether the length is measured twice: the copper round a hole is, on both sides of it.
fn is_twice(kind: Kind) -> bool
    ensures { times kind ≡ (if result then pos 2 else pos 1) }
{
    match subject_of(kind) {
        Subject::Length(Measure::Ring) => true,
        Subject::Length(Measure::Width | Measure::Diameter | Measure::Bore) => false,
        Subject::Sides(_) | Subject::Whole => false,
    }
}

/// The limit as it is measured: a ring on both sides of its hole.
pub fn counted(kind: Kind, nm: Nm) -> Nm
    requires { IsLength nm }
    ensures value { result ≡ times kind *ℤ nm }
    ensures from { pos 0 ≤ℤ result }
    ensures to { result ≤ℤ pos 1000000000 }
{
    if is_twice(kind) { 2 * nm } else { nm }
}

/// The length that there is: the measured one by how many times it is measured, rounded down.
pub fn length_once(kind: Kind, n: Nm) -> Nm
    requires { IsNearZero n }
    ensures quotient { IsQuotient n (times kind) result }
    ensures range { IsNearZero result }
{
    if is_twice(kind) { n.div_euclid(2) } else { n }
}
