//! Net classes and the least sizes of a board, read from the text of a project.
//!
//! The project is that of KiCad 7, a JSON text (KiCad developer documentation). Lengths are millimetres in the text and
//! whole nanometres here, to the nearest. What a project says is defined in `specs/ClassesOf`.
#![tactic(auto)]

ghost use Rattle.std.specs.Prelude.{◌≡◌, ◌⊎◌, MatchResult, Result, Ok, Err};
ghost use Rattle.plain_types.specs.Limits.{IsReadable};
ghost use Rattle.net_class.specs.declared.error.ProjectError.{ProjectError};
ghost use Rattle.net_class.specs.NetClasses.{PlainClasses};
ghost use Rattle.net_class.specs.ProjectText.{ProjectSays, refusal_of};

mod classes;
mod drafts;
mod error;
mod lengths;
mod members;
mod mins;
mod patterns;
mod reading;

pub use classes::Classes;
use classes::classes_of;
pub use error::ProjectError;
use json_exact::{JsonError, parse};
pub use lengths::{Class, Mins, Nm};
pub use patterns::wild;
use plain_types::crosses_threads;
use std::alloc::Global;

/// The classes of the text of a project, of at most 33,554,432 bytes, or the first reason why there are none, with its
/// place. The reasons are those of [`ProjectError`], exactly where `specs/ProjectText` has them; running out of memory alone is
/// free.
pub fn read_project(alloc: Global, text: &[u8]) -> Result<Classes, ProjectError>
    requires { IsReadable text.now }
    ensures says { MatchResult result (λ classes. ProjectSays text.now (Ok classes))
        (λ e. (e ≡ ProjectError.OutOfMemory) ⊎ ProjectSays text.now (Err e)) }
    ensures only { (answer : Result PlainClasses ProjectError) → ProjectSays text.now answer
        → MatchResult result (λ classes. answer ≡ Ok classes)
        (λ e. (e ≡ ProjectError.OutOfMemory) ⊎ (answer ≡ Err e)) }
{
    match parse(alloc, text) {
        Ok(json) => classes_of(alloc, json.root()),
        Err(error) => Err(refused(error)),
    }
}

/// The refusal of a text that is no JSON.
fn refused(error: JsonError) -> ProjectError
    ensures { result ≡ refusal_of error }
{
    match error {
        JsonError::OutOfMemory => ProjectError::OutOfMemory,
        _ => ProjectError::Json(error),
    }
}

fn all_cross() {
    crosses_threads::<Class>();
    crosses_threads::<Classes>();
    crosses_threads::<Mins>();
    crosses_threads::<ProjectError>();
}
