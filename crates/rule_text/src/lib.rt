//! Rule files: the rules of a board's design, read from their text.
//!
//! The format is a part of that of KiCad 7 (PCB editor manual, custom design rules). Lengths have their unit in the text and
//! are whole nanometres here, to the nearest. What a file says is defined in `specs/RulesOf`.
#![tactic(auto)]

ghost use Rattle.std.specs.Prelude.{◌≡◌, ◌⊎◌, IfErr, MatchResult, Result, Ok, Err};
ghost use Rattle.plain_types.specs.Limits.{IsInText, IsReadable};
ghost use Rattle.rule_text.specs.declared.error.RuleError.{RuleError};
ghost use Rattle.rule_text.specs.ListText.{Here, SaysList};
ghost use Rattle.rule_text.specs.RuleRefusalPlaces.{IsPlaceInText};
ghost use Rattle.rule_text.specs.RulesOf.{PlainRules};
ghost use Rattle.rule_text.specs.RuleText.{RulesSays};
ghost use Rattle.rule_text.specs.RuleValues.{plain_rules};

mod bans;
mod conds;
mod constraints;
mod draft;
mod error;
mod forms;
pub mod laws;
mod layers;
mod lengths;
mod limits;
mod listed;
mod lists;
mod notes;
mod reading;
mod rules;

use crate::laws::{one_list_reading, one_reading};
use crate::listed::{list_of, moved};
use crate::reading::rules_of;
pub use error::RuleError;
pub use notes::{RuleNote, RuleNotes};
use plain_types::crosses_threads;
pub use rules::{RuleList, Rules};
use sexpr_read::laws::spans_in_order;
use sexpr_read::{TextError, parse_all};
use std::alloc::Global;

/// The rules of the text of a rule file, of at most 33,554,432 bytes, or the first reason why there are none, with its
/// place. The reasons are those of [`RuleError`], exactly where `specs/RuleText` has them; running out of memory alone is free.
#[tactic(auto, using(crate::proofs::Shortness::forms_short, crate::proofs::Shortness::forms_few), unfolding(crate::specs::RulesOf::file_of))]
pub fn read_rules(alloc: Global, text: &[u8]) -> Result<Rules, RuleError>
    requires { IsReadable text.now }
    ensures says { MatchResult result
        (λ rules. RulesSays text.now (Ok (plain_rules rules)))
        (λ e. (e ≡ RuleError.OutOfMemory) ⊎ RulesSays text.now (Err e)) }
    ensures only { (answer : Result PlainRules RuleError) → RulesSays text.now answer
        → MatchResult result
        (λ rules. answer ≡ Ok (plain_rules rules))
        (λ e. (e ≡ RuleError.OutOfMemory) ⊎ (answer ≡ Err e)) }
{
    one_reading();
    spans_in_order();
    match parse_all(alloc, text) {
        Ok(doc) => {
            let none = RuleError::Version {
                at: text.len() as u32,
            };
            rules_of(alloc, none, doc.root().children())
        }
        Err(TextError::OutOfMemory) => Err(RuleError::OutOfMemory),
        Err(error) => Err(RuleError::Text(error)),
    }
}

/// The rules of a list `(rules (version 1) (rule ..) ..)` that stands in another text, of at most 33,554,432 bytes: its head
/// is a word, and what follows the head is as the forms of a file. `at` is where the list begins in that text, at most
/// 33,554,432; it is added to each place. Beside the reasons of a file, a text whose first form is no such list, as
/// `("rules" (version 1))`, is Bad at its start, and one with a second form is Bad there.
pub fn read_rule_list(alloc: Global, text: &[u8], at: u32) -> Result<Rules, RuleError>
    requires text { IsReadable text.now }
    requires at { IsInText at }
    ensures says { MatchResult result
        (λ rules. SaysList text.now at (Ok (plain_rules rules)))
        (λ e. (e ≡ RuleError.OutOfMemory) ⊎ SaysList text.now at (Err e)) }
    ensures only { (answer : Result PlainRules RuleError) → SaysList text.now at answer
        → MatchResult result
        (λ rules. answer ≡ Ok (plain_rules rules))
        (λ e. (e ≡ RuleError.OutOfMemory) ⊎ (answer ≡ Err e)) }
{
    one_list_reading();
    match list_here(alloc, text) {
        Ok(rules) => Ok(rules),
        Err(error) => Err(moved(at, error)),
    }
}

/// The rules of a list `(rules (version 1) (rule ..) ..)` that stands in another text, by the places of the list's own text.
#[tactic(auto, using(crate::proofs::Shortness::forms_short, crate::proofs::Places::near_answer, list_read::proofs::TextPlaces::near_text))]
fn list_here(alloc: Global, text: &[u8]) -> Result<Rules, RuleError>
    requires { IsReadable text.now }
    ensures says { MatchResult result
        (λ rules. Here text.now (Ok (plain_rules rules)))
        (λ e. (e ≡ RuleError.OutOfMemory) ⊎ Here text.now (Err e)) }
    ensures near { IfErr result IsPlaceInText }
{
    spans_in_order();
    match parse_all(alloc, text) {
        Ok(doc) => list_of(alloc, text.len() as u32, doc.root()),
        Err(TextError::OutOfMemory) => Err(RuleError::OutOfMemory),
        Err(error) => Err(RuleError::Text(error)),
    }
}

fn all_cross() {
    crosses_threads::<RuleError>();
    crosses_threads::<RuleNotes>();
}

fn lists_cross() {
    crosses_threads::<RuleList>();
}

fn rules_cross() {
    crosses_threads::<Rules>();
}
