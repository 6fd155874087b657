//! Calls on rule files and conditions. Answers are shown from a copy of what was read.

ghost use Rattle.std.specs.Prelude.{◌≤◌, length};

use crate::files::name_of;
use case_lines::{Fault, add, first_word, number, refused, small, text_of};
use cond_lang::{Cond, Constraints, Rule, RuleLayer, Severity, parse_cond};
use plain_types::HasReason;
use rule_text::{RuleError, RuleNotes, Rules, read_rule_list, read_rules};
use std::alloc::Global;

/// What a condition says outermost: how it joins its parts, or what it asks.
fn head(alloc: Global, cond: &Cond) -> Result<String, Fault> {
    Ok(match cond {
        Cond::Any(parts) => {
            let count = parts.as_slice().len();
            format!(in alloc; "any of {count}")?
        }
        Cond::All(parts) => {
            let count = parts.as_slice().len();
            format!(in alloc; "all of {count}")?
        }
        Cond::Not(_) => format!(in alloc; "not")?,
        Cond::Call { side, func, .. } => format!(in alloc; "{side:?} {func:?}")?,
        Cond::Compare { op, .. } => format!(in alloc; "{op:?}")?,
    })
}

/// A rule in one line.
fn shown(alloc: Global, rule: &Rule) -> Result<String, Fault> {
    let name = String::from_utf8_lossy(alloc, rule.name.bytes())?;
    let layer = rule.layer;
    let severity = rule.severity;
    let cond = match &rule.cond {
        Some(cond) => head(alloc, cond)?,
        None => format!(in alloc; "always")?,
    };
    let count = rule.constraints.as_slice().len();
    Ok(format!(in alloc; "{name}: {layer:?}, {severity:?}, {cond}, {count}")?)
}

/// A rule that asks for nothing, under this condition.
fn rule_under(alloc: Global, cond: Cond) -> Result<Rule, Fault> {
    Ok(Rule {
        name: name_of(alloc, "r")?,
        layer: RuleLayer::Outer,
        severity: Severity::Warning,
        cond: Some(cond),
        constraints: Constraints::of(Vec::new(alloc)),
    })
}

/// A warning about outer layers under the condition of this text.
fn under(alloc: Global, text: &[u8]) -> Result<Vec<u8>, Fault>
    requires { length text.now ≤ 33_554_432 }
{
    match parse_cond(alloc, text) {
        Ok(cond) => Ok(shown(alloc, &rule_under(alloc, cond)?.copy()?)?.into_bytes()),
        Err(error) => refused(alloc, &error, error.reason().place()),
    }
}

/// A refusal with its place, and with the place in its condition where that is what was refused.
fn refusal(alloc: Global, error: RuleError) -> Result<Vec<u8>, Fault> {
    let why = error.reason();
    match (why.place(), why.inner_place()) {
        (Some(at), Some(inner)) => Ok(format!(in alloc; "{error} at {at} + {inner}")?.into_bytes()),
        (place, _) => refused(alloc, &error, place),
    }
}

fn add_notes(alloc: Global, out: &mut Vec<u8>, notes: &RuleNotes) -> Result<(), Fault> {
    for note in notes.as_slice() {
        let rule = note.rule;
        let constraint = String::from_utf8_lossy(alloc, note.constraint.bytes())?;
        add(
            out,
            format!(in alloc; " | note: {rule} {constraint}")?.as_bytes(),
        )?;
    }
    Ok(())
}

/// The rules and the notes of a file, with `|` between them.
fn listed(alloc: Global, rules: &Rules) -> Result<Vec<u8>, Fault> {
    if rules.rules.as_slice().is_empty() {
        return Ok(b"none".to_vec(alloc)?);
    }
    let mut out = Vec::new(alloc);
    for rule in rules.rules.as_slice() {
        let bar: &[u8] = if out.is_empty() { b"" } else { b" | " };
        add(&mut out, bar)?;
        add(&mut out, shown(alloc, rule)?.as_bytes())?;
    }
    add_notes(alloc, &mut out, &rules.notes)?;
    Ok(out)
}

/// The rules that were read.
fn told(alloc: Global, read: Result<Rules, RuleError>) -> Result<Vec<u8>, Fault> {
    match read {
        Ok(rules) => listed(alloc, &rules.copy()?),
        Err(error) => refusal(alloc, error),
    }
}

/// The rules of a list, where its place in a longer text and its own text are written.
fn list_at(alloc: Global, written: &str) -> Result<Vec<u8>, Fault> {
    let (at, list) = first_word(written);
    let at = small(number(at)?)?;
    if at > 33_554_432 {
        return Err(Fault::BadNumber);
    }
    let text = text_of(alloc, list)?;
    told(alloc, read_rule_list(alloc, &text, at))
}

/// The answer of the call of this name.
pub fn answer(alloc: Global, name: &str, written: &str) -> Result<Vec<u8>, Fault> {
    if name == "read_rule_list" {
        return list_at(alloc, written);
    }
    let text = text_of(alloc, written)?;
    if name == "read_rules" {
        told(alloc, read_rules(alloc, &text))
    } else {
        under(alloc, &text)
    }
}
