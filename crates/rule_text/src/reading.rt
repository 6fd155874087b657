//! The rules of a file, form by form.

ghost use Rattle.std.specs.Prelude.{◌≡◌, ◌<◌, ◌+◌, ◌++◌, ◌∷◌, [], length, OnOk, Ok};
ghost use Rattle.plain_types.specs.Limits.{most_text, IsInText};
ghost use Rattle.sexpr_read.specs.TreeViews.{tree_of, trees_left};
ghost use Rattle.cond_lang.specs.Rules.{plain_rule, plain_constraint};
ghost use Rattle.list_read.specs.ListHeads.{place};
ghost use Rattle.rule_text.specs.RuleForms.{clauses};
ghost use Rattle.rule_text.specs.RulesOf.{severity_in, severity_named, is_asked, is_version, no_rules, rules_of};
ghost use Rattle.rule_text.specs.RuleWalk.{with_layer, with_severity, with_cond, noted, constrained, with_constraint, with_clause, with_clauses, rule_by, with_rule, with_rules};
ghost use Rattle.rule_text.specs.ShortRuleTrees.{AllShort, IsShort};
ghost use Rattle.rule_text.specs.RuleValues.{plain_draft, plain_lists, plain_rules, Gives, Leaves};

use crate::conds::cond_in;
use crate::constraints::{constraint_in, has_kind, is_asked, kind_named};
use crate::draft::Draft;
use crate::error::RuleError;
use crate::forms::{atom_at, bad, clauses, name_at};
use crate::layers::layer_in;
use crate::lists::Lists;
use crate::notes::{RuleNote, RuleNotes};
use crate::rules::{RuleList, Rules};
use cond_lang::{Constraint, Constraints, Rule, RuleLayer, Severity};
use drc_io::Name;
use list_read::{has_head, name_from, place};
use sexpr_read::{Children, Node};
use std::alloc::{AllocError, Global};
use std::mem::replace;

// ---- clauses

fn severity_named(atom: Node<'_, '_>) -> Option<Severity>
    ensures { result ≡ severity_named (tree_of atom.entry) }
{
    if atom.is(b"error") {
        Some(Severity::Error)
    } else if atom.is(b"warning") {
        Some(Severity::Warning)
    } else if atom.is(b"ignore") {
        Some(Severity::Ignore)
    } else if atom.is(b"exclusion") {
        Some(Severity::Exclusion)
    } else {
        None
    }
}

/// The severity of `(severity WORD)`.
#[tactic(auto, unfolding(crate::specs::RulesOf::severity_in))]
fn severity_in(clause: Node<'_, '_>) -> Result<Severity, RuleError>
    ensures { result ≡ severity_in (tree_of clause.entry) }
{
    let atom = atom_at(clause)?;
    match severity_named(atom) {
        Some(severity) => Ok(severity),
        None => Err(bad(atom)),
    }
}

/// Takes the layer of a clause. Of two layers the first counts.
#[tactic(auto, unfolding(crate::specs::RuleWalk::with_layer))]
fn take_layer(draft: &mut Draft, clause: Node<'_, '_>) -> Result<(), RuleError>
    ensures { Leaves result (plain_draft draft.new)
        (with_layer (plain_draft draft.old) (tree_of clause.entry)) }
{
    if draft.layer.is_some() {
        return Ok(());
    }
    draft.layer = Some(layer_in(clause)?);
    Ok(())
}

/// Takes the severity of a clause. Of two the first counts.
#[tactic(auto, unfolding(crate::specs::RuleWalk::with_severity))]
fn take_severity(draft: &mut Draft, clause: Node<'_, '_>) -> Result<(), RuleError>
    ensures { Leaves result (plain_draft draft.new)
        (with_severity (plain_draft draft.old) (tree_of clause.entry)) }
{
    if draft.severity.is_some() {
        return Ok(());
    }
    draft.severity = Some(severity_in(clause)?);
    Ok(())
}

/// Takes the condition of a clause. Where no condition is asked, it is passed over.
#[tactic(auto, unfolding(crate::specs::RuleWalk::with_cond))]
fn take_cond(
    alloc: Global,
    asked: bool,
    draft: &mut Draft,
    clause: Node<'_, '_>,
) -> Result<(), RuleError>
    requires { IsShort (tree_of clause) }
    ensures { Leaves result (plain_draft draft.new)
        (with_cond asked (plain_draft draft.old) (tree_of clause.entry)) }
{
    if !asked || draft.cond.is_some() {
        return Ok(());
    }
    let atom = atom_at(clause)?;
    let cond = cond_in(alloc, atom)?;
    drop(draft.cond.replace(cond));
    Ok(())
}

/// Notes a constraint that no rule may have.
fn take_note(alloc: Global, draft: &mut Draft, name: Node<'_, '_>) -> Result<(), RuleError>
    ensures { Leaves result (plain_draft draft.new)
        (Ok (noted (plain_draft draft.old) (tree_of name.entry))) }
{
    let constraint = name_from(alloc, name)?;
    draft.notes.push(RuleNote {
        rule: draft.number,
        constraint,
    })?;
    Ok(())
}

/// Adds a constraint.
fn take_more(draft: &mut Draft, constraint: Constraint) -> Result<(), RuleError>
    ensures { Leaves result (plain_draft draft.new)
        (Ok (constrained (plain_draft draft.old) (plain_constraint constraint))) }
{
    draft.constraints.push(constraint)?;
    Ok(())
}

/// Takes the constraint of a clause. Of two of one kind the first counts.
#[tactic(auto, unfolding(crate::specs::RuleWalk::with_constraint))]
fn take_constraint(alloc: Global, draft: &mut Draft, clause: Node<'_, '_>) -> Result<(), RuleError>
    requires { IsShort (tree_of clause) }
    ensures { Leaves result (plain_draft draft.new)
        (with_constraint (plain_draft draft.old) (tree_of clause.entry)) }
{
    let name = name_at(clause)?;
    let Some(kind) = kind_named(name) else {
        return take_note(alloc, draft, name);
    };
    if has_kind(kind, &draft.constraints) {
        return Ok(());
    }
    let constraint = constraint_in(alloc, kind, clause)?;
    take_more(draft, constraint)
}

/// Takes what a clause says.
#[tactic(auto, unfolding(crate::specs::RuleWalk::with_clause))]
fn take_clause(
    alloc: Global,
    asked: bool,
    draft: &mut Draft,
    clause: Node<'_, '_>,
) -> Result<(), RuleError>
    requires { IsShort (tree_of clause) }
    ensures { Leaves result (plain_draft draft.new)
        (with_clause asked (plain_draft draft.old) (tree_of clause.entry)) }
{
    if has_head(clause, b"layer") {
        take_layer(draft, clause)
    } else if has_head(clause, b"severity") {
        take_severity(draft, clause)
    } else if has_head(clause, b"condition") {
        take_cond(alloc, asked, draft, clause)
    } else if has_head(clause, b"constraint") {
        take_constraint(alloc, draft, clause)
    } else {
        Err(bad(clause))
    }
}

/// Takes what all clauses of a rule say.
#[tactic(auto, using(crate::proofs::Shortness::clauses_short, crate::proofs::Shortness::first_short, crate::proofs::Shortness::rest_short), unfolding(crate::specs::RuleWalk::with_clauses))]
fn take_clauses(alloc: Global, draft: &mut Draft, form: Node<'_, '_>) -> Result<(), RuleError>
    requires { IsShort (tree_of form) }
    ensures { Leaves result (plain_draft draft.new)
        (with_clauses
        (is_asked (clauses (tree_of form.entry)))
        (plain_draft draft.old)
        (clauses (tree_of form.entry))) }
{
    let asked = is_asked(form);
    for clause in clauses(form) {
        take_clause(alloc, asked, draft, clause)?;
    }
    Ok(())
}

// ---- forms

/// The rule of a draft, and the notes up to here.
fn rule_by(name: Name, draft: Draft) -> (Rule, Vec<RuleNote>)
    ensures rule { plain_rule result.0 ≡ rule_by name (plain_draft draft) }
    ensures notes { result.1 ≡ draft.notes }
{
    let layer = draft.layer.unwrap_or(RuleLayer::Any);
    let severity = draft.severity.unwrap_or(Severity::Error);
    let rule = Rule {
        name,
        layer,
        severity,
        cond: draft.cond,
        constraints: Constraints::of(draft.constraints),
    };
    (rule, draft.notes)
}

/// Puts the rule of a draft behind the others, with the notes up to here.
fn add_drafted(lists: &mut Lists, name: Name, draft: Draft) -> Result<(), AllocError>
    ensures { OnOk result (plain_lists lists.new ≡ record {
      rules = (plain_lists lists.old).rules ++ rule_by name (plain_draft draft) ∷ [];
      notes = (plain_draft draft).notes;
    }) }
{
    let (rule, notes) = rule_by(name, draft);
    drop(replace(&mut lists.notes, notes));
    lists.rules.push(rule)?;
    Ok(())
}

/// Adds `(rule NAME CLAUSE ..)`.
#[tactic(auto, unfolding(crate::specs::RuleWalk::with_rule))]
fn add_rule(alloc: Global, lists: &mut Lists, form: Node<'_, '_>) -> Result<(), RuleError>
    requires short { IsShort (tree_of form) }
    requires few { length lists.old.rules.items < most_text }
    ensures read { Leaves result (plain_lists lists.new)
        (with_rule (plain_lists lists.old) (tree_of form.entry)) }
    ensures grown { OnOk result
        (length lists.new.rules.items ≡ length lists.old.rules.items + 1) }
{
    if !has_head(form, b"rule") {
        return Err(bad(form));
    }
    let atom = name_at(form)?;
    let number = lists.rules.len() as u32;
    let mut draft = Draft {
        number,
        layer: None,
        severity: None,
        cond: None,
        constraints: Vec::new(alloc),
        notes: replace(&mut lists.notes, Vec::new(alloc)),
    };
    if let Err(error) = take_clauses(alloc, &mut draft, form) {
        drop(draft);
        return Err(error);
    }
    match name_from(alloc, atom) {
        Ok(name) => Ok(add_drafted(lists, name, draft)?),
        Err(_) => {
            drop(draft);
            Err(RuleError::OutOfMemory)
        }
    }
}

/// The rules of the forms that are left.
#[tactic(auto, using(crate::proofs::Shortness::first_short, crate::proofs::Shortness::rest_short), unfolding(crate::specs::RuleWalk::with_rules))]
fn with_rules(alloc: Global, forms: Children<'_, '_>) -> Result<Lists, RuleError>
    requires short { AllShort (trees_left forms) }
    requires few { IsInText (length (trees_left forms)) }
    ensures { Gives plain_lists result (with_rules no_rules (trees_left forms.entry)) }
{
    let mut lists = Lists {
        rules: Vec::new(alloc),
        notes: Vec::new(alloc),
    };
    for form in forms {
        if let Err(error) = add_rule(alloc, &mut lists, form) {
            drop(lists);
            return Err(error);
        }
    }
    Ok(lists)
}

/// Whether it is `(version 1)`.
#[tactic(auto, unfolding(crate::specs::RulesOf::is_version))]
fn is_version(form: Node<'_, '_>) -> bool
    ensures { result ≡ is_version (tree_of form.entry) }
{
    if !has_head(form, b"version") {
        return false;
    }
    match atom_at(form) {
        Ok(atom) => atom.is(b"1"),
        Err(_) => false,
    }
}

/// The rules of these forms: behind the version, which comes first. `none` is the refusal of a text without a form.
#[tactic(auto, using(crate::proofs::InOrder::rules_in_order, crate::proofs::Shortness::first_short, crate::proofs::Shortness::rest_short), unfolding(crate::specs::RulesOf::rules_of))]
pub(crate) fn rules_of(
    alloc: Global,
    none: RuleError,
    forms: Children<'_, '_>,
) -> Result<Rules, RuleError>
    requires short { AllShort (trees_left forms) }
    requires few { IsInText (length (trees_left forms)) }
    ensures { Gives plain_rules result (rules_of none (trees_left forms.entry)) }
{
    let mut forms = forms;
    let Some(first) = forms.next() else {
        return Err(none);
    };
    if !is_version(first) {
        return Err(RuleError::Version { at: place(first) });
    }
    let lists = with_rules(alloc, forms)?;
    Ok(Rules {
        rules: RuleList::of(lists.rules),
        notes: RuleNotes::of(lists.notes),
    })
}
