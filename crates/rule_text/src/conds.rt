//! Conditions, read from the atoms of a rule file that stand for their texts.

ghost use Rattle.std.specs.Prelude.{◌≡◌};
ghost use Rattle.plain_types.specs.Limits.{IsReadable};
ghost use Rattle.sexpr_read.specs.TreeViews.{tree_of};
ghost use Rattle.cond_lang.specs.Conditions.{reading};
ghost use Rattle.cond_lang.specs.Trees.{cond_tree_of};
ghost use Rattle.rule_text.specs.RuleForms.{clauses};
ghost use Rattle.rule_text.specs.RuleLimits.{cond_from, cond_in};
ghost use Rattle.rule_text.specs.RulesOf.{claim_among};
ghost use Rattle.rule_text.specs.ShortRuleTrees.{IsShort};
ghost use Rattle.list_read.specs.FoundNodes.{tree_in};
ghost use Rattle.rule_text.specs.RuleValues.{Gives};

use crate::error::RuleError;
use crate::forms::{as_atom, bad, clauses};
use cond_lang::{Cond, CondError, parse_cond};
use list_read::place;
use sexpr_read::Node;
use std::alloc::Global;

/// The condition of this text, which stands at `at`.
fn parsed(alloc: Global, at: u32, text: &[u8]) -> Result<Cond, RuleError>
    requires { IsReadable text.now }
    ensures { Gives cond_tree_of result (cond_from at (reading text.now)) }
{
    match parse_cond(alloc, text) {
        Ok(cond) => Ok(cond),
        Err(CondError::OutOfMemory) => Err(RuleError::OutOfMemory),
        Err(inner) => Err(RuleError::Cond { at, inner }),
    }
}

/// The condition that an atom stands for.
#[tactic(auto, using(crate::proofs::Shortness::short_text), unfolding(crate::specs::RuleLimits::cond_in))]
pub(crate) fn cond_in(alloc: Global, atom: Node<'_, '_>) -> Result<Cond, RuleError>
    requires { IsShort (tree_of atom) }
    ensures { Gives cond_tree_of result (cond_in (tree_of atom.entry)) }
{
    match atom.word() {
        Some(word) => parsed(alloc, place(atom), word),
        None => cond_decoded(alloc, atom),
    }
}

/// The condition that an atom with escapes stands for, by what its escapes stand for.
#[tactic(auto, using(crate::proofs::Shortness::short_text), unfolding(crate::specs::RuleLimits::cond_in))]
fn cond_decoded(alloc: Global, atom: Node<'_, '_>) -> Result<Cond, RuleError>
    requires { IsShort (tree_of atom) }
    ensures { Gives cond_tree_of result (cond_in (tree_of atom.entry)) }
{
    let mut bytes = Vec::new(alloc);
    atom.value(&mut bytes)?;
    parsed(alloc, place(atom), &bytes)
}

/// The one part of `(constraint assertion CONDITION)`.
pub(crate) fn claim_at<'d, 't>(clause: Node<'d, 't>) -> Result<Node<'d, 't>, RuleError>
    ensures { tree_in result ≡ claim_among (tree_of clause.entry) (clauses (tree_of clause.entry)) }
{
    let mut parts = clauses(clause);
    let Some(atom) = parts.next() else {
        return Err(bad(clause));
    };
    match parts.next() {
        Some(_) => Err(bad(clause)),
        None => as_atom(atom),
    }
}
