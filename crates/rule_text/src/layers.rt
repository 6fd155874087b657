//! The layers that a rule acts on, by their names.

ghost use Rattle.std.specs.Prelude.{◌≡◌};
ghost use Rattle.sexpr_read.specs.TreeViews.{tree_of};
ghost use Rattle.rule_text.specs.RuleLayers.{layer_number, layer_named, layer_in};

use crate::error::RuleError;
use crate::forms::{atom_at, bad};
use cond_lang::RuleLayer;
use copper_layers::layer_name;
use sexpr_read::Node;

/// The copper layer that an atom names.
#[tactic(auto, unfolding(crate::specs::RuleLayers::layer_number))]
fn seek_layer(atom: Node<'_, '_>) -> Option<u32>
    ensures { result ≡ layer_number (tree_of atom.entry) }
{
    for layer in 0..32 {
        if atom.is(layer_name(layer)) {
            return Some(layer);
        }
    }
    None
}

/// The layers that a word stands for.
#[tactic(auto, unfolding(crate::specs::RuleLayers::layer_named))]
fn layer_named(atom: Node<'_, '_>) -> Option<RuleLayer>
    ensures { result ≡ layer_named (tree_of atom.entry) }
{
    if atom.is(b"outer") {
        return Some(RuleLayer::Outer);
    }
    if atom.is(b"inner") {
        return Some(RuleLayer::Inner);
    }
    let layer = seek_layer(atom)?;
    Some(RuleLayer::One(layer))
}

/// The layers of `(layer WORD)`.
#[tactic(auto, unfolding(crate::specs::RuleLayers::layer_in))]
pub(crate) fn layer_in(clause: Node<'_, '_>) -> Result<RuleLayer, RuleError>
    ensures { result ≡ layer_in (tree_of clause.entry) }
{
    let atom = atom_at(clause)?;
    match layer_named(atom) {
        Some(layer) => Ok(layer),
        None => Err(bad(atom)),
    }
}
