//! What a constraint bans, word by word.

ghost use Rattle.std.specs.Prelude.{◌≡◌};
ghost use Rattle.sexpr_read.specs.TreeViews.{tree_of};
ghost use Rattle.cond_lang.specs.Rules.{no_bans};
ghost use Rattle.rule_text.specs.RuleForms.{clauses};
ghost use Rattle.rule_text.specs.RuleLimits.{with_ban, with_bans};

use crate::error::RuleError;
use crate::forms::{bad, clauses};
use cond_lang::Disallow;
use sexpr_read::Node;

/// What a word bans beside.
#[tactic(auto, unfolding(crate::specs::RuleLimits::with_ban))]
fn with_ban(bans: Disallow, word: Node<'_, '_>) -> Result<Disallow, RuleError>
    ensures { result ≡ with_ban bans (tree_of word.entry) }
{
    let mut bans = bans;
    if word.is(b"track") {
        bans.tracks = true;
    } else if word.is(b"via") {
        bans.vias = true;
    } else if word.is(b"micro_via") {
        bans.micro_vias = true;
    } else if word.is(b"buried_via") {
        bans.buried_vias = true;
    } else if word.is(b"pad") {
        bans.pads = true;
    } else if word.is(b"zone") {
        bans.zones = true;
    } else if word.is(b"graphic") {
        bans.graphics = true;
    } else if word.is(b"hole") {
        bans.holes = true;
    } else if word.is(b"footprint") {
        bans.footprints = true;
    } else if word.is(b"text") {
        bans.texts = true;
    } else {
        return Err(bad(word));
    }
    Ok(bans)
}

/// What the words of `(constraint disallow ..)` ban; without words nothing.
#[tactic(auto, unfolding(crate::specs::RuleLimits::with_bans))]
pub(crate) fn bans_in(clause: Node<'_, '_>) -> Result<Disallow, RuleError>
    ensures { result ≡ with_bans no_bans (clauses (tree_of clause.entry)) }
{
    let mut bans = Disallow::NONE;
    for word in clauses(clause) {
        bans = with_ban(bans, word)?;
    }
    Ok(bans)
}
