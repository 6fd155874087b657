//! Conditions: chains, negations and brackets.

ghost use Rattle.std.specs.Prelude.{◌≡◌, ◌≤◌, ◌⊎◌, ◌*◌, ◌+◌, true, [], length, map, drop, MatchResult, IfOk};
ghost use Rattle.plain_types.specs.Limits.{IsInText, IsReadable};
ghost use Rattle.cond_lang.specs.Found.{read, fault};
ghost use Rattle.cond_lang.specs.Trees.{CondTree, any, all, negated as negated_tree, cond_tree_of, trees_of};
ghost use Rattle.cond_lang.specs.ConditionGrammar.{Spells};
ghost use Rattle.cond_lang.specs.Conditions.{begins_with as begins_with_byte, shallow_at, chain, alternatives, negation as negation_of, disjunction, reading, twice};

use crate::cond::{Cond, Conds};
use crate::error::CondError;
use crate::scan::{byte, place, skip_blanks, stuck};
use crate::values::atom;
use std::alloc::Global;

/// A negation where no level is left, and what is left behind it.
fn shallow<'t>(alloc: Global, whole: usize, text: &'t [u8]) -> Result<(Cond, &'t [u8]), CondError>
    requires fits { IsInText whole }
    requires inside { length text.now ≤ whole }
    ensures found { MatchResult result
        (λ p. shallow_at whole text.now ≡ read (cond_tree_of p.0) p.1.now)
        (λ e. (e ≡ CondError.OutOfMemory) ⊎ (shallow_at whole text.now ≡ fault e)) }
    ensures left { MatchResult result (λ p. length p.1.now ≤ length text.now) (λ _. Unit {0}) }
{
    match text {
        [] => Err(stuck(whole, text)),
        [first, ..] => {
            if *first == b'!' {
                return Err(CondError::TooDeep {
                    at: place(whole, text),
                });
            }
            if *first == b'(' {
                return Err(CondError::TooDeep {
                    at: place(whole, text),
                });
            }
            atom(alloc, whole, 0, text)
        }
    }
}

/// The negation of a condition.
fn negated(alloc: Global, inner: Cond) -> Result<Cond, CondError>
    ensures { MatchResult result
        (λ c. cond_tree_of c ≡ negated_tree (cond_tree_of inner))
        (λ e. e ≡ CondError.OutOfMemory) }
{
    let boxed = Box::new(alloc, inner)?;
    Ok(Cond::Not(boxed))
}

/// A negation, a bracket, a call or a comparison behind space, with so many levels left; and what is left behind it.
#[cycle(parser)]
#[tactic(auto, using(crate::proofs::Steps::then_read, crate::proofs::Steps::then_fault, crate::proofs::Steps::then_lost, crate::proofs::Steps::then_later, crate::proofs::Turns::no_level, crate::proofs::Turns::with_level))]
fn negation<'t>(
    alloc: Global,
    whole: usize,
    levels: u32,
    text: &'t [u8],
) -> Result<(Cond, &'t [u8]), CondError>
    requires fits { IsInText whole }
    requires inside { length text.now ≤ whole }
    ensures found { MatchResult result
        (λ p. negation_of whole levels text.now ≡ read (cond_tree_of p.0) p.1.now)
        (λ e. (e ≡ CondError.OutOfMemory) ⊎ (negation_of whole levels text.now ≡ fault e)) }
    ensures left { MatchResult result (λ p. length p.1.now ≤ length text.now) (λ _. Unit {0}) }
{
    let at = skip_blanks(text);
    if levels == 0 {
        return shallow(alloc, whole, at);
    }
    let is_bang = begins_with(b'!', at);
    if is_bang {
        let (inner, rest) = negation(alloc, whole, levels - 1, behind_first(b'!', at))?;
        let whole_cond = negated(alloc, inner)?;
        return Ok((whole_cond, rest));
    }
    let is_bracket = begins_with(b'(', at);
    if is_bracket {
        let (inner, rest) = any_of(alloc, whole, levels - 1, behind_first(b'(', at))?;
        let end = byte(whole, b')', skip_blanks(rest))?;
        return Ok((inner, end));
    }
    atom(alloc, whole, levels, at)
}

fn begins_with(sign: u8, text: &[u8]) -> bool
    ensures { result ≡ begins_with_byte sign text.now }
{
    match text {
        [first, ..] => *first == sign,
        [] => false,
    }
}

/// What is left behind the first byte.
fn behind_first(sign: u8, text: &[u8]) -> &[u8]
    requires { begins_with_byte sign text.now ≡ true }
    ensures value { result.now ≡ drop 1 text.now }
    ensures left { length result.now + 1 ≤ length text.now }
{
    &text[1..]
}

/// What is left behind a sign that stands twice, and stands once already.
fn behind_sign<'t>(whole: usize, sign: u8, text: &'t [u8]) -> Result<&'t [u8], CondError>
    requires fits { IsInText whole }
    requires inside { length text.now ≤ whole }
    requires once { begins_with_byte sign text.now ≡ true }
    ensures found { MatchResult result
        (λ rest. twice whole sign text.now ≡ read tt rest.now)
        (λ e. twice whole sign text.now ≡ fault e) }
    ensures left { MatchResult result (λ rest. length rest.now + 1 ≤ length text.now) (λ _.
        Unit {0}) }
{
    byte(whole, sign, &text[1..])
}

/// The members of a chain of `&&` as one condition.
fn chain_of_all(list: Vec<Cond>) -> Cond
    requires { 2 ≤ length list.items }
    ensures { cond_tree_of result ≡ all (trees_of (map cond_tree_of list.items)) }
{
    Cond::All(Conds::of(list))
}

/// The members of a chain of `||` as one condition.
fn chain_of_any(list: Vec<Cond>) -> Cond
    requires { 2 ≤ length list.items }
    ensures { cond_tree_of result ≡ any (trees_of (map cond_tree_of list.items)) }
{
    Cond::Any(Conds::of(list))
}

/// A chain of `&&`, and what is left behind it.
#[cycle(parser)]
#[tactic(auto, using(crate::proofs::Links::linked_first, crate::proofs::Links::linked_end, crate::proofs::Links::linked_next, crate::proofs::Links::linked_sign, crate::proofs::Links::linked_part, crate::proofs::Links::linked_lost, crate::proofs::Links::joined_many))]
fn all_of<'t>(
    alloc: Global,
    whole: usize,
    levels: u32,
    text: &'t [u8],
) -> Result<(Cond, &'t [u8]), CondError>
    requires fits { IsInText whole }
    requires inside { length text.now ≤ whole }
    ensures found { MatchResult result
        (λ p.
        chain whole 38 all (negation_of whole levels) text.now
        ≡ read (cond_tree_of p.0) p.1.now)
        (λ e.
        (e ≡ CondError.OutOfMemory)
        ⊎ (chain whole 38 all (negation_of whole levels) text.now ≡ fault e)) }
    ensures left { MatchResult result (λ p. length p.1.now ≤ length text.now) (λ _. Unit {0}) }
{
    let (first, behind) = negation(alloc, whole, levels, text)?;
    let mut rest = skip_blanks(behind);
    if !begins_with(b'&', rest) {
        return Ok((first, rest));
    }
    let mut list = Vec::new(alloc);
    list.push(first)?;
    'members: while begins_with(b'&', rest) {
        let part = behind_sign(whole, b'&', rest)?;
        let (next, left) = negation(alloc, whole, levels, part)?;
        list.push(next)?;
        rest = skip_blanks(left);
    }
    Ok((chain_of_all(list), rest))
}

/// A chain of `||`, and what is left behind it.
#[cycle(parser)]
#[tactic(auto, using(crate::proofs::Links::linked_first, crate::proofs::Links::linked_end, crate::proofs::Links::linked_next, crate::proofs::Links::linked_sign, crate::proofs::Links::linked_part, crate::proofs::Links::linked_lost, crate::proofs::Links::joined_many))]
fn any_of<'t>(
    alloc: Global,
    whole: usize,
    levels: u32,
    text: &'t [u8],
) -> Result<(Cond, &'t [u8]), CondError>
    requires fits { IsInText whole }
    requires inside { length text.now ≤ whole }
    ensures found { MatchResult result
        (λ p.
        alternatives whole (negation_of whole levels) text.now
        ≡ read (cond_tree_of p.0) p.1.now)
        (λ e.
        (e ≡ CondError.OutOfMemory)
        ⊎ (alternatives whole (negation_of whole levels) text.now ≡ fault e)) }
    ensures left { MatchResult result (λ p. length p.1.now ≤ length text.now) (λ _. Unit {0}) }
{
    let (first, behind) = all_of(alloc, whole, levels, text)?;
    let mut rest = skip_blanks(behind);
    if !begins_with(b'|', rest) {
        return Ok((first, rest));
    }
    let mut list = Vec::new(alloc);
    list.push(first)?;
    'members: while begins_with(b'|', rest) {
        let part = behind_sign(whole, b'|', rest)?;
        let (next, left) = all_of(alloc, whole, levels, part)?;
        list.push(next)?;
        rest = skip_blanks(left);
    }
    Ok((chain_of_any(list), rest))
}

/// What reading from the front to the end finds.
#[tactic(auto, using(crate::proofs::Steps::then_read, crate::proofs::Steps::then_fault, crate::proofs::Steps::then_lost, crate::proofs::Steps::then_later), unfolding(crate::specs::Conditions::reading, crate::specs::Conditions::disjunction))]
fn read_whole(alloc: Global, text: &[u8]) -> Result<Cond, CondError>
    requires { IsReadable text.now }
    ensures { MatchResult result
        (λ c. reading text.now ≡ read (cond_tree_of c) [])
        (λ e. (e ≡ CondError.OutOfMemory) ⊎ (reading text.now ≡ fault e)) }
{
    let (cond, behind) = any_of(alloc, text.len(), 64, text)?;
    let rest = skip_blanks(behind);
    if rest.is_empty() {
        Ok(cond)
    } else {
        Err(stuck(text.len(), rest))
    }
}

/// Reads the condition of a text of at most 33,554,432 bytes, with brackets and `!` at most 64 deep. It is read once.
pub fn parse_cond(alloc: Global, text: &[u8]) -> Result<Cond, CondError>
    requires { IsReadable text.now }
    // What is read is what the text spells,
    ensures spelled { IfOk result (λ c. Spells text.now (cond_tree_of c)) }
    // what the text spells is read, and there is no other condition,
    ensures only { (t : CondTree) → Spells text.now t
        → MatchResult result (λ c. cond_tree_of c ≡ t) (λ e. e ≡ CondError.OutOfMemory) }
    // and a text that is refused is refused for its first fault, at its place; unless memory runs out.
    ensures exact { MatchResult result
        (λ c. reading text.now ≡ read (cond_tree_of c) [])
        (λ e. (e ≡ CondError.OutOfMemory) ⊎ (reading text.now ≡ fault e)) }
{
    read_whole(alloc, text)
}
