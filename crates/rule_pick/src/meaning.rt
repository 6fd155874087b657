//! What conditions say.

ghost use Rattle.std.specs.Prelude.{◌≡◌, false};
ghost use Rattle.std.specs.Option.{option_copied};
ghost use Rattle.net_class.specs.Wild.{matches};
ghost use Rattle.copper_layers.specs.Layers.{layer_names};
ghost use Rattle.cond_lang.specs.Trees.{cond_tree_of};
ghost use Rattle.rule_pick.specs.Meaning.{do_agree, compare_texts, compare_lengths, compare_values, compares, some_layer, exists_on_layer, some_name, answer, answers, holds};
ghost use Rattle.rule_pick.specs.Shown.{shown};

use crate::facts::Facts;
use crate::values::{Value, item_of, value_of};
use board_items::Nm;
use cond_lang::{Cond, Func, Op, Side, Term};
use copper_layers::{LayerSet, layer_name};
use drc_io::Name;
use net_class::wild;

/// Whether two texts agree. A literal on the right is a pattern.
fn do_agree(right_term: &Term, left: &[u8], right: &[u8]) -> bool
    ensures { result ≡ do_agree right_term.now left.now right.now }
{
    match right_term {
        Term::Text(_) => wild(right, left, true),
        Term::Of { .. } | Term::Length(_) => left.eq_ignore_ascii_case(right),
    }
}

fn compare_texts(op: Op, agree: bool) -> bool
    ensures { result ≡ compare_texts op agree }
{
    match op {
        Op::Same => agree,
        Op::Differs => !agree,
        Op::Less | Op::AtMost | Op::More | Op::AtLeast => false,
    }
}

fn compare_lengths(op: Op, left: Nm, right: Nm) -> bool
    ensures { result ≡ compare_lengths op left right }
{
    match op {
        Op::Same => left == right,
        Op::Differs => left != right,
        Op::Less => left < right,
        Op::AtMost => left <= right,
        Op::More => left > right,
        Op::AtLeast => left >= right,
    }
}

fn compare_values(op: Op, right_term: &Term, left: Value<'_>, right: Value<'_>) -> bool
    ensures { result ≡ compare_values op right_term.now (shown left.entry) (shown right.entry) }
{
    match (left, right) {
        (Value::Text(left), Value::Text(right)) => {
            compare_texts(op, do_agree(right_term, left, right))
        }
        (Value::Length(left), Value::Length(right)) => compare_lengths(op, left, right),
        _ => false,
    }
}

#[tactic(auto, unfolding(crate::specs::Meaning::compares))]
fn compares(left: &Term, op: Op, right: &Term, a: &Facts, b: Option<&Facts>) -> bool
    ensures { result ≡ compares left.now op right.now a.now (option_copied b.entry) }
{
    compare_values(op, right, value_of(left, a, b), value_of(right, a, b))
}

/// Whether the name of some layer of the set matches, case kept.
fn some_layer(pattern: &[u8], layers: LayerSet) -> bool
    ensures { result ≡ some_layer (matches false pattern.now) layers 0 layer_names }
{
    for layer in 0..32 {
        if layers.has(layer) && wild(pattern, layer_name(layer), false) {
            return true;
        }
    }
    false
}

#[tactic(auto, unfolding(crate::specs::Meaning::exists_on_layer))]
fn exists_on_layer(pattern: &[u8], facts: &Facts) -> bool
    ensures { result ≡ exists_on_layer pattern.now facts.now }
{
    some_layer(pattern, facts.layers) || (facts.on_edge && wild(pattern, b"Edge.Cuts", false))
}

fn some_name(pattern: &[u8], names: &[Name]) -> bool
    ensures { result ≡ some_name pattern.now names.now }
{
    names.iter().any(|name| wild(pattern, name.bytes(), true))
}

/// What a function of a condition answers of an item with these facts. `pattern` is the text in its brackets.
fn answer(func: Func, pattern: &[u8], facts: &Facts) -> bool
    ensures { result ≡ answer func pattern.now facts.now }
{
    match func {
        Func::ExistsOnLayer => exists_on_layer(pattern, facts),
        Func::IsPlated => facts.plated,
        Func::IntersectsArea => some_name(pattern, facts.areas.as_slice()),
        Func::IntersectsCourtyard => some_name(pattern, facts.courtyards.as_slice()),
    }
}

#[tactic(auto, unfolding(crate::specs::Meaning::answers))]
fn answers(side: Side, func: Func, pattern: &[u8], a: &Facts, b: Option<&Facts>) -> bool
    ensures { result ≡ answers side func pattern.now a.now (option_copied b.entry) }
{
    match item_of(side, a, b) {
        None => false,
        Some(facts) => answer(func, pattern, facts),
    }
}

/// Whether the condition holds of a, and of b where it is there. A comparison with a property that an item has not, or
/// with an item that is not there, is false, also one by `!=`, and so is what a function asks of an item that is not there.
/// ASCII case plays no part where texts are compared, and `*` and `?` are wildcards in a literal on the right and in the
/// text of a function.
pub fn holds(cond: &Cond, a: &Facts, b: Option<&Facts>) -> bool
    ensures { result ≡ holds (cond_tree_of cond.now) a.now (option_copied b.entry) }
{
    match cond {
        Cond::Any(parts) => {
            for part in parts.as_slice() {
                if holds(part, a, b) {
                    return true;
                }
            }
            false
        }
        Cond::All(parts) => {
            for part in parts.as_slice() {
                if !holds(part, a, b) {
                    return false;
                }
            }
            true
        }
        Cond::Not(inner) => !holds(inner, a, b),
        Cond::Call { side, func, text } => answers(*side, *func, text.bytes(), a, b),
        Cond::Compare { left, op, right } => compares(left, *op, right, a, b),
    }
}
