//! Values, calls and comparisons.

ghost use Rattle.std.specs.Prelude.{◌≡◌, ◌≤◌, ◌⊎◌, length, MatchResult};
ghost use Rattle.plain_types.specs.Limits.{IsInText};
ghost use Rattle.cond_lang.specs.Found.{read, fault};
ghost use Rattle.cond_lang.specs.Trees.{cond_tree_of};
ghost use Rattle.cond_lang.specs.Values.{selected as selected_of, member as member_of, begins_number as begins_number_byte, head as head_of, argument as argument_of, opened as opened_of, called as called_of, with_equals as with_equals_of, operator as operator_of, is_text_prop as is_text_prop_of, is_text as is_text_term, is_order as is_order_op, clash as clash_of, comparison as comparison_of, compared as compared_of, atom as atom_of_text};

use crate::cond::Cond;
use crate::error::CondError;
use crate::number::measure;
use crate::scan::{Word, byte, meaning, name, place, quoted, side, skip_blanks, stuck};
use crate::terms::{Func, Op, Prop, Side, Term};
use drc_io::Name;
use std::alloc::Global;

/// What a comparison or a call begins with: a value, or a function and its side.
#[derive(Drop)]
pub(crate) enum Head {
    Value(Term),
    Asked(Side, Func),
}

/// What a name behind a side and a dot stands for, and what is left behind it.
#[tactic(auto, using(crate::proofs::Steps::then_read, crate::proofs::Steps::then_fault))]
fn selected<'t>(
    whole: usize,
    calls: bool,
    side: Side,
    text: &'t [u8],
) -> Result<(Head, &'t [u8]), CondError>
    requires fits { IsInText whole }
    requires inside { length text.now ≤ whole }
    ensures found { MatchResult result
        (λ p. selected_of whole calls side text.now ≡ read p.0 p.1.now)
        (λ e. selected_of whole calls side text.now ≡ fault e) }
    ensures left { MatchResult result (λ p. length p.1.now ≤ length text.now) (λ _. Unit {0}) }
{
    let (word, rest) = name(whole, text)?;
    match meaning(word) {
        Word::Property(prop) => Ok((Head::Value(Term::Of { side, prop }), rest)),
        Word::Function(func) if calls => Ok((Head::Asked(side, func), rest)),
        _ => Err(CondError::UnknownName {
            at: place(whole, text),
        }),
    }
}

/// What a side, a dot and a name stand for, and what is left behind them.
#[tactic(auto, using(crate::proofs::Steps::then_read, crate::proofs::Steps::then_fault), unfolding(crate::specs::Values::member))]
fn member<'t>(whole: usize, calls: bool, text: &'t [u8]) -> Result<(Head, &'t [u8]), CondError>
    requires fits { IsInText whole }
    requires inside { length text.now ≤ whole }
    ensures found { MatchResult result
        (λ p. member_of whole calls text.now ≡ read p.0 p.1.now)
        (λ e. member_of whole calls text.now ≡ fault e) }
    ensures left { MatchResult result (λ p. length p.1.now ≤ length text.now) (λ _. Unit {0}) }
{
    let (which, rest) = side(whole, text)?;
    let behind = byte(whole, b'.', skip_blanks(rest))?;
    selected(whole, calls, which, skip_blanks(behind))
}

fn begins_number(b: u8) -> bool
    ensures { result ≡ begins_number_byte b }
{
    (b'0' <= b && b <= b'9') || b == b'+' || b == b'-' || b == b'.'
}

/// A text, a number, or what stands behind a side; and what is left behind it.
#[tactic(auto, using(crate::proofs::Steps::then_read, crate::proofs::Steps::then_fault, crate::proofs::Steps::then_lost), unfolding(crate::specs::Values::head))]
fn prefix<'t>(
    alloc: Global,
    whole: usize,
    calls: bool,
    text: &'t [u8],
) -> Result<(Head, &'t [u8]), CondError>
    requires fits { IsInText whole }
    requires inside { length text.now ≤ whole }
    ensures found { MatchResult result
        (λ p. head_of whole calls text.now ≡ read p.0 p.1.now)
        (λ e. (e ≡ CondError.OutOfMemory) ⊎ (head_of whole calls text.now ≡ fault e)) }
    ensures left { MatchResult result (λ p. length p.1.now ≤ length text.now) (λ _. Unit {0}) }
{
    match text {
        [] => Err(stuck(whole, text)),
        [first, behind @ ..] => {
            if *first == b'\'' {
                let (signs, rest) = quoted(alloc, whole, behind)?;
                return Ok((Head::Value(Term::Text(signs)), rest));
            }
            if begins_number(*first) {
                let (nm, rest) = measure(whole, text)?;
                return Ok((Head::Value(Term::Length(nm)), rest));
            }
            member(whole, calls, text)
        }
    }
}

/// The text in quotes that a function takes, and what is left behind it.
#[tactic(auto, using(crate::proofs::Steps::then_read, crate::proofs::Steps::then_fault, crate::proofs::Steps::then_lost, crate::proofs::Steps::then_later))]
fn argument<'t>(
    alloc: Global,
    whole: usize,
    func: Func,
    text: &'t [u8],
) -> Result<(Name, &'t [u8]), CondError>
    requires fits { IsInText whole }
    requires inside { length text.now ≤ whole }
    ensures found { MatchResult result
        (λ p. argument_of whole func text.now ≡ read p.0 p.1.now)
        (λ e. (e ≡ CondError.OutOfMemory) ⊎ (argument_of whole func text.now ≡ fault e)) }
    ensures left { MatchResult result (λ p. length p.1.now ≤ length text.now) (λ _. Unit {0}) }
{
    match func {
        Func::IsPlated => Ok((Name::of(Vec::new(alloc)), text)),
        Func::ExistsOnLayer | Func::IntersectsArea | Func::IntersectsCourtyard => {
            let rest = byte(whole, b'\'', text)?;
            quoted(alloc, whole, rest)
        }
    }
}

/// What is left behind an opening bracket, which takes a level.
fn opened<'t>(whole: usize, levels: u32, text: &'t [u8]) -> Result<&'t [u8], CondError>
    requires fits { IsInText whole }
    requires inside { length text.now ≤ whole }
    ensures found { MatchResult result
        (λ rest. opened_of whole levels text.now ≡ read tt rest.now)
        (λ e. opened_of whole levels text.now ≡ fault e) }
    ensures left { MatchResult result (λ rest. length rest.now ≤ length text.now) (λ _. Unit {0}) }
{
    match text {
        [first, rest @ ..] if *first == b'(' => {
            if levels == 0 {
                return Err(CondError::TooDeep {
                    at: place(whole, text),
                });
            }
            Ok(rest)
        }
        _ => Err(stuck(whole, text)),
    }
}

/// A call, of which the side and the function were read, and what is left behind it.
#[tactic(auto, using(crate::proofs::Steps::then_read, crate::proofs::Steps::then_fault, crate::proofs::Steps::then_lost, crate::proofs::Steps::then_later), unfolding(crate::specs::Values::called))]
fn called<'t>(
    alloc: Global,
    whole: usize,
    levels: u32,
    side: Side,
    func: Func,
    text: &'t [u8],
) -> Result<(Cond, &'t [u8]), CondError>
    requires fits { IsInText whole }
    requires inside { length text.now ≤ whole }
    ensures found { MatchResult result
        (λ p. called_of whole levels side func text.now ≡ read (cond_tree_of p.0) p.1.now)
        (λ e.
        (e ≡ CondError.OutOfMemory) ⊎ (called_of whole levels side func text.now ≡ fault e)) }
    ensures left { MatchResult result (λ p. length p.1.now ≤ length text.now) (λ _. Unit {0}) }
{
    let rest = opened(whole, levels, skip_blanks(text))?;
    let (text, behind) = argument(alloc, whole, func, skip_blanks(rest))?;
    let end = byte(whole, b')', skip_blanks(behind))?;
    Ok((Cond::Call { side, func, text }, end))
}

/// An operator of one sign, or the one with a `=` behind it; and what is left behind it.
fn with_equals(short: Op, long: Op, text: &[u8]) -> (Op, &[u8])
    ensures found { with_equals_of short long text.now ≡ read result.0 result.1.now }
    ensures left { length result.1.now ≤ length text.now }
{
    match text {
        [first, rest @ ..] if *first == b'=' => (long, rest),
        _ => (short, text),
    }
}

/// An operator, and what is left behind it.
#[tactic(auto, using(crate::proofs::Steps::then_read, crate::proofs::Steps::then_fault), unfolding(crate::specs::Values::operator))]
fn operator<'t>(whole: usize, text: &'t [u8]) -> Result<(Op, &'t [u8]), CondError>
    requires fits { IsInText whole }
    requires inside { length text.now ≤ whole }
    ensures found { MatchResult result
        (λ p. operator_of whole text.now ≡ read p.0 p.1.now)
        (λ e. operator_of whole text.now ≡ fault e) }
    ensures left { MatchResult result (λ p. length p.1.now ≤ length text.now) (λ _. Unit {0}) }
{
    match text {
        [] => Err(stuck(whole, text)),
        [first, behind @ ..] => {
            if *first == b'=' {
                let rest = byte(whole, b'=', behind)?;
                return Ok((Op::Same, rest));
            }
            if *first == b'!' {
                let rest = byte(whole, b'=', behind)?;
                return Ok((Op::Differs, rest));
            }
            if *first == b'<' {
                return Ok(with_equals(Op::Less, Op::AtMost, behind));
            }
            if *first == b'>' {
                return Ok(with_equals(Op::More, Op::AtLeast, behind));
            }
            Err(stuck(whole, text))
        }
    }
}

fn is_text_prop(prop: Prop) -> bool
    ensures { result ≡ is_text_prop_of prop }
{
    match prop {
        Prop::ItemType | Prop::NetClass | Prop::NetName => true,
        Prop::Width | Prop::Diameter | Prop::Hole => false,
    }
}

fn is_text(term: &Term) -> bool
    ensures { result ≡ is_text_term term.now }
{
    match term {
        Term::Of { prop, .. } => is_text_prop(*prop),
        Term::Text(_) => true,
        Term::Length(_) => false,
    }
}

fn is_order(op: Op) -> bool
    ensures { result ≡ is_order_op op }
{
    match op {
        Op::Same | Op::Differs => false,
        Op::Less | Op::AtMost | Op::More | Op::AtLeast => true,
    }
}

/// Whether a text meets a length, or is compared by order.
fn clash(left: &Term, op: Op, right: &Term) -> bool
    ensures { result ≡ clash_of left.now op right.now }
{
    if is_text(left) {
        !is_text(right) || is_order(op)
    } else {
        is_text(right)
    }
}

/// A comparison of which all is read, if its values fit; `at` is where its operator stands.
fn compared<'t>(
    whole: usize,
    at: &[u8],
    left: Term,
    op: Op,
    right: Head,
    rest: &'t [u8],
) -> Result<(Cond, &'t [u8]), CondError>
    requires fits { IsInText whole }
    requires inside { length at.now ≤ whole }
    requires behind { length rest.now ≤ whole }
    ensures found { MatchResult result
        (λ p. compared_of whole at.now left op right rest.now ≡ read (cond_tree_of p.0) p.1.now)
        (λ e. compared_of whole at.now left op right rest.now ≡ fault e) }
    ensures left { MatchResult result (λ p. length p.1.now ≤ length rest.now) (λ _. Unit {0}) }
{
    match right {
        Head::Value(right) => {
            if clash(&left, op, &right) {
                return Err(CondError::TypeClash {
                    at: place(whole, at),
                });
            }
            Ok((Cond::Compare { left, op, right }, rest))
        }
        Head::Asked(_, _) => Err(stuck(whole, rest)),
    }
}

/// A comparison of which the left value was read, and what is left behind it.
#[tactic(auto, using(crate::proofs::Steps::then_read, crate::proofs::Steps::then_fault, crate::proofs::Steps::then_lost, crate::proofs::Steps::then_later), unfolding(crate::specs::Values::comparison))]
fn comparison<'t>(
    alloc: Global,
    whole: usize,
    left: Term,
    text: &'t [u8],
) -> Result<(Cond, &'t [u8]), CondError>
    requires fits { IsInText whole }
    requires inside { length text.now ≤ whole }
    ensures found { MatchResult result
        (λ p. comparison_of whole left text.now ≡ read (cond_tree_of p.0) p.1.now)
        (λ e. (e ≡ CondError.OutOfMemory) ⊎ (comparison_of whole left text.now ≡ fault e)) }
    ensures left { MatchResult result (λ p. length p.1.now ≤ length text.now) (λ _. Unit {0}) }
{
    let at = skip_blanks(text);
    let (op, behind) = operator(whole, at)?;
    let (right, rest) = prefix(alloc, whole, false, skip_blanks(behind))?;
    compared(whole, at, left, op, right, rest)
}

/// A call or a comparison, and what is left behind it.
#[tactic(auto, using(crate::proofs::Steps::then_read, crate::proofs::Steps::then_fault, crate::proofs::Steps::then_lost, crate::proofs::Steps::then_later), unfolding(crate::specs::Values::atom))]
pub(crate) fn atom<'t>(
    alloc: Global,
    whole: usize,
    levels: u32,
    text: &'t [u8],
) -> Result<(Cond, &'t [u8]), CondError>
    requires fits { IsInText whole }
    requires inside { length text.now ≤ whole }
    ensures found { MatchResult result
        (λ p. atom_of_text whole levels text.now ≡ read (cond_tree_of p.0) p.1.now)
        (λ e. (e ≡ CondError.OutOfMemory) ⊎ (atom_of_text whole levels text.now ≡ fault e)) }
    ensures left { MatchResult result (λ p. length p.1.now ≤ length text.now) (λ _. Unit {0}) }
{
    let (begin, rest) = prefix(alloc, whole, true, text)?;
    match begin {
        Head::Value(left) => comparison(alloc, whole, left, rest),
        Head::Asked(side, func) => called(alloc, whole, levels, side, func, rest),
    }
}
