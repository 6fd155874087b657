//! What stands on the sides of a comparison.

ghost use Rattle.std.specs.Prelude.{◌≡◌};
ghost use Rattle.std.specs.Option.{option_copied};
ghost use Rattle.rule_pick.specs.Meaning.{type_of, has_net, text_if, length_if, property, item_of, value_of};
ghost use Rattle.rule_pick.specs.Shown.{shown};

use crate::facts::Facts;
use crate::kinds::ItemKind;
use board_items::Nm;
use cond_lang::{Prop, Side, Term};

/// What stands on a side of a comparison.
#[derive(Clone, Copy)]
pub(crate) enum Value<'v> {
    Missing,
    Text(&'v [u8]),
    Length(Nm),
}

fn type_of(kind: ItemKind) -> Value<'static>
    ensures { shown result ≡ type_of kind }
{
    match kind {
        ItemKind::Track => Value::Text(b"Track"),
        ItemKind::Via => Value::Text(b"Via"),
        ItemKind::Pad => Value::Text(b"Pad"),
        ItemKind::Graphic | ItemKind::Edge => Value::Text(b"Graphic"),
        ItemKind::Fill | ItemKind::Area => Value::Text(b"Zone"),
        ItemKind::Body => Value::Text(b"Footprint"),
        ItemKind::Note => Value::Missing,
    }
}

fn has_net(kind: ItemKind) -> bool
    ensures { result ≡ has_net kind }
{
    match kind {
        ItemKind::Track | ItemKind::Via | ItemKind::Pad | ItemKind::Graphic | ItemKind::Fill =>
            true,
        ItemKind::Edge | ItemKind::Area | ItemKind::Body | ItemKind::Note => false,
    }
}

fn text_if(there: bool, name: &[u8]) -> Value<'_>
    ensures { shown result ≡ text_if there name.now }
{
    if there {
        Value::Text(name)
    } else {
        Value::Missing
    }
}

fn length_if(nm: Option<Nm>) -> Value<'static>
    ensures { shown result ≡ length_if nm }
{
    match nm {
        None => Value::Missing,
        Some(nm) => Value::Length(nm),
    }
}

fn property(prop: Prop, facts: &Facts) -> Value<'_>
    ensures { shown result ≡ property prop facts.now }
{
    match prop {
        Prop::ItemType => type_of(facts.kind),
        Prop::NetClass => text_if(has_net(facts.kind), facts.class.bytes()),
        Prop::NetName => text_if(has_net(facts.kind), facts.net_name.bytes()),
        Prop::Width => length_if(facts.width.get()),
        Prop::Diameter => length_if(facts.diameter.get()),
        Prop::Hole => length_if(facts.hole.get()),
    }
}

/// The item of a side, if it is there.
pub(crate) fn item_of<'f>(side: Side, a: &'f Facts, b: Option<&'f Facts>) -> Option<&'f Facts>
    ensures { option_copied result ≡ item_of side a.now (option_copied b.entry) }
{
    match side {
        Side::A => Some(a),
        Side::B => b,
    }
}

/// The value of a term, if it has one.
#[tactic(auto, unfolding(crate::specs::Meaning::value_of))]
pub(crate) fn value_of<'v>(term: &'v Term, a: &'v Facts, b: Option<&'v Facts>) -> Value<'v>
    ensures { shown result ≡ value_of term.now a.now (option_copied b.entry) }
{
    match term {
        Term::Of { side, prop } => match item_of(*side, a, b) {
            None => Value::Missing,
            Some(facts) => property(*prop, facts),
        },
        Term::Text(pattern) => Value::Text(pattern.bytes()),
        Term::Length(nm) => Value::Length(*nm),
    }
}
