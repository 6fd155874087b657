//! Facts that are the same.

ghost use Rattle.std.specs.Prelude.{◌≡◌, IsTrue, ◌↔◌};
ghost use Rattle.item_facts.specs.EqualFacts.{HaveSameNames, HaveSameLengths, HaveSameKind, HaveSameMarks, HaveSameMeetings};

use drc_io::Name;
use rule_pick::Facts;

fn are_same_names(a: &[Name], b: &[Name]) -> bool
    ensures { IsTrue result ↔ (a.now ≡ b.now) }
{
    a == b
}

fn have_same_names(a: &Facts, b: &Facts) -> bool
    ensures { IsTrue result ↔ HaveSameNames a.now b.now }
{
    a.class == b.class && a.net_name == b.net_name
}

fn have_same_meetings(a: &Facts, b: &Facts) -> bool
    ensures { IsTrue result ↔ HaveSameMeetings a.now b.now }
{
    are_same_names(a.areas.as_slice(), b.areas.as_slice())
        && are_same_names(a.courtyards.as_slice(), b.courtyards.as_slice())
}

fn have_same_lengths(a: &Facts, b: &Facts) -> bool
    ensures { IsTrue result ↔ HaveSameLengths a.now b.now }
{
    a.width.get() == b.width.get()
        && a.diameter.get() == b.diameter.get()
        && a.hole.get() == b.hole.get()
        && a.local.get() == b.local.get()
        && a.class_clearance == b.class_clearance
}

fn have_same_kind(a: &Facts, b: &Facts) -> bool
    ensures { IsTrue result ↔ HaveSameKind a.now b.now }
{
    a.kind == b.kind && a.layers == b.layers
}

fn have_same_marks(a: &Facts, b: &Facts) -> bool
    ensures { IsTrue result ↔ HaveSameMarks a.now b.now }
{
    a.on_edge == b.on_edge && a.plated == b.plated && a.micro == b.micro && a.blind == b.blind
}

/// Whether all facts of the two are the same. It takes no memory.
pub fn same(a: &Facts, b: &Facts) -> bool
    ensures { IsTrue result ↔ (a.now ≡ b.now) }
{
    have_same_kind(a, b)
        && have_same_marks(a, b)
        && have_same_lengths(a, b)
        && have_same_names(a, b)
        && have_same_meetings(a, b)
}
