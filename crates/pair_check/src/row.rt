//! Rows.

ghost use Rattle.std.specs.Prelude.{◌≡◌, ◌↔◌, IsTrue};
ghost use Rattle.plain_types.specs.Lengths.{IsLength};
ghost use Rattle.kind_subjects.specs.KindLayers.{IsLayerOf};
ghost use Rattle.kind_subjects.specs.LimitedLengths.{IsNearZero};
ghost use Rattle.pair_check.specs.PlainRow.{IdsAreInOrder, MakesRows};

use board_items::Nm;
use cond_lang::{Kind, Severity};
use kind_subjects::RowLayer;
use rule_pick::Source;
use std::marker::Model;

/// Whether what is picked makes rows: errors and warnings do.
pub(crate) fn counts(severity: Severity) -> bool
    ensures { IsTrue result ↔ MakesRows severity }
{
    match severity {
        Severity::Error | Severity::Warning => true,
        Severity::Ignore | Severity::Exclusion => false,
    }
}

/// What one item or two items of a board break. Contracts see it as the record of what its readers give. It is made in this
/// crate alone. `==` holds of two rows exactly where they are the same.
#[derive(Clone, Copy, Debug)]
pub struct Row {
    pub(crate) first: u32,
    pub(crate) second: u32,
    pub(crate) kind: Kind,
    pub(crate) layer: RowLayer,
    pub(crate) value: Nm,
    pub(crate) gap: Nm,
    pub(crate) over: bool,
    pub(crate) source: Source,
    pub(crate) severity: Severity,
}

impl Model for Row {
    ghost use Rattle.pair_check.specs.PlainRow.{PlainRow, HasRanges};

    ghost Value = { PlainRow };

    ghost view = { λ r. record { first = r.first; second = r.second; kind = r.kind; layer = r.layer; value = r.value; gap = r.gap; over = r.over; source = r.source; severity = r.severity } };

    ghost invariant = { λ r. HasRanges (record { first = r.first; second = r.second; kind = r.kind; layer = r.layer; value = r.value; gap = r.gap; over = r.over; source = r.source; severity = r.severity }) };

    ghost inverse = { λ p. record { first = p.first; second = p.second; kind = p.kind; layer = p.layer; value = p.value; gap = p.gap; over = p.over; source = p.source; severity = p.severity } };
}

impl Row {
    /// The lesser id of the two items, or the id of the one.
    pub fn first(&self) -> u32
        ensures value { result ≡ self.now.first }
        ensures ordered { IdsAreInOrder self.now.kind result self.now.second }
    {
        self.first
    }

    /// The greater id; of a single item the same as the first.
    pub fn second(&self) -> u32
        ensures value { result ≡ self.now.second }
        ensures ordered { IdsAreInOrder self.now.kind self.now.first result }
    {
        self.second
    }

    /// What is broken.
    pub fn kind(&self) -> Kind
        ensures { result ≡ self.now.kind }
    {
        self.kind
    }

    /// The first layer on which it is.
    pub fn layer(&self) -> RowLayer
        ensures value { result ≡ self.now.layer }
        ensures of_kind { IsLayerOf self.now.kind result }
    {
        self.layer
    }

    /// What is asked for, in nanometres from 0 to 500 mm; 0 where no length is.
    pub fn value(&self) -> Nm
        ensures value { result ≡ self.now.value }
        ensures range { IsLength result }
    {
        self.value
    }

    /// The length that there is, in nanometres rounded down, from -500 mm to 500 mm; 0 where none is measured, and where two
    /// items meet.
    pub fn gap(&self) -> Nm
        ensures value { result ≡ self.now.gap }
        ensures range { IsNearZero result }
    {
        self.gap
    }

    /// Whether the length is over the greatest value, rather than below the least.
    pub fn over(&self) -> bool
        ensures { result ≡ self.now.over }
    {
        self.over
    }

    /// What asks for it.
    pub fn source(&self) -> Source
        ensures { result ≡ self.now.source }
    {
        self.source
    }

    /// The severity of the row: an error or a warning.
    pub fn severity(&self) -> Severity
        ensures value { result ≡ self.now.severity }
        ensures counts { MakesRows result }
    {
        self.severity
    }
}
