//! Rows that are the same.

ghost use Rattle.std.specs.Prelude.{◌≡◌};
ghost use Rattle.pair_check.specs.SameRows.{same_places, same_lengths, same_causes, same_rows, same_rows_laws};

use crate::row::Row;

/// Whether both are of the same items, and of the same kind and layer.
fn same_places(a: &Row, b: &Row) -> bool
    ensures { result ≡ same_places a.now b.now }
{
    a.first == b.first && a.second == b.second && a.kind == b.kind && a.layer == b.layer
}

fn same_lengths(a: &Row, b: &Row) -> bool
    ensures { result ≡ same_lengths a.now b.now }
{
    a.value == b.value && a.gap == b.gap && a.over == b.over
}

/// Whether two rows have one source and one severity.
fn same_causes(a: &Row, b: &Row) -> bool
    ensures { result ≡ same_causes a.now b.now }
{
    a.source == b.source && a.severity == b.severity
}

// Rows are the same where all that their readers give is.
impl PartialEq for Row {
    ghost eq = { same_rows };

    ghost laws = { same_rows_laws };

    fn eq(&self, other: &Row) -> bool {
        same_places(self, other) && same_lengths(self, other) && same_causes(self, other)
    }
}
