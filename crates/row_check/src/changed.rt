//! Which ids changed.

ghost use Rattle.std.specs.Prelude.{◌≡◌};
ghost use Rattle.std.specs.List.Sorted.{IsStrictlyIncreasing};
ghost use Rattle.row_check.specs.RowsOfTile.{is_changed};

/// Whether the id is one of those that changed, which rise. It takes no memory.
pub fn is_changed(changed: &[u32], id: u32) -> bool
    requires { IsStrictlyIncreasing changed.now }
    ensures { result ≡ is_changed changed.now id }
{
    match changed.get(id as usize) {
        // where all changed and none is gone, an id is its own place
        Some(there) if *there == id => true,
        _ => changed.binary_search(&id).is_ok(),
    }
}
