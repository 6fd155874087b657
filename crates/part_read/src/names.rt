//! The name that a list gives.

ghost use Rattle.std.specs.Prelude.{◌≡◌, IfOk, option_map};
ghost use Rattle.sexpr_read.specs.TreeViews.{tree_of};
ghost use Rattle.part_read.specs.ElementResults.{name_among};

use crate::atoms::first_atom;
use drc_io::Name;
use list_read::name_from;
use sexpr_read::Node;
use std::alloc::{AllocError, Global};

/// The name in a list that gives one, or the empty one where there is no list or no atom in it.
pub fn name_in(alloc: Global, found: Option<Node<'_, '_>>) -> Result<Name, AllocError>
    ensures { IfOk result (λ name. name ≡ name_among (option_map tree_of found.entry)) }
{
    let Some(list) = found else {
        return Name::from_slice(alloc, b"");
    };
    match first_atom(list) {
        Ok(atom) => name_from(alloc, atom),
        Err(_) => Name::from_slice(alloc, b""),
    }
}
