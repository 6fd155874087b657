//! What atoms stand for, as names.

ghost use Rattle.std.specs.Prelude.{◌≡◌, IfOk};
ghost use Rattle.sexpr_read.specs.TreeViews.{tree_of};
ghost use Rattle.list_read.specs.ListHeads.{text_of};

use drc_io::Name;
use sexpr_read::Node;
use std::alloc::{AllocError, Global};

/// What an atom stands for, as a name.
pub fn name_from(alloc: Global, atom: Node<'_, '_>) -> Result<Name, AllocError>
    ensures { IfOk result (λ name. name ≡ text_of (tree_of atom.entry)) }
{
    match atom.word() {
        Some(word) => Name::from_slice(alloc, word),
        None => name_decoded(alloc, atom),
    }
}

/// What an atom in quotes stands for, as a name, with its escapes read.
fn name_decoded(alloc: Global, atom: Node<'_, '_>) -> Result<Name, AllocError>
    ensures { IfOk result (λ name. name ≡ text_of (tree_of atom.entry)) }
{
    let mut bytes = Vec::new(alloc);
    atom.value(&mut bytes)?;
    Ok(Name::of(bytes))
}
