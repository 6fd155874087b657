//! Vectors that contracts see as lists, and vectors that are made at once.

ghost use Rattle.std.specs.Prelude.{◌≡◌, ◌++◌, ◌∷◌, [], IfOk};

use std::alloc::{AllocError, Global};
use std::marker::Model;

/// A vector that is kept as it was made. Contracts see the list of its elements.
#[derive(Debug, Drop)]
pub struct Listed<T> {
    list: Vec<T>,
}

impl<T> Model for Listed<T> {
    ghost use Rattle.std.specs.Prelude.{List};

    ghost Value = { List T };

    ghost view = { λ listed. listed.list.items };
}

impl<T> Listed<T> {
    /// No element. It takes no memory.
    pub fn new(alloc: Global) -> Listed<T>
        ensures { result ≡ [] }
    {
        Listed {
            list: Vec::new(alloc),
        }
    }

    /// These elements. It takes no memory.
    pub fn of(list: Vec<T>) -> Listed<T>
        ensures { result ≡ list.items }
    {
        Listed { list }
    }

    /// The elements in their order.
    pub fn as_slice(&self) -> &[T]
        ensures { result.now ≡ self.now }
    {
        &self.list
    }

    /// The allocator that its memory is from.
    pub fn allocator(&self) -> Global {
        *self.list.allocator()
    }
}

impl<T: Drop> Listed<T> {
    /// With one more behind the others.
    pub fn with(self, element: T) -> Result<Listed<T>, AllocError>
        ensures { IfOk result (λ all. all ≡ self ++ element ∷ []) }
    {
        let mut list = self.list;
        list.push(element)?;
        Ok(Listed { list })
    }
}

/// A vector of one element.
pub fn one<T: Drop>(alloc: Global, element: T) -> Result<Vec<T>, AllocError>
    ensures { IfOk result (λ list. list.items ≡ element ∷ []) }
{
    let mut list = Vec::with_capacity(alloc, 1)?;
    list.push(element)?;
    Ok(list)
}
