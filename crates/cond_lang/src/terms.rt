//! What a condition speaks of.

ghost use Rattle.std.specs.Prelude.{◌≡◌, IfOk};

use drc_io::Name;
use exact_dec::Nm;
use std::alloc::AllocError;

/// Which of the two items.
#[derive(Clone, Copy, Debug, Drop, PartialEq, Eq)]
pub enum Side {
    A,
    B,
}

/// What is asked of an item. `insideArea` is `IntersectsArea` too.
#[derive(Clone, Copy, Debug, Drop, PartialEq, Eq)]
pub enum Func {
    ExistsOnLayer,
    IsPlated,
    IntersectsArea,
    IntersectsCourtyard,
}

/// A property of an item. The first three are texts, the others lengths.
#[derive(Clone, Copy, Debug, Drop, PartialEq, Eq)]
pub enum Prop {
    ItemType,
    NetClass,
    NetName,
    Width,
    Diameter,
    Hole,
}

/// `==`, `!=`, `<`, `<=`, `>` and `>=`.
#[derive(Clone, Copy, Debug, Drop, PartialEq, Eq)]
pub enum Op {
    Same,
    Differs,
    Less,
    AtMost,
    More,
    AtLeast,
}

/// What is compared.
#[derive(Debug, Drop)]
pub enum Term {
    Of { side: Side, prop: Prop },
    Text(Name),
    Length(Nm),
}

impl Term {
    /// An equal term.
    pub(crate) fn copy(&self) -> Result<Term, AllocError>
        ensures { IfOk result (λ t. t ≡ self.now) }
    {
        match self {
            Term::Of { side, prop } => Ok(Term::Of {
                side: *side,
                prop: *prop,
            }),
            Term::Text(text) => Ok(Term::Text(text.copy()?)),
            Term::Length(nm) => Ok(Term::Length(*nm)),
        }
    }
}
