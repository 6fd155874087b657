//! The tree of a condition.

ghost use Rattle.std.specs.Prelude.{◌≡◌, ◌≤◌, length, map, IfOk};
ghost use Rattle.cond_lang.specs.Trees.{any, all, conds_of, cond_tree_of, trees_of};

use crate::terms::{Func, Op, Side, Term};
use drc_io::Name;
use std::alloc::{AllocError, Global};

/// A condition. What `||` joins side by side stands in one `Any`, what `&&` joins in one `All`, as the text has it.
#[derive(Drop)]
#[cycle(cond)]
pub enum Cond {
    Any(Conds),
    All(Conds),
    Not(Box<Cond>),
    /// The text of `IsPlated` is empty.
    Call { side: Side, func: Func, text: Name },
    Compare { left: Term, op: Op, right: Term },
}

/// Two conditions or more.
#[derive(Drop)]
#[cycle(cond)]
pub struct Conds {
    list: Vec<Cond>,
}

impl Conds {
    /// These conditions.
    pub fn of(list: Vec<Cond>) -> Conds
        requires { 2 ≤ length list.items }
        ensures { conds_of result ≡ list.items }
    {
        Conds { list }
    }

    /// The conditions in their order.
    pub fn as_slice(&self) -> &[Cond]
        ensures { result.now ≡ conds_of self.now }
    {
        &self.list
    }
}

fn any_of(list: Vec<Cond>) -> Cond
    ensures { cond_tree_of result ≡ any (trees_of (map cond_tree_of list.items)) }
{
    Cond::Any(Conds { list })
}

fn all_of(list: Vec<Cond>) -> Cond
    ensures { cond_tree_of result ≡ all (trees_of (map cond_tree_of list.items)) }
{
    Cond::All(Conds { list })
}

impl Cond {
    /// An equal condition.
    pub(crate) fn copy(&self, alloc: Global) -> Result<Cond, AllocError>
        ensures { IfOk result (λ c. cond_tree_of c ≡ cond_tree_of self.now) }
    {
        match self {
            Cond::Any(parts) => {
                let mut list = Vec::new(alloc);
                for part in parts.as_slice() {
                    list.push(part.copy(alloc)?)?;
                }
                Ok(any_of(list))
            }
            Cond::All(parts) => {
                let mut list = Vec::new(alloc);
                for part in parts.as_slice() {
                    list.push(part.copy(alloc)?)?;
                }
                Ok(all_of(list))
            }
            Cond::Not(inner) => {
                let inner = Box::new(alloc, inner.copy(alloc)?)?;
                Ok(Cond::Not(inner))
            }
            Cond::Call { side, func, text } => Ok(Cond::Call {
                side: *side,
                func: *func,
                text: text.copy()?,
            }),
            Cond::Compare { left, op, right } => Ok(Cond::Compare {
                left: left.copy()?,
                op: *op,
                right: right.copy()?,
            }),
        }
    }
}
