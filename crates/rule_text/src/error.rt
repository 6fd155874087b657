//! Why a rule file is refused.

use cond_lang::CondError;
use plain_types::{HasReason, Reason};
use sexpr_read::TextError;
use std::alloc::{AllocError, AllocFailed};
use std::error::Error;
use std::fmt;

/// Why a rule file is refused. `at` is a place in the text, counted in bytes. It is written `NAME (CODE)`, as `Bad (3)` or
/// `Cond.TooDeep (4.4)`.
#[derive(Clone, Copy, Debug, Drop, PartialEq, Eq)]
pub enum RuleError {
    /// The text is no row of lists.
    Text(TextError),
    /// The form at `at` is the first one and not `(version 1)`; or there is none, and the text ends at `at`.
    Version { at: u32 },
    /// The form, clause or word at `at` is none of rules.
    Bad { at: u32 },
    /// The text at `at` is no condition; the places of `inner` are counted in what it stands for.
    Cond { at: u32, inner: CondError },
    /// The number at `at` is no length with a unit, or not from 0 to 500 mm.
    BadNumber { at: u32 },
    /// Memory ran out.
    OutOfMemory,
}

impl HasReason for RuleError {
    ghost use Rattle.rule_text.specs.RuleReasons.{rules_reason};

    ghost reason_of = { rules_reason };

    ghost depth = { 2 };

    /// What it is called, its number and its byte of the text: for a condition that where its text begins, and its inner
    /// place is counted in what that text stands for. Running out of memory has no number, which is written 0, and no place.
    fn reason(&self) -> Reason {
        match self {
            RuleError::Text(error) => error.reason().behind("Text", 1),
            RuleError::Version { at } => Reason::new("Version", 2, Some(*at)),
            RuleError::Bad { at } => Reason::new("Bad", 3, Some(*at)),
            RuleError::Cond { at, inner } => inner.reason().behind("Cond", 4).inside(*at),
            RuleError::BadNumber { at } => Reason::new("BadNumber", 5, Some(*at)),
            RuleError::OutOfMemory => Reason::new("OutOfMemory", 0, None),
        }
    }
}

impl From<AllocError> for RuleError {
    ghost use Rattle.std.specs.Prelude.{◌≡◌};
    ghost use Rattle.rule_text.specs.declared.error.RuleError.TheVariants.{OutOfMemory};

    ghost from_gives = { λ _ e. e ≡ OutOfMemory };

    fn from(_: AllocError) -> RuleError {
        RuleError::OutOfMemory
    }
}

impl<T: Drop> From<AllocFailed<T>> for RuleError {
    ghost use Rattle.std.specs.Prelude.{◌≡◌};
    ghost use Rattle.rule_text.specs.declared.error.RuleError.TheVariants.{OutOfMemory};

    ghost from_gives = { λ _ e. e ≡ OutOfMemory };

    fn from(_: AllocFailed<T>) -> RuleError {
        RuleError::OutOfMemory
    }
}

impl fmt::Display for RuleError {
    ghost use Rattle.std.specs.Prelude.{Some};
    ghost use Rattle.plain_types.specs.Reasons.{written};
    ghost use Rattle.rule_text.specs.RuleReasons.{rules_reason};

    ghost output = { λ e. Some (written (rules_reason e)) };

    fn fmt<W: fmt::Write>(&self, f: &mut fmt::Formatter<W>) -> fmt::Result {
        write!(f, "{}", self.reason())
    }
}

impl Error for RuleError {}
