//! What was picked.

ghost use Rattle.plain_types.specs.Lengths.{IsLength, IsLengthIfSome};

use crate::kinds::Source;
use board_items::Nm;
use cond_lang::{Disallow, Severity};

/// What a kind of check asks for. Lengths are in nanometres, from 0 to 500 mm.
#[derive(Clone, Copy, Debug, Drop, PartialEq, Eq)]
pub struct Picked {
    /// 0 where nothing is asked for.
    pub least: Nm,
    pub most: Option<Nm>,
    pub bans: Disallow,
    pub source: Source,
    pub severity: Severity,
    /// Whether the claim of an assertion holds; true for any other kind.
    pub holds: bool,
    pub ghost least_in_range: { IsLength least },
    pub ghost most_in_range: { IsLengthIfSome most },
}
