//! What a rule asks of one kind.

ghost use Rattle.std.specs.Prelude.{◌≡◌, is_some};
ghost use Rattle.plain_types.specs.Lengths.{IsLengthIfSome};
ghost use Rattle.cond_lang.specs.CheckKinds.{is_assertion};

use crate::cond::Cond;
use crate::kind::Kind;
use crate::rule::Disallow;
use exact_dec::Nm;

/// What a rule asks of one kind. Lengths are in nanometres, from 0 to 500 mm.
#[derive(Drop)]
pub struct Constraint {
    pub kind: Kind,
    pub least: Option<Nm>,
    pub most: Option<Nm>,
    pub bans: Disallow,
    /// There exactly for an assertion.
    pub claim: Option<Cond>,
    pub ghost least_in_range: { IsLengthIfSome least },
    pub ghost most_in_range: { IsLengthIfSome most },
    pub ghost claimed: { is_some claim ≡ is_assertion kind },
}
