//! The kinds of what is checked.

ghost use Rattle.std.specs.Prelude.{◌≡◌};
ghost use Rattle.cond_lang.specs.CheckKinds.{family, has_own, is_assertion, kind_name, kind_number, special};

/// How a kind is broken.
#[derive(Clone, Copy, Debug, Drop, PartialEq, Eq)]
pub enum Family {
    /// Two items meet.
    Meets,
    /// Two items do not keep a distance.
    Keeps,
    /// A length of a single item is below the least value, or above the greatest.
    Limits,
    /// A single item is forbidden: it is banned, or a claim does not hold of it.
    Forbids,
}

/// What sets a kind apart from the others of its family.
#[derive(Clone, Copy, Debug, Drop, PartialEq, Eq)]
pub enum Special {
    /// Nothing does.
    Common,
    /// Classes and items have values of their own for it, and a short takes its place.
    OfClasses,
    /// A short takes its place.
    OfNets,
    /// A condition is claimed of the item.
    Claims,
}

/// What a rule limits, and what a row says is broken, by the numbers of kinds.
#[derive(Clone, Copy, Debug, Drop, PartialEq, Eq)]
pub enum Kind {
    /// Copper of two nets meets. No rule limits it.
    Short = 1,
    /// Between copper of two nets.
    Clearance = 2,
    /// Between a hole and copper of two nets.
    HoleClearance = 3,
    HoleToHole = 4,
    /// Between copper or a hole and the edge of the board.
    EdgeClearance = 5,
    CourtyardClearance = 6,
    /// An item stands in an area that bans it. No rule limits it.
    Keepout = 7,
    TrackWidth = 8,
    ViaDiameter = 9,
    HoleSize = 10,
    /// Of the copper round the hole of a via.
    AnnularWidth = 11,
    /// A rule bans the item.
    Disallow = 12,
    /// Between copper, of one net or of two.
    PhysicalClearance = 13,
    /// Between a hole and copper, of one net or of two.
    PhysicalHoleClearance = 14,
    /// A condition that has to hold of the item.
    Assertion = 15,
}

impl Kind {
    /// How it is broken.
    #[inline(always)]
    pub fn family(self) -> Family
        ensures { result ≡ family self }
    {
        match self {
            Kind::Short | Kind::Keepout => Family::Meets,
            Kind::Clearance
            | Kind::HoleClearance
            | Kind::HoleToHole
            | Kind::EdgeClearance
            | Kind::CourtyardClearance
            | Kind::PhysicalClearance
            | Kind::PhysicalHoleClearance => Family::Keeps,
            Kind::TrackWidth | Kind::ViaDiameter | Kind::HoleSize | Kind::AnnularWidth => {
                Family::Limits
            }
            Kind::Disallow | Kind::Assertion => Family::Forbids,
        }
    }

    /// What sets it apart.
    #[inline(always)]
    pub fn special(self) -> Special
        ensures { result ≡ special self }
    {
        match self {
            Kind::Clearance => Special::OfClasses,
            Kind::HoleClearance => Special::OfNets,
            Kind::Assertion => Special::Claims,
            Kind::Short
            | Kind::HoleToHole
            | Kind::EdgeClearance
            | Kind::CourtyardClearance
            | Kind::Keepout
            | Kind::TrackWidth
            | Kind::ViaDiameter
            | Kind::HoleSize
            | Kind::AnnularWidth
            | Kind::Disallow
            | Kind::PhysicalClearance
            | Kind::PhysicalHoleClearance => Special::Common,
        }
    }

    /// Whether classes and items have values of their own for it.
    #[inline(always)]
    pub fn has_own(self) -> bool
        ensures { result ≡ has_own self }
    {
        matches!(self.special(), Special::OfClasses)
    }

    /// Whether a condition is claimed of the item.
    #[inline(always)]
    pub fn is_assertion(self) -> bool
        ensures { result ≡ is_assertion self }
    {
        matches!(self.special(), Special::Claims)
    }

    /// The number of the kind, from 1 to 15.
    pub fn number(self) -> u32
        ensures { result ≡ kind_number self }
    {
        match self {
            Kind::Short => 1,
            Kind::Clearance => 2,
            Kind::HoleClearance => 3,
            Kind::HoleToHole => 4,
            Kind::EdgeClearance => 5,
            Kind::CourtyardClearance => 6,
            Kind::Keepout => 7,
            Kind::TrackWidth => 8,
            Kind::ViaDiameter => 9,
            Kind::HoleSize => 10,
            Kind::AnnularWidth => 11,
            Kind::Disallow => 12,
            Kind::PhysicalClearance => 13,
            Kind::PhysicalHoleClearance => 14,
            Kind::Assertion => 15,
        }
    }

    /// How rules and reports write it.
    pub fn name(self) -> &'static str
        ensures { result.now ≡ kind_name self }
    {
        match self {
            Kind::Short => "short",
            Kind::Clearance => "clearance",
            Kind::HoleClearance => "hole_clearance",
            Kind::HoleToHole => "hole_to_hole",
            Kind::EdgeClearance => "edge_clearance",
            Kind::CourtyardClearance => "courtyard_clearance",
            Kind::Keepout => "keepout",
            Kind::TrackWidth => "track_width",
            Kind::ViaDiameter => "via_diameter",
            Kind::HoleSize => "hole_size",
            Kind::AnnularWidth => "annular_width",
            Kind::Disallow => "disallow",
            Kind::PhysicalClearance => "physical_clearance",
            Kind::PhysicalHoleClearance => "physical_hole_clearance",
            Kind::Assertion => "assertion",
        }
    }
}
