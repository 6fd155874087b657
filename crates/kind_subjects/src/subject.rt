//! What each kind looks at.

ghost use Rattle.std.specs.Prelude.{◌≡◌};
ghost use Rattle.kind_subjects.specs.Subjects.{subject_of};

use cond_lang::Kind;

/// Which parts of one item face which parts of another.
#[derive(Clone, Copy)]
pub enum OperandKinds {
    /// Copper and copper.
    Coppers,
    /// The hole of each and the copper of the other.
    HolesAndCopper,
    /// Hole and hole.
    Holes,
    /// The lines of an edge and copper, or the hole of an item without copper.
    EdgesAndCopper,
    /// Courtyards of one side.
    Yards,
    /// A rule area and where the other item is.
    Areas,
}

/// A length of a single item.
#[derive(Clone, Copy)]
pub enum Measure {
    /// The width of a track.
    Width,
    /// The size of a via.
    Diameter,
    /// The smaller size of a hole.
    Bore,
    /// The copper round the hole of a via, on both sides of it together.
    Ring,
}

/// What a kind looks at.
#[derive(Clone, Copy)]
pub enum Subject {
    /// What faces each other of two items.
    Sides(OperandKinds),
    /// A length of a single item.
    Length(Measure),
    /// A single item as a whole.
    Whole,
}

/// What the kind looks at.
#[inline(always)]
pub(crate) fn subject_of(kind: Kind) -> Subject
    ensures { result ≡ subject_of kind }
{
    match kind {
        Kind::Short | Kind::Clearance | Kind::PhysicalClearance => Subject::Sides(
            OperandKinds::Coppers,
        ),
        Kind::HoleClearance | Kind::PhysicalHoleClearance => Subject::Sides(
            OperandKinds::HolesAndCopper,
        ),
        Kind::HoleToHole => Subject::Sides(OperandKinds::Holes),
        Kind::EdgeClearance => Subject::Sides(OperandKinds::EdgesAndCopper),
        Kind::CourtyardClearance => Subject::Sides(OperandKinds::Yards),
        Kind::Keepout => Subject::Sides(OperandKinds::Areas),
        Kind::TrackWidth => Subject::Length(Measure::Width),
        Kind::ViaDiameter => Subject::Length(Measure::Diameter),
        Kind::HoleSize => Subject::Length(Measure::Bore),
        Kind::AnnularWidth => Subject::Length(Measure::Ring),
        Kind::Disallow | Kind::Assertion => Subject::Whole,
    }
}
