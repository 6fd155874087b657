//! Spans.

ghost use Rattle.ratsnest.specs.CoordinateRange.{IsInReach};

/// The coordinates from `low` to `high`, in nanometres: none if `high` is below `low`.
#[derive(Clone, Copy, Drop)]
pub(crate) struct Span {
    pub(crate) low: i64,
    pub(crate) high: i64,
    ghost low_in_range: { IsInReach low },
    ghost high_in_range: { IsInReach high },
}
