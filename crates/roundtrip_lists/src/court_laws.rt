//! Laws. The functions do nothing.

ghost use Rattle.std.specs.Prelude.{◌≡◌, ℕ, ℤ, List, Bool, Some, false};
ghost use Rattle.std.specs.List.{AllZip, slice_get};
ghost use Rattle.geo_seg.specs.declared.points.Point.{Point};
ghost use Rattle.geo_seg.specs.declared.points.Seg.{Seg};
ghost use Rattle.geo_seg.specs.Shifts.{IsShiftedPoint};
ghost use Rattle.courtyard.specs.Ends.{place, point_of, is_short};
ghost use Rattle.courtyard.specs.ClosedOutlines.{AreChained};
ghost use Rattle.roundtrip_lists.specs.ListMoves.{AreShiftedSegs, HasCorner};

/// The outlines of lines that are moved are theirs, moved; and each end of a line that has a length is a corner of one.
pub fn chains()
    ensures moved { (dx dy : ℤ) (lines others : List Seg) (polys moved : List (List Point))
        → AreShiftedSegs dx dy lines others → AreChained lines polys
        → AllZip (AllZip (IsShiftedPoint dx dy)) polys moved → AreChained others moved }
    ensures corners { (lines : List Seg) (polys : List (List Point)) → AreChained lines polys
        → (i : ℕ) (l : Seg) → slice_get lines i ≡ Some l → is_short l ≡ false → (far : Bool)
        → HasCorner polys (place (point_of l far)) }
{}
