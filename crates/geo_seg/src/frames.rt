// Boxes whose sides take 32 bits each, as polygons keep them.

ghost use Rattle.std.specs.Prelude.{◌≡◌};
ghost use Rattle.geo_seg.specs.Boxes.{FitsCore};
ghost use Rattle.geo_seg.specs.RunBoxes.{sides_of};

use crate::boxes::Bounds;

#[derive(Clone, Copy, Drop)]
pub struct Frame {
    pub left: i32,
    pub top: i32,
    pub right: i32,
    pub bottom: i32,
}

impl Frame {
    pub(crate) fn of(bounds: Bounds) -> Frame
        requires { FitsCore bounds }
        ensures { sides_of result ≡ bounds }
    {
        Frame {
            left: bounds.left as i32,
            top: bounds.top as i32,
            right: bounds.right as i32,
            bottom: bounds.bottom as i32,
        }
    }

    pub(crate) fn bounds(self) -> Bounds
        ensures { result ≡ sides_of self }
    {
        Bounds {
            left: i64::from(self.left),
            top: i64::from(self.top),
            right: i64::from(self.right),
            bottom: i64::from(self.bottom),
        }
    }
}
