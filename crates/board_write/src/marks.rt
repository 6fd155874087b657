//! What has become of the units of a board.

ghost use Rattle.std.specs.Prelude.{◌≡◌, ◌<◌, length, slice_set};
ghost use Rattle.board_write.specs.declared.marks.Mark.{Mark};
ghost use Rattle.board_write.specs.Marks.{plain_mark, mark_at, mark_of_unit, moved_on, IsHeld, IsShortShift, IsMarkedOn};

use crate::distance::Distance;
use edit_script::Nm;

/// What has become of a unit.
#[derive(Clone, Copy)]
pub(crate) enum Mark {
    Stays,
    Gone,
    Moved(Distance),
}

/// The mark of a unit, if the list has one.
pub(crate) fn mark_of(marks: &[Mark], unit: Option<u32>) -> Mark
    ensures { result ≡ mark_of_unit marks.now unit }
{
    match unit {
        None => Mark::Stays,
        Some(unit) => mark_at(marks, unit as usize),
    }
}

/// The mark of a unit; one that has none stays.
pub(crate) fn mark_at(marks: &[Mark], unit: usize) -> Mark
    ensures { result ≡ mark_at marks.now unit }
{
    match marks.get(unit) {
        None => Mark::Stays,
        Some(mark) => *mark,
    }
}

/// A mark after one more move.
fn moved_on(mark: Mark, dx: Nm, dy: Nm) -> Mark
    requires { IsShortShift 4294967294 (plain_mark mark) }
    ensures { plain_mark result ≡ moved_on dx dy (plain_mark mark) }
{
    match mark {
        Mark::Gone => Mark::Gone,
        Mark::Stays => Mark::Moved(Distance {
            dx: i128::from(dx),
            dy: i128::from(dy),
        }),
        Mark::Moved(by) => Mark::Moved(Distance {
            dx: by.dx + i128::from(dx),
            dy: by.dy + i128::from(dy),
        }),
    }
}

/// Marks that the unit was taken out.
pub(crate) fn note_gone(marks: &mut [Mark], unit: u32)
    requires { unit < length marks.old }
    ensures { marks.new ≡ slice_set marks.old unit Mark.Gone }
{
    marks[unit as usize] = Mark::Gone;
}

/// Marks that the unit was moved once more.
pub(crate) fn note_move(marks: &mut [Mark], unit: u32, dx: Nm, dy: Nm)
    requires unit { unit < length marks.old }
    requires short { IsShortShift 4294967294 (plain_mark (mark_at marks.old unit)) }
    ensures marked { IsMarkedOn dx dy unit marks.old marks.new }
    ensures held { IsHeld dx × IsHeld dy }
{
    let mark = mark_at(marks, unit as usize);
    marks[unit as usize] = moved_on(mark, dx, dy);
}
