//! The report of a session.

ghost use Rattle.std.specs.Prelude.{◌≡◌, false};
ghost use Rattle.board_items.specs.Boards.{IsSound};
ghost use Rattle.drc_state.specs.States.{checked_in};
ghost use Rattle.drc_state.specs.Recheck.{IsHeldCount};
ghost use Rattle.run_output.specs.RunResults.{IsReported};

use board_items::Board;
use drc_io::{Failed, Sink};
use drc_session::Session;
use net_groups::parts_are_writable;
use row_check::laws::{rows_have_items, rows_have_sources};
use run_reports::{Tiles, write_short, write_whole};

/// Each board is sound, as whoever goes through its items is told.
fn is_sound(board: &Board)
    ensures { IsSound board.now }
{
    let _items = board.iter();
}

/// Writes the report of this number of a session that is not stopped, whole or short. `Failed` comes only where the sink's count of
/// faults rose, and then a prefix of the report was written. It takes no memory.
pub fn write_report<W: Sink>(
    short: bool,
    number: u64,
    session: &Session,
    tiles: Tiles,
    out: &mut W,
) -> Result<(), Failed>
    requires running { session.now.stopped ≡ false }
    requires held { IsHeldCount (checked_in session.now.state) tiles.held }
    ensures { IsReported short number session.now tiles.done tiles.held (W.written out.old)
        (W.written out.new) (W.faults out.old) (W.faults out.new) result }
{
    rows_have_items();
    rows_have_sources();
    parts_are_writable();
    is_sound(session.board());
    let rules = session.rules();
    let rows = session.rows();
    let nets = session.nets();
    if short {
        write_short(number, session.board(), rules, rows, nets, tiles, out)
    } else {
        write_whole(number, &session.view(), rules, rows, nets, tiles, out)
    }
}
