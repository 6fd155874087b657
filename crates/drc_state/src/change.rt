//! Changes of a state.

ghost use Rattle.std.specs.Prelude.{◌≡◌};
ghost use Rattle.board_edits.specs.Fitting.{plain_operation, AddsNone};
ghost use Rattle.drc_state.specs.StateChanges.{edit, plain_change, plain_edit};

use board_edits::Operation;
use board_items::{Kept, Nm};
use rule_text::Rules;

/// A change that leads from one state to another.
#[derive(Drop)]
pub enum Change {
    /// All stays as it is.
    Nothing,
    /// A unit is put back under the ids that its items had.
    PutBack { items: Vec<Kept> },
    /// A unit is taken out.
    TakeOut { unit: u32 },
    /// A unit is moved, by so many nanometres.
    Shift { unit: u32, dx: Nm, dy: Nm },
    /// The rules are replaced.
    Replace { rules: Rules },
}

/// What is done to a state: to its board, or to its rules.
#[derive(Drop)]
pub enum Edit {
    Board(Operation),
    Rules(Rules),
}

/// What a change does.
pub fn edit_in(change: Change) -> Edit
    ensures { plain_edit result ≡ plain_change change }
{
    match change {
        Change::Nothing => Edit::Board(Operation::Nothing),
        Change::PutBack { items } => Edit::Board(Operation::PutBack { items }),
        Change::TakeOut { unit } => Edit::Board(Operation::TakeOut { unit }),
        Change::Shift { unit, dx, dy } => Edit::Board(Operation::Shift { unit, dx, dy }),
        Change::Replace { rules } => Edit::Rules(rules),
    }
}

/// The change that is an operation which adds no new items.
pub fn change_of(operation: Operation) -> Change
    requires { AddsNone (plain_operation operation) }
    ensures { plain_change result ≡ edit (plain_operation operation) }
{
    match operation {
        Operation::Nothing => Change::Nothing,
        Operation::Append { .. } => unreachable!(),
        Operation::PutBack { items } => Change::PutBack { items },
        Operation::TakeOut { unit } => Change::TakeOut { unit },
        Operation::Shift { unit, dx, dy } => Change::Shift { unit, dx, dy },
    }
}
