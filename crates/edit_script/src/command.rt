//! What the forms of a script ask for: commands, and steps of a history.

use drc_io::Name;

/// Nanometres.
pub type Nm = i64;

/// What a form of a script asks for. Texts are lent from the script. `at` is the byte of the script at which the form begins, of an
/// added list that of the list; it is at most 33,554,432.
#[derive(Debug, Drop)]
pub enum Command<'t> {
    /// Add the items of a list, whose text this is: `(add LIST)`. The list of a script has at most 63 levels, so that it can stand in
    /// a board.
    Add { text: &'t [u8], at: u32 },
    /// Take out the unit of this name: `(delete NAME)`.
    Delete { name: Name, at: u32 },
    /// Move the unit of this name by so many nanometres: `(move NAME DX DY)`, in millimetres. Those of a script are from -10^12 to
    /// 10^12.
    Move { name: Name, dx: Nm, dy: Nm, at: u32 },
    /// Put other rules in place of those that there are. The text is the whole form: `(rules FORM ..)`.
    Rules { text: &'t [u8], at: u32 },
    /// Change nothing, and report again: `(again)`.
    Again { at: u32 },
}

impl<'t> Command<'t> {
    ghost use Rattle.std.specs.Prelude.{◌≡◌};
    ghost use Rattle.edit_script.specs.Commands.{plain_command, place_of};

    /// Its place in the script, in bytes.
    pub fn at(&self) -> u32
        ensures { result ≡ place_of (plain_command self.now) }
    {
        match self {
            Command::Add { at, .. } => *at,
            Command::Delete { at, .. } => *at,
            Command::Move { at, .. } => *at,
            Command::Rules { at, .. } => *at,
            Command::Again { at } => *at,
        }
    }
}

/// What a form of a script with a history asks for. `at` is the byte of the script at which the form begins.
#[derive(Debug, Drop)]
pub enum Step<'t> {
    /// Carry a command out.
    Edit(Command<'t>),
    /// Go one step back: `(undo)`.
    Undo { at: u32 },
    /// Go on by one step that was undone: `(redo)`.
    Redo { at: u32 },
}
