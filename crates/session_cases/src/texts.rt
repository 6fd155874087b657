//! The texts that a call takes.

/// The texts of the two files of a case that a call takes: a board, and a script or a rule file.
#[derive(Clone, Copy)]
pub struct Texts<'a> {
    /// The bytes of the board.
    pub board: &'a [u8],
    /// The bytes of the script or of the rule file.
    pub other: &'a [u8],
}

/// The most bytes of a text.
pub const LIMIT: usize = 33_554_432;
