//! Constraints whose name is that of no kind: they are told as not checked.

ghost use Rattle.std.specs.Prelude.{◌≡◌, map, IfOk};
ghost use Rattle.rule_text.specs.RuleValues.{plain_note};

use drc_io::Name;
use plain_types::Listed;
use std::alloc::AllocError;

/// A constraint whose name is that of no kind.
#[derive(Debug, Drop)]
pub struct RuleNote {
    /// The number of its rule, from 0.
    pub rule: u32,
    /// Its name.
    pub constraint: Name,
}

impl RuleNote {
    fn copy(&self) -> Result<RuleNote, AllocError>
        ensures { IfOk result (λ note. plain_note note ≡ plain_note self.now) }
    {
        Ok(RuleNote {
            rule: self.rule,
            constraint: self.constraint.copy()?,
        })
    }
}

/// Notes, in the order of the text. Contracts see the list.
pub type RuleNotes = Listed<RuleNote>;

/// Equal notes.
pub(crate) fn copy_notes(notes: &RuleNotes) -> Result<RuleNotes, AllocError>
    ensures { IfOk result (λ copy. map plain_note copy ≡ map plain_note notes.now) }
{
    let mut list = Vec::new(notes.allocator());
    for note in notes.as_slice() {
        list.push(note.copy()?)?;
    }
    Ok(Listed::of(list))
}
