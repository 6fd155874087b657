//! A group.

ghost use Rattle.std.specs.Prelude.{◌≡◌};

use std::marker::Model;

/// Items of one net that chains of touching copper join, by rising id. Contracts see it as the list of their ids.
#[derive(Debug, Drop)]
pub struct Group {
    pub(crate) members: Vec<u32>,
}

impl Model for Group {
    ghost use Rattle.std.specs.Prelude.{List, ℕ};

    ghost Value = { List ℕ };

    ghost view = { λ group. group.members.items };
}

impl Group {
    /// The group of these ids. It takes no memory.
    pub fn of(members: Vec<u32>) -> Group
        ensures { result ≡ members.items }
    {
        Group { members }
    }

    /// The ids of its items, lent.
    pub fn members(&self) -> &[u32]
        ensures { result.now ≡ self.now }
    {
        &self.members
    }
}
