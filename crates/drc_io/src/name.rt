ghost use Rattle.std.specs.Prelude.{◌≡◌, ◌≤◌, ℕ, List, length, IfOk, IsOk, IsUtf8, bytes_eq};
ghost use Rattle.std.proofs.Common.{rules};
ghost use Rattle.std.specs.Cmp.Rules.{comparing};

use crate::text::{INSIDE, Text, keep_inside};
use std::alloc::{AllocError, Global};
use std::marker::Model;
use std::mem::size_of;

/// A text in UTF-8, which contracts see as the list of its bytes. One of at most 30 bytes takes no memory of its own.
#[derive(Debug, Drop)]
pub struct Name {
    text: Text,
}

// A board keeps many names, and each of its facts copies some.
const _: () = prove!(size_of::<Name>() == 32);

impl Model for Name {
    ghost use Rattle.std.specs.Prelude.{ℕ, List, IsUtf8};
    ghost use Rattle.drc_io.specs.NameText.{text_bytes, IsThrifty};

    ghost Value = { List ℕ };

    ghost view = { λ name. text_bytes name.text };

    ghost invariant = { λ name. IsUtf8 (text_bytes name.text) × IsThrifty name.text };
}

impl Name {
    /// The name of these bytes. It takes no memory.
    pub fn of(bytes: Vec<u8>) -> Name
        requires { IsUtf8 bytes.items }
        ensures { result ≡ bytes.items }
    {
        let text = if bytes.len() <= INSIDE {
            Text::Short(keep_inside(&bytes))
        } else {
            Text::Long(bytes)
        };
        Name { text }
    }

    /// The name of these bytes, which are copied. Up to 30 of them take no memory.
    pub fn from_slice(alloc: Global, bytes: &[u8]) -> Result<Name, AllocError>
        requires { IsUtf8 bytes.now }
        ensures value { IfOk result (λ name. name ≡ bytes.now) }
        ensures short { length bytes.now ≤ 30 → IsOk result }
    {
        let text = if bytes.len() <= INSIDE {
            Text::Short(keep_inside(bytes))
        } else {
            Text::Long(bytes.to_vec(alloc)?)
        };
        Ok(Name { text })
    }

    /// The bytes of the name.
    pub fn bytes(&self) -> &[u8]
        ensures value { result.now ≡ self.now }
        ensures utf8 { IsUtf8 self.now }
    {
        match &self.text {
            Text::Short(held) => &held.bytes[..held.len as usize],
            Text::Long(bytes) => bytes,
        }
    }

    /// An equal name. Up to 30 bytes take no memory.
    pub fn copy(&self) -> Result<Name, AllocError>
        ensures value { IfOk result (λ name. name ≡ self.now) }
        ensures short { length self.now ≤ 30 → IsOk result }
    {
        let text = match &self.text {
            Text::Short(held) => Text::Short(*held),
            Text::Long(bytes) => Text::Long(bytes.to_vec(*bytes.allocator())?),
        };
        Ok(Name { text })
    }
}

// Names are the same where their bytes are.
impl PartialEq for Name {
    ghost eq = { bytes_eq };

    ghost laws = { Prim.search (comparing, rules) };

    fn eq(&self, other: &Name) -> bool {
        self.bytes() == other.bytes()
    }
}

impl Eq for Name {
    ghost laws = { Prim.search (comparing, rules) };
}
