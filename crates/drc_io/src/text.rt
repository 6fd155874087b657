// How a name keeps its bytes.

ghost use Rattle.std.specs.Prelude.{◌≡◌, ◌≤◌, length, take};

/// How many bytes a name keeps inside itself.
pub const INSIDE: usize = 30;

/// A few bytes at the front of an array.
#[derive(Clone, Copy, Debug, Drop)]
pub struct Held {
    pub bytes: [u8; 30],
    pub len: u8,
    ghost within: { len ≤ 30 },
}

/// Bytes, where few of them take no memory of their own.
#[derive(Debug, Drop)]
pub enum Text {
    Short(Held),
    Long(Vec<u8>),
}

/// The few bytes.
pub(crate) fn keep_inside(bytes: &[u8]) -> Held
    requires { length bytes.now ≤ 30 }
    ensures { take result.len result.bytes ≡ bytes.now }
{
    let mut prefix = [0; INSIDE];
    prefix[..bytes.len()].copy_from_slice(bytes);
    Held {
        bytes: prefix,
        len: bytes.len() as u8,
    }
}
