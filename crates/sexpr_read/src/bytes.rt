//! What the bytes of a text are to the reader.

ghost use Rattle.std.specs.Prelude.{◌≡◌, ◌<◌, length, slice_index_or};
ghost use Rattle.sexpr_read.specs.ByteClasses.{class_of, sign_of};

/// What a byte is to the reader. Definitions of other crates name it.
#[derive(Clone, Copy)]
pub enum ByteClass {
    Space,
    Open,
    Close,
    Quote,
    Backslash,
    Plain,
}

/// What a byte is.
#[inline(always)]
#[tactic(auto, unfolding(crate::specs::ByteClasses::class_of))]
pub(crate) fn class_of(byte: u8) -> ByteClass
    ensures { result ≡ class_of byte }
{
    if byte == b' ' || byte == b'\t' || byte == b'\n' || byte == b'\r' {
        ByteClass::Space
    } else if byte == b'(' {
        ByteClass::Open
    } else if byte == b')' {
        ByteClass::Close
    } else if byte == b'"' {
        ByteClass::Quote
    } else if byte == b'\\' {
        ByteClass::Backslash
    } else {
        ByteClass::Plain
    }
}

/// What the byte at this place is.
#[inline(always)]
pub(crate) fn sign_at(text: &[u8], at: usize) -> ByteClass
    requires { at < length text.now }
    ensures { result ≡ sign_of text.now at }
{
    class_of(text[at])
}

/// The byte at this place.
#[inline(always)]
pub(crate) fn byte_at(text: &[u8], at: usize) -> u8
    requires { at < length text.now }
    ensures { result ≡ slice_index_or text.now at 0x20 }
{
    text[at]
}
