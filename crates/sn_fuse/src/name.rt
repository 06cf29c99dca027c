//! Names and data, which a request borrows from its message.
ghost use Rattle.std.specs.Prelude.{◌≡◌, ℕ, ◌<◌, List, [], ◌∷◌, ◌++◌, length, IfSome, IsNone};
ghost use Rattle.sn_fuse.specs.Body.{IsName, Text, Nothing, Begins, Spells};

use memchr::memchr;
use sn_bytes::Reader;
use std::marker::Model;

/// A name as a message brings it: one or more bytes, none of which is 0. Seen as these bytes.
#[derive(Drop)]
pub struct Name<'a> {
    bytes: &'a [u8],
}

impl<'a> Model for Name<'a> {
    ghost Value = { List ℕ };

    ghost view = { λ name. name.bytes.now };

    ghost invariant = { λ name. IsName name.bytes.now };
}

impl<'a> Name<'a> {
    /// Its bytes, without the 0 that ends it in the message.
    pub fn as_bytes(&self) -> &'a [u8]
        ensures same { result.now ≡ self.now }
        ensures name { IsName result.now }
    {
        self.bytes
    }
}

/// Bytes that a message brings, or that its answer does. Seen as these bytes.
#[derive(Drop)]
pub struct Data<'a> {
    bytes: &'a [u8],
}

impl<'a> Model for Data<'a> {
    ghost Value = { List ℕ };

    ghost view = { λ d. d.bytes.now };
}

impl<'a> Data<'a> {
    /// Lends these bytes to an answer.
    pub fn new(bytes: &'a [u8]) -> Self
        ensures { result ≡ bytes.now }
    {
        Data { bytes }
    }

    /// The bytes.
    pub fn as_bytes(&self) -> &'a [u8]
        ensures { result.now ≡ self.now }
    {
        self.bytes
    }
}

// The name at the front, past the 0 that ends it. `None` where there is none.
pub(crate) fn read_name<'a>(reader: &mut Reader<'a>) -> Option<Name<'a>>
    ensures found { IfSome result (λ name. Begins (Text name) reader.old reader.new) }
    ensures none { IsNone result → (name rest : List ℕ) → Begins (Text name) reader.old rest → ⊥ }
{
    let length = memchr(0, reader.rest())?;
    if length == 0 {
        return None;
    }
    let bytes = reader.bytes(length);
    reader.u8();
    Some(Name { bytes })
}

// A name, and nothing after it.
pub(crate) fn read_last_name<'a>(reader: &mut Reader<'a>) -> Option<Name<'a>>
    ensures found { IfSome result (λ name. Spells (Text name ∷ []) Nothing reader.old) }
    ensures none { IsNone result → (name : List ℕ) → Spells (Text name ∷ []) Nothing reader.old → ⊥ }
{
    let name = read_name(reader)?;
    if reader.remaining() > 0 {
        return None;
    }
    Some(name)
}
