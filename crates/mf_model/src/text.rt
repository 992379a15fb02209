ghost use Rattle.std.specs.Prelude.{◌≡◌, [], ◌∷◌, ◌++◌, ◌↔◌, IsTrue, length, IfOk, OnOk, OnErr};

use crate::short_text::{ROOM, ShortText};
use std::alloc::{AllocError, Global};
use std::hash::{Hash, Hasher};
use std::marker::Model;

/// A text of bytes, which contracts see as the list of its bytes. Up to 14 bytes are kept in the
/// value itself.
#[derive(Debug, Drop)]
pub struct Text {
    alloc: Global,
    bytes: Bytes,
}

#[derive(Debug, Drop)]
enum Bytes {
    Short(ShortText),
    Long(Box<Vec<u8>>),
}

impl Model for Text {
    ghost use Rattle.std.specs.Prelude.{List, ℕ};

    ghost Value = { List ℕ };

    ghost use Rattle.mf_model.specs.Texts.{bytes_of};

    ghost view = { λ t. bytes_of t.bytes };
}

impl Text {
    pub fn new(alloc: Global) -> Text
        ensures { result ≡ [] }
    {
        Text {
            alloc,
            bytes: Bytes::Short(ShortText::new()),
        }
    }

    /// An empty text with room for so many bytes.
    pub fn with_capacity(alloc: Global, capacity: usize) -> Result<Text, AllocError>
        ensures { IfOk result (λ text. text ≡ []) }
    {
        if capacity <= ROOM {
            return Ok(Text::new(alloc));
        }
        let bytes = Vec::with_capacity(alloc, capacity)?;
        Text::from_vec(alloc, bytes)
    }

    fn from_vec(alloc: Global, bytes: Vec<u8>) -> Result<Text, AllocError>
        ensures { IfOk result (λ text. text ≡ bytes.items) }
    {
        let bytes = Box::new(alloc, bytes)?;
        Ok(Text {
            alloc,
            bytes: Bytes::Long(bytes),
        })
    }

    pub fn from_slice(alloc: Global, bytes: &[u8]) -> Result<Text, AllocError>
        ensures { IfOk result (λ text. text ≡ bytes.now) }
    {
        let mut text = Text::with_capacity(alloc, bytes.len())?;
        text.extend(bytes)?;
        Ok(text)
    }

    pub fn as_slice(&self) -> &[u8]
        ensures { result.now ≡ self.now }
    {
        match &self.bytes {
            Bytes::Short(bytes) => bytes.as_slice(),
            Bytes::Long(bytes) => bytes.as_slice(),
        }
    }

    pub fn len(&self) -> usize
        ensures { result ≡ length self.now }
    {
        self.as_slice().len()
    }

    pub fn is_empty(&self) -> bool
        ensures { IsTrue result ↔ (self.now ≡ []) }
    {
        self.as_slice().is_empty()
    }

    /// A text of its own with the same bytes.
    pub fn copy(&self, alloc: Global) -> Result<Text, AllocError>
        ensures { IfOk result (λ text. text ≡ self.now) }
    {
        Text::from_slice(alloc, self.as_slice())
    }

    pub fn push(&mut self, byte: u8) -> Result<(), AllocError>
        ensures ok { OnOk result (self.new ≡ self.old ++ byte ∷ []) }
        ensures err { OnErr result (self.new ≡ self.old) }
    {
        self.extend(&[byte])
    }

    /// Adds the bytes at the end.
    pub fn extend(&mut self, bytes: &[u8]) -> Result<(), AllocError>
        ensures ok { OnOk result (self.new ≡ self.old ++ bytes.now) }
        ensures err { OnErr result (self.new ≡ self.old) }
    {
        self.bytes.extend(self.alloc, bytes)
    }
}

const _: () = prove!(size_of::<Text>() == 16);

impl Bytes {
    ghost use Rattle.mf_model.specs.Texts.{bytes_of};

    fn extend(&mut self, alloc: Global, more: &[u8]) -> Result<(), AllocError>
        ensures ok { OnOk result (bytes_of self.new ≡ bytes_of self.old ++ more.now) }
        ensures err { OnErr result (bytes_of self.new ≡ bytes_of self.old) }
    {
        match self {
            Bytes::Short(bytes) => {
                if more.len() <= ROOM - bytes.len() {
                    bytes.extend(more);
                    return Ok(());
                }
                let longer = joined(alloc, bytes.as_slice(), more)?;
                *self = Bytes::Long(longer);
                Ok(())
            }
            Bytes::Long(bytes) => bytes.extend_from_slice(more),
        }
    }
}

fn joined(alloc: Global, front: &[u8], back: &[u8]) -> Result<Box<Vec<u8>>, AllocError>
    ensures { IfOk result (λ bytes. bytes.value.items ≡ front.now ++ back.now) }
{
    let mut bytes = Vec::from_slice(alloc, front)?;
    bytes.extend_from_slice(back)?;
    Ok(Box::new(alloc, bytes)?)
}

impl PartialEq for Text {
    ghost use Rattle.std.specs.Str.{bytes_eq};
    ghost use Rattle.std.specs.Cmp.Rules.{comparing};
    ghost use Rattle.std.proofs.Common.{rules};

    ghost eq = { bytes_eq };

    ghost laws = { Prim.search (comparing, rules) };

    fn eq(&self, other: &Text) -> bool {
        self.as_slice() == other.as_slice()
    }
}

impl Eq for Text {
    ghost use Rattle.std.specs.Cmp.Rules.{comparing};
    ghost use Rattle.std.proofs.Common.{rules};

    ghost laws = { Prim.search (comparing, rules) };
}

impl Hash for Text {
    ghost use Rattle.std.specs.Hash as fed;
    ghost use Rattle.std.specs.Cmp.Rules.{hashing};
    ghost use Rattle.std.proofs.Common.{rules};

    ghost hash_input = { λ a. fed.slice fed.u8 a };

    ghost respects_eq = { Prim.search (hashing, rules) };

    fn hash<H: Hasher>(&self, state: &mut H) {
        self.as_slice().hash(state);
    }
}
