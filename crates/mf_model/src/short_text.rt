ghost use Rattle.std.specs.Prelude.{◌≡◌, [], ◌++◌, ◌+◌, ◌≤◌, length, take};

use std::marker::Model;

/// How many bytes a short text has room for.
pub(crate) const ROOM: usize = 14;

/// A text of at most 14 bytes, which are kept in the value itself.
#[derive(Debug, Drop)]
pub(crate) struct ShortText {
    length: u8,
    bytes: [u8; 14],
}

impl Model for ShortText {
    ghost use Rattle.std.specs.Prelude.{List, ℕ, ◌≤◌, take};

    ghost Value = { List ℕ };

    ghost view = { λ t. take t.length t.bytes };

    ghost invariant = { λ t. t.length ≤ 14 };
}

impl ShortText {
    pub(crate) fn new() -> ShortText
        ensures { result ≡ [] }
    {
        ShortText {
            length: 0,
            bytes: [0; 14],
        }
    }

    pub(crate) fn as_slice(&self) -> &[u8]
        ensures value { result.now ≡ self.now }
        ensures short { length self.now ≤ 14 }
    {
        &self.bytes[..self.length as usize]
    }

    pub(crate) fn len(&self) -> usize
        ensures value { result ≡ length self.now }
        ensures short { result ≤ 14 }
    {
        self.length as usize
    }

    pub(crate) fn extend(&mut self, bytes: &[u8])
        requires { length self.old + length bytes.now ≤ 14 }
        ensures { self.new ≡ self.old ++ bytes.now }
    {
        let at = self.length as usize;
        let end = at + bytes.len();
        self.bytes[at..end].copy_from_slice(bytes);
        self.length = end as u8;
    }
}
