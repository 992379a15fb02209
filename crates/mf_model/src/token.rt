ghost use Rattle.std.specs.Prelude.{◌≡◌, ◌+◌, ◌<◌, ◌≤◌};

use crate::List;
use std::marker::Model;

/// A place in a file: the bytes from `start` up to `end`.
#[derive(Clone, Copy, Debug, PartialEq, Eq)]
pub struct Span {
    pub start: u32,
    pub end: u32,
}

/// What a token is, after its letters are folded to lower case.
#[derive(Clone, Copy, Debug, PartialEq, Eq)]
pub enum Kind {
    /// `(`
    Left,
    /// `)`
    Right,
    /// A letter, then letters, digits, `-` and `_`.
    Name,
    /// `?`, then a name.
    Variable,
    /// `:`, then a name.
    Keyword,
    /// An optional `-`, digits, and optionally `.` and digits.
    Number,
    /// One of `-` `+` `*` `/` `<` `<=` `=` `>=` `>`.
    Sign,
    /// Any other word.
    Plain,
}

/// A bracket or a word of a file: its kind, and its place. A file may have as many tokens as bytes, so
/// each is kept in 6 bytes.
#[derive(Debug, Drop)]
pub struct Token {
    low: u16,
    high: u8,
    length: u8,
    kind: Kind,
}

impl Model for Token {
    ghost use Rattle.std.specs.Prelude.{◌+◌, ◌*◌};
    ghost use Rattle.mf_model.specs.Placed.{Placed};

    ghost Value = { Placed };

    ghost view = { λ t. record { kind = t.kind; span = record { start = t.low + 65536 * t.high; end = t.low + 65536 * t.high + t.length } } };
}

impl Token {
    /// A token of at most 255 bytes that starts in the first 16,777,216 bytes of a file.
    pub fn new(kind: Kind, span: Span) -> Token
        requires start { span.start < 16777216 }
        requires order { span.start ≤ span.end }
        requires short { span.end ≤ span.start + 255 }
        ensures { result ≡ record { kind = kind; span = span } }
    {
        Token {
            low: (span.start % 65536) as u16,
            high: (span.start / 65536) as u8,
            length: (span.end - span.start) as u8,
            kind,
        }
    }

    pub fn kind(&self) -> Kind
        ensures { result ≡ self.now.kind }
    {
        self.kind
    }

    pub fn start(&self) -> u32
        ensures value { result ≡ self.now.span.start }
        ensures small { result < 16777216 }
    {
        self.low as u32 + 65536 * self.high as u32
    }

    pub fn end(&self) -> u32
        ensures { result ≡ self.now.span.end }
    {
        self.start() + self.length as u32
    }

    pub fn span(&self) -> Span
        ensures { result ≡ self.now.span }
    {
        Span {
            start: self.start(),
            end: self.end(),
        }
    }
}

/// The tokens of a file in order, and the file's length in bytes.
#[derive(Debug, Drop)]
pub struct Tokens {
    pub list: List<Token>,
    pub length: u32,
}

const _: () = prove!(size_of::<Token>() == 6);
