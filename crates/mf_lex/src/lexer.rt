ghost use Rattle.std.specs.Prelude.{◌≡◌, ◌≢◌, ◌+◌, ℕ, ◌<◌, ◌≤◌, true, false, length, slice_index, IfOk, IfErr};
ghost use Rattle.mf_model.specs.Tokens.{is_word, kind_of, text_of, IsTokens};
ghost use Rattle.mf_lex.specs.Reading.{IsUncommented, Reading, Finds, Steps, IsLexFault, NoTokens};

use crate::bytes::{Class, class_of, is_word};
use crate::fault::LexFault;
use crate::words::kind;
use mf_model::{List, Span, Token, Tokens};
use std::alloc::Global;

/// What stands at a place where no comment is open.
pub enum Piece {
    /// Blanks and comments up to `end`.
    Gap { end: usize },
    Next(Token),
}

/// The tokens of a file of at most 16,777,216 bytes, in order. Between them stand only blanks and
/// comments. Names, variables and keywords are those of PDDL 2.1 (Fox and Long, JAIR 2003).
///
/// # Errors
///
/// `BadByte` and `TooLong`, whichever has the least place; then the file has no tokens.
#[tactic(auto, using(crate::proofs::Steps::begin, crate::proofs::Steps::all_read, crate::proofs::Unique::none))]
pub fn tokens(alloc: Global, source: &[u8]) -> Result<Tokens, LexFault>
    requires { length source.now ≤ 16777216 }
    ensures tokens_are { IfOk result (λ it. IsTokens source.now it.list) }
    ensures length { IfOk result (λ it. it.length ≡ length source.now) }
    ensures fault { IfErr result (IsLexFault source.now) }
    ensures none { IfErr result (NoTokens source.now) }
{
    let mut list = List::new(alloc);
    let mut at = 0;
    while at < source.len() {
        at = step(source, at, &mut list)?;
    }
    Ok(Tokens {
        list,
        length: source.len() as u32,
    })
}

/// Reads what stands at a place, and adds it where it is a token.
fn step(source: &[u8], at: usize, list: &mut List<Token>) -> Result<usize, LexFault>
    requires small { length source.now ≤ 16777216 }
    requires within { at < length source.now }
    requires reading { Reading source.now at list.old }
    ensures { Steps source.now at list.new result }
{
    match next_piece(source, at)? {
        Piece::Gap { end } => Ok(end),
        Piece::Next(token) => {
            let end = token.end() as usize;
            list.push(token)?;
            Ok(end)
        }
    }
}

fn next_piece(source: &[u8], at: usize) -> Result<Piece, LexFault>
    requires small { length source.now ≤ 16777216 }
    requires within { at < length source.now }
    requires uncommented { IsUncommented source.now at }
    ensures { Finds source.now at result }
{
    match class_of(source[at]) {
        Class::Blank => Ok(Piece::Gap { end: at + 1 }),
        Class::Comment => Ok(Piece::Gap {
            end: comment_end(source, at),
        }),
        Class::Bracket => Ok(Piece::Next(token(source, at, at + 1))),
        Class::Word => word(source, at),
        Class::Bad => Err(LexFault::BadByte { at: at as u32 }),
    }
}

fn word(source: &[u8], at: usize) -> Result<Piece, LexFault>
    requires small { length source.now ≤ 16777216 }
    requires within { at < length source.now }
    requires uncommented { IsUncommented source.now at }
    requires first { is_word (slice_index source.now at) ≡ true }
    ensures { Finds source.now at result }
{
    let end = word_end(source, at);
    if end - at > 255 {
        return Err(LexFault::TooLong { at: at as u32 });
    }
    Ok(Piece::Next(token(source, at, end)))
}

fn token(source: &[u8], start: usize, end: usize) -> Token
    requires small { length source.now ≤ 16777216 }
    requires begins { start < length source.now }
    requires order { start ≤ end }
    requires short { end ≤ start + 255 }
    requires within { end ≤ length source.now }
    ensures start { result.span.start ≡ start }
    ensures end { result.span.end ≡ end }
    ensures kind { result.kind ≡ kind_of (text_of source.now result.span) }
{
    let span = Span {
        start: start as u32,
        end: end as u32,
    };
    Token::new(kind(&source[start..end]), span)
}

/// The end of the run of word bytes that begins at a place.
fn word_end(source: &[u8], at: usize) -> usize
    requires { at ≤ length source.now }
    ensures order { at ≤ result }
    ensures within { result ≤ length source.now }
    ensures inside { (i : ℕ) → at ≤ i → i < result → is_word (slice_index source.now i) ≡ true }
    ensures maximal { result < length source.now → is_word (slice_index source.now result) ≡ false }
{
    let mut end = at;
    while end < source.len() && is_word(source[end]) {
        end += 1;
    }
    end
}

/// The place of the first line feed from a place on, or the end of the file.
fn comment_end(source: &[u8], at: usize) -> usize
    requires { at ≤ length source.now }
    ensures order { at ≤ result }
    ensures within { result ≤ length source.now }
    ensures inside { (i : ℕ) → at ≤ i → i < result → slice_index source.now i ≢ 10 }
    ensures end { result < length source.now → slice_index source.now result ≡ 10 }
{
    let mut end = at;
    while end < source.len() && source[end] != b'\n' {
        end += 1;
    }
    end
}
