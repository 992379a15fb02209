ghost use Rattle.mf_validator.specs.Pieces.{line_at};
ghost use Rattle.mf_validator.specs.PlanLines.{are_none, line_of, may_end, names_behind, opened, pieces_of, is_semicolon};
ghost use Rattle.std.specs.List.{position, position_or_len};
ghost use Rattle.std.specs.Prelude.{◌≡◌, ◌≤◌, [], IfOk, length};

use crate::piece::{Next, next_piece};
use crate::word::{is_duration, is_name, is_time};
use std::alloc::{AllocError, Global};

/// What a line is: a step has the name of its action and the names of its objects.
#[derive(Drop)]
pub(crate) enum Form<'a> {
    Blank,
    Step(Vec<&'a [u8]>),
    Bad,
}

/// Reads a line in small letters.
pub(crate) fn read_form<'a>(alloc: Global, line: &'a [u8]) -> Result<Form<'a>, AllocError>
    ensures { IfOk result (λ form. line_at form ≡ line_of line.now) }
{
    let text = &line[..comment_start(line)];
    match next_piece(text) {
        Next::Nothing => Ok(Form::Blank),
        Next::Open(rest) => read_names(alloc, rest),
        Next::Word(word, rest) if is_time(word) => read_opened(alloc, rest),
        _ => Ok(Form::Bad),
    }
}

// Where the comment begins, or the length.
fn comment_start(line: &[u8]) -> usize
    ensures start { result ≡ position_or_len is_semicolon line.now }
    ensures within { result ≤ length line.now }
{
    semicolon(line).unwrap_or(line.len())
}

fn semicolon(line: &[u8]) -> Option<usize>
    ensures { result ≡ position is_semicolon line.now }
{
    line.iter().position(|byte| *byte == b';')
}

// A step behind its time.
fn read_opened<'a>(alloc: Global, text: &'a [u8]) -> Result<Form<'a>, AllocError>
    ensures { IfOk result (λ form. line_at form ≡ opened (pieces_of text.now)) }
{
    match next_piece(text) {
        Next::Open(rest) => read_names(alloc, rest),
        _ => Ok(Form::Bad),
    }
}

// The names behind the open bracket.
fn read_names<'a>(alloc: Global, text: &'a [u8]) -> Result<Form<'a>, AllocError>
    ensures { IfOk result (λ form. line_at form ≡ names_behind [] (pieces_of text.now)) }
{
    let mut names = Vec::new(alloc);
    let mut rest = text;
    loop {
        match next_piece(rest) {
            Next::Word(word, others) if is_name(word) => {
                names.push(word)?;
                rest = others;
            }
            Next::Close(others) if is_end(others) => return Ok(Form::Step(names)),
            _ => return Ok(Form::Bad),
        }
    }
}

// Nothing, or a duration.
fn is_end(text: &[u8]) -> bool
    ensures { result ≡ may_end (pieces_of text.now) }
{
    match next_piece(text) {
        Next::Nothing => true,
        Next::Word(word, rest) => is_duration(word) && is_nothing(rest),
        _ => false,
    }
}

fn is_nothing(text: &[u8]) -> bool
    ensures { result ≡ are_none (pieces_of text.now) }
{
    matches!(next_piece(text), Next::Nothing)
}
