ghost use Rattle.mf_model.specs.Tokens.{is_blank};
ghost use Rattle.mf_validator.specs.Pieces.{IsShorter, IsUnblank, IsWordFront, pieces_at};
ghost use Rattle.mf_validator.specs.PlanLines.{is_mark, pieces_of};
ghost use Rattle.std.specs.List.{position, position_or_len};
ghost use Rattle.std.specs.Prelude.{◌≡◌, ◌≤◌, length};

/// The first piece of a text, and what stands behind it.
#[derive(Clone, Copy)]
pub(crate) enum Next<'a> {
    Nothing,
    Open(&'a [u8]),
    Close(&'a [u8]),
    Word(&'a [u8], &'a [u8]),
}

/// Looks for the first bracket or word.
pub(crate) fn next_piece(text: &[u8]) -> Next<'_>
    ensures pieces { pieces_at result ≡ pieces_of text.now }
    ensures shorter { IsShorter result text.now }
{
    let text = without_blanks(text);
    let [first, rest @ ..] = text else {
        return Next::Nothing;
    };
    if *first == b'(' {
        return Next::Open(rest);
    }
    if *first == b')' {
        return Next::Close(rest);
    }
    next_word(text)
}

fn next_word(text: &[u8]) -> Next<'_>
    requires { IsWordFront text.now }
    ensures pieces { pieces_at result ≡ pieces_of text.now }
    ensures shorter { IsShorter result text.now }
{
    let end = word_end(text);
    Next::Word(&text[..end], &text[end..])
}

// The text without the blanks at its front.
fn without_blanks(mut text: &[u8]) -> &[u8]
    ensures pieces { pieces_of result.now ≡ pieces_of text.entry.now }
    ensures shorter { length result.now ≤ length text.entry.now }
    ensures unblank { IsUnblank result.now }
{
    while let [byte, others @ ..] = text {
        if !is_blank(*byte) {
            return text;
        }
        text = others;
    }
    text
}

// The length of the word at the front.
fn word_end(text: &[u8]) -> usize
    ensures end { result ≡ position_or_len is_mark text.now }
    ensures within { result ≤ length text.now }
{
    mark(text).unwrap_or(text.len())
}

fn mark(text: &[u8]) -> Option<usize>
    ensures { result ≡ position is_mark text.now }
{
    text.iter().position(|byte| is_mark(*byte))
}

#[tactic(auto, unfolding(mf_model::specs::Tokens::is_bracket, crate::specs::PlanLines::is_mark))]
fn is_mark(byte: u8) -> bool
    ensures { result ≡ is_mark byte }
{
    is_blank(byte) || byte == b'(' || byte == b')'
}

#[tactic(auto, unfolding(mf_model::specs::Tokens::is_blank))]
fn is_blank(byte: u8) -> bool
    ensures { result ≡ is_blank byte }
{
    byte == b'\t' || byte == b'\n' || byte == 12 || byte == b'\r' || byte == b' '
}
