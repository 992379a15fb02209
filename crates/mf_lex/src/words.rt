ghost use Rattle.std.specs.Prelude.{◌≡◌, [], ◌∷◌, map};
ghost use Rattle.std.specs.Char.{to_ascii_lowercase};
ghost use Rattle.std.specs.List.{list_all};
ghost use Rattle.mf_model.specs.Tokens.{is_name_byte, is_name, is_name_behind, is_sign, is_only, kind_of};

use mf_fraction::is_number;
use mf_model::Kind;

/// What a word or a bracket is, whatever the case of its letters: the kind that the lexer gives a token of
/// these bytes. Bytes that are no token have a kind as well.
#[tactic(auto, unfolding(mf_model::specs::Tokens::kind_of), using(crate::proofs::Folded::number_folded))]
pub fn kind(word: &[u8]) -> Kind
    ensures { result ≡ kind_of (map to_ascii_lowercase word.now) }
{
    if is_only(word, b'(') {
        Kind::Left
    } else if is_only(word, b')') {
        Kind::Right
    } else if is_name(word) {
        Kind::Name
    } else if is_name_behind(word, b'?') {
        Kind::Variable
    } else if is_name_behind(word, b':') {
        Kind::Keyword
    } else if is_number(word) {
        Kind::Number
    } else if is_sign(word) {
        Kind::Sign
    } else {
        Kind::Plain
    }
}

fn is_only(word: &[u8], byte: u8) -> bool
    ensures { result ≡ is_only byte (map to_ascii_lowercase word.now) }
{
    match word {
        [only] => only.to_ascii_lowercase() == byte,
        _ => false,
    }
}

fn is_name(word: &[u8]) -> bool
    ensures { result ≡ is_name (map to_ascii_lowercase word.now) }
{
    match word {
        [first, rest @ ..] => first.to_ascii_lowercase().is_ascii_lowercase()
            && are_name_bytes(rest),
        [] => false,
    }
}

fn is_name_behind(word: &[u8], mark: u8) -> bool
    ensures { result ≡ is_name_behind mark (map to_ascii_lowercase word.now) }
{
    match word {
        [first, rest @ ..] => first.to_ascii_lowercase() == mark && is_name(rest),
        [] => false,
    }
}

#[tactic(auto, unfolding(mf_model::specs::Tokens::is_name_byte))]
fn is_name_byte(byte: u8) -> bool
    ensures { result ≡ is_name_byte (to_ascii_lowercase byte) }
{
    let low = byte.to_ascii_lowercase();
    low.is_ascii_lowercase() || low.is_ascii_digit() || low == b'-' || low == b'_'
}

fn are_name_bytes(mut rest: &[u8]) -> bool
    ensures { result ≡ list_all is_name_byte (map to_ascii_lowercase rest.entry.now) }
{
    while let [byte, others @ ..] = rest {
        if !is_name_byte(*byte) {
            return false;
        }
        rest = others;
    }
    true
}

fn is_sign(word: &[u8]) -> bool
    ensures { result ≡ is_sign (map to_ascii_lowercase word.now) }
{
    match word {
        [only] => is_short_sign(only.to_ascii_lowercase()),
        [first, second] => {
            let first = first.to_ascii_lowercase();
            (first == b'<' || first == b'>') && second.to_ascii_lowercase() == b'='
        }
        _ => false,
    }
}

fn is_short_sign(byte: u8) -> bool
    ensures { result ≡ is_sign (byte ∷ []) }
{
    byte == b'*'
        || byte == b'+'
        || byte == b'-'
        || byte == b'/'
        || byte == b'<'
        || byte == b'='
        || byte == b'>'
}
