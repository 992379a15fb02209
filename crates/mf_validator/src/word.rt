//! The kinds of words of a plan file, in small letters.
ghost use Rattle.mf_model.specs.Tokens as tokens;
ghost use Rattle.mf_validator.specs.PlanLines as spec;
ghost use Rattle.std.specs.Char.{is_ascii_uppercase};
ghost use Rattle.std.specs.List.{list_all};
ghost use Rattle.std.specs.Prelude.{◌≡◌, not};

use mf_fraction::is_number;
use mf_lex::kind;
use mf_model::Kind;

/// A letter, then letters, digits, `-` and `_`.
pub(crate) fn is_name(word: &[u8]) -> bool
    ensures { result ≡ tokens.is_name word.now }
{
    kind(word) == Kind::Name && are_small(word)
}

// No letter is a capital one.
fn are_small(word: &[u8]) -> bool
    ensures { result ≡ list_all (λ byte. not (is_ascii_uppercase byte)) word.now }
{
    word.iter().all(|byte| !byte.is_ascii_uppercase())
}

// A number with this byte directly behind it.
fn is_number_before(mark: u8, word: &[u8]) -> bool
    ensures { result ≡ spec.is_number_before mark word.now }
{
    match word.split_last() {
        Some((last, front)) => is_number(front) && *last == mark,
        None => false,
    }
}

/// A number and `:`.
pub(crate) fn is_time(word: &[u8]) -> bool
    ensures { result ≡ spec.is_time word.now }
{
    is_number_before(b':', word)
}

/// A number in square brackets.
pub(crate) fn is_duration(word: &[u8]) -> bool
    ensures { result ≡ spec.is_duration word.now }
{
    match word {
        [first, others @ ..] => *first == b'[' && is_number_before(b']', others),
        [] => false,
    }
}
