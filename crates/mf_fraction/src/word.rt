//! The parts of a decimal word: its minus, and its digits before and behind the point.
ghost use Rattle.mf_fraction.specs.Decimal as spec;
ghost use Rattle.std.specs.List.{before_first, after_first};
ghost use Rattle.std.specs.Prelude.{◌≡◌, ◌<◌, IfSome, length, position};

/// Whether the word begins with `-`.
pub fn has_minus(word: &[u8]) -> bool
    ensures { result ≡ spec.has_minus word.now }
{
    match word {
        [] => false,
        [first, ..] => *first == b'-',
    }
}

/// The word behind its `-`, or the whole word where none stands in front.
pub fn without_minus(word: &[u8]) -> &[u8]
    ensures { result.now ≡ spec.without_minus word.now }
{
    match word {
        [] => word,
        [first, others @ ..] => { if *first == b'-' { others } else { word } }
    }
}

/// What stands before the first point, or all where none stands.
pub fn before_point(word: &[u8]) -> &[u8]
    ensures { result.now ≡ before_first spec.is_point word.now }
{
    match point(word) {
        Some(at) => &word[..at],
        None => word,
    }
}

/// What stands behind the first point, or nothing where none stands.
pub fn behind_point(word: &[u8]) -> &[u8]
    ensures { result.now ≡ after_first spec.is_point word.now }
{
    match point(word) {
        Some(at) => &word[at + 1..],
        None => &[],
    }
}

fn point(word: &[u8]) -> Option<usize>
    ensures value { result ≡ position spec.is_point word.now }
    ensures within { IfSome result (λ at. at < length word.now) }
{
    word.iter().position(|byte| *byte == b'.')
}
