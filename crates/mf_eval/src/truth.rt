ghost use Rattle.mf_eval.specs.Judged.{connected, neutral_of};
ghost use Rattle.mf_model.specs.Meaning.{is_yes, not_of, truth_of};
ghost use Rattle.std.specs.Prelude.{◌≡◌};

use mf_model::Truth;

/// How the truths of the parts of a condition are joined.
#[derive(Clone, Copy)]
pub(crate) enum Connective {
    And,
    Or,
}

// Of a condition that holds or fails.
pub(crate) fn truth(holds: bool) -> Truth
    ensures { result ≡ truth_of holds }
{
    if holds { Truth::Yes } else { Truth::No }
}

pub(crate) fn is_yes(truth: Truth) -> bool
    ensures { result ≡ is_yes truth }
{
    match truth {
        Truth::Yes => true,
        Truth::No => false,
        Truth::Neither => false,
    }
}

pub(crate) fn negation(truth: Truth) -> Truth
    ensures { result ≡ not_of truth }
{
    match truth {
        Truth::Yes => Truth::No,
        Truth::No => Truth::Yes,
        Truth::Neither => Truth::Neither,
    }
}

// The truth of no parts.
pub(crate) fn neutral(connective: Connective) -> Truth
    ensures { result ≡ neutral_of connective }
{
    match connective {
        Connective::And => Truth::Yes,
        Connective::Or => Truth::No,
    }
}

pub(crate) fn connect(connective: Connective, front: Truth, part: Truth) -> Truth
    ensures { result ≡ connected connective front part }
{
    match (connective, front, part) {
        (Connective::And, Truth::Yes, _) => part,
        (Connective::And, Truth::No, _) => Truth::No,
        (Connective::And, Truth::Neither, Truth::No) => Truth::No,
        (Connective::And, Truth::Neither, _) => Truth::Neither,
        (Connective::Or, Truth::Yes, _) => Truth::Yes,
        (Connective::Or, Truth::No, _) => part,
        (Connective::Or, Truth::Neither, Truth::Yes) => Truth::Yes,
        (Connective::Or, Truth::Neither, _) => Truth::Neither,
    }
}
