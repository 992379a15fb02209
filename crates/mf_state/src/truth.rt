ghost use Rattle.mf_model.specs.Meaning.{and_of, is_yes, not_of, or_of, truth_of};
ghost use Rattle.mf_task.specs.GroundMeaning.{relates, sign as sign_of_value, truth_at};
ghost use Rattle.std.specs.Prelude.{◌≡◌};

use crate::forms::zero;
use mf_fraction::{Frac, cmp};
use mf_model::{Relation, Truth};
use std::cmp::Ordering;

// Of a condition that holds or fails.
pub(crate) fn truth(holds: bool) -> Truth
    ensures { result ≡ truth_of holds }
{
    if holds { Truth::Yes } else { Truth::No }
}

pub(crate) fn is_yes(truth: Truth) -> bool
    ensures { result ≡ is_yes truth }
{
    match truth {
        Truth::Yes => true,
        Truth::No => false,
        Truth::Neither => false,
    }
}

pub(crate) fn negation(truth: Truth) -> Truth
    ensures { result ≡ not_of truth }
{
    match truth {
        Truth::Yes => Truth::No,
        Truth::No => Truth::Yes,
        Truth::Neither => Truth::Neither,
    }
}

pub(crate) fn both(left: Truth, right: Truth) -> Truth
    ensures { result ≡ and_of left right }
{
    match (left, right) {
        (Truth::Yes, _) => right,
        (Truth::No, _) => Truth::No,
        (Truth::Neither, Truth::No) => Truth::No,
        (Truth::Neither, _) => Truth::Neither,
    }
}

pub(crate) fn either(left: Truth, right: Truth) -> Truth
    ensures { result ≡ or_of left right }
{
    match (left, right) {
        (Truth::Yes, _) => Truth::Yes,
        (Truth::No, _) => right,
        (Truth::Neither, Truth::Yes) => Truth::Yes,
        (Truth::Neither, _) => Truth::Neither,
    }
}

// Of a comparison with 0: an undefined value neither holds nor fails.
pub(crate) fn comparison(relation: Relation, value: Option<Frac>) -> Truth
    ensures { result ≡ truth_at relation value }
{
    match value {
        Some(value) => truth(is_met(relation, order(value))),
        None => Truth::Neither,
    }
}

// How the value is ordered with 0.
fn order(value: Frac) -> Ordering
    ensures { result ≡ sign_of_value value }
{
    cmp(value, zero())
}

// Whether a value that is so ordered with 0 stands in the relation to 0.
fn is_met(relation: Relation, order: Ordering) -> bool
    ensures { result ≡ relates relation order }
{
    match relation {
        Relation::Less => order.is_lt(),
        Relation::AtMost => order.is_le(),
        Relation::Equal => order.is_eq(),
        Relation::AtLeast => order.is_ge(),
        Relation::More => order.is_gt(),
    }
}
