ghost use Rattle.mf_eval.specs.Judged.{judged_comparison};
ghost use Rattle.mf_meaning.specs.SortedStates.{IsSortedState};
ghost use Rattle.mf_model.specs.Meaning.{compared, ordered, truth_of};
ghost use Rattle.mf_model.specs.States.{look_of};
ghost use Rattle.mf_model.specs.Views.{object_of, objects_of};
ghost use Rattle.std.specs.Prelude.{◌≡◌, nat_eq};

use crate::binding::object_at;
use crate::expression::evaluate;
use crate::stored::is_true;
use crate::truth::truth;
use mf_fraction::{Frac, Wide, cmp};
use mf_model::{Expr, List, PlainState, Relation, Term, Truth};

pub(crate) fn judge_atom(
    state: &PlainState,
    predicate: u16,
    terms: &List<Term>,
    binding: &[u16],
) -> Truth
    requires { IsSortedState state.now }
    ensures { result ≡ truth_of ((look_of state.now).atom predicate (objects_of binding.now terms.now)) }
{
    truth(is_true(state.atoms.as_slice(), predicate, terms.as_slice(), binding))
}

pub(crate) fn judge_same(left: Term, right: Term, binding: &[u16]) -> Truth
    ensures { result ≡ truth_of (nat_eq (object_of binding.now left) (object_of binding.now right)) }
{
    truth(object_at(binding, left) == object_at(binding, right))
}

// Both sides are evaluated, also where the first is undefined.
pub(crate) fn judge_comparison(
    relation: Relation,
    left: &Expr,
    right: &Expr,
    binding: &[u16],
    state: &PlainState,
) -> Result<Truth, Wide>
    requires { IsSortedState state.now }
    ensures { result ≡ judged_comparison (look_of state.now) relation left.now right.now binding.now }
{
    let left = evaluate(left, binding, state, 0)?;
    let right = evaluate(right, binding, state, 0)?;
    Ok(compare(relation, left, right))
}

// A comparison with an undefined side neither holds nor fails.
fn compare(relation: Relation, left: Option<Frac>, right: Option<Frac>) -> Truth
    ensures { result ≡ compared relation left right }
{
    let (Some(left), Some(right)) = (left, right) else {
        return Truth::Neither;
    };
    truth(is_ordered(relation, left, right))
}

fn is_ordered(relation: Relation, left: Frac, right: Frac) -> bool
    ensures { result ≡ ordered relation left right }
{
    match relation {
        Relation::Less => cmp(left, right).is_lt(),
        Relation::AtMost => cmp(left, right).is_le(),
        Relation::Equal => cmp(left, right).is_eq(),
        Relation::AtLeast => cmp(right, left).is_le(),
        Relation::More => cmp(right, left).is_lt(),
    }
}
