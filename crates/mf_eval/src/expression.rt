ghost use Rattle.mf_eval.specs.Answers.{answered};
ghost use Rattle.mf_eval.specs.Checked.{kept, kept_all, kept_parts, kept_value};
ghost use Rattle.mf_eval.specs.Width.{is_wide};
ghost use Rattle.mf_fraction.specs.Exact.{whole};
ghost use Rattle.mf_meaning.specs.SortedStates.{IsSortedState};
ghost use Rattle.mf_model.specs.Meaning.{value_of};
ghost use Rattle.mf_model.specs.States.{look_after};
ghost use Rattle.std.specs.Prelude.{◌≡◌, pos, []};

use crate::operation::{Operation, defined, negate, operate};
use crate::stored::value_of_term;
use mf_fraction::{Frac, Wide};
use mf_model::{Expr, PlainState, TypedTask};

// The greatest whole number that is kept.
const LIMIT: u64 = 1 << 62;

/// The value of an expression at a sorted state under a binding: `None` exactly where it reads an undefined
/// term or divides by 0. `TotalTime` is `steps`.
///
/// `Wide` comes exactly where some subexpression, fronts of sums and products among them, has a
/// defined exact value that does not fit.
pub fn value(
    _task: &TypedTask,
    expression: &Expr,
    binding: &[u16],
    state: &PlainState,
    steps: u64,
) -> Result<Option<Frac>, Wide>
    requires { IsSortedState state.now }
    ensures { result ≡ answered (is_wide (look_after steps state.now) expression.now binding.now)
        (value_of (look_after steps state.now) expression.now binding.now) }
{
    evaluate(expression, binding, state, steps)
}

// Over stored fractions, so that it stops at the first value that does not fit.
#[cycle(evaluate)]
pub(crate) fn evaluate(
    expression: &Expr,
    binding: &[u16],
    state: &PlainState,
    steps: u64,
) -> Result<Option<Frac>, Wide>
    requires { IsSortedState state.now }
    ensures { result ≡ kept_value (look_after steps state.now) expression.now binding.now }
{
    match expression {
        Expr::Number(number) => Ok(Some(*number)),
        Expr::Function { function, terms } => Ok(value_of_term(
            state.values.as_slice(),
            *function,
            terms.as_slice(),
            binding,
        )),
        Expr::Sum { parts } => fold_parts(Operation::Sum, parts.as_slice(), binding, state, steps),
        Expr::Difference { left, right } => {
            let left = evaluate(left.get(), binding, state, steps)?;
            let right = evaluate(right.get(), binding, state, steps)?;
            operate(Operation::Difference, left, right)
        }
        Expr::Negative { part } => negate(evaluate(part.get(), binding, state, steps)?),
        Expr::Product { parts } => {
            fold_parts(Operation::Product, parts.as_slice(), binding, state, steps)
        }
        Expr::Quotient { left, right } => {
            let left = evaluate(left.get(), binding, state, steps)?;
            let right = evaluate(right.get(), binding, state, steps)?;
            operate(Operation::Quotient, left, right)
        }
        Expr::TotalTime => count_of(steps),
    }
}

// The parts taken from the left, two at a time.
#[cycle(evaluate)]
fn fold_parts(
    operation: Operation,
    parts: &[Expr],
    binding: &[u16],
    state: &PlainState,
    steps: u64,
) -> Result<Option<Frac>, Wide>
    requires { IsSortedState state.now }
    ensures { result ≡ kept_all operation (kept_parts (look_after steps state.now) parts.now binding.now) }
{
    let Some((first, others)) = parts.split_first() else {
        return empty(operation);
    };
    let mut front = evaluate(first, binding, state, steps)?;
    for part in others {
        let next = evaluate(part, binding, state, steps)?;
        front = operate(operation, front, next)?;
    }
    Ok(front)
}

// The value of an operation without parts.
fn empty(operation: Operation) -> Result<Option<Frac>, Wide>
    ensures { result ≡ kept_all operation [] }
{
    match operation {
        Operation::Product => defined(Frac::whole(1)),
        _ => defined(Frac::whole(0)),
    }
}

// A number of steps as a fraction.
fn count_of(steps: u64) -> Result<Option<Frac>, Wide>
    ensures { result ≡ kept (Some (whole (pos steps))) }
{
    if steps > LIMIT {
        return Err(Wide);
    }
    defined(Frac::whole(steps as i64))
}
