ghost use Rattle.mf_eval.specs.Checked.{as_defined, kept, operation_of};
ghost use Rattle.mf_model.specs.Meaning.{negated};
ghost use Rattle.std.specs.Prelude.{◌≡◌};

use mf_fraction::{DivFault, Frac, Wide, add, div, mul, neg, sub};

/// An operation of two values.
#[derive(Clone, Copy)]
pub(crate) enum Operation {
    Sum,
    Difference,
    Product,
    Quotient,
}

// The operation on two values: undefined where one of them is, or where it divides by 0.
pub(crate) fn operate(
    operation: Operation,
    left: Option<Frac>,
    right: Option<Frac>,
) -> Result<Option<Frac>, Wide>
    ensures { result ≡ kept (operation_of operation left right) }
{
    let (Some(left), Some(right)) = (left, right) else {
        return Ok(None);
    };
    match operation {
        Operation::Sum => defined(add(left, right)),
        Operation::Difference => defined(sub(left, right)),
        Operation::Product => defined(mul(left, right)),
        Operation::Quotient => divide(left, right),
    }
}

// A defined value, where it fits.
pub(crate) fn defined(value: Result<Frac, Wide>) -> Result<Option<Frac>, Wide>
    ensures { result ≡ as_defined value }
{
    Ok(Some(value?))
}

// The quotient, undefined where the divisor is 0.
fn divide(left: Frac, right: Frac) -> Result<Option<Frac>, Wide>
    ensures { result ≡ kept (operation_of Operation.Quotient (Some left) (Some right)) }
{
    match div(left, right) {
        Ok(value) => Ok(Some(value)),
        Err(DivFault::ZeroDivisor) => Ok(None),
        Err(DivFault::Wide) => Err(Wide),
    }
}

// The value with the other sign.
pub(crate) fn negate(value: Option<Frac>) -> Result<Option<Frac>, Wide>
    ensures { result ≡ kept (negated value) }
{
    match value {
        Some(value) => Ok(Some(neg(value))),
        None => Ok(None),
    }
}
