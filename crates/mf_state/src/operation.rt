ghost use Rattle.mf_model.specs.Application as spec;
ghost use Rattle.mf_state.specs.Answers.{as_defined, kept};
ghost use Rattle.mf_fraction.specs.Exact.{quotient_of};
ghost use Rattle.mf_task.specs.Width.{fits_optional};
ghost use Rattle.std.specs.Prelude.{◌≡◌, None, Some, true};

use crate::forms::zero;
use mf_fraction::laws::stored_laws;
use mf_fraction::{DivFault, Frac, Wide, add, cmp, div, mul, sub};
use mf_model::Op;

// Whether the change reads the old value of its term.
pub(crate) fn reads_old(op: Op) -> bool
    ensures { result ≡ spec.reads_old op }
{
    match op {
        Op::Assign => false,
        Op::Increase => true,
        Op::Decrease => true,
        Op::ScaleUp => true,
        Op::ScaleDown => true,
    }
}

pub(crate) fn is_sum(op: Op) -> bool
    ensures { result ≡ spec.is_sum op }
{
    match op {
        Op::Increase => true,
        Op::Decrease => true,
        Op::Assign => false,
        Op::ScaleUp => false,
        Op::ScaleDown => false,
    }
}

#[tactic(auto, unfolding(mf_fraction::specs::Exact::order_of, mf_fraction::specs::Exact::is_same))]
pub(crate) fn divides_by_zero(op: Op, value: Frac) -> bool
    ensures { result ≡ spec.divides_by_zero op (Some value) }
{
    match op {
        Op::ScaleDown => cmp(value, zero()).is_eq(),
        _ => false,
    }
}

// The new value of a term with this old one: undefined where one that is read is, or where it divides by 0.
pub(crate) fn new_value(
    op: Op,
    old: Option<Frac>,
    value: Option<Frac>,
) -> Result<Option<Frac>, Wide>
    ensures { result ≡ kept (spec.new_value op old value) }
{
    match (old, value) {
        (_, None) => Ok(None),
        (None, Some(value)) => Ok(first_value(op, value)),
        (Some(old), Some(value)) => combined(op, old, value),
    }
}

// Of a term that is undefined.
fn first_value(op: Op, value: Frac) -> Option<Frac>
    ensures value { result ≡ spec.new_value op None (Some value) }
    ensures fits { fits_optional result ≡ true }
{
    match op {
        Op::Assign => {
            stored_laws(value);
            Some(value)
        }
        Op::Increase => None,
        Op::Decrease => None,
        Op::ScaleUp => None,
        Op::ScaleDown => None,
    }
}

fn combined(op: Op, old: Frac, value: Frac) -> Result<Option<Frac>, Wide>
    ensures { result ≡ kept (spec.new_value op (Some old) (Some value)) }
{
    match op {
        Op::Assign => {
            stored_laws(value);
            Ok(Some(value))
        }
        Op::Increase => defined(add(old, value)),
        Op::Decrease => defined(sub(old, value)),
        Op::ScaleUp => defined(mul(old, value)),
        Op::ScaleDown => quotient(old, value),
    }
}

// A defined value, where it fits.
fn defined(value: Result<Frac, Wide>) -> Result<Option<Frac>, Wide>
    ensures { result ≡ as_defined value }
{
    Ok(Some(value?))
}

// The quotient, undefined where the divisor is 0.
fn quotient(old: Frac, value: Frac) -> Result<Option<Frac>, Wide>
    ensures { result ≡ kept (quotient_of old value) }
{
    match div(old, value) {
        Ok(quotient) => Ok(Some(quotient)),
        Err(DivFault::ZeroDivisor) => Ok(None),
        Err(DivFault::Wide) => Err(Wide),
    }
}
