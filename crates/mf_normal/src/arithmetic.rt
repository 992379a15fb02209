ghost use Rattle.mf_fraction.specs.Exact.{fits, product_of, quotient_of, whole};
ghost use Rattle.mf_normal.specs.FormsMade.{IsKept, Makes, MakesForm, as_defined, join_of, joined_by};
ghost use Rattle.mf_task.specs.LinearForms.{difference_form, minus_one, negative_form, product_form, quotient_form, scaled_form, sum_form};
ghost use Rattle.mf_task.specs.WideForms.{formed};
ghost use Rattle.std.specs.Prelude.{◌≡◌, pos, true, IfOk, IfSome, Some};

use crate::fault::FormFault;
use crate::parts::{add_parts, opposite_parts, scaled_parts};
use mf_fraction::laws::stored_laws;
use mf_fraction::{DivFault, Frac, add, div, mul, neg};
use mf_task::Form;
use std::alloc::{AllocError, Global};

/// An operation of two forms.
#[derive(Clone, Copy)]
pub(crate) enum Operation {
    Sum,
    Difference,
    Product,
    Quotient,
}

/// The operation on two forms: there is none where one of them is undefined, or where it divides by 0.
pub(crate) fn join(
    alloc: Global,
    operation: Operation,
    left: Option<Form>,
    right: Option<Form>,
) -> Result<Option<Form>, FormFault>
    requires left { IfSome left IsKept }
    requires right { IfSome right IsKept }
    ensures { Makes (formed (join_of operation left right) true) result }
{
    match (left, right) {
        (Some(left), Some(right)) => join_forms(alloc, operation, left, right),
        _ => Ok(None),
    }
}

fn join_forms(
    alloc: Global,
    operation: Operation,
    left: Form,
    right: Form,
) -> Result<Option<Form>, FormFault>
    requires left { IsKept left }
    requires right { IsKept right }
    ensures { Makes (formed (joined_by operation left right) true) result }
{
    match operation {
        Operation::Sum => some(sum(left, &right)),
        Operation::Difference => some(difference(alloc, left, &right)),
        Operation::Product => product(alloc, &left, &right),
        Operation::Quotient => quotient(alloc, &left, &right),
    }
}

// A defined form.
fn some(form: Result<Form, FormFault>) -> Result<Option<Form>, FormFault>
    ensures { result ≡ as_defined form }
{
    Ok(Some(form?))
}

fn sum(left: Form, right: &Form) -> Result<Form, FormFault>
    requires left { IsKept left }
    requires right { IsKept right.now }
    ensures { MakesForm (sum_form left right.now) result }
{
    let constant = add(left.constant, right.constant)?;
    let mut parts = left.parts;
    add_parts(&mut parts, right.parts.as_slice())?;
    Ok(Form { constant, parts })
}

fn difference(alloc: Global, left: Form, right: &Form) -> Result<Form, FormFault>
    requires left { IsKept left }
    requires right { IsKept right.now }
    ensures { MakesForm (difference_form left right.now) result }
{
    let right = opposite_form(alloc, right)?;
    sum(left, &right)
}

/// The form with the other sign.
pub(crate) fn opposite_form(alloc: Global, form: &Form) -> Result<Form, AllocError>
    requires { IsKept form.now }
    ensures value { IfOk result (λ made. made ≡ negative_form form.now) }
    ensures kept { IfOk result IsKept }
{
    let constant = opposite(form.constant);
    let parts = opposite_parts(alloc, form.parts.as_slice())?;
    Ok(Form { constant, parts })
}

/// The number with the other sign.
pub(crate) fn opposite(number: Frac) -> Frac
    ensures value { result ≡ product_of minus_one number }
    ensures fits { fits result ≡ true }
{
    stored_laws(number);
    neg(number)
}

// The form with each number multiplied by a factor.
fn scaled(alloc: Global, factor: Frac, form: &Form) -> Result<Form, FormFault>
    requires { IsKept form.now }
    ensures { MakesForm (scaled_form factor form.now) result }
{
    let constant = mul(factor, form.constant)?;
    let parts = scaled_parts(alloc, factor, form.parts.as_slice())?;
    Ok(Form { constant, parts })
}

// There is no form of a product of which both sides read a changing term.
fn product(alloc: Global, left: &Form, right: &Form) -> Result<Option<Form>, FormFault>
    requires left { IsKept left.now }
    requires right { IsKept right.now }
    ensures { Makes (formed (product_form left.now right.now) true) result }
{
    if right.parts.is_empty() {
        return some(scaled(alloc, right.constant, left));
    }
    if left.parts.is_empty() {
        return some(scaled(alloc, left.constant, right));
    }
    Ok(None)
}

// There is no form of a quotient whose divisor is 0, or reads a changing term.
fn quotient(alloc: Global, left: &Form, right: &Form) -> Result<Option<Form>, FormFault>
    requires left { IsKept left.now }
    requires right { IsKept right.now }
    ensures { Makes (formed (quotient_form left.now right.now) true) result }
{
    if !right.parts.is_empty() {
        return Ok(None);
    }
    match reciprocal(right.constant) {
        Some(factor) => some(scaled(alloc, factor, left)),
        None => Ok(None),
    }
}

// 1 divided by the number, where that is not 0. It fits wherever the number does.
fn reciprocal(number: Frac) -> Option<Frac>
    ensures { result ≡ quotient_of (whole (pos 1)) number }
{
    stored_laws(number);
    match div(one(), number) {
        Ok(quotient) => Some(quotient),
        Err(DivFault::ZeroDivisor) => None,
        Err(DivFault::Wide) => unreachable!(),
    }
}

pub(crate) fn zero() -> Frac
    ensures value { result ≡ whole (pos 0) }
    ensures fits { fits result ≡ true }
{
    let Ok(zero) = Frac::whole(0) else {
        unreachable!()
    };
    zero
}

pub(crate) fn one() -> Frac
    ensures value { result ≡ whole (pos 1) }
    ensures fits { fits result ≡ true }
{
    let Ok(one) = Frac::whole(1) else {
        unreachable!()
    };
    one
}
