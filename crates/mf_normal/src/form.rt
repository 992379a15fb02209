ghost use Rattle.mf_normal.specs.FormsMade.{IsKept, Makes, join_of, unit_of};
ghost use Rattle.mf_normal.specs.Lookups.{functions_seen};
ghost use Rattle.mf_task.specs.LinearForms.{constant_form, function_form, negative_forms, term_form};
ghost use Rattle.mf_task.specs.WideForms.{formed, formed_of, joined_formed};
ghost use Rattle.mf_model.specs.Views.{objects_of};
ghost use Rattle.std.specs.Prelude.{◌≡◌, ◌<◌, ◌^◌, length, map, true, IfOk, IfSome, Some};

use crate::arithmetic::{Operation, join, one, opposite_form, zero};
use crate::fault::FormFault;
use crate::lookup::{Lookup, number_of_term, start_value};
use mf_fraction::Frac;
use mf_fraction::laws::stored_laws;
use mf_model::{Expr, List, Term};
use mf_task::{Form, Part};
use std::alloc::{AllocError, Global};

/// The linear form of an expression under a binding: `None` exactly where the expression is undefined in every state.
///
/// `Wide` comes exactly where the defined form of some subexpression, fronts of sums and products among them, has a
/// number that does not fit.
#[cycle(form)]
pub(crate) fn form(
    alloc: Global,
    lookup: &Lookup,
    expression: &Expr,
    binding: &[u16],
) -> Result<Option<Form>, FormFault>
    requires { length lookup.now.terms < 2 ^ 32 }
    ensures { Makes (formed_of (functions_seen lookup.now) expression.now binding.now) result }
{
    match expression {
        Expr::Number(number) => Ok(Some(constant(alloc, *number))),
        Expr::Function { function, terms } => {
            form_of_function(alloc, lookup, *function, terms.as_slice(), binding)
        }
        Expr::Sum { parts } => fold(alloc, lookup, Operation::Sum, parts.as_slice(), binding),
        Expr::Difference { left, right } => {
            let left = form(alloc, lookup, left.get(), binding)?;
            let right = form(alloc, lookup, right.get(), binding)?;
            join(alloc, Operation::Difference, left, right)
        }
        Expr::Negative { part } => {
            let part = form(alloc, lookup, part.get(), binding)?;
            negative(alloc, part)
        }
        Expr::Product { parts } => {
            fold(alloc, lookup, Operation::Product, parts.as_slice(), binding)
        }
        Expr::Quotient { left, right } => {
            let left = form(alloc, lookup, left.get(), binding)?;
            let right = form(alloc, lookup, right.get(), binding)?;
            join(alloc, Operation::Quotient, left, right)
        }
        Expr::TotalTime => Ok(None),
    }
}

// The parts taken from the left, two at a time.
#[cycle(form)]
fn fold(
    alloc: Global,
    lookup: &Lookup,
    operation: Operation,
    parts: &[Expr],
    binding: &[u16],
) -> Result<Option<Form>, FormFault>
    requires { length lookup.now.terms < 2 ^ 32 }
    ensures { Makes (joined_formed (unit_of operation) (join_of operation)
        (map (λ part. part binding.now) (map (formed_of (functions_seen lookup.now)) parts.now))) result }
{
    let Some((first, others)) = parts.split_first() else {
        return Ok(Some(empty(alloc, operation)));
    };
    let mut front = form(alloc, lookup, first, binding)?;
    for part in others {
        let next = form(alloc, lookup, part, binding)?;
        front = join(alloc, operation, front, next)?;
    }
    Ok(front)
}

// The form of an operation without parts.
fn empty(alloc: Global, operation: Operation) -> Form
    ensures value { result ≡ constant_form (unit_of operation) }
    ensures kept { IsKept result }
{
    match operation {
        Operation::Product => constant(alloc, one()),
        _ => constant(alloc, zero()),
    }
}

// The form that is always this number.
fn constant(alloc: Global, number: Frac) -> Form
    ensures value { result ≡ constant_form number }
    ensures kept { IsKept result }
{
    stored_laws(number);
    Form {
        constant: number,
        parts: List::new(alloc),
    }
}

fn negative(alloc: Global, form: Option<Form>) -> Result<Option<Form>, FormFault>
    requires { IfSome form IsKept }
    ensures { Makes (formed (negative_forms form) true) result }
{
    match form {
        Some(form) => Ok(Some(opposite_form(alloc, &form)?)),
        None => Ok(None),
    }
}

// The form of a function at these terms: a constant one has the form of its value at the start.
fn form_of_function(
    alloc: Global,
    lookup: &Lookup,
    function: u16,
    terms: &[Term],
    binding: &[u16],
) -> Result<Option<Form>, FormFault>
    requires { length lookup.now.terms < 2 ^ 32 }
    ensures { Makes (formed (function_form (functions_seen lookup.now) function (objects_of binding.now terms.now)) true) result }
{
    if lookup.changed.is_constant(function) {
        return match start_value(lookup.values.as_slice(), function, terms, binding) {
            Some(value) => Ok(Some(constant(alloc, value))),
            None => Ok(None),
        };
    }
    let number = number_of_term(lookup.terms.as_slice(), function, terms, binding);
    Ok(Some(term(alloc, number)?))
}

// The form of one term, which is its value.
fn term(alloc: Global, number: u32) -> Result<Form, AllocError>
    ensures value { IfOk result (λ form. form ≡ term_form number) }
    ensures kept { IfOk result IsKept }
{
    let constant = zero();
    let coefficient = one();
    let term = number;
    let mut parts = List::new(alloc);
    parts.push(Part { coefficient, term })?;
    Ok(Form { constant, parts })
}
