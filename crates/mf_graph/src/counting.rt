ghost use Rattle.mf_fraction.specs.Exact.{quotient_of, whole};
ghost use Rattle.mf_graph.specs.LayerLists.{shown};
ghost use Rattle.mf_task.specs.GroundMeaning.{form_at, optional_form_at};
ghost use Rattle.mf_task.specs.Layers.{constant_alone, constant_of, counting_with, factor_of, form_range, has_range, inverse, may_count, optional_form_range};
ghost use Rattle.std.specs.Prelude.{◌≡◌, is_some, pos};

use crate::bound::zero_number;
use crate::range::form_range;
use crate::{Bound, Layer, Range};
use mf_fraction::laws::stored_laws;
use mf_fraction::{DivFault, Frac, div};
use mf_model::Op;
use mf_task::{Form, Task};
use std::marker::Model;

/// A numeric change of one term that counts at a layer: its operation, the range of its right side, and for a scaling
/// the factor that it multiplies by.
#[derive(Clone, Copy, Debug)]
pub struct Counting {
    op: Op,
    range: Range,
    factor: Option<Frac>,
}

impl Model for Counting {
    ghost use Rattle.mf_task.specs.Layers.{Counting};

    ghost Value = { Counting };

    ghost view = { λ c. record { op = c.op; range = c.range; factor = c.factor } };

    ghost inverse = { λ c. record { op = c.op; range = c.range; factor = c.factor } };
}

impl Counting {
    /// What the change does to its term.
    pub fn op(self) -> Op
        ensures { result ≡ self.op }
    {
        self.op
    }

    /// The range of the right side.
    pub fn range(self) -> Range
        ensures { result ≡ self.range }
    {
        self.range
    }

    /// What a scaling multiplies by.
    pub fn factor(self) -> Option<Frac>
        ensures { result ≡ self.factor }
    {
        self.factor
    }
}

// The change as one that counts, if it does: its right side is defined and, but for an assign, its term has bounds; a
// scaling has a factor.
pub(crate) fn counting_of(
    task: &Task,
    layer: &Layer,
    op: Op,
    term: u32,
    value: Option<u32>,
) -> Option<Counting>
    ensures { result ≡ counting_with op (has_range (shown layer.now) term) (factor_of op (optional_form_at task.now value)) (optional_form_range (shown layer.now) (optional_form_at task.now value)) }
{
    let range = range_of_value(task, layer, value);
    let factor = factor_of(task, op, value);
    let has_bounds = layer.range(term).is_some();
    counted(op, has_bounds, factor, range)
}

fn counted(op: Op, has_bounds: bool, factor: Option<Frac>, range: Option<Range>) -> Option<Counting>
    ensures { result ≡ counting_with op has_bounds factor range }
{
    let Some(range) = range else {
        return None;
    };
    if may_count(op, has_bounds, &factor) {
        Some(Counting { op, range, factor })
    } else {
        None
    }
}

fn may_count(op: Op, has_bounds: bool, factor: &Option<Frac>) -> bool
    ensures { result ≡ may_count op has_bounds factor.now }
{
    match op {
        Op::Assign => true,
        Op::Increase => has_bounds,
        Op::Decrease => has_bounds,
        Op::ScaleUp => has_bounds && factor.is_some(),
        Op::ScaleDown => has_bounds && factor.is_some(),
    }
}

// The factor that a scaling multiplies by, if its right side is a number and it does not divide by 0.
fn factor_of(task: &Task, op: Op, value: Option<u32>) -> Option<Frac>
    ensures { result ≡ factor_of op (optional_form_at task.now value) }
{
    match op {
        Op::ScaleUp => constant_of(task, value),
        Op::ScaleDown => inverse(constant_of(task, value)),
        Op::Assign => None,
        Op::Increase => None,
        Op::Decrease => None,
    }
}

// The value of a right side that reads no term.
fn constant_of(task: &Task, value: Option<u32>) -> Option<Frac>
    ensures { result ≡ constant_of (optional_form_at task.now value) }
{
    match value {
        Some(number) => constant_at(task, number),
        None => None,
    }
}

fn constant_at(task: &Task, number: u32) -> Option<Frac>
    ensures { result ≡ constant_alone (form_at task.now number).constant (form_at task.now number).parts }
{
    match task.forms.get(number as usize) {
        Some(form) => constant_alone(form),
        None => Some(zero_number()),
    }
}

fn constant_alone(form: &Form) -> Option<Frac>
    ensures { result ≡ constant_alone form.now.constant form.now.parts }
{
    match form.parts.as_slice() {
        [] => Some(form.constant),
        [_, ..] => None,
    }
}

// One over the number, which there is none of for 0.
fn inverse(a: Option<Frac>) -> Option<Frac>
    ensures { result ≡ inverse a }
{
    match a {
        Some(a) => inverse_of(a),
        None => None,
    }
}

fn inverse_of(a: Frac) -> Option<Frac>
    ensures { result ≡ quotient_of (whole (pos 1)) a }
{
    stored_laws(a);
    match div(one(), a) {
        Ok(quotient) => Some(quotient),
        Err(DivFault::ZeroDivisor) => None,
        Err(DivFault::Wide) => unreachable!(),
    }
}

fn one() -> Frac
    ensures { result ≡ whole (pos 1) }
{
    match Frac::whole(1) {
        Ok(number) => number,
        Err(_) => unreachable!(),
    }
}

// The range of a right side at a layer.
fn range_of_value(task: &Task, layer: &Layer, value: Option<u32>) -> Option<Range>
    ensures { result ≡ optional_form_range (shown layer.now) (optional_form_at task.now value) }
{
    match value {
        Some(number) => range_at(task, layer, number),
        None => None,
    }
}

fn range_at(task: &Task, layer: &Layer, number: u32) -> Option<Range>
    ensures { result ≡ form_range (shown layer.now) (form_at task.now number) }
{
    match task.forms.get(number as usize) {
        Some(form) => form_range(layer, form),
        None => Some(Range::new(Bound::zero(), Bound::zero())),
    }
}
