//! What may become of linear forms in the limit closure.
ghost use Rattle.mf_fraction.specs.Exact.{product_of, sum_of};
ghost use Rattle.mf_limit.specs.Chances.{chance_of, may_have, next_known, optional_chance};
ghost use Rattle.mf_limit.specs.Sets.{family_of};
ghost use Rattle.mf_task.specs.GroundMeaning.{form_at, optional_form_at, sign};
ghost use Rattle.mf_task.specs.LimitClosure.{if_fits, known_value, lifts, lowers, may_get, sign_of_known};
ghost use Rattle.mf_task.specs.Rows.{sight_of};
ghost use Rattle.std.specs.List.{list_all, list_any};
ghost use Rattle.std.specs.Prelude.{◌≡◌, get_or, None, Some};

use crate::scene::Scene;
use crate::sets::LimitSets;
use mf_fraction::{Frac, Wide, add, mul};
use mf_store::Row;
use mf_task::{Form, Part};
use std::cmp::Ordering;

/// What may become of a form.
#[derive(Clone, Copy, Debug)]
pub(crate) struct FormChance {
    pub(crate) may_be_defined: bool,
    /// The sign of its value at the row, where that is known.
    pub(crate) sign: Option<Ordering>,
    pub(crate) may_go_up: bool,
    pub(crate) may_go_down: bool,
}

impl FormChance {
    /// Whether the form may be defined and of this sign.
    pub(crate) fn may_have(&self, asked: Ordering) -> bool
        ensures { result ≡ may_have self.now asked }
    {
        self.may_be_defined && may_get(self.sign, self.may_go_up, self.may_go_down, asked)
    }
}

/// The chances of a right side: none where it is undefined in every state.
pub(crate) fn chance_of_value(scene: &Scene<'_>, sets: &LimitSets, value: Option<u32>) -> FormChance
    ensures { result ≡ optional_chance (sight_of scene.now.row.now) (family_of sets.now) (optional_form_at scene.now.task.now value) }
{
    match value {
        Some(form) => chance_of_number(scene, sets, form),
        None => FormChance {
            may_be_defined: false,
            sign: None,
            may_go_up: false,
            may_go_down: false,
        },
    }
}

/// The chances of the form of this number. Beyond the task's forms it is the constant 0.
pub(crate) fn chance_of_number(scene: &Scene<'_>, sets: &LimitSets, form: u32) -> FormChance
    ensures { result ≡ chance_of (sight_of scene.now.row.now) (family_of sets.now) (form_at scene.now.task.now form) }
{
    match scene.task.forms.as_slice().get(form as usize) {
        Some(form) => chance_of_form(scene.row, sets, form),
        None => FormChance {
            may_be_defined: true,
            sign: Some(Ordering::Equal),
            may_go_up: false,
            may_go_down: false,
        },
    }
}

fn chance_of_form(row: &Row, sets: &LimitSets, form: &Form) -> FormChance
    ensures { result ≡ chance_of (sight_of row.now) (family_of sets.now) form.now }
{
    let parts = form.parts.as_slice();
    FormChance {
        may_be_defined: may_be_defined(sets, parts),
        sign: sign_of_known(known_value(row, form.constant, parts)),
        may_go_up: may_go_up(sets, parts),
        may_go_down: may_go_down(sets, parts),
    }
}

fn may_be_defined(sets: &LimitSets, parts: &[Part]) -> bool
    ensures { result ≡ list_all (λ part. (family_of sets.now).defined part.term) parts.now }
{
    for part in parts {
        if !sets.term(part.term).may_be_defined {
            return false;
        }
    }
    true
}

fn may_go_up(sets: &LimitSets, parts: &[Part]) -> bool
    ensures { result ≡ list_any (λ part. lifts (family_of sets.now) (sign part.coefficient) part.term) parts.now }
{
    for part in parts {
        if lifts(sets, sign(part.coefficient), part.term) {
            return true;
        }
    }
    false
}

fn may_go_down(sets: &LimitSets, parts: &[Part]) -> bool
    ensures { result ≡ list_any (λ part. lowers (family_of sets.now) (sign part.coefficient) part.term) parts.now }
{
    for part in parts {
        if lowers(sets, sign(part.coefficient), part.term) {
            return true;
        }
    }
    false
}

// Whether a term with a coefficient of this sign may lift a form.
fn lifts(sets: &LimitSets, coefficient: Ordering, term: u32) -> bool
    ensures { result ≡ lifts (family_of sets.now) coefficient term }
{
    match coefficient {
        Ordering::Less => sets.term(term).may_fall,
        Ordering::Equal => false,
        Ordering::Greater => sets.term(term).may_rise,
    }
}

fn lowers(sets: &LimitSets, coefficient: Ordering, term: u32) -> bool
    ensures { result ≡ lowers (family_of sets.now) coefficient term }
{
    match coefficient {
        Ordering::Less => sets.term(term).may_rise,
        Ordering::Equal => false,
        Ordering::Greater => sets.term(term).may_fall,
    }
}

// The value of a form at the row, with terms of coefficient 0 dropped. It is unknown where another term is undefined,
// or where a product or a partial sum does not fit.
fn known_value(row: &Row, constant: Frac, parts: &[Part]) -> Option<Frac>
    ensures { result ≡ known_value (sight_of row.now) constant parts.now }
{
    let mut sum = constant;
    for part in parts {
        sum = next_known(row, sum, part)?;
    }
    Some(sum)
}

// The sum with one part more, where it is known.
fn next_known(row: &Row, sum: Frac, part: &Part) -> Option<Frac>
    ensures { result ≡ next_known (sight_of row.now) sum part.now }
{
    match sign(part.coefficient) {
        Ordering::Equal => Some(sum),
        _ => {
            let value = value_at(row, part.term)?;
            let product = product(part.coefficient, value)?;
            total(sum, product)
        }
    }
}

// The product, where it fits.
#[tactic(auto, unfolding(mf_fraction::specs::Checked::checked))]
fn product(a: Frac, b: Frac) -> Option<Frac>
    ensures { result ≡ if_fits (product_of a b) Some }
{
    match mul(a, b) {
        Ok(product) => Some(product),
        Err(Wide) => None,
    }
}

// The sum, where it fits.
#[tactic(auto, unfolding(mf_fraction::specs::Checked::checked))]
fn total(a: Frac, b: Frac) -> Option<Frac>
    ensures { result ≡ if_fits (sum_of a b) Some }
{
    match add(a, b) {
        Ok(sum) => Some(sum),
        Err(Wide) => None,
    }
}

fn value_at(row: &Row, term: u32) -> Option<Frac>
    ensures { result ≡ get_or row.now.values term None }
{
    match row.values().get(term as usize) {
        Some(value) => *value,
        None => None,
    }
}

fn sign_of_known(value: Option<Frac>) -> Option<Ordering>
    ensures { result ≡ sign_of_known value }
{
    match value {
        Some(value) => Some(sign(value)),
        None => None,
    }
}

fn sign(a: Frac) -> Ordering
    ensures { result ≡ sign a }
{
    a.numerator().cmp(&0)
}

// Whether a form may have a sign, where its value has this sign at the row, and it may go up or down so.
fn may_get(known: Option<Ordering>, up: bool, down: bool, asked: Ordering) -> bool
    ensures { result ≡ may_get known up down asked }
{
    match (known, asked) {
        (None, _) => true,
        (Some(Ordering::Less), Ordering::Less) => true,
        (Some(Ordering::Less), _) => up,
        (Some(Ordering::Equal), Ordering::Less) => down,
        (Some(Ordering::Equal), Ordering::Equal) => true,
        (Some(Ordering::Equal), Ordering::Greater) => up,
        (Some(Ordering::Greater), Ordering::Greater) => true,
        (Some(Ordering::Greater), _) => down,
    }
}
