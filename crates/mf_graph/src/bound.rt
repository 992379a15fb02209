ghost use Rattle.mf_fraction.specs.Exact.{sum_of, difference_of, product_of, is_below};
ghost use Rattle.mf_graph.specs.Bounds.{bound_of, of_outcome};
ghost use Rattle.mf_task.specs.Layers.{if_it_fits, plus_bound, minus_bound, times_bound, positive_part, negative_bound, higher, lower, zero_number, Finite, Endless, is_above_zero, is_below_zero, is_not_above_zero, is_not_below_zero};
ghost use Rattle.std.specs.Bool.{Decides};
ghost use Rattle.std.specs.Prelude.{◌≡◌};

use mf_fraction::{Frac, Wide, add, cmp, mul, neg, sub};
use std::cmp::Ordering;
use std::marker::Model;

/// A bound of a number: a fraction, or none at this end. An upper bound without a number is beyond every number, and a
/// lower one is below every number.
#[derive(Clone, Copy, Debug)]
pub struct Bound {
    number: Option<Frac>,
}

impl Model for Bound {
    ghost use Rattle.mf_graph.specs.Bounds.{bound_of, number_of};
    ghost use Rattle.mf_task.specs.Layers.{Bound};

    ghost Value = { Bound };

    ghost view = { λ b. bound_of b.number };

    ghost inverse = { λ b. record { number = number_of b } };
}

impl Bound {
    /// This number.
    pub fn finite(number: Frac) -> Bound
        ensures { result ≡ Finite number }
    {
        Bound {
            number: Some(number),
        }
    }

    /// No number at this end.
    pub fn endless() -> Bound
        ensures { result ≡ Endless }
    {
        Bound { number: None }
    }

    /// The number, where there is one.
    pub fn number(self) -> Option<Frac>
        ensures { bound_of result ≡ self }
    {
        self.number
    }

    /// The sum, or no number where it does not fit or a part has none.
    pub fn plus(self, other: Bound) -> Bound
        ensures { result ≡ plus_bound self other }
    {
        match (self.number, other.number) {
            (Some(a), Some(b)) => sum(a, b),
            _ => Bound::endless(),
        }
    }

    /// The difference, or no number where it does not fit or a part has none.
    pub fn minus(self, other: Bound) -> Bound
        ensures { result ≡ minus_bound self other }
    {
        match (self.number, other.number) {
            (Some(a), Some(b)) => difference(a, b),
            _ => Bound::endless(),
        }
    }

    /// The product with a factor other than 0, or no number where it does not fit or there was none.
    pub fn times(self, factor: Frac) -> Bound
        ensures { result ≡ times_bound factor self }
    {
        match self.number {
            Some(a) => product(factor, a),
            None => Bound::endless(),
        }
    }

    /// The bound with the other sign.
    pub fn negative(self) -> Bound
        ensures { result ≡ negative_bound self }
    {
        match self.number {
            Some(a) => Bound::finite(neg(a)),
            None => Bound::endless(),
        }
    }

    /// The bound where it is above 0, and else 0.
    pub fn positive_part(self) -> Bound
        ensures { result ≡ positive_part self }
    {
        match self.number {
            Some(a) if is_positive(a) => self,
            Some(_) => Bound::zero(),
            None => self,
        }
    }

    /// The number 0.
    pub fn zero() -> Bound
        ensures { result ≡ Finite zero_number }
    {
        Bound::finite(zero_number())
    }

    /// The higher of two upper bounds: one without a number is beyond every number.
    pub fn higher(self, other: Bound) -> Bound
        ensures { result ≡ higher self other }
    {
        let (Some(a), Some(b)) = (self.number, other.number) else {
            return Bound::endless();
        };
        if is_less(a, b) { other } else { self }
    }

    /// The lower of two lower bounds: one without a number is below every number.
    pub fn lower(self, other: Bound) -> Bound
        ensures { result ≡ lower self other }
    {
        let (Some(a), Some(b)) = (self.number, other.number) else {
            return Bound::endless();
        };
        if is_less(b, a) { other } else { self }
    }

    /// Whether it is above 0, as an upper bound.
    pub fn is_above_zero(self) -> bool
        ensures { result ≡ is_above_zero self }
    {
        match self.number {
            Some(a) => is_positive(a),
            None => true,
        }
    }

    /// Whether it is at least 0, as an upper bound.
    pub fn is_not_below_zero(self) -> bool
        ensures { result ≡ is_not_below_zero self }
    {
        match self.number {
            Some(a) => !is_negative(a),
            None => true,
        }
    }

    /// Whether it is below 0, as a lower bound.
    pub fn is_below_zero(self) -> bool
        ensures { result ≡ is_below_zero self }
    {
        match self.number {
            Some(a) => is_negative(a),
            None => true,
        }
    }

    /// Whether it is at most 0, as a lower bound.
    pub fn is_not_above_zero(self) -> bool
        ensures { result ≡ is_not_above_zero self }
    {
        match self.number {
            Some(a) => !is_positive(a),
            None => true,
        }
    }

    /// Whether both are the same bound.
    pub fn is_same(self, other: Bound) -> bool
        ensures { Decides result (self ≡ other) }
    {
        self.number == other.number
    }
}

// The number 0.
pub(crate) fn zero_number() -> Frac
    ensures { result ≡ zero_number }
{
    match Frac::whole(0) {
        Ok(number) => number,
        Err(Wide) => unreachable!(),
    }
}

// The sum, or no number where it does not fit.
fn sum(a: Frac, b: Frac) -> Bound
    ensures { result ≡ if_it_fits (sum_of a b) }
{
    kept(add(a, b))
}

// The difference, or no number where it does not fit.
fn difference(a: Frac, b: Frac) -> Bound
    ensures { result ≡ if_it_fits (difference_of a b) }
{
    kept(sub(a, b))
}

// The product, or no number where it does not fit.
fn product(a: Frac, b: Frac) -> Bound
    ensures { result ≡ if_it_fits (product_of a b) }
{
    kept(mul(a, b))
}

// A result, or no number where it did not fit.
fn kept(outcome: Result<Frac, Wide>) -> Bound
    ensures { result ≡ of_outcome outcome }
{
    match outcome {
        Ok(number) => Bound::finite(number),
        Err(_) => Bound::endless(),
    }
}

// Whether a number is above 0.
pub(crate) fn is_positive(a: Frac) -> bool
    ensures { result ≡ is_below zero_number a }
{
    a.numerator() > 0
}

// Whether a number is below 0.
pub(crate) fn is_negative(a: Frac) -> bool
    ensures { result ≡ is_below a zero_number }
{
    a.numerator() < 0
}

// Whether a number is below another.
fn is_less(a: Frac, b: Frac) -> bool
    ensures { result ≡ is_below a b }
{
    match cmp(a, b) {
        Ordering::Less => true,
        Ordering::Equal => false,
        Ordering::Greater => false,
    }
}
