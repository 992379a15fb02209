ghost use Rattle.mf_graph.specs.LayerLists.{shown};
ghost use Rattle.mf_task.specs.GroundMeaning.{sign};
ghost use Rattle.mf_task.specs.Layers.{form_range, high_by, low_by};
ghost use Rattle.std.specs.Prelude.{◌≡◌, Some};

use crate::bound::zero_number;
use crate::{Bound, Layer};
use mf_fraction::{Frac, cmp};
use mf_task::Form;
use std::cmp::Ordering;
use std::marker::Model;

/// The bounds of a number: a lower and an upper one.
#[derive(Clone, Copy, Debug)]
pub struct Range {
    low: Bound,
    high: Bound,
}

impl Model for Range {
    ghost use Rattle.mf_task.specs.Layers.{Range};

    ghost Value = { Range };

    ghost view = { λ r. record { low = r.low; high = r.high } };

    ghost inverse = { λ r. record { low = r.low; high = r.high } };
}

impl Range {
    /// The numbers from `low` to `high`.
    pub fn new(low: Bound, high: Bound) -> Range
        ensures { result ≡ record { low = low; high = high } }
    {
        Range { low, high }
    }

    /// The lower bound.
    pub fn low(self) -> Bound
        ensures { result ≡ self.low }
    {
        self.low
    }

    /// The upper bound.
    pub fn high(self) -> Bound
        ensures { result ≡ self.high }
    {
        self.high
    }
}

// The bounds of a form at a layer: none where a term has none, one of coefficient 0 too.
pub(crate) fn form_range(layer: &Layer, form: &Form) -> Option<Range>
    ensures { result ≡ form_range (shown layer.now) form.now }
{
    let mut low = Bound::finite(form.constant);
    let mut high = low;
    for part in form.parts.as_slice() {
        let Some(range) = layer.range(part.term) else {
            return None;
        };
        low = with_low(low, part.coefficient, range);
        high = with_high(high, part.coefficient, range);
    }
    Some(Range::new(low, high))
}

// The upper bound of a sum, with a term that has this coefficient and this range added.
fn with_high(high: Bound, coefficient: Frac, range: Range) -> Bound
    ensures { result ≡ high_by (sign coefficient) (Some range) coefficient high }
{
    match sign(coefficient) {
        Ordering::Greater => high.plus(range.high.times(coefficient)),
        Ordering::Less => high.plus(range.low.times(coefficient)),
        Ordering::Equal => high,
    }
}

// The lower bound of a sum, with a term that has this coefficient and this range added.
fn with_low(low: Bound, coefficient: Frac, range: Range) -> Bound
    ensures { result ≡ low_by (sign coefficient) (Some range) coefficient low }
{
    match sign(coefficient) {
        Ordering::Greater => low.plus(range.low.times(coefficient)),
        Ordering::Less => low.plus(range.high.times(coefficient)),
        Ordering::Equal => low,
    }
}

// How a number stands to 0.
pub(crate) fn sign(a: Frac) -> Ordering
    ensures { result ≡ sign a }
{
    cmp(a, zero_number())
}
