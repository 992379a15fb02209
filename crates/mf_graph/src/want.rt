ghost use Rattle.mf_graph.specs.Wants.{want_shown};
ghost use Rattle.mf_task.specs.Layers.{optional_range_meets, want_of};
ghost use Rattle.std.specs.Prelude.{◌≡◌};

use crate::Range;
use mf_model::Relation;

/// What is asked of a form: how it is to stand to 0.
#[derive(Clone, Copy, Debug)]
pub enum Want {
    Below,
    AtMost,
    Zero,
    NotZero,
    AtLeast,
    Above,
}

// The comparison, or its opposite where it is to fail.
pub(crate) fn want_of(asked: bool, relation: Relation) -> Want
    ensures { want_shown result ≡ want_of asked relation }
{
    match (asked, relation) {
        (true, Relation::Less) => Want::Below,
        (true, Relation::AtMost) => Want::AtMost,
        (true, Relation::Equal) => Want::Zero,
        (true, Relation::AtLeast) => Want::AtLeast,
        (true, Relation::More) => Want::Above,
        (false, Relation::Less) => Want::AtLeast,
        (false, Relation::AtMost) => Want::Above,
        (false, Relation::Equal) => Want::NotZero,
        (false, Relation::AtLeast) => Want::Below,
        (false, Relation::More) => Want::AtMost,
    }
}

// Whether some number in the range stands to 0 as it is asked; none does where there is no range.
pub(crate) fn meets(want: Want, range: Option<Range>) -> bool
    ensures { result ≡ optional_range_meets (want_shown want) range }
{
    let Some(range) = range else {
        return false;
    };
    match want {
        Want::Below => range.low().is_below_zero(),
        Want::AtMost => range.low().is_not_above_zero(),
        Want::Zero => range.low().is_not_above_zero() && range.high().is_not_below_zero(),
        Want::NotZero => range.low().is_below_zero() || range.high().is_above_zero(),
        Want::AtLeast => range.high().is_not_below_zero(),
        Want::Above => range.high().is_above_zero(),
    }
}
