ghost use Rattle.mf_eval.specs.Fired.{change_of, changes_in};
ghost use Rattle.mf_meaning.specs.SortedStates.{IsSortedState};
ghost use Rattle.mf_model.specs.Application.{changes_cell, divides_by_zero, is_apart, is_defined, is_sum_change, reads_old};
ghost use Rattle.mf_model.specs.States.{look_of};
ghost use Rattle.std.specs.List.{list_all};
ghost use Rattle.std.specs.Prelude.{◌≡◌, filter, length};

use crate::deed::Deed;
use crate::order::is_same_cell;
use crate::stored::value_of;
use mf_fraction::{Frac, sign};
use mf_model::{Cell, Op, PlainState};

// Whether every change reads only defined values.
pub(crate) fn are_defined(state: &PlainState, deeds: &[Deed]) -> bool
    requires { IsSortedState state.now }
    ensures { result ≡ list_all (is_defined (look_of state.now)) (changes_in deeds.now) }
{
    for deed in deeds {
        if !is_deed_defined(state, deed) {
            return false;
        }
    }
    true
}

fn is_deed_defined(state: &PlainState, deed: &Deed) -> bool
    requires { IsSortedState state.now }
    ensures { result ≡ is_defined (look_of state.now) (change_of deed.now) }
{
    match deed {
        Deed::Added(_) => true,
        Deed::Deleted(_) => true,
        Deed::Changed { op, cell, value } => {
            value.is_some()
                && !is_division_by_zero(*op, *value)
                && (!reads_old_value(*op) || value_of(state.values.as_slice(), cell).is_some())
        }
    }
}

fn is_division_by_zero(op: Op, value: Option<Frac>) -> bool
    ensures { result ≡ divides_by_zero op value }
{
    match (op, value) {
        (Op::ScaleDown, Some(value)) => sign(value) == 0,
        _ => false,
    }
}

fn reads_old_value(op: Op) -> bool
    ensures { result ≡ reads_old op }
{
    match op {
        Op::Assign => false,
        Op::Increase => true,
        Op::Decrease => true,
        Op::ScaleUp => true,
        Op::ScaleDown => true,
    }
}

// Whether, for each term, the changes are increases and decreases alone, or exactly one.
pub(crate) fn are_apart(deeds: &[Deed]) -> bool
    ensures { result ≡ list_all (is_apart (changes_in deeds.now)) (changes_in deeds.now) }
{
    for deed in deeds {
        if !is_deed_apart(deeds, deed) {
            return false;
        }
    }
    true
}

fn is_deed_apart(deeds: &[Deed], deed: &Deed) -> bool
    ensures { result ≡ is_apart (changes_in deeds.now) (change_of deed.now) }
{
    match deed {
        Deed::Added(_) => true,
        Deed::Deleted(_) => true,
        Deed::Changed { cell, .. } => are_sums(deeds, cell) || count(deeds, cell) == 1,
    }
}

// Whether all changes of the term are increases and decreases.
fn are_sums(deeds: &[Deed], cell: &Cell) -> bool
    ensures { result ≡ list_all is_sum_change (filter (changes_cell cell.now.function cell.now.objects) (changes_in deeds.now)) }
{
    for deed in deeds {
        if is_change_of(deed, cell) && !is_sum(deed) {
            return false;
        }
    }
    true
}

// How many changes of the term there are.
fn count(deeds: &[Deed], cell: &Cell) -> usize
    ensures { result ≡ length (filter (changes_cell cell.now.function cell.now.objects) (changes_in deeds.now)) }
{
    let mut count = 0;
    for deed in deeds {
        if is_change_of(deed, cell) {
            count += 1;
        }
    }
    count
}

fn is_change_of(deed: &Deed, cell: &Cell) -> bool
    ensures { result ≡ changes_cell cell.now.function cell.now.objects (change_of deed.now) }
{
    match deed {
        Deed::Added(_) => false,
        Deed::Deleted(_) => false,
        Deed::Changed { cell: changed, .. } => is_same_cell(cell, changed),
    }
}

fn is_sum(deed: &Deed) -> bool
    ensures { result ≡ is_sum_change (change_of deed.now) }
{
    match deed {
        Deed::Added(_) => true,
        Deed::Deleted(_) => true,
        Deed::Changed { op, .. } => match op {
            Op::Increase => true,
            Op::Decrease => true,
            Op::Assign => false,
            Op::ScaleUp => false,
            Op::ScaleDown => false,
        },
    }
}
