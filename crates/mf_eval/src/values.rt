ghost use Rattle.mf_eval.specs.Fired.{change_of, changes_in};
ghost use Rattle.mf_eval.specs.Outcome.{Reads, ReadsItems};
ghost use Rattle.mf_eval.specs.Results.{kept_change, kept_changes, kept_result};
ghost use Rattle.mf_meaning.specs.SortedStates.{IsSortedList};
ghost use Rattle.mf_model.specs.States.{cell_before};
ghost use Rattle.std.specs.Prelude.{◌≡◌, IfOk, OnOk};

use crate::deed::Deed;
use crate::fault::{ApplyFault, Memory};
use crate::operation::{Operation, operate};
use crate::sorted::put_value;
use crate::stored::value_of;
use mf_fraction::{Frac, Wide};
use mf_model::{Op, Valued};
use std::alloc::Global;

// The sorted old values under the changes, in their order.
pub(crate) fn changed_values(
    alloc: Global,
    values: &[Valued],
    deeds: &[Deed],
) -> Result<Vec<Valued>, ApplyFault>
    requires { IsSortedList cell_before values.now }
    ensures values { ReadsItems (λ changed. changed.items) (kept_changes values.now (changes_in deeds.now)) result }
    ensures sorted { IfOk result (λ changed. IsSortedList cell_before changed.items) }
{
    let mut changed = copy_values(alloc, values)?;
    change_values(alloc, &mut changed, deeds)?;
    Ok(changed)
}

fn copy_values(alloc: Global, values: &[Valued]) -> Result<Vec<Valued>, Memory>
    ensures { IfOk result (λ copies. copies.items ≡ values.now) }
{
    let mut copies = Vec::new(alloc);
    for valued in values {
        copies.push(valued.copy(alloc)?)?;
    }
    Ok(copies)
}

fn change_values(alloc: Global, values: &mut Vec<Valued>, deeds: &[Deed]) -> Result<(), ApplyFault>
    requires { IsSortedList cell_before values.old.items }
    ensures values { Reads (kept_changes values.old.items (changes_in deeds.now)) result values.new.items }
    ensures sorted { OnOk result (IsSortedList cell_before values.new.items) }
{
    for deed in deeds {
        change_value(alloc, values, deed)?;
    }
    Ok(())
}

fn change_value(alloc: Global, values: &mut Vec<Valued>, deed: &Deed) -> Result<(), ApplyFault>
    requires { IsSortedList cell_before values.old.items }
    ensures values { Reads (kept_change values.old.items (change_of deed.now)) result values.new.items }
    ensures sorted { OnOk result (IsSortedList cell_before values.new.items) }
{
    match deed {
        Deed::Added(_) => Ok(()),
        Deed::Deleted(_) => Ok(()),
        Deed::Changed { op, cell, value } => {
            let old = value_of(values.as_slice(), cell);
            if let Some(value) = changed_value(*op, old, *value)? {
                let cell = cell.copy(alloc)?;
                put_value(values, Valued { cell, value })?;
            }
            Ok(())
        }
    }
}

// The new value of a term with this old one.
fn changed_value(op: Op, old: Option<Frac>, value: Option<Frac>) -> Result<Option<Frac>, Wide>
    ensures { result ≡ kept_result op old value }
{
    match op {
        Op::Assign => Ok(value),
        Op::Increase => operate(Operation::Sum, old, value),
        Op::Decrease => operate(Operation::Difference, old, value),
        Op::ScaleUp => operate(Operation::Product, old, value),
        Op::ScaleDown => operate(Operation::Quotient, old, value),
    }
}
