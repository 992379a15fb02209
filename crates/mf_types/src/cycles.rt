ghost use Rattle.std.specs.Prelude.{◌≡◌, ℕ, List, [], ◌∷◌, ◌||◌, IfOk, OnOk};
ghost use Rattle.mf_model.specs.Objects.{member};
ghost use Rattle.mf_types.specs.Ascent.{Settles, SettlesMore, IsClimb};
ghost use Rattle.mf_types.specs.Cycles as spec;
ghost use Rattle.mf_types.specs.Faults.{after};
ghost use Rattle.mf_types.specs.Marks.{AreClosedAbove};
ghost use Rattle.mf_types.specs.Names as names;
ghost use Rattle.mf_types.specs.Tables.{declared_of};

use crate::ancestry::Ancestry;
use crate::cycle_marks::cycle_marks;
use crate::kept::says_nothing;
use crate::least::{Fault, FaultKind, at_word};
use crate::number_at::number_at;
use crate::tables::Tables;
use indexmap::IndexSet;
use mf_model::{FileKind, Typed};
use std::alloc::{AllocError, Global};

/// The way up from a type: how many steps were gone, and whether they led back to it.
#[derive(Clone, Copy, Debug)]
pub(crate) struct Climb {
    steps: usize,
    returned: bool,
}

/// The faults of types that descend from themselves: one for each cycle, at its first item.
pub(crate) fn cycles(
    alloc: Global,
    mut best: Option<Fault>,
    tables: &Tables,
    items: &[Typed],
) -> Result<Option<Fault>, AllocError>
    ensures { IfOk result
        (λ fault. fault ≡ after best (spec.cycle_faults (declared_of tables.now) items.now)) }
{
    let marks = cycle_marks(alloc, &tables.parents);
    let mut settled = IndexSet::new(alloc);
    for item in items {
        best = cycle_step(best, tables, marks.as_slice(), &mut settled, item)?;
    }
    Ok(best)
}

// The fault of the cycle that an item begins. Its type, and those above it, are settled afterwards: they begin no cycle.
fn cycle_step(
    best: Option<Fault>,
    tables: &Tables,
    marks: &[bool],
    settled: &mut IndexSet<usize>,
    item: &Typed,
) -> Result<Option<Fault>, AllocError>
    requires { AreClosedAbove tables.now.parents marks.now }
    ensures faults { IfOk result (λ fault. (before : List ℕ) → Settles tables.now.parents before settled.old.keys
        → fault ≡ after best (spec.cycles_from (declared_of tables.now) before (names.kept_types (item.now ∷ [])))) }
    ensures settled { OnOk result ((before : List ℕ) → Settles tables.now.parents before settled.old.keys
        → Settles tables.now.parents (spec.types_before (declared_of tables.now) before (names.kept_types (item.now ∷ []))) settled.new.keys) }
{
    if says_nothing(item) {
        return Ok(best);
    }
    let number = type_number(tables, item);
    let way = way_up(&tables.parents, marks, settled, number);
    settle(tables.parents.as_slice(), settled, number, way.steps)?;
    if way.returned {
        return Ok(at_word(best, FaultKind::TypeCycle, FileKind::DomainFile, &item.word));
    }
    Ok(best)
}

fn type_number(tables: &Tables, item: &Typed) -> usize
    ensures { result ≡ spec.type_number tables.now.types item.now }
{
    match tables.find_type(item.word.text.as_slice()) {
        Some(number) => number,
        None => 0,
    }
}

// The way up from a type, which isn't gone where marks say that the type is on no cycle.
fn way_up(ancestry: &Ancestry, marks: &[bool], settled: &IndexSet<usize>, from: usize) -> Climb
    requires { AreClosedAbove ancestry.now marks.now }
    ensures { (before : List ℕ) → Settles ancestry.now before settled.now.keys → IsClimb ancestry.now before from result }
{
    if ancestry.is_on_no_cycle(marks, from) {
        return Climb {
            steps: 0,
            returned: false,
        };
    }
    go_up(ancestry.as_slice(), settled, from)
}

// Goes up from a type to the top, to a settled type or back to it.
fn go_up(parents: &[usize], settled: &IndexSet<usize>, from: usize) -> Climb
    ensures { (before : List ℕ) → Settles parents.now before settled.now.keys → IsClimb parents.now before from result }
{
    let mut current = from;
    for steps in 0..parents.len() {
        if is_end(parents, settled, current) {
            return Climb {
                steps,
                returned: false,
            };
        }
        current = number_at(parents, current);
        if current == from {
            return Climb {
                steps: steps + 1,
                returned: true,
            };
        }
    }
    Climb {
        steps: 0,
        returned: false,
    }
}

// Whether no cycle begins at a type or above it.
fn is_end(parents: &[usize], settled: &IndexSet<usize>, number: usize) -> bool
    ensures { result ≡ (spec.is_top parents.now number || member number settled.now.keys) }
{
    is_top(parents, number) || contains(settled, number)
}

fn contains(types: &IndexSet<usize>, number: usize) -> bool
    ensures { result ≡ member number types.now.keys }
{
    types.contains(&number)
}

fn is_top(parents: &[usize], number: usize) -> bool
    ensures { result ≡ spec.is_top parents.now number }
{
    number == 0 && number_at(parents, 0) == 0
}

// Settles a type and so many above it.
fn settle(
    parents: &[usize],
    settled: &mut IndexSet<usize>,
    from: usize,
    steps: usize,
) -> Result<(), AllocError>
    ensures { OnOk result (SettlesMore parents.now from steps settled.old.keys settled.new.keys) }
{
    let mut current = from;
    add(settled, current)?;
    for _step in 0..steps {
        current = number_at(parents, current);
        add(settled, current)?;
    }
    Ok(())
}

fn add(settled: &mut IndexSet<usize>, number: usize) -> Result<(), AllocError>
    ensures { OnOk result (settled.new.keys ≡ spec.with_type settled.old.keys number) }
{
    settled.insert(number)?;
    Ok(())
}
