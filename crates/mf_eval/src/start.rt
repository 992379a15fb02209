ghost use Rattle.mf_model.specs.States.{start_of, with_atom, with_value};
ghost use Rattle.mf_eval.specs.Entries.{as_valued};
ghost use Rattle.mf_meaning.specs.SortedStates.{IsSortedState};
ghost use Rattle.std.specs.List.{fold};
ghost use Rattle.std.specs.Prelude.{◌≡◌, [], IfOk, map};

use crate::fault::Memory;
use mf_fraction::Frac;
use mf_model::{Atom, Cell, List, PlainState, TypedTask, Valued};
use std::alloc::Global;
use std::collections::{BTreeMap, BTreeSet};

/// The start of the task: its atoms and values, sorted and without repeats.
pub fn start_state(alloc: Global, task: &TypedTask) -> Result<PlainState, Memory>
    ensures start { IfOk result (λ state. state ≡ start_of task.now) }
    ensures sorted { IfOk result (λ state. IsSortedState state) }
{
    Ok(PlainState {
        atoms: List::from_vec(start_atoms(alloc, task.atoms.as_slice())?),
        values: List::from_vec(start_values(alloc, task.values.as_slice())?),
    })
}

fn start_atoms(alloc: Global, listed: &[Atom]) -> Result<Vec<Atom>, Memory>
    ensures { IfOk result (λ atoms. atoms.items ≡ fold with_atom [] listed.now) }
{
    let mut sorted = Vec::new(alloc);
    for atom in atom_set(alloc, listed)? {
        sorted.push(atom)?;
    }
    Ok(sorted)
}

fn atom_set(alloc: Global, listed: &[Atom]) -> Result<BTreeSet<Atom>, Memory>
    ensures { IfOk result (λ atoms. atoms.keys ≡ fold with_atom [] listed.now) }
{
    let mut atoms = BTreeSet::new(alloc);
    for atom in listed {
        atoms.insert(atom.copy(alloc)?)?;
    }
    Ok(atoms)
}

fn start_values(alloc: Global, listed: &[Valued]) -> Result<Vec<Valued>, Memory>
    ensures { IfOk result (λ values. values.items ≡ fold with_value [] listed.now) }
{
    let mut sorted = Vec::new(alloc);
    for (cell, value) in value_map(alloc, listed)? {
        sorted.push(Valued { cell, value })?;
    }
    Ok(sorted)
}

fn value_map(alloc: Global, listed: &[Valued]) -> Result<BTreeMap<Cell, Frac>, Memory>
    ensures { IfOk result (λ values. map as_valued values.entries ≡ fold with_value [] listed.now) }
{
    let mut values = BTreeMap::new(alloc);
    for valued in listed {
        values.insert(valued.cell.copy(alloc)?, valued.value)?;
    }
    Ok(values)
}
