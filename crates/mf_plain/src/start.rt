ghost use Rattle.std.specs.Prelude.{◌≡◌, ℕ, [], IfOk};
ghost use Rattle.std.specs.List.{fold};
ghost use Rattle.mf_plain.specs.SearchTask.{IsSearchTask};
ghost use Rattle.mf_model.specs.States.{with_atom};
ghost use Rattle.mf_plain.specs.Conjunctions.{needs_of};
ghost use Rattle.mf_plain.specs.UnderWay.{IsUnderWay};

use crate::holding::{list_needs, unmet};
use crate::order::put;
use crate::progress::{Progress, open};
use crate::{History, Maker, Memory};
use mf_model::{Atom, List, PlainState, TypedTask};
use std::alloc::Global;

/// The atoms of the task's goal.
pub(crate) fn goal_atoms(alloc: Global, task: &TypedTask) -> Result<List<Atom>, Memory>
    requires { IsSearchTask task.now }
    ensures { IfOk result (λ needs. needs ≡ needs_of task.now.goal []) }
{
    let mut needs = List::new(alloc);
    list_needs(alloc, &task.goal, &[], &mut needs)?;
    Ok(needs)
}

fn sorted(alloc: Global, atoms: &[Atom]) -> Result<List<Atom>, Memory>
    ensures { IfOk result (λ list. list ≡ fold with_atom [] atoms.now) }
{
    let mut list = List::new(alloc);
    for atom in atoms {
        put(&mut list, atom.copy(alloc)?)?;
    }
    Ok(list)
}

/// A search that has opened the start.
pub(crate) fn start(alloc: Global, task: &TypedTask, goal: &[Atom]) -> Result<Progress, Memory>
    requires searchable { IsSearchTask task.now }
    requires goal { goal.now ≡ needs_of task.now.goal [] }
    ensures { IfOk result (λ progress. (budget : ℕ) → IsUnderWay task.now budget 0 progress) }
{
    let mut progress = Progress {
        history: History {
            rows: List::new(alloc),
            values: List::new(alloc),
            makers: List::new(alloc),
            entries: List::new(alloc),
        },
        taken: Vec::new(alloc),
    };
    let atoms = sorted(alloc, task.atoms.as_slice())?;
    let value = unmet(goal, atoms.as_slice());
    let state = PlainState {
        atoms,
        values: List::new(alloc),
    };
    open(&mut progress, state, value, Maker::Start)?;
    Ok(progress)
}
