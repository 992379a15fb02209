ghost use Rattle.std.specs.Prelude.{◌≡◌, ◌<◌, ℕ, [], ◌∷◌, ◌++◌, false, true, List, map, vec_len, slice_set, OnOk};
ghost use Rattle.std.specs.List.{list_any};
ghost use Rattle.mf_plain.specs.SearchTask.{IsSearchTask};
ghost use Rattle.mf_model.specs.declared.state.PlainState.{PlainState};
ghost use Rattle.mf_search.specs.World.{Opened, open_child, open_all};
ghost use Rattle.mf_search.specs.declared.entry.Entry.TheVariants.{Take};
ghost use Rattle.mf_plain.specs.Conjunctions.{needs_of};
ghost use Rattle.mf_plain.specs.PlainSpace.{space_of};
ghost use Rattle.mf_plain.specs.SameState.{same_state};
ghost use Rattle.mf_plain.specs.Successors.{child_of};
ghost use Rattle.mf_plain.specs.UnderWay.{Tracks, TakenBelow};

use crate::holding::unmet;
use crate::successors::Successor;
use crate::{Entry, History, Maker, Memory};
use mf_model::{Atom, List, PlainState, TypedTask};

/// A search under way: what it keeps, and which of the opened states were taken.
#[derive(Debug, Drop)]
pub(crate) struct Progress {
    pub history: History,
    pub taken: Vec<bool>,
}

/// Opens a state, as one that isn't taken.
pub(crate) fn open(
    progress: &mut Progress,
    state: PlainState,
    value: u64,
    maker: Maker,
) -> Result<(), Memory>
    ensures history { OnOk result (progress.new.history ≡ record {
      rows = progress.old.history.rows ++ state ∷ [];
      values = progress.old.history.values ++ value ∷ [];
      makers = progress.old.history.makers ++ maker ∷ [];
      entries = progress.old.history.entries;
    }) }
    ensures taken { OnOk result (progress.new.taken.items ≡ progress.old.taken.items ++ false ∷ []) }
{
    progress.history.rows.push(state)?;
    progress.history.values.push(value)?;
    progress.history.makers.push(maker)?;
    progress.taken.push(false)?;
    Ok(())
}

/// Takes the state of this number.
pub(crate) fn take(progress: &mut Progress, state: usize) -> Result<(), Memory>
    requires { state < vec_len progress.old.taken }
    ensures history { OnOk result (progress.new.history ≡ record progress.old.history { entries = progress.old.history.entries ++ Take 1 state ∷ [] }) }
    ensures taken { OnOk result (progress.new.taken.items ≡ slice_set progress.old.taken.items state true) }
{
    progress.history.entries.push(Entry::Take {
        worker: 1,
        state: state as u64,
    })?;
    progress.taken[state] = true;
    Ok(())
}

fn is_known(rows: &[PlainState], state: &PlainState) -> bool
    ensures { result ≡ list_any (λ row. same_state row state.now) rows.now }
{
    rows.iter().any(|row| row == state)
}

/// Opens a successor of a state, where it wasn't opened before.
fn open_successor(
    progress: &mut Progress,
    task: &TypedTask,
    goal: &[Atom],
    parent: usize,
    successor: Successor,
) -> Result<(), Memory>
    requires searchable { IsSearchTask task.now }
    requires goal { goal.now ≡ needs_of task.now.goal [] }
    ensures entries { OnOk result (progress.new.history.entries ≡ progress.old.history.entries) }
    ensures opened { OnOk result ((os : List (Opened PlainState)) (taken : List ℕ) → TakenBelow taken os → Tracks os taken progress.old → Tracks (open_child (space_of task.now) parent (child_of successor) os) taken progress.new) }
{
    if is_known(progress.history.rows.as_slice(), &successor.state) {
        return Ok(());
    }
    let Successor { instance, state } = successor;
    let value = unmet(goal, state.atoms.as_slice());
    let maker = Maker::Step {
        parent: parent as u64,
        instance,
        helpful: false,
    };
    open(progress, state, value, maker)?;
    Ok(())
}

/// Opens the successors of a state, in order, where they weren't opened before.
pub(crate) fn open_successors(
    progress: &mut Progress,
    task: &TypedTask,
    goal: &[Atom],
    parent: usize,
    successors: List<Successor>,
) -> Result<(), Memory>
    requires searchable { IsSearchTask task.now }
    requires goal { goal.now ≡ needs_of task.now.goal [] }
    ensures entries { OnOk result (progress.new.history.entries ≡ progress.old.history.entries) }
    ensures opened { OnOk result ((os : List (Opened PlainState)) (taken : List ℕ) → TakenBelow taken os → Tracks os taken progress.old → Tracks (open_all (space_of task.now) parent (map child_of successors) os) taken progress.new) }
{
    for successor in successors.into_vec() {
        open_successor(progress, task, goal, parent, successor)?;
    }
    Ok(())
}
