ghost use Rattle.mf_model.specs.declared.state.Instance.{Instance};
ghost use Rattle.mf_model.specs.declared.state.PlainState.{PlainState};
ghost use Rattle.mf_model.specs.declared.task.TypedTask.{TypedTask};
ghost use Rattle.mf_model.specs.Application.{next_state};
ghost use Rattle.mf_model.specs.SearchStates.{search_state, with_costs};
ghost use Rattle.mf_model.specs.States.{start_of};
ghost use Rattle.mf_meaning.specs.StartValues.{HasStartAtoms, HasStartConstants};

/// The true atoms of static predicates are those of the start: at the start, after each instance, and in the search state.
pub fn static_atoms_stay()
    ensures start { (task : TypedTask) → HasStartAtoms task (start_of task) }
    ensures step { (task : TypedTask) (state : PlainState) (instance : Instance) → HasStartAtoms task state → HasStartAtoms task (next_state task state instance) }
    ensures search_state { (task : TypedTask) (state : PlainState) → HasStartAtoms task state → HasStartAtoms task (search_state task state) }
    ensures with_costs { (task : TypedTask) (state : PlainState) → HasStartAtoms task state → HasStartAtoms task (with_costs task state) }
{}

/// Constant functions have the values of the start: at the start, after each instance, and in the search state with costs
/// put back.
pub fn constants_keep_their_values()
    ensures start { (task : TypedTask) → HasStartConstants task (start_of task) }
    ensures step { (task : TypedTask) (state : PlainState) (instance : Instance) → HasStartConstants task state → HasStartConstants task (next_state task state instance) }
    ensures search_state { (task : TypedTask) (state : PlainState) → HasStartConstants task state → HasStartConstants task (with_costs task (search_state task state)) }
{}
