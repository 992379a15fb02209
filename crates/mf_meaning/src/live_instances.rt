ghost use Rattle.std.specs.Prelude.{◌≡◌, true, filter, Contains};
ghost use Rattle.mf_model.specs.declared.state.Instance.{Instance};
ghost use Rattle.mf_model.specs.declared.state.PlainState.{PlainState};
ghost use Rattle.mf_model.specs.declared.task.TypedTask.{TypedTask};
ghost use Rattle.mf_model.specs.Application.{instances_of, is_applicable};
ghost use Rattle.mf_model.specs.LiveInstances.{live_instances};
ghost use Rattle.mf_model.specs.SearchStates.{with_costs};
ghost use Rattle.mf_meaning.specs.LiveTests.{is_live};
ghost use Rattle.mf_meaning.specs.ReachedStates.{IsSearchState};
ghost use Rattle.mf_meaning.specs.StartValues.{HasStartAtoms};

/// The live instances are the instances of the task whose static tests hold at the start, in the order of all instances.
pub fn live_instances_are_those_that_pass()
    ensures { (task : TypedTask) → live_instances task ≡ filter (is_live task) (instances_of task) }
{}

/// Only live instances can be applicable, in each state whose static atoms are those of the start.
pub fn only_live_instances_are_applicable()
    ensures plain { (task : TypedTask) (state : PlainState) (instance : Instance) → HasStartAtoms task state → Contains (instances_of task) instance → is_applicable task state instance ≡ true → Contains (live_instances task) instance }
    ensures search { (task : TypedTask) (state : PlainState) (instance : Instance) → IsSearchState task state → Contains (instances_of task) instance → is_applicable task (with_costs task state) instance ≡ true → Contains (live_instances task) instance }
    ensures own { (task : TypedTask) (instance : Instance) → Contains (live_instances task) instance → Contains (instances_of task) instance }
{}
