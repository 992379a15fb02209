ghost use Rattle.std.specs.Prelude.{◌≡◌, List, map, Contains};
ghost use Rattle.std.specs.List.{AllByRecursion, flat_map};
ghost use Rattle.mf_model.specs.declared.state.Instance.{Instance};
ghost use Rattle.mf_model.specs.declared.state.PlainState.{PlainState};
ghost use Rattle.mf_model.specs.declared.task.TypedTask.{TypedTask};
ghost use Rattle.mf_model.specs.Application.{Change, changes_of};
ghost use Rattle.mf_task.specs.declared.ground.GroundChange.{GroundChange};
ghost use Rattle.mf_task.specs.Grounding.{ground_of, numbering_of};
ghost use Rattle.mf_task.specs.Rows.{Sight};
ghost use Rattle.mf_bridge.specs.Corresponds.{AreSameChanges};
ghost use Rattle.mf_bridge.specs.Deeds.{deed_of, ground_deeds};
ghost use Rattle.mf_bridge.specs.ListedChanges.{IsListedChange};

/// Changes that do the same, one by one and in order, and whose atoms and terms are the packed task's, are the same.
pub fn changes_with_the_same_deeds_are_the_same()
    ensures { (task : TypedTask) (instances : List Instance) (sight : Sight) (numbered : List GroundChange) (named : List Change) → AllByRecursion (IsListedChange task (ground_of task instances)) named → map (deed_of (numbering_of task instances)) named ≡ flat_map (ground_deeds (ground_of task instances) sight) numbered → AreSameChanges task (ground_of task instances) sight numbered named }
{}

/// The changes of each of the instances are of atoms and terms of their packed task.
pub fn changes_are_listed()
    ensures { (task : TypedTask) (instances : List Instance) (state : PlainState) (instance : Instance) → Contains instances instance → AllByRecursion (IsListedChange task (ground_of task instances)) (changes_of task state instance) }
{}
