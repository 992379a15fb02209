ghost use Rattle.std.specs.Prelude.{◌≡◌, ℕ, ◌++◌, true, false, List, [], slice_get, is_some, Contains, Some};
ghost use Rattle.std.specs.List.{AllByRecursion, list_any};
ghost use Rattle.mf_model.specs.declared.state.Instance.{Instance};
ghost use Rattle.mf_model.specs.declared.task.Action.{Action};
ghost use Rattle.mf_model.specs.declared.task.TypedTask.{TypedTask};
ghost use Rattle.mf_model.specs.Functions.{is_constant, is_cost, is_static};
ghost use Rattle.mf_model.specs.Objects.{kinds_of};
ghost use Rattle.mf_model.specs.States.{atom_before, is_atom, look_of, start_of, term_before, value_at};
ghost use Rattle.mf_meaning.specs.SortedStates.{IsSortedList};
ghost use Rattle.mf_task.specs.Grounding.{changed_atoms, condition_cells, effect_cells, ground_of, is_row_cell, is_same_cell};

/// The atoms and the terms of a packed task are sorted, with none twice. The atoms are of predicates that some action
/// changes alone, and the terms of functions that some action changes and that are no cost.
pub fn atoms_and_terms_are_sorted()
    ensures atoms { (task : TypedTask) (instances : List Instance) → IsSortedList atom_before (ground_of task instances).atoms }
    ensures terms { (task : TypedTask) (instances : List Instance) → IsSortedList term_before (ground_of task instances).terms }
    ensures fluent { (task : TypedTask) (instances : List Instance) → AllByRecursion (λ atom. is_static task atom.predicate ≡ false) (ground_of task instances).atoms }
    ensures changing { (task : TypedTask) (instances : List Instance) → AllByRecursion (λ cell. is_row_cell task cell ≡ true) (ground_of task instances).terms }
{}

/// Among the atoms is each fluent one that is true at the start, and each that an instance adds or deletes.
pub fn atoms_cover()
    ensures start { (task : TypedTask) (instances : List Instance) (predicate : ℕ) (objects : List ℕ) → is_static task predicate ≡ false → (look_of (start_of task)).atom predicate objects ≡ true → list_any (is_atom predicate objects) (ground_of task instances).atoms ≡ true }
    ensures changed { (task : TypedTask) (instances : List Instance) (instance : Instance) (action : Action) (predicate : ℕ) (objects : List ℕ) → Contains instances instance → slice_get task.actions instance.action ≡ Some action → list_any (is_atom predicate objects) (changed_atoms (kinds_of task) action.effect instance.objects) ≡ true → list_any (is_atom predicate objects) (ground_of task instances).atoms ≡ true }
{}

/// Among the terms is each of a function that changes and is no cost that has a value at the start, that the goal reads, or
/// that an instance reads or changes.
pub fn terms_cover()
    ensures start { (task : TypedTask) (instances : List Instance) (function : ℕ) (objects : List ℕ) → is_constant task function ≡ false → is_cost task function ≡ false → is_some (value_at (start_of task).values function objects) ≡ true → list_any (is_same_cell function objects) (ground_of task instances).terms ≡ true }
    ensures goal { (task : TypedTask) (instances : List Instance) (function : ℕ) (objects : List ℕ) → is_constant task function ≡ false → is_cost task function ≡ false → list_any (is_same_cell function objects) (condition_cells (kinds_of task) task.goal []) ≡ true → list_any (is_same_cell function objects) (ground_of task instances).terms ≡ true }
    ensures instance { (task : TypedTask) (instances : List Instance) (function : ℕ) (objects : List ℕ) → is_constant task function ≡ false → is_cost task function ≡ false → (instance : Instance) (action : Action) → Contains instances instance → slice_get task.actions instance.action ≡ Some action → list_any (is_same_cell function objects) (condition_cells (kinds_of task) action.condition instance.objects ++ effect_cells (kinds_of task) action.effect instance.objects) ≡ true → list_any (is_same_cell function objects) (ground_of task instances).terms ≡ true }
{}
