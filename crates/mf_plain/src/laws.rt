//! What is known of every search of a task.
ghost use Rattle.std.specs.Prelude.{◌≡◌, ◌<◌, ℕ, List, length};
ghost use Rattle.mf_plain.specs.SearchTask.{IsSearchTask};
ghost use Rattle.mf_model.specs.Plans.{IsPlan};
ghost use Rattle.mf_model.specs.declared.state.Instance.{Instance};
ghost use Rattle.mf_model.specs.declared.task.TypedTask.{TypedTask};
ghost use Rattle.mf_search.specs.Greedy.{Greedy};
ghost use Rattle.mf_search.specs.declared.status.Status.TheVariants.{NoPlan, Budget};
ghost use Rattle.mf_plain.specs.PlainSpace.{space_of};
ghost use Rattle.mf_plain.specs.Searches.{IsSearched, taken_states};
ghost use Rattle.mf_plain.specs.declared.history.Searched.{Searched};

/// Where a search answers that there is no plan, no list of instances is one.
pub fn no_plan_exists()
    ensures { (task : TypedTask) (budget : ℕ) (searched : Searched) → IsSearchTask task → IsSearched task budget searched → searched.status ≡ NoPlan → (steps : List Instance) → IsPlan task steps → ⊥ }
{}

/// The taken states, in order, are a run of greedy best-first search.
pub fn takes_are_greedy()
    ensures { (task : TypedTask) (budget : ℕ) (searched : Searched) → IsSearched task budget searched → Greedy (space_of task) (taken_states task searched.history) }
{}

/// Two searches of one task within one budget do the same and answer the same.
pub fn only_one_search()
    ensures { (task : TypedTask) (budget : ℕ) (this that : Searched) → IsSearched task budget this → IsSearched task budget that → (this.history.entries ≡ that.history.entries) × (this.status ≡ that.status) }
{}

/// Where a search answers that the budget was reached, more states were opened than the budget has.
pub fn budget_is_reached()
    ensures { (task : TypedTask) (budget : ℕ) (searched : Searched) → IsSearched task budget searched → searched.status ≡ Budget → budget < length searched.history.rows }
{}
