ghost use Rattle.std.specs.Prelude.{◌≡◌, []};
ghost use Rattle.mf_model.specs.declared.form.Domain.{Domain};
ghost use Rattle.mf_model.specs.declared.form.Problem.{Problem};
ghost use Rattle.mf_model.specs.declared.task.TypedTask.{TypedTask};
ghost use Rattle.mf_model.specs.Objects.{HaveTopType};
ghost use Rattle.mf_model.specs.ResolvedTask.{IsResolvedTask};
ghost use Rattle.mf_types.specs.AllFaults.{faults_of};
ghost use Rattle.mf_model.specs.TaskLimits.{HaveFewParameters};
ghost use Rattle.mf_types.specs.Tasks.{IsTaskOf};
ghost use Rattle.mf_model.specs.ValidTasks.{IsValidTask};
ghost use Rattle.mf_types.specs.Written.{IsWritten};

/// A domain and a problem have one task at most.
pub fn task_is_unique()
    ensures { (d : Domain) (p : Problem) (one other : TypedTask) → IsTaskOf d p one → IsTaskOf d p other → one ≡ other }
{}

/// Where no fault stands there is a task.
pub fn faultless_files_have_a_task()
    ensures { (d : Domain) (p : Problem) → faults_of d p ≡ [] → (task : TypedTask) × IsTaskOf d p task }
{}

/// The task of two files of the grammar is valid.
pub fn task_is_valid()
    ensures { (d : Domain) (p : Problem) (task : TypedTask) → IsWritten d p → IsTaskOf d p task → IsValidTask task }
{}

/// Each object of the task of two files without faults has the type `object`, from which all types descend.
pub fn objects_have_the_top_type()
    ensures { (d : Domain) (p : Problem) (task : TypedTask) → faults_of d p ≡ [] → IsTaskOf d p task → HaveTopType task }
{}

/// The predicates, functions and actions of two files without faults have at most 32 parameters each.
pub fn parameters_are_few()
    ensures { (d : Domain) (p : Problem) (task : TypedTask) → faults_of d p ≡ [] → IsTaskOf d p task → HaveFewParameters task }
{}

/// The task of two files of the grammar without faults is a resolved task: it is valid and within the limits, its objects
/// have the type `object`, its expressions are linear, its numbers fit and are in lowest terms, no `when` occurs in another,
/// and its names are words of kind Name, pairwise different each in its space.
pub fn task_is_resolved()
    ensures { (d : Domain) (p : Problem) (task : TypedTask) → IsWritten d p → faults_of d p ≡ [] → IsTaskOf d p task → IsResolvedTask task }
{}
