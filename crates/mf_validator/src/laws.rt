//! When each verdict is given.
ghost use Rattle.mf_model.specs.declared.state.Instance.{Instance};
ghost use Rattle.mf_model.specs.declared.task.TypedTask.{TypedTask};
ghost use Rattle.mf_model.specs.Application.{instances_of};
ghost use Rattle.mf_model.specs.Plans.{IsPlan};
ghost use Rattle.mf_validator.specs.declared.fault.JudgeFault.TheVariants as fault;
ghost use Rattle.mf_validator.specs.declared.verdict.Verdict.{Verdict};
ghost use Rattle.mf_validator.specs.declared.verdict.Verdict.TheVariants as verdict;
ghost use Rattle.mf_validator.specs.Validity.{IsWideAt, Says, last_state};
ghost use Rattle.mf_validator.specs.Verdicts.{reported_of, verdict_of};
ghost use Rattle.std.specs.List.{All};
ghost use Rattle.std.specs.Prelude.{◌≡◌, ◌↔◌, ℕ, List, Contains, Ok, Err, length};

/// A list of instances has a verdict exactly where what the verdict says is so.
pub fn verdicts_are_exact()
    ensures { (task : TypedTask) (plan : List Instance) (said : Verdict) → All (Contains (instances_of task)) plan
        → (verdict_of task plan ≡ Ok said) ↔ Says task plan said }
{}

/// A list of instances is too wide at a step, or behind the last one, exactly where a value does not fit
/// that the step, or the end, needs.
pub fn width_is_exact()
    ensures { (task : TypedTask) (plan : List Instance) (step : ℕ)
        → (verdict_of task plan ≡ Err (fault.Wide step)) ↔ IsWideAt task plan step }
{}

/// A plan of the task is valid where no value is too wide, with the value of the metric after its last step.
pub fn plans_are_valid()
    ensures { (task : TypedTask) (plan : List Instance) → IsPlan task plan → ((step : ℕ) → ¬ IsWideAt task plan step)
        → verdict_of task plan ≡ Ok (verdict.Valid (reported_of task.metric (length plan) (last_state task plan))) }
{}
