use mf_eval::Why;
use mf_fraction::Frac;

/// The metric of a valid plan.
#[derive(Clone, Copy, Debug, PartialEq, Eq)]
pub enum Reported {
    /// The task has no metric.
    Absent,
    /// It reads an undefined term or divides by 0.
    Undefined,
    Value(Frac),
}

/// What a plan is found to be. Steps are numbered from 1.
#[derive(Clone, Copy, Debug, PartialEq, Eq)]
pub enum Verdict {
    Valid { metric: Reported },
    /// The first step that is not applicable.
    StepFails { step: u32, why: Why },
    /// All steps apply, and the goal does not hold after them.
    GoalFails,
}
