/// How far a search has come.
#[derive(Clone, Copy, Debug, PartialEq, Eq)]
pub enum Status {
    /// The history has no answer yet.
    Running,
    /// A goal was taken: the state of this number.
    Plan { state: u64 },
    /// Every opened state was taken, and none is a goal.
    NoPlan,
    /// As many states were taken as the budget allows, and a state is still open.
    Budget,
    /// An instance leads from this state out of the width of the numbers.
    Width { state: u64, instance: u32 },
    /// The search was halted before it had an answer.
    Halted,
}
