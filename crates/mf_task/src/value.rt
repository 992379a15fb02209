/// The heuristic value of a state.
#[derive(Clone, Copy, Debug, PartialEq, Eq)]
pub enum Value {
    /// A number; 0 exactly at a goal.
    Finite(u64),
    /// The state is dead: no goal is reached from it.
    Infinite,
}

/// The heuristics there are.
#[derive(Clone, Copy, Debug, PartialEq, Eq)]
pub enum HeuristicKind {
    /// The number of top-level conjuncts of the goal that do not hold.
    Goals,
    /// The length of a relaxed plan.
    Ff,
}
