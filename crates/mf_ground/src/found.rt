use mf_model::{Instance, List};

/// The live instances of a task, by action and then by argument list, and the number of nodes of their conditions and
/// effects and of the goal.
#[derive(Debug, Drop)]
pub struct Instances {
    pub list: List<Instance>,
    pub nodes: u64,
}
