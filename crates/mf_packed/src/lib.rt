//! What the packed task of a resolved task and its live instances is: facts that the calls on packed tasks ask for.
#![tactic(auto)]

mod laws;

pub use laws::packed_tasks_are_numbered;
