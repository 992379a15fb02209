//! Plans of typed, numeric, conditional and quantified tasks, as the whole program judges them, tasks that it searches,
//! and the live instances that it lists.
#![tactic(auto)]

#[cfg(test)]
mod grounded;
#[cfg(test)]
mod judged;
#[cfg(test)]
mod searched;
#[cfg(test)]
mod tasks;
