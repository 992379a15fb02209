//! The search of one worker and its plan, called by themselves.
#![tactic(auto)]

#[cfg(test)]
mod lamps;
