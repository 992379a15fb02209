use crate::{Atom, List, Valued};

/// The true ground atoms and the values of ground function terms, both sorted and without repeats.
#[derive(Debug, Drop, PartialEq, Eq, Hash)]
pub struct PlainState {
    pub atoms: List<Atom>,
    pub values: List<Valued>,
}

/// An action with an argument for each of its parameters. Instances are ordered by action, then by
/// arguments.
#[derive(Debug, Drop, PartialEq, Eq, PartialOrd, Ord, Hash)]
pub struct Instance {
    pub action: u16,
    pub objects: List<u16>,
}
