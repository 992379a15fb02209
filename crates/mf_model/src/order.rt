ghost use Rattle.mf_model.specs.Application.{instance_before};
ghost use Rattle.mf_model.specs.States.{atom_before, term_before};
ghost use Rattle.std.specs.Prelude.{◌≡◌};

use crate::{Atom, Cell, Instance};

impl Atom {
    /// Whether the atom comes before the other in a sorted list: by predicate, then by objects.
    #[tactic(auto, using(crate::proofs::Orders::pair_before))]
    pub fn is_before(&self, other: &Atom) -> bool
        ensures { result ≡ atom_before self.now other.now }
    {
        self.cmp(other).is_lt()
    }
}

impl Cell {
    /// Whether the term comes before the other in a sorted list: by function, then by objects.
    #[tactic(auto, using(crate::proofs::Orders::pair_before))]
    pub fn is_before(&self, other: &Cell) -> bool
        ensures { result ≡ term_before self.now other.now }
    {
        self.cmp(other).is_lt()
    }
}

impl Instance {
    /// Whether the instance comes before the other in a sorted list: by action, then by objects.
    #[tactic(auto, using(crate::proofs::Orders::pair_before))]
    pub fn is_before(&self, other: &Instance) -> bool
        ensures { result ≡ instance_before self.now other.now }
    {
        self.cmp(other).is_lt()
    }
}
