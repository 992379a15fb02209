ghost use Rattle.std.specs.Prelude.{◌≡◌, [], ◌∷◌, ◌++◌, if◌then◌else◌, not, OnOk, IfOk};
ghost use Rattle.mf_types.specs.Names.{is_member};

use indexmap::IndexSet;
use std::alloc::{AllocError, Global};
use std::marker::Model;

/// Function terms in the order in which they were entered, each a function with its objects.
#[derive(Debug, Drop)]
pub(crate) struct Keys {
    keys: IndexSet<Vec<u16>>,
}

impl Model for Keys {
    ghost use Rattle.std.specs.Prelude.{List, ℕ, map};

    ghost Value = { List (List ℕ) };

    ghost view = { λ it. map (λ key. key.items) it.keys.keys };
}

impl Keys {
    pub(crate) fn new(alloc: Global) -> Keys
        ensures { result ≡ [] }
    {
        Keys {
            keys: IndexSet::new(alloc),
        }
    }

    /// Enters a term that isn't among the others, and tells whether it did.
    pub(crate) fn add(&mut self, key: Vec<u16>) -> Result<bool, AllocError>
        ensures keys { OnOk result (self.new ≡ (if is_member self.old key.items then self.old else self.old ++ key.items ∷ [])) }
        ensures added { IfOk result (λ added. added ≡ not (is_member self.old key.items)) }
    {
        Ok(self.keys.insert(key)?)
    }
}
