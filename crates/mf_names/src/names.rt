ghost use Rattle.std.specs.Prelude.{◌≡◌, ◌<◌, [], ◌∷◌, ◌++◌, length, slice_get, OnOk, OnErr, IfSome, None};
ghost use Rattle.std.specs.Option.{option_copied};
ghost use Rattle.mf_model.specs.Resolution.{number_of};

use indexmap::IndexSet;
use mf_model::Text;
use std::alloc::{AllocError, Global};
use std::marker::Model;

/// Names in the order in which they were entered, no two the same, seen by contracts as the list of their texts.
#[derive(Debug, Drop)]
pub struct Names {
    texts: IndexSet<Vec<u8>>,
}

impl Model for Names {
    ghost use Rattle.std.specs.Prelude.{List, ℕ, map};

    ghost Value = { List (List ℕ) };

    ghost view = { λ names. map (λ text. text.items) names.texts.keys };
}

impl Names {
    pub fn new(alloc: Global) -> Names
        ensures { result ≡ [] }
    {
        Names {
            texts: IndexSet::new(alloc),
        }
    }

    /// The place of a name.
    pub fn find(&self, name: &[u8]) -> Option<usize>
        ensures value { result ≡ number_of self.now name.now }
        ensures within { IfSome result (λ n. n < length self.now) }
    {
        self.texts.get_index_of(name)
    }

    /// How many there are.
    pub fn len(&self) -> usize
        ensures { result ≡ length self.now }
    {
        self.texts.len()
    }

    /// The name at a place.
    pub fn get(&self, at: usize) -> Option<&[u8]>
        ensures { option_copied result ≡ slice_get self.now at }
    {
        match self.texts.get_index(at) {
            Some(text) => Some(text.as_slice()),
            None => None,
        }
    }

    /// Enters a name behind the others.
    pub fn add(&mut self, alloc: Global, name: &Text) -> Result<(), AllocError>
        requires { number_of self.old name.now ≡ None }
        ensures ok { OnOk result (self.new ≡ self.old ++ name.now ∷ []) }
        ensures err { OnErr result (self.new ≡ self.old) }
    {
        let text = Vec::from_slice(alloc, name.as_slice())?;
        self.texts.insert(text)?;
        Ok(())
    }
}
