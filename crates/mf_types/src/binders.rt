ghost use Rattle.std.specs.Prelude.{◌≡◌, ◌<◌, ◌-◌, [], ◌∷◌, ◌++◌, Some, length, take, IsSome, IfOk, IfSome, OnOk, OnErr};
ghost use Rattle.mf_types.specs.Hiding.{Notes, place_of};
ghost use Rattle.mf_types.specs.Typing.{place_in};

use indexmap::IndexMap;
use mf_model::Text;
use std::alloc::{AllocError, Global};
use std::marker::Model;

/// A variable in scope, with the place of the outer variable of the same name, which it hides.
#[derive(Debug, Drop)]
struct Binder {
    name: Text,
    hidden: Option<usize>,
}

/// The variables in scope, found by a hash table. Contracts see the list of their names, the
/// outermost first.
#[derive(Drop)]
pub(crate) struct Binders {
    places: IndexMap<Vec<u8>, usize>,
    stack: Vec<Binder>,
}

impl Model for Binders {
    ghost use Rattle.std.specs.Prelude.{List, ℕ};
    ghost use Rattle.mf_types.specs.Hiding.{IsKept, names_of, place_of};

    ghost Value = { List (List ℕ) };

    ghost view = { λ binders. names_of binders.stack.items };

    ghost invariant = { λ binders. IsKept (place_of binders.places) binders.stack.items };
}

/// Notes the place of the innermost variable of a name, and answers the place that it hides.
fn note(
    alloc: Global,
    places: &mut IndexMap<Vec<u8>, usize>,
    name: &[u8],
    place: usize,
) -> Result<Option<usize>, AllocError>
    ensures hidden { IfOk result (λ hidden. hidden ≡ place_of places.old name.now) }
    ensures ok { OnOk result (Notes (place_of places.old) name.now (Some place) (place_of places.new)) }
    ensures err { OnErr result (places.new.entries ≡ places.old.entries) }
{
    let key = Vec::from_slice(alloc, name)?;
    let hidden = places.insert(key, place)?;
    Ok(hidden)
}

/// Puts back the place that was hidden; without one the name has none.
fn put_back(places: &mut IndexMap<Vec<u8>, usize>, name: &[u8], hidden: Option<usize>)
    requires { IsSome (place_of places.old name.now) }
    ensures { Notes (place_of places.old) name.now hidden (place_of places.new) }
{
    match hidden {
        None => {
            places.swap_remove(name);
        }
        Some(place) => {
            if let Some(own) = places.get_mut(name) {
                *own = place;
            }
        }
    }
}

impl Binders {
    pub(crate) fn new(alloc: Global) -> Binders
        ensures { result ≡ [] }
    {
        Binders {
            places: IndexMap::new(alloc),
            stack: Vec::new(alloc),
        }
    }

    /// How many variables are in scope.
    pub(crate) fn len(&self) -> usize
        ensures { result ≡ length self.now }
    {
        self.stack.len()
    }

    /// The place of the innermost variable of a name.
    pub(crate) fn find(&self, name: &[u8]) -> Option<usize>
        ensures value { result ≡ place_in self.now name.now }
        ensures within { IfSome result (λ n. n < length self.now) }
    {
        self.places.get(name).copied()
    }

    /// Puts a variable inside the others.
    pub(crate) fn push(&mut self, alloc: Global, name: &[u8]) -> Result<(), AllocError>
        ensures ok { OnOk result (self.new ≡ self.old ++ name.now ∷ []) }
        ensures err { OnErr result (self.new ≡ self.old) }
    {
        let own = Text::from_slice(alloc, name)?;
        self.stack.reserve(1)?;
        let hidden = note(alloc, &mut self.places, name, self.stack.len())?;
        self.stack.push_reserved(Binder { name: own, hidden });
        Ok(())
    }

    /// Takes the innermost variable out of scope. What it hid is found again.
    fn pop(&mut self)
        ensures { self.new ≡ take (length self.old - 1) self.old }
    {
        let Some(binder) = self.stack.pop() else {
            return;
        };
        put_back(&mut self.places, binder.name.as_slice(), binder.hidden);
    }

    /// Leaves so many of the outermost variables in scope.
    pub(crate) fn truncate(&mut self, len: usize)
        ensures { self.new ≡ take len self.old }
    {
        while self.len() > len {
            self.pop();
        }
    }
}
