ghost use Rattle.mf_model.specs.Views.{object_of};
ghost use Rattle.std.specs.Prelude.{◌≡◌, ◌≤◌, length};

use mf_model::Term;
use smallvec::SmallVec;
use std::alloc::Global;

// The binding in places of its own, with room for 64 objects: it takes no memory.
pub(crate) fn places(alloc: Global, binding: &[u16]) -> SmallVec<u16, 64>
    requires { length binding.now ≤ 64 }
    ensures items { result.items ≡ binding.now }
    ensures room { result.capacity ≡ 64 }
{
    let Ok(places) = SmallVec::from_slice(alloc, binding) else {
        unreachable!()
    };
    places
}

// The object that a term stands for.
pub(crate) fn object_at(binding: &[u16], term: Term) -> u16
    ensures { result ≡ object_of binding.now term }
{
    match term {
        Term::Variable(place) => binding.get(usize::from(place)).copied().unwrap_or(0),
        Term::Object(number) => number,
    }
}
