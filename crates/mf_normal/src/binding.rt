ghost use Rattle.mf_model.specs.States.{same_numbers};
ghost use Rattle.mf_model.specs.Views.{object_of, objects_of};
ghost use Rattle.std.specs.Prelude.{◌≡◌};

use mf_model::Term;

/// The object that a term stands for.
pub(crate) fn object_at(binding: &[u16], term: Term) -> u16
    ensures { result ≡ object_of binding.now term }
{
    match term {
        Term::Variable(place) => binding.get(usize::from(place)).copied().unwrap_or(0),
        Term::Object(number) => number,
    }
}

/// Whether the terms stand for exactly these objects.
pub(crate) fn stand_for(binding: &[u16], terms: &[Term], objects: &[u16]) -> bool
    ensures { result ≡ same_numbers (objects_of binding.now terms.now) objects.now }
{
    if terms.len() != objects.len() {
        return false;
    }
    for (at, term) in terms.iter().enumerate() {
        if object_at(binding, *term) != objects[at] {
            return false;
        }
    }
    true
}
