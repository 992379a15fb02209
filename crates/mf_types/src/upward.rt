ghost use Rattle.std.specs.Prelude.{◌≡◌, ◌||◌};
ghost use Rattle.std.specs.List.{list_any};
ghost use Rattle.mf_types.specs.Related as spec;

use crate::number_at::number_at;

/// Whether some type of the one list is equal to, above or below some type of the other, in a
/// table with the number of each type's parent, in which `object` may have a parent too. Each is
/// compared with each, step by step.
pub(crate) fn are_related_upward(parents: &[usize], types: &[usize], others: &[usize]) -> bool
    ensures { result ≡ spec.are_related parents.now types.now others.now }
{
    types
        .iter()
        .any(|own| is_related_to_one(parents, *own, others))
}

fn is_related_to_one(parents: &[usize], own: usize, others: &[usize]) -> bool
    ensures { result ≡ list_any (λ other. spec.is_related parents.now own other) others.now }
{
    others.iter().any(|other| is_related(parents, own, *other))
}

fn is_related(parents: &[usize], own: usize, other: usize) -> bool
    ensures { result ≡ spec.is_related parents.now own other }
{
    descends(parents, own, other) || descends(parents, other, own)
}

fn descends(parents: &[usize], from: usize, wanted: usize) -> bool
    ensures { result ≡ spec.descends parents.now from wanted }
{
    let mut current = from;
    for _step in 0..parents.len() {
        if current == wanted {
            return true;
        }
        current = number_at(parents, current);
    }
    false
}
