ghost use Rattle.std.specs.Prelude.{◌≡◌, ◌||◌, IfSome};
ghost use Rattle.std.specs.List.{list_any};
ghost use Rattle.mf_types.specs.Marks.{is_marked};
ghost use Rattle.mf_types.specs.BelowTop as spec;

use crate::ancestry::Ancestry;
use crate::marks::{is_some_marked, mark_above};
use std::alloc::Global;

/// Whether some type of the one list is equal to, above or below some type of the other.
///
/// Few types are compared each with each, by jumps. Where there are many, they are marked first
/// with all above them, so that the time is that of both lists and the table. Where there is no
/// memory for the marks, each is compared with each.
pub(crate) fn are_related(
    alloc: Global,
    ancestry: &Ancestry,
    types: &[usize],
    others: &[usize],
) -> bool
    ensures { result ≡ spec.are_related ancestry.now types.now others.now }
{
    if are_few(ancestry, types, others) {
        return is_some_related(ancestry, types, others);
    }
    match are_related_by_marks(alloc, ancestry.as_slice(), types, others) {
        Some(are_related) => are_related,
        None => is_some_related(ancestry, types, others),
    }
}

// Whether it is quicker to compare each with each than to mark.
fn are_few(ancestry: &Ancestry, types: &[usize], others: &[usize]) -> bool {
    let pairs = types.len().saturating_mul(others.len());
    if pairs <= 1 {
        return true;
    }
    pairs <= ancestry.as_slice().len() / 64 + 16
        && ancestry.has_jumps(types)
        && ancestry.has_jumps(others)
}

#[tactic(auto, using(crate::proofs::ByMarks::related_by_marks))]
fn are_related_by_marks(
    alloc: Global,
    parents: &[usize],
    types: &[usize],
    others: &[usize],
) -> Option<bool>
    ensures { IfSome result (λ b. b ≡ spec.are_related parents.now types.now others.now) }
{
    let above = mark_above(alloc, parents, types)?;
    let above_others = mark_above(alloc, parents, others)?;
    Some(is_either_marked(above.as_slice(), others, above_others.as_slice(), types))
}

// Whether a type of one of the lists is marked as above a type of the other.
fn is_either_marked(
    above: &[bool],
    others: &[usize],
    above_others: &[bool],
    types: &[usize],
) -> bool
    ensures { result
        ≡ (list_any (is_marked above.now) others.now
        || list_any (is_marked above_others.now) types.now) }
{
    is_some_marked(above, others) || is_some_marked(above_others, types)
}

fn is_some_related(ancestry: &Ancestry, types: &[usize], others: &[usize]) -> bool
    ensures { result ≡ spec.are_related ancestry.now types.now others.now }
{
    types
        .iter()
        .any(|own| is_related_to_one(ancestry, *own, others))
}

fn is_related_to_one(ancestry: &Ancestry, own: usize, others: &[usize]) -> bool
    ensures { result ≡ list_any (λ other. spec.is_related ancestry.now own other) others.now }
{
    others.iter().any(|other| ancestry.is_related(own, *other))
}
