ghost use Rattle.std.specs.Prelude.{◌≡◌, IsTrue};
ghost use Rattle.std.specs.Bool.{OnTrue};
ghost use Rattle.mf_types.specs.Ascent.{parent_at};
ghost use Rattle.mf_types.specs.BelowTop as below;
ghost use Rattle.mf_types.specs.Related as spec;

use crate::ancestry::Ancestry;
use crate::guide::Guide;
use crate::relation::are_related as are_lists_related;
use crate::type_row::TypeRow;
use crate::upward::are_related_upward;
use std::alloc::Global;

/// Whether some type of the one row is equal to, above or below some type of the other.
#[tactic(auto, using(crate::proofs::PastTop::related_below_top))]
pub(crate) fn are_related(
    alloc: Global,
    ancestry: &Ancestry,
    row: &TypeRow,
    other: &TypeRow,
) -> bool
    ensures { result ≡ spec.are_related ancestry.now row.now other.now }
{
    if ancestry.parent(0) != 0 {
        return are_related_upward(ancestry.as_slice(), row.as_slice(), other.as_slice());
    }
    are_related_below_top(alloc, ancestry, row, other)
}

// The same where `object` is at the top. Two related types are looked for by spans first, and
// checked. Only where none are found, the lists are compared as a whole.
fn are_related_below_top(alloc: Global, ancestry: &Ancestry, row: &TypeRow, other: &TypeRow) -> bool
    ensures { result ≡ below.are_related ancestry.now row.now other.now }
{
    if let Some((at, other_at)) = find_relatives(ancestry, row, other) {
        if are_related_at(ancestry, row.as_slice(), at, other.as_slice(), other_at) {
            return true;
        }
    }
    are_lists_related(alloc, ancestry, row.as_slice(), other.as_slice())
}

fn are_related_at(
    ancestry: &Ancestry,
    types: &[usize],
    at: usize,
    others: &[usize],
    other_at: usize,
) -> bool
    ensures { OnTrue result (IsTrue (below.are_related ancestry.now types.now others.now)) }
{
    match (types.get(at), others.get(other_at)) {
        (Some(own), Some(other)) => ancestry.is_related(*own, *other),
        _ => false,
    }
}

// The places of two types that are related by their spans.
fn find_relatives(ancestry: &Ancestry, row: &TypeRow, other: &TypeRow) -> Option<(usize, usize)> {
    match (row.guide(), other.guide()) {
        (Some(own), Some(other)) => own.relatives(other),
        (Some(own), None) => find_by_guide(ancestry, own, other.as_slice()),
        (None, Some(other)) => {
            let (other_at, at) = find_by_guide(ancestry, other, row.as_slice())?;
            Some((at, other_at))
        }
        (None, None) => find_among_few(ancestry, row.as_slice(), other.as_slice()),
    }
}

fn find_by_guide(ancestry: &Ancestry, guide: &Guide, others: &[usize]) -> Option<(usize, usize)> {
    for (other_at, other) in others.iter().enumerate() {
        if let Some(at) = guide.relative(ancestry.span(*other)?) {
            return Some((at, other_at));
        }
    }
    None
}

fn find_among_few(
    ancestry: &Ancestry,
    types: &[usize],
    others: &[usize],
) -> Option<(usize, usize)> {
    for (at, own) in types.iter().enumerate() {
        let own = ancestry.span(*own)?;
        for (other_at, other) in others.iter().enumerate() {
            let other = ancestry.span(*other)?;
            if own.is_related(other) {
                return Some((at, other_at));
            }
        }
    }
    None
}
