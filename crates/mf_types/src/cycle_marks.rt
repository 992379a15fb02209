ghost use Rattle.std.specs.Prelude.{IfSome};
ghost use Rattle.mf_types.specs.Marks as spec;

use crate::ancestry::Ancestry;
use crate::marks::{is_marked, mark_above};
use std::alloc::{AllocError, Global};

/// Marks the types of cycles, and type 0 where it stands at the top. All above a marked type is
/// marked. Where there is no memory, nothing is marked.
pub(crate) fn cycle_marks(alloc: Global, ancestry: &Ancestry) -> Vec<bool>
    ensures { spec.AreClosedAbove ancestry.now result.items }
{
    match mark_cycles(alloc, ancestry) {
        Some(marks) => marks,
        None => Vec::new(alloc),
    }
}

fn mark_cycles(alloc: Global, ancestry: &Ancestry) -> Option<Vec<bool>>
    ensures { IfSome result (λ marks. spec.AreClosedAbove ancestry.now marks.items) }
{
    let starts = starts(alloc, ancestry).ok()?;
    let marks = mark_above(alloc, ancestry.as_slice(), starts.as_slice())?;
    if is_marked(marks.as_slice(), 0) && !is_marked(marks.as_slice(), ancestry.parent(0)) {
        return None;
    }
    Some(marks)
}

// The types that the ways up lead to and round from: the roots below which no other stands, and
// the parent of type 0 where the way from there leads back.
fn starts(alloc: Global, ancestry: &Ancestry) -> Result<Vec<usize>, AllocError> {
    let mut starts = Vec::new(alloc);
    for own in 1..ancestry.as_slice().len() {
        if ancestry.is_root(own) {
            starts.push(own)?;
        }
    }
    let parent = ancestry.parent(0);
    if ancestry.is_below_top(parent) {
        starts.push(parent)?;
    }
    Ok(starts)
}
