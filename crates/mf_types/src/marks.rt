ghost use Rattle.std.specs.Prelude.{◌≡◌, IfSome};
ghost use Rattle.std.specs.Bool.{OnTrue};
ghost use Rattle.std.specs.List.{list_any};
ghost use Rattle.mf_types.specs.Marks as spec;

use crate::number_at::number_at;
use std::alloc::Global;

/// Marks some types and all above them, in a table with the number of each type's parent. `None`
/// where there is no memory for the marks, or where a number is of no type.
pub(crate) fn mark_above(alloc: Global, parents: &[usize], types: &[usize]) -> Option<Vec<bool>>
    ensures marked { IfSome result (λ marks. spec.Marks parents.now types.now marks.items) }
    ensures closed { IfSome result (λ marks. spec.AreClosed parents.now marks.items) }
{
    let mut marks = vec![in alloc; false; parents.len()].ok()?;
    for own in types {
        if !mark_way(parents, marks.as_mut_slice(), *own) {
            return None;
        }
    }
    Some(marks)
}

// Marks a type and those above it, up to one that is marked.
fn mark_way(parents: &[usize], marks: &mut [bool], from: usize) -> bool
    requires { spec.AreClosed parents.now marks.old }
    ensures { OnTrue result (spec.MarksMore parents.now from marks.old marks.new) }
{
    let mut current = from;
    for _step in 0..parents.len() {
        match marks.get(current) {
            None => return false,
            Some(true) => return true,
            Some(false) => {}
        }
        marks[current] = true;
        if current == 0 {
            return true;
        }
        current = number_at(parents, current);
    }
    false
}

/// Whether one of the types is marked.
pub(crate) fn is_some_marked(marks: &[bool], types: &[usize]) -> bool
    ensures { result ≡ list_any (spec.is_marked marks.now) types.now }
{
    types.iter().any(|own| is_marked(marks, *own))
}

/// Whether a type is marked.
pub(crate) fn is_marked(marks: &[bool], number: usize) -> bool
    ensures { result ≡ spec.is_marked marks.now number }
{
    match marks.get(number) {
        Some(mark) => *mark,
        None => false,
    }
}
