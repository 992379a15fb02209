use crate::number_at::number_at;
use std::alloc::{AllocError, Global};

/// The types in an order in which parents stand before their children, by a table with the number
/// of each type's parent. Where parents lead in a circle, no order can be kept.
pub(crate) fn from_top(alloc: Global, parents: &[usize]) -> Result<Vec<usize>, AllocError> {
    let mut order = Vec::new(alloc);
    let mut seen = vec![in alloc; false; parents.len()]?;
    for number in 0..parents.len() {
        let way = way_up(alloc, parents, seen.as_mut_slice(), number)?;
        for own in way.iter().rev() {
            order.push(*own)?;
        }
    }
    Ok(order)
}

// A type and those above it, up to type 0, or below one that was seen.
fn way_up(
    alloc: Global,
    parents: &[usize],
    seen: &mut [bool],
    from: usize,
) -> Result<Vec<usize>, AllocError> {
    let mut way = Vec::new(alloc);
    let mut current = from;
    for _step in 0..parents.len() {
        match seen.get(current) {
            Some(false) => {}
            Some(true) => return Ok(way),
            None => return Ok(way),
        }
        seen[current] = true;
        way.push(current)?;
        if current == 0 {
            return Ok(way);
        }
        current = number_at(parents, current);
    }
    Ok(way)
}
