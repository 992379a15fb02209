use crate::number_at::number_at;
use crate::places::{Place, is_root};
use std::alloc::{AllocError, Global};

/// The numbers of a type and of those below it, where each type is numbered before those below
/// it, and these before any others: from `first`, which is that of the type, to before `behind`.
/// Types of one cycle stand below each other, so they share the span of their root.
#[derive(Clone, Copy, Debug)]
pub(crate) struct Span {
    pub(crate) first: usize,
    pub(crate) behind: usize,
}

impl Span {
    /// Whether one of the two types is the other or stands below it.
    pub(crate) fn is_related(self, other: Span) -> bool {
        self.holds(other) || other.holds(self)
    }

    // Whether the type of another span is this one's or stands below it.
    fn holds(self, other: Span) -> bool {
        self.first <= other.first && other.first < self.behind
    }
}

/// The span of each type, by the number of its parent, its place and an order in which parents
/// stand before their children, but for the roots. No clause says that they are right: what is
/// found by them is to be checked.
pub(crate) fn spans(
    alloc: Global,
    parents: &[usize],
    order: &[usize],
    places: &[Option<Place>],
) -> Result<Vec<Span>, AllocError> {
    let sizes = sizes(alloc, parents, order, places)?;
    let mut next = vec![in alloc; 0usize; parents.len()]?;
    let mut spans = vec![in alloc; Span {
        first: 0,
        behind: 0
    }; parents.len()]?;
    let mut last = 0;
    for own in order {
        let size = number_at(sizes.as_slice(), *own);
        let first = if is_root(places, *own) {
            last
        } else {
            take_numbers(next.as_mut_slice(), number_at(parents, *own), size)
        };
        let behind = first.saturating_add(size);
        last = last.max(behind);
        add(next.as_mut_slice(), *own, first.saturating_add(1));
        set(spans.as_mut_slice(), *own, Span { first, behind });
    }
    for own in order {
        if is_root(places, *own) {
            share_round(spans.as_mut_slice(), parents, *own);
        }
    }
    Ok(spans)
}

// How many types each span has, the type itself among them.
fn sizes(
    alloc: Global,
    parents: &[usize],
    order: &[usize],
    places: &[Option<Place>],
) -> Result<Vec<usize>, AllocError> {
    let mut sizes = vec![in alloc; 1usize; parents.len()]?;
    for own in order.iter().rev() {
        let size = number_at(sizes.as_slice(), *own);
        if !is_root(places, *own) {
            add(sizes.as_mut_slice(), number_at(parents, *own), size);
        }
    }
    Ok(sizes)
}

// Takes the next numbers of the parent, and says which is the first.
fn take_numbers(next: &mut [usize], parent: usize, size: usize) -> usize {
    let first = number_at(next, parent);
    add(next, parent, size);
    first
}

// Gives the span of a root to the types of its cycle.
fn share_round(spans: &mut [Span], parents: &[usize], root: usize) {
    let Some(span) = spans.get(root).copied() else {
        return;
    };
    let mut current = root;
    for _step in 0..parents.len() {
        if current == 0 {
            return;
        }
        set(spans, current, span);
        current = number_at(parents, current);
        if current == root {
            return;
        }
    }
}

fn set(spans: &mut [Span], at: usize, span: Span) {
    if let Some(own) = spans.get_mut(at) {
        *own = span;
    }
}

fn add(numbers: &mut [usize], at: usize, more: usize) {
    if let Some(number) = numbers.get_mut(at) {
        *number = number.saturating_add(more);
    }
}
