use crate::ancestry::Ancestry;
use crate::number_set::NumberSet;
use crate::spans::Span;
use std::alloc::{AllocError, Global};

// A guide has two bits for each type of the table, at most so many times two for each of the list.
const MOST_BITS: usize = 160;

/// What finds a related type among many in few steps. No clause says that it finds one: what it
/// finds is to be checked.
#[derive(Debug, Drop)]
pub(crate) struct Guide {
    /// Those below no other, in the order of their spans.
    outermost: Vec<Standing>,
    /// Of a list that is long beside the table.
    sets: Option<Sets>,
}

/// A type of a list: its place in the list, and its span.
#[derive(Clone, Copy, Debug)]
struct Standing {
    at: usize,
    span: Span,
}

/// Numbers of types by which two long lists are compared.
#[derive(Debug, Drop)]
struct Sets {
    /// Where the spans of the outermost begin.
    own: NumberSet,
    /// Where the spans of all types begin that are related to one of them.
    related: NumberSet,
}

impl Guide {
    pub(crate) fn new(
        alloc: Global,
        ancestry: &Ancestry,
        types: &[usize],
    ) -> Result<Guide, AllocError> {
        let outermost = outermost(alloc, ancestry, types)?;
        let sets = if types.len() < ancestry.as_slice().len() / MOST_BITS {
            None
        } else {
            Some(Sets::new(alloc, ancestry, types, outermost.as_slice())?)
        };
        Ok(Guide { outermost, sets })
    }

    /// The place of a type that is related to the one of a span.
    pub(crate) fn relative(&self, span: Span) -> Option<usize> {
        let behind = self
            .outermost
            .partition_point(|own| own.span.first <= span.first);
        match self.outermost.get(behind.saturating_sub(1)) {
            Some(before) if before.span.is_related(span) => Some(before.at),
            _ => match self.outermost.get(behind) {
                Some(next) if next.span.is_related(span) => Some(next.at),
                _ => None,
            },
        }
    }

    /// The places of two related types, one here and one in another list.
    pub(crate) fn relatives(&self, other: &Guide) -> Option<(usize, usize)> {
        match (&self.sets, &other.sets) {
            (Some(own), Some(others)) => {
                let number = own.related.first_common(&others.own)?;
                let found = other
                    .outermost
                    .binary_search_by_key(&number, |theirs| theirs.span.first)
                    .ok()?;
                let standing = other.outermost.get(found)?;
                Some((self.relative(standing.span)?, standing.at))
            }
            _ => related_places(self.outermost.as_slice(), other.outermost.as_slice()),
        }
    }
}

impl Sets {
    fn new(
        alloc: Global,
        ancestry: &Ancestry,
        types: &[usize],
        outermost: &[Standing],
    ) -> Result<Sets, AllocError> {
        let bound = ancestry.as_slice().len();
        let mut sets = Sets {
            own: NumberSet::new(alloc, bound)?,
            related: NumberSet::new(alloc, bound)?,
        };
        for standing in outermost {
            sets.own.insert(standing.span.first);
            add_below(&mut sets.related, standing.span, bound);
        }
        for standing in outermost {
            if let Some(own) = types.get(standing.at) {
                add_above(&mut sets.related, ancestry, *own);
            }
        }
        Ok(sets)
    }
}

// The places of two related types, found in one pass over both lists.
fn related_places(types: &[Standing], others: &[Standing]) -> Option<(usize, usize)> {
    let mut at = 0usize;
    let mut other_at = 0usize;
    for _step in 0..types.len().saturating_add(others.len()) {
        let own = types.get(at)?;
        let other = others.get(other_at)?;
        if own.span.is_related(other.span) {
            return Some((own.at, other.at));
        }
        if own.span.first < other.span.first {
            at = at.saturating_add(1);
        } else {
            other_at = other_at.saturating_add(1);
        }
    }
    None
}

fn outermost(
    alloc: Global,
    ancestry: &Ancestry,
    types: &[usize],
) -> Result<Vec<Standing>, AllocError> {
    let mut standings = Vec::new(alloc);
    for (at, own) in types.iter().enumerate() {
        if let Some(span) = ancestry.span(*own) {
            standings.push(Standing { at, span })?;
        }
    }
    standings.sort_unstable_by_key(|standing| standing.span.first);
    let mut behind = 0;
    standings.retain(|standing| {
        let is_outermost = behind <= standing.span.first;
        if is_outermost {
            behind = standing.span.behind;
        }
        is_outermost
    });
    Ok(standings)
}

// Adds a span.
fn add_below(numbers: &mut NumberSet, span: Span, bound: usize) {
    for number in span.first..span.behind.min(bound) {
        numbers.insert(number);
    }
}

// Adds the types above one, up to one that is there.
fn add_above(numbers: &mut NumberSet, ancestry: &Ancestry, own: usize) {
    let mut current = own;
    for _step in 0..ancestry.as_slice().len() {
        if current == 0 {
            return;
        }
        current = ancestry.parent(current);
        let Some(span) = ancestry.span(current) else {
            return;
        };
        if numbers.contains(span.first) {
            return;
        }
        numbers.insert(span.first);
    }
}
