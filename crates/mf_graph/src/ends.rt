ghost use Rattle.mf_graph.specs.NextRanges.{end_of, moved_from, moved_range, next_ranges, scaled_range, widened, with_end};
ghost use Rattle.mf_task.specs.Layers.{scaled_bound, scaled_high, scaled_low};
ghost use Rattle.std.specs.Prelude.{◌≡◌, IfOk, None, get_or, set};

use crate::bound::is_negative;
use crate::moves::{Move, move_at, moves_of};
use crate::range::sign;
use crate::{Bound, Counted, Counting, Range};
use mf_fraction::{Frac, Memory};
use mf_model::{List, Op};
use std::alloc::Global;
use std::cmp::Ordering;

// The ranges of the terms in the next layer, by their ranges in this one and the changes that count.
pub(crate) fn next_ranges(
    alloc: Global,
    ranges: &[Option<Range>],
    counted: &[Counted],
) -> Result<List<Option<Range>>, Memory>
    ensures { IfOk result (λ next. next ≡ next_ranges ranges.now counted.now) }
{
    let moves = moves_of(alloc, ranges.len(), counted)?;
    let mut next = moved_ranges(alloc, ranges, moves.as_slice())?;
    for change in counted {
        widen(&mut next, ranges, change);
    }
    Ok(next)
}

// Each range, moved.
fn moved_ranges(
    alloc: Global,
    ranges: &[Option<Range>],
    moves: &[Move],
) -> Result<List<Option<Range>>, Memory>
    ensures { IfOk result (λ next. next ≡ moved_from 0 ranges.now moves.now) }
{
    let mut next = List::new(alloc);
    for (term, range) in ranges.iter().enumerate() {
        next.push(moved_range(*range, move_at(moves, term)))?;
    }
    Ok(next)
}

fn moved_range(range: Option<Range>, by: Move) -> Option<Range>
    ensures { result ≡ moved_range range by }
{
    match range {
        Some(range) => Some(Range::new(range.low().minus(by.fall), range.high().plus(by.rise))),
        None => None,
    }
}

// The term's range in the next layer, so far, with what an assign or a scaling gives it.
fn widen(next: &mut List<Option<Range>>, ranges: &[Option<Range>], change: &Counted)
    ensures { next.new ≡ with_end ranges.now next.old change.now }
{
    let before = range_at(next.as_slice(), change.term);
    let end = end_of(range_at(ranges, change.term), change.counting);
    put(next, change.term, widened(before, end));
}

fn range_at(ranges: &[Option<Range>], term: u32) -> Option<Range>
    ensures { result ≡ get_or ranges.now term None }
{
    match ranges.get(term as usize) {
        Some(range) => *range,
        None => None,
    }
}

fn put(ranges: &mut List<Option<Range>>, term: u32, range: Option<Range>)
    ensures { ranges.new ≡ set ranges.old term range }
{
    if (term as usize) < ranges.len() {
        ranges.set(term as usize, range);
    }
}

// The least range that has both.
fn widened(before: Option<Range>, end: Option<Range>) -> Option<Range>
    ensures { result ≡ widened before end }
{
    let Some(end) = end else {
        return before;
    };
    match before {
        Some(before) => Some(Range::new(
            before.low().lower(end.low()),
            before.high().higher(end.high()),
        )),
        None => Some(end),
    }
}

// What an assign or a scaling gives a term with this range.
fn end_of(range: Option<Range>, counting: Counting) -> Option<Range>
    ensures { result ≡ end_of range counting }
{
    match counting.op() {
        Op::Assign => Some(counting.range()),
        Op::ScaleUp => scaled_range(counting.factor(), range),
        Op::ScaleDown => scaled_range(counting.factor(), range),
        Op::Increase => None,
        Op::Decrease => None,
    }
}

fn scaled_range(factor: Option<Frac>, range: Option<Range>) -> Option<Range>
    ensures { result ≡ scaled_range factor range }
{
    match (factor, range) {
        (Some(factor), Some(range)) => Some(Range::new(
            scaled_low(factor, range),
            scaled_high(factor, range),
        )),
        _ => None,
    }
}

// The lower end of a range times a factor.
fn scaled_low(factor: Frac, range: Range) -> Bound
    ensures { result ≡ scaled_low factor range }
{
    if is_negative(factor) {
        scaled(factor, range.high())
    } else {
        scaled(factor, range.low())
    }
}

// The upper end of a range times a factor.
fn scaled_high(factor: Frac, range: Range) -> Bound
    ensures { result ≡ scaled_high factor range }
{
    if is_negative(factor) {
        scaled(factor, range.low())
    } else {
        scaled(factor, range.high())
    }
}

// A bound times a factor: 0 times any bound is 0.
fn scaled(factor: Frac, bound: Bound) -> Bound
    ensures { result ≡ scaled_bound factor bound }
{
    match sign(factor) {
        Ordering::Equal => Bound::zero(),
        Ordering::Less => bound.times(factor),
        Ordering::Greater => bound.times(factor),
    }
}
