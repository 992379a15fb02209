ghost use Rattle.mf_graph.specs.NextRanges.{moved, still, with_move};
ghost use Rattle.mf_task.specs.Layers.{fall_of, is_step, rise_of};
ghost use Rattle.std.specs.List.{fold};
ghost use Rattle.std.specs.Prelude.{◌≡◌, IfOk, get_or, replicate, set};

use crate::{Bound, Counted, Counting};
use mf_fraction::Memory;
use mf_model::{List, Op};
use std::alloc::Global;

/// How far the bounds of a term move in one layer: the sum of the rises, and that of the falls.
#[derive(Clone, Copy, Debug)]
pub struct Move {
    pub rise: Bound,
    pub fall: Bound,
}

// How far the bounds of so many terms move, by the increases and decreases among the changes.
pub(crate) fn moves_of(
    alloc: Global,
    terms: usize,
    counted: &[Counted],
) -> Result<List<Move>, Memory>
    ensures { IfOk result (λ moves. moves ≡ fold with_move (replicate terms still) counted.now) }
{
    let mut moves = List::from_vec(vec![in alloc; still(); terms]?);
    for change in counted {
        add_move(&mut moves, change);
    }
    Ok(moves)
}

fn add_move(moves: &mut List<Move>, change: &Counted)
    ensures { moves.new ≡ with_move moves.old change.now }
{
    if is_step(change.counting) {
        let before = move_at(moves.as_slice(), change.term as usize);
        put(moves, change.term, moved(before, change.counting));
    }
}

// How far a term moves; one past the end does not.
pub(crate) fn move_at(moves: &[Move], term: usize) -> Move
    ensures { result ≡ get_or moves.now term still }
{
    match moves.get(term) {
        Some(item) => *item,
        None => still(),
    }
}

fn still() -> Move
    ensures { result ≡ still }
{
    Move {
        rise: Bound::zero(),
        fall: Bound::zero(),
    }
}

fn put(moves: &mut List<Move>, term: u32, item: Move)
    ensures { moves.new ≡ set moves.old term item }
{
    if (term as usize) < moves.len() {
        moves.set(term as usize, item);
    }
}

fn moved(before: Move, counting: Counting) -> Move
    ensures { result ≡ moved before counting }
{
    Move {
        rise: before.rise.plus(rise_of(counting)),
        fall: before.fall.plus(fall_of(counting)),
    }
}

fn is_step(counting: Counting) -> bool
    ensures { result ≡ is_step counting }
{
    match counting.op() {
        Op::Increase => true,
        Op::Decrease => true,
        Op::Assign => false,
        Op::ScaleUp => false,
        Op::ScaleDown => false,
    }
}

fn rise_of(counting: Counting) -> Bound
    ensures { result ≡ rise_of counting }
{
    match counting.op() {
        Op::Increase => counting.range().high().positive_part(),
        Op::Decrease => counting.range().low().negative().positive_part(),
        Op::Assign => Bound::zero(),
        Op::ScaleUp => Bound::zero(),
        Op::ScaleDown => Bound::zero(),
    }
}

fn fall_of(counting: Counting) -> Bound
    ensures { result ≡ fall_of counting }
{
    match counting.op() {
        Op::Increase => counting.range().low().negative().positive_part(),
        Op::Decrease => counting.range().high().positive_part(),
        Op::Assign => Bound::zero(),
        Op::ScaleUp => Bound::zero(),
        Op::ScaleDown => Bound::zero(),
    }
}
