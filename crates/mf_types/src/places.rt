ghost use Rattle.std.specs.Prelude.{◌≡◌, ◌≢◌, IfOk, IfSome, OnOk};
ghost use Rattle.mf_types.specs.Ascent.{parent_at};
ghost use Rattle.mf_types.specs.Places as spec;

use crate::number_at::number_at;
use std::alloc::{AllocError, Global};

/// Where a type stands in its tree: the root, the number of steps up to it, and an ancestor to
/// jump to. The root is type 0; of a cycle that is without type 0 it is the type that the order
/// has first.
#[derive(Clone, Copy, Debug)]
pub(crate) struct Place {
    pub(crate) root: usize,
    pub(crate) depth: usize,
    pub(crate) jump: usize,
}

/// The places of the types in a table with the number of each type's parent, made in an order in
/// which parents stand before their children, but for the roots. The time is that of the table.
#[tactic(auto, using(crate::proofs::Depths::no_place))]
pub(crate) fn places(
    alloc: Global,
    parents: &[usize],
    order: &[usize],
) -> Result<Vec<Option<Place>>, AllocError>
    ensures { IfOk result (λ places. spec.ArePlaces parents.now places.items) }
{
    let mut places = vec![in alloc; None; parents.len()]?;
    for number in order {
        place_type(parents, places.as_mut_slice(), *number);
    }
    Ok(places)
}

#[tactic(auto, using(crate::proofs::Depths::one_place_more))]
fn place_type(parents: &[usize], places: &mut [Option<Place>], number: usize)
    requires { spec.ArePlaces parents.now places.old }
    ensures { spec.ArePlaces parents.now places.new }
{
    let place = new_place(parents, places, number);
    if number < places.len() {
        places[number] = place;
    }
}

// The place of a type by that of its parent. A type whose parent has none yet is a root.
fn new_place(parents: &[usize], places: &[Option<Place>], number: usize) -> Option<Place>
    requires { spec.ArePlaces parents.now places.now }
    ensures { IfSome result (spec.IsPlace parents.now number) }
{
    if number == 0 {
        return root_place(parents, 0);
    }
    match place_of(places, number_at(parents, number)) {
        Some(above) => place_below(parents, places, number, above),
        None => root_place(parents, number),
    }
}

#[tactic(auto, using(crate::proofs::Depths::place_of_root))]
fn root_place(parents: &[usize], number: usize) -> Option<Place>
    ensures { IfSome result (spec.IsPlace parents.now number) }
{
    if parents.is_empty() {
        return None;
    }
    Some(Place {
        root: number,
        depth: 0,
        jump: number,
    })
}

// The place of a type below that of its parent.
fn place_below(
    parents: &[usize],
    places: &[Option<Place>],
    number: usize,
    above: Place,
) -> Option<Place>
    requires places { spec.ArePlaces parents.now places.now }
    requires number { number ≢ 0 }
    requires above { spec.IsPlace parents.now (parent_at parents.now number) above }
    ensures { IfSome result (spec.IsPlace parents.now number) }
{
    let depth = above.depth + 1;
    if number == above.root || depth >= parents.len() {
        return None;
    }
    let jump = new_jump(parents, places, number_at(parents, number), above);
    Some(Place {
        root: above.root,
        depth,
        jump,
    })
}

// Where a child jumps to: past two jumps of the same length, else to its parent. So the way to
// an ancestor takes jumps whose number is logarithmic in the depth.
fn new_jump(parents: &[usize], places: &[Option<Place>], parent: usize, above: Place) -> usize
    requires places { spec.ArePlaces parents.now places.now }
    requires above { spec.IsPlace parents.now parent above }
    ensures { spec.Leads parents.now above.depth parent result }
{
    let Some(middle) = place_of(places, above.jump) else {
        return parent;
    };
    let Some(far) = place_of(places, middle.jump) else {
        return parent;
    };
    let first = above.depth.abs_diff(middle.depth);
    let second = middle.depth.abs_diff(far.depth);
    if above.root == middle.root && first == second {
        middle.jump
    } else {
        parent
    }
}

/// The place of a type.
pub(crate) fn place_of(places: &[Option<Place>], number: usize) -> Option<Place>
    ensures { result ≡ spec.place_at places.now number }
{
    match places.get(number) {
        Some(place) => *place,
        None => None,
    }
}

/// Whether a type is the root of a tree.
pub(crate) fn is_root(places: &[Option<Place>], number: usize) -> bool {
    match place_of(places, number) {
        Some(place) => place.depth == 0,
        None => false,
    }
}
