ghost use Rattle.std.specs.Prelude.{◌≡◌, ◌≢◌, ◌<◌, ◌≤◌, ◌-◌, IfSome, IsTrue};
ghost use Rattle.std.specs.Bool.{OnTrue};
ghost use Rattle.mf_types.specs.Ascent.{parent_at, up, IsOnCycle};
ghost use Rattle.mf_types.specs.Marks.{AreClosedAbove, LeadsToMark};
ghost use Rattle.mf_types.specs.Places as spec;
ghost use Rattle.mf_types.specs.BelowTop as related;

use crate::from_top::from_top;
use crate::marks::is_marked;
use crate::number_at::number_at;
use crate::places::{Place, is_root, place_of, places};
use crate::spans::{Span, spans};
use mf_model::{List, descends};
use std::alloc::Global;
use std::marker::Model;

/// The number of each type's parent, with places by which a distant ancestor is found in few
/// jumps, and spans by which related types are found.
#[derive(Debug, Drop)]
pub(crate) struct Ancestry {
    parents: List<usize>,
    places: Vec<Option<Place>>,
    spans: Vec<Span>,
}

/// A type with the root of its tree and its depth: the number of steps up to the root.
#[derive(Clone, Copy, Debug)]
pub(crate) struct Ancestor {
    root: usize,
    number: usize,
    depth: usize,
}

impl Model for Ancestry {
    ghost use Rattle.std.specs.Prelude.{List, ℕ};
    ghost use Rattle.mf_types.specs.Places.{ArePlaces};

    ghost Value = { List ℕ };

    ghost view = { λ ancestry. ancestry.parents };

    ghost invariant = { λ ancestry. ArePlaces ancestry.parents ancestry.places.items };
}

impl Ancestry {
    /// Where there is no memory for places or spans, there are none.
    pub(crate) fn new(alloc: Global, parents: List<usize>) -> Ancestry
        ensures { result ≡ parents }
    {
        let order = match from_top(alloc, parents.as_slice()) {
            Ok(order) => order,
            Err(_) => Vec::new(alloc),
        };
        let places = match places(alloc, parents.as_slice(), order.as_slice()) {
            Ok(places) => places,
            Err(_) => Vec::new(alloc),
        };
        let spans = match spans(
            alloc,
            parents.as_slice(),
            order.as_slice(),
            places.as_slice(),
        ) {
            Ok(spans) => spans,
            Err(_) => Vec::new(alloc),
        };
        Ancestry {
            parents,
            places,
            spans,
        }
    }

    /// The number of each type's parent.
    pub(crate) fn as_slice(&self) -> &[usize]
        ensures { result.now ≡ self.now }
    {
        self.parents.as_slice()
    }

    /// The allocator that the table is kept with.
    pub(crate) fn allocator(&self) -> Global {
        self.parents.allocator()
    }

    /// The number of a type's parent.
    pub(crate) fn parent(&self, number: usize) -> usize
        ensures { result ≡ parent_at self.now number }
    {
        number_at(self.as_slice(), number)
    }

    /// The span of a type.
    pub(crate) fn span(&self, number: usize) -> Option<Span> {
        Some(*self.spans.get(number)?)
    }

    /// Whether the ancestors of each of these types are found by jumps.
    pub(crate) fn has_jumps(&self, types: &[usize]) -> bool {
        types.iter().all(|own| self.is_below_top(*own))
    }

    /// Whether the way up from a type is known to lead to type 0.
    pub(crate) fn is_below_top(&self, own: usize) -> bool {
        match self.place(own) {
            Some(place) => place.root == 0,
            None => false,
        }
    }

    /// Whether a type is the root of a tree.
    pub(crate) fn is_root(&self, own: usize) -> bool {
        is_root(self.places.as_slice(), own)
    }

    /// Whether a type is known to be on no cycle: the way up from it leads to a marked type, and
    /// it is not marked itself.
    #[tactic(auto, using(crate::proofs::OffCycles::on_no_cycle))]
    pub(crate) fn is_on_no_cycle(&self, marks: &[bool], own: usize) -> bool
        requires { AreClosedAbove self.now marks.now }
        ensures { OnTrue result (IsOnCycle self.now own → ⊥) }
    {
        !is_marked(marks, own) && self.leads_to_mark(marks, own)
    }

    // Whether the root above a type is marked, or that above the parent of type 0.
    fn leads_to_mark(&self, marks: &[bool], own: usize) -> bool
        ensures { OnTrue result (LeadsToMark self.now marks.now own) }
    {
        let Some(place) = self.place(own) else {
            return false;
        };
        if is_marked(marks, place.root) {
            return true;
        }
        let Some(above) = self.place(self.parent(place.root)) else {
            return false;
        };
        is_marked(marks, above.root)
    }

    /// Whether one of two types is the other, or descends from it.
    pub(crate) fn is_related(&self, own: usize, other: usize) -> bool
        ensures { result ≡ related.is_related self.now own other }
    {
        match (self.find(own, other), self.find(other, own)) {
            (Some(up), Some(down)) => up || down,
            (Some(true), None) => true,
            (None, Some(true)) => true,
            _ => { descends(self.as_slice(), own, other) || descends(self.as_slice(), other, own) }
        }
    }

    // Whether a type is the other one, or descends from it, where places tell.
    fn find(&self, own: usize, other: usize) -> Option<bool>
        ensures { IfSome result (λ b. b ≡ related.descends self.now own other) }
    {
        let from = self.place(own)?;
        let to = self.place(other)?;
        if from.root != to.root {
            return None;
        }
        let climbs = self.climbs_to(own, from, other, to);
        if from.root == 0 {
            return Some(climbs);
        }
        if climbs || self.goes_round(own, from, other, to) {
            return Some(true);
        }
        None
    }

    fn climbs_to(&self, own: usize, from: Place, other: usize, to: Place) -> bool
        requires { spec.IsPlace self.now own from }
        ensures { result ≡ spec.climbs_to self.now from.depth to.depth own other }
    {
        if from.depth < to.depth {
            return false;
        }
        let from = Ancestor {
            root: from.root,
            number: own,
            depth: from.depth,
        };
        self.climb(from, to.depth) == other
    }

    // Whether the way up from a type passes the root of its tree, which is of a cycle, and leads
    // on to the other one.
    fn goes_round(&self, own: usize, from: Place, other: usize, to: Place) -> bool
        requires place { spec.IsPlace self.now own from }
        requires root { from.root ≢ 0 }
        ensures { OnTrue result (IsTrue (related.descends self.now own other)) }
    {
        let last = self.parent(from.root);
        let Some(around) = self.place(last) else {
            return false;
        };
        let left = self.as_slice().len() - from.depth - 1;
        around.depth.saturating_sub(to.depth) < left && self.climbs_to(last, around, other, to)
    }

    // The ancestor at a depth.
    #[tactic(auto, using(crate::proofs::Depths::climb_goes_on, crate::proofs::Depths::climb_ends))]
    fn climb(&self, from: Ancestor, depth: usize) -> usize
        requires from { spec.Stands self.now from }
        requires above { depth ≤ from.depth }
        ensures { result ≡ up self.now (from.depth - depth) from.number }
    {
        let mut current = from;
        while depth < current.depth {
            current = self.stride(current, depth);
        }
        current.number
    }

    // One step up, or a jump that doesn't lead past a depth.
    #[tactic(auto, using(crate::proofs::Depths::parent_is_ancestor))]
    fn stride(&self, from: Ancestor, depth: usize) -> Ancestor
        requires from { spec.Stands self.now from }
        requires above { depth < from.depth }
        ensures ancestor { spec.IsAncestor self.now from result }
        ensures above { depth ≤ result.depth }
    {
        match self.jump(from) {
            Some(jump) if depth <= jump.depth => jump,
            _ => Ancestor {
                root: from.root,
                number: self.parent(from.number),
                depth: from.depth - 1,
            },
        }
    }

    fn jump(&self, from: Ancestor) -> Option<Ancestor>
        requires from { spec.Stands self.now from }
        requires above { 0 < from.depth }
        ensures { IfSome result (spec.IsAncestor self.now from) }
    {
        let place = self.place(from.number)?;
        let above = self.place(place.jump)?;
        if place.root != from.root || above.root != from.root {
            return None;
        }
        Some(Ancestor {
            root: from.root,
            number: place.jump,
            depth: above.depth,
        })
    }

    fn place(&self, number: usize) -> Option<Place>
        ensures { IfSome result (spec.IsPlace self.now number) }
    {
        place_of(self.places.as_slice(), number)
    }
}
