use mf_input::read_task;
use std::alloc::Global;

// Each domain with a problem of it.

pub(crate) const PARCELS: [&str; 2] = [
    "(define (domain parcels)
 (:requirements :typing :adl :fluents :action-costs)
 (:types truck van - vehicle vehicle parcel - thing depot shop - place)
 (:constants hub - depot)
 (:predicates (road ?a ?b - place) (at ?x - thing ?p - place) (inside ?x - parcel ?v - vehicle) (seen ?x - parcel ?p - place))
 (:functions (fuel ?v - vehicle) (tank ?v - vehicle) (length ?a ?b - place) (total-cost) - number)
 (:action drive :parameters (?v - (either truck van) ?a ?b - place)
  :precondition (and (at ?v ?a) (road ?a ?b) (>= (fuel ?v) (* 1.5 (length ?a ?b))))
  :effect (and (not (at ?v ?a)) (at ?v ?b) (decrease (fuel ?v) (* 1.5 (length ?a ?b)))
   (increase (total-cost) (length ?a ?b))
   (forall (?x - parcel) (when (inside ?x ?v) (seen ?x ?b)))))
 (:action load :parameters (?x - parcel ?v - vehicle ?p - place)
  :precondition (and (at ?x ?p) (at ?v ?p))
  :effect (and (inside ?x ?v) (not (at ?x ?p)) (increase (total-cost) 1)))
 (:action unload :parameters (?x - parcel ?v - vehicle ?p - place)
  :precondition (and (inside ?x ?v) (at ?v ?p))
  :effect (and (at ?x ?p) (not (inside ?x ?v)) (increase (total-cost) 1)))
 (:action refill :parameters (?v - vehicle) :precondition (at ?v hub)
  :effect (and (assign (fuel ?v) (tank ?v)) (increase (total-cost) 5))))",
    "(define (problem parcels-1) (:domain parcels)
 (:objects t1 - truck v1 - van x1 x2 - parcel s1 s2 - shop)
 (:init (at t1 hub) (at v1 s1) (at x1 hub) (at x2 s1)
  (road hub s1) (road s1 hub) (road s1 s2) (road s2 s1)
  (= (length hub s1) 2) (= (length s1 hub) 2) (= (length s1 s2) 3) (= (length s2 s1) 3)
  (= (fuel t1) 10) (= (tank t1) 10) (= (fuel v1) 4) (= (tank v1) 4) (= (total-cost) 0))
 (:goal (and (forall (?x - parcel) (at ?x s2)) (exists (?x - parcel) (seen ?x s1))))
 (:metric minimize (total-cost)))",
];

const MADE: [&str; 2] = [
    "(define (domain made)
(:types place package)
(:predicates (truck-at ?a - place) (linked ?a ?b - place) (at ?p - package ?a - place) (loaded ?p - package))
(:functions (fuel) (capacity) (distance ?a ?b - place))
(:action drive :parameters (?a ?b - place) :precondition (and (truck-at ?a) (linked ?a ?b) (>= (fuel) (distance ?a ?b))) :effect (and (not (truck-at ?a)) (truck-at ?b) (decrease (fuel) (distance ?a ?b))))
(:action load :parameters (?p - package ?a - place) :precondition (and (at ?p ?a) (truck-at ?a)) :effect (and (loaded ?p) (not (at ?p ?a))))
(:action unload :parameters (?p - package ?a - place) :precondition (and (loaded ?p) (truck-at ?a)) :effect (and (at ?p ?a) (not (loaded ?p))))
(:action refuel :parameters () :precondition () :effect (assign (fuel) (capacity))))",
    "(define (problem made)
(:domain made)
(:objects l0 l1 - place p1 - package)
(:init
(truck-at l0) (= (fuel) 5) (= (capacity) 5)
(linked l0 l1) (linked l1 l0) (= (distance l0 l1) 1) (= (distance l1 l0) 1)
(at p1 l0)
)
(:goal (and
(at p1 l1)
)))",
];

const FORK: [&str; 2] = [
    "(define (domain fork) (:predicates (s) (q) (p) (t) (r) (u) (a) (b) (c))
 (:action go-q :precondition (s) :effect (and (q) (not (s))))
 (:action go-p :precondition (s) :effect (and (p) (not (s))))
 (:action q-r :precondition (q) :effect (and (r) (a) (b) (not (q))))
 (:action p-t :precondition (p) :effect (and (t) (a) (not (p))))
 (:action t-u :precondition (t) :effect (and (u) (b) (not (t))))
 (:action end-r :precondition (r) :effect (c))
 (:action end-u :precondition (u) :effect (c)))",
    "(define (problem fork-1) (:domain fork) (:init (s)) (:goal (and (a) (b) (c))))",
];

const ROOMS: [&str; 2] = [
    "(define (domain rooms)
 (:predicates (room ?r) (ball ?b) (at-robot ?r) (at ?b ?r) (holding ?b) (free))
 (:action move :parameters (?a ?b) :precondition (and (room ?a) (room ?b) (at-robot ?a))
  :effect (and (at-robot ?b) (not (at-robot ?a))))
 (:action pick :parameters (?b ?r) :precondition (and (ball ?b) (room ?r) (at ?b ?r) (at-robot ?r) (free))
  :effect (and (holding ?b) (not (at ?b ?r)) (not (free))))
 (:action drop :parameters (?b ?r) :precondition (and (ball ?b) (room ?r) (holding ?b) (at-robot ?r))
  :effect (and (at ?b ?r) (free) (not (holding ?b)))))",
    "(define (problem rooms-1) (:domain rooms) (:objects rooma roomb ball1)
 (:init (room rooma) (room roomb) (ball ball1) (at-robot rooma) (at ball1 rooma) (free))
 (:goal (at ball1 roomb)))",
];

const RING: [&str; 2] = [
    "(define (domain ring)
 (:predicates (at ?r) (next ?a ?b))
 (:action go :parameters (?a ?b) :precondition (and (at ?a) (next ?a ?b))
  :effect (and (at ?b) (not (at ?a)))))",
    "(define (problem ring-3) (:domain ring) (:objects r1 r2 r3)
 (:init (at r1) (next r1 r2) (next r2 r3) (next r3 r1))
 (:goal (and (at r2) (at r3))))",
];

pub(crate) const RING_COST: [&str; 2] = [
    "(define (domain ring) (:predicates (at ?r) (next ?a ?b)) (:functions (total-cost) - number)
 (:action go :parameters (?a ?b) :precondition (and (at ?a) (next ?a ?b))
  :effect (and (at ?b) (not (at ?a)) (increase (total-cost) 1))))",
    "(define (problem ring-3) (:domain ring) (:objects r1 r2 r3)
 (:init (at r1) (next r1 r2) (next r2 r3) (next r3 r1) (= (total-cost) 0))
 (:goal (and (at r2) (at r3))) (:metric minimize (total-cost)))",
];

const BURN: [&str; 2] = [
    "(define (domain burn) (:functions (fuel))
 (:action burn :precondition (>= (fuel) (/ 1 3)) :effect (decrease (fuel) (/ 1 3))))",
    "(define (problem burn-1) (:domain burn) (:init (= (fuel) 1.0)) (:goal (<= (fuel) 0)))",
];

const DIST: [&str; 2] = [
    "(define (domain dist) (:predicates (at ?a)) (:functions (distance ?a ?b))
 (:action drive :parameters (?a ?b) :precondition (and (at ?a) (not (< (distance ?a ?b) 5)))
  :effect (and (at ?b) (not (at ?a)))))",
    "(define (problem dist-1) (:domain dist) (:objects a b c) (:init (at a) (= (distance a b) 7)) (:goal (at b)))",
];

const TWICE: [&str; 2] = [
    "(define (domain twice) (:predicates (p) (q) (done))
 (:action act :effect (and (when (p) (not (q))) (when (p) (q)) (done))))",
    "(define (problem twice-1) (:domain twice) (:init (p) (q)) (:goal (and (q) (done))))",
];

const PACK: [&str; 2] = [
    "(define (domain pack) (:types item) (:predicates (wanted ?x - item) (packed ?x - item) (done))
 (:action pack :parameters (?x - item) :precondition () :effect (packed ?x))
 (:action finish :precondition (forall (?x - item) (imply (wanted ?x) (packed ?x))) :effect (done)))",
    "(define (problem pack-1) (:domain pack) (:objects i1 i2 i3 i4 i5 i6 i7 i8 i9 i10 i11 i12 i13 i14 i15 i16 i17 i18 i19 i20 i21 i22 i23 i24 i25 i26 i27 i28 i29 i30 - item)
 (:init (wanted i1) (wanted i2) (wanted i3) (wanted i4) (wanted i5) (wanted i6) (wanted i7) (wanted i8) (wanted i9) (wanted i10) (wanted i11) (wanted i12) (wanted i13) (wanted i14) (wanted i15) (wanted i16) (wanted i17) (wanted i18) (wanted i19) (wanted i20) (wanted i21) (wanted i22) (wanted i23) (wanted i24) (wanted i25) (wanted i26) (wanted i27) (wanted i28) (wanted i29) (wanted i30)
  (packed i1) (packed i2) (packed i3) (packed i4) (packed i5) (packed i6) (packed i7) (packed i8) (packed i9) (packed i10) (packed i11) (packed i12) (packed i13) (packed i14) (packed i15) (packed i16) (packed i17) (packed i18) (packed i19) (packed i20) (packed i21) (packed i22) (packed i23) (packed i24) (packed i25) (packed i26) (packed i27) (packed i28) (packed i29))
 (:goal (done)))",
];

const GROW: [&str; 2] = [
    "(define (domain grow) (:functions (x)) (:action double :effect (scale-up (x) 2)))",
    "(define (problem grow-1) (:domain grow) (:init (= (x) 1)) (:goal (< (x) 0)))",
];

const COUNT: [&str; 2] = [
    "(define (domain count) (:functions (n)) (:action inc :effect (increase (n) 1)))",
    "(define (problem count-1) (:domain count) (:init (= (n) 0)) (:goal (>= (n) 10)))",
];

const SUMS: [&str; 2] = [
    "(define (domain sums) (:functions (n)) (:action two :effect (and (increase (n) 2) (increase (n) 3))))",
    "(define (problem sums-1) (:domain sums) (:init (= (n) 0)) (:goal (= (n) 5)))",
];

const PRODUCT: [&str; 2] = [
    "(define (domain d)(:functions (x) (y))(:action a :parameters () :precondition (> (* (x) (y)) 1) :effect (increase (x) 1)))",
    "(define (problem p) (:domain d) (:goal ()))",
];

/// Whether the files have a task.
fn is_accepted(alloc: Global, files: [&str; 2]) -> bool {
    let [domain, problem] = files;
    let domain = domain.as_bytes();
    let problem = problem.as_bytes();
    if domain.len() > 16_777_216 || problem.len() > 16_777_216 {
        return false;
    }
    read_task(alloc, domain, problem).is_ok()
}

#[test]
fn tasks_without_numbers(rt: HostRuntime) {
    let alloc = rt.alloc();
    for files in [FORK, ROOMS, RING, TWICE, PACK] {
        assert!(rt; is_accepted(alloc, files));
    }
}

#[test]
fn tasks_with_numbers(rt: HostRuntime) {
    let alloc = rt.alloc();
    for files in [
        PARCELS, MADE, RING_COST, BURN, DIST, GROW, COUNT, SUMS, PRODUCT,
    ] {
        assert!(rt; is_accepted(alloc, files));
    }
}
