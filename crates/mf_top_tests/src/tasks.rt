//! Domains, problems and plans that are judged.

pub(crate) const PARCELS: &str = "(define (domain parcels)
 (:requirements :typing :adl :fluents :action-costs)
 (:types truck van - vehicle vehicle parcel - thing depot shop - place)
 (:constants hub - depot)
 (:predicates (road ?a ?b - place) (at ?x - thing ?p - place) (inside ?x - parcel ?v - vehicle) (seen ?x - parcel ?p - place))
 (:functions (fuel ?v - vehicle) (tank ?v - vehicle) (length ?a ?b - place) (total-cost) - number)
 (:action drive :parameters (?v - (either truck van) ?a ?b - place)
  :precondition (and (at ?v ?a) (road ?a ?b) (>= (fuel ?v) (* 1.5 (length ?a ?b))))
  :effect (and (not (at ?v ?a)) (at ?v ?b) (decrease (fuel ?v) (* 1.5 (length ?a ?b)))
   (increase (total-cost) (length ?a ?b))
   (forall (?x - parcel) (when (inside ?x ?v) (seen ?x ?b)))))
 (:action load :parameters (?x - parcel ?v - vehicle ?p - place)
  :precondition (and (at ?x ?p) (at ?v ?p))
  :effect (and (inside ?x ?v) (not (at ?x ?p)) (increase (total-cost) 1)))
 (:action unload :parameters (?x - parcel ?v - vehicle ?p - place)
  :precondition (and (inside ?x ?v) (at ?v ?p))
  :effect (and (at ?x ?p) (not (inside ?x ?v)) (increase (total-cost) 1)))
 (:action refill :parameters (?v - vehicle) :precondition (at ?v hub)
  :effect (and (assign (fuel ?v) (tank ?v)) (increase (total-cost) 5))))";

pub(crate) const PARCELS_1: &str = "(define (problem parcels-1) (:domain parcels)
 (:objects t1 - truck v1 - van x1 x2 - parcel s1 s2 - shop)
 (:init (at t1 hub) (at v1 s1) (at x1 hub) (at x2 s1)
  (road hub s1) (road s1 hub) (road s1 s2) (road s2 s1)
  (= (length hub s1) 2) (= (length s1 hub) 2) (= (length s1 s2) 3) (= (length s2 s1) 3)
  (= (fuel t1) 10) (= (tank t1) 10) (= (fuel v1) 4) (= (tank v1) 4) (= (total-cost) 0))
 (:goal (and (forall (?x - parcel) (at ?x s2)) (exists (?x - parcel) (seen ?x s1))))
 (:metric minimize (total-cost)))";

pub(crate) const PARCELS_PLAN: &str = "; one truck takes both parcels to the far shop
(load x1 t1 hub)
(drive t1 hub s1)
(load x2 t1 s1)
(drive t1 s1 s2)
(unload x1 t1 s2)
(unload x2 t1 s2)";

pub(crate) const RING_COST: &str =
    "(define (domain ring) (:predicates (at ?r) (next ?a ?b)) (:functions (total-cost) - number)
 (:action go :parameters (?a ?b) :precondition (and (at ?a) (next ?a ?b))
  :effect (and (at ?b) (not (at ?a)) (increase (total-cost) 1))))";

pub(crate) const RING_COST_3: &str = "(define (problem ring-3) (:domain ring) (:objects r1 r2 r3)
 (:init (at r1) (next r1 r2) (next r2 r3) (next r3 r1) (= (total-cost) 0))
 (:goal (at r3)) (:metric minimize (total-cost)))";

pub(crate) const BURN_AT_LEAST: &str = "(define (domain burn) (:functions (fuel))
 (:action burn :precondition (>= (fuel) (/ 1 3)) :effect (decrease (fuel) (/ 1 3))))";

pub(crate) const BURN_MORE: &str = "(define (domain burn) (:functions (fuel))
 (:action burn :precondition (> (fuel) (/ 1 3)) :effect (decrease (fuel) (/ 1 3))))";

pub(crate) const BURN_1: &str =
    "(define (problem burn-1) (:domain burn) (:init (= (fuel) 1.0)) (:goal (<= (fuel) 0)))";

pub(crate) const TWICE: &str = "(define (domain twice) (:predicates (p) (q) (done))
 (:action act :effect (and (when (p) (not (q))) (when (p) (q)) (done))))";

pub(crate) const TWICE_1: &str =
    "(define (problem twice-1) (:domain twice) (:init (p) (q)) (:goal (and (q) (done))))";

pub(crate) const SUMS: &str = "(define (domain sums) (:functions (n) (m))
 (:action two :effect (and (increase (n) 2) (increase (n) 3)))
 (:action mix :effect (and (assign (n) 5) (increase (n) 0))))";

pub(crate) const SUMS_1: &str =
    "(define (problem sums-1) (:domain sums) (:init (= (n) 0)) (:goal (= (n) 5)))";

pub(crate) const SUMS_WITH_METRIC: &str =
    "(define (problem sums-1) (:domain sums) (:init (= (n) 0)) (:goal (= (n) 5)) (:metric minimize (/ (m) total-time)))";

pub(crate) const GROW: &str =
    "(define (domain grow) (:functions (x)) (:action double :effect (scale-up (x) 2)))";

pub(crate) const GROW_1: &str =
    "(define (problem grow-1) (:domain grow) (:init (= (x) 4611686018427387904)) (:goal (< (x) 0)))";

pub(crate) const PACK: &str = "(define (domain pack) (:types item)
 (:predicates (wanted ?x - item) (packed ?x - item) (done))
 (:action pack :parameters (?x - item) :precondition () :effect (packed ?x))
 (:action finish :precondition (forall (?x - item) (imply (wanted ?x) (packed ?x))) :effect (done)))";

pub(crate) const PACK_1: &str = "(define (problem pack-1) (:domain pack)
 (:objects i1 i2 i3 i4 i5 i6 i7 i8 i9 i10 i11 i12 i13 i14 i15
  i16 i17 i18 i19 i20 i21 i22 i23 i24 i25 i26 i27 i28 i29 i30 - item)
 (:init (wanted i1) (wanted i2) (wanted i3) (wanted i4) (wanted i5) (wanted i6) (wanted i7) (wanted i8)
  (wanted i9) (wanted i10) (wanted i11) (wanted i12) (wanted i13) (wanted i14) (wanted i15) (wanted i16)
  (wanted i17) (wanted i18) (wanted i19) (wanted i20) (wanted i21) (wanted i22) (wanted i23) (wanted i24)
  (wanted i25) (wanted i26) (wanted i27) (wanted i28) (wanted i29) (wanted i30)
  (packed i1) (packed i2) (packed i3) (packed i4) (packed i5) (packed i6) (packed i7) (packed i8)
  (packed i9) (packed i10) (packed i11) (packed i12) (packed i13) (packed i14) (packed i15) (packed i16)
  (packed i17) (packed i18) (packed i19) (packed i20) (packed i21) (packed i22) (packed i23) (packed i24)
  (packed i25) (packed i26) (packed i27) (packed i28) (packed i29))
 (:goal (done)))";

pub(crate) const PACKED: &str = "(pack i1)
(pack i2)
(pack i3)
(pack i4)
(pack i5)
(pack i6)
(pack i7)
(pack i8)
(pack i9)
(pack i10)
(pack i11)
(pack i12)
(pack i13)
(pack i14)
(pack i15)
(pack i16)
(pack i17)
(pack i18)
(pack i19)
(pack i20)
(pack i21)
(pack i22)
(pack i23)
(pack i24)
(pack i25)
(pack i26)
(pack i27)
(pack i28)
(pack i29)
(pack i30)
(finish)
; instances 31, nodes 153
";

pub(crate) const SHUT: &str = "(define (domain shut) (:predicates (at ?r) (door ?a ?b))
 (:action go :parameters (?a ?b) :precondition (and (at ?a) (door ?a ?b)) :effect (and (at ?b) (not (at ?a)))))";

pub(crate) const SHUT_1: &str =
    "(define (problem shut-1) (:domain shut) (:objects a b) (:init (at a)) (:goal (at b)))";

pub(crate) const PAIRS: &str = "(define (domain pairs) (:predicates (at ?r) (lit ?r))
 (:action go :parameters (?a ?b) :precondition (and (at ?a) (not (= ?a ?b))) :effect (and (at ?b) (not (at ?a))))
 (:action stay :parameters (?a) :precondition (at ?a) :effect (forall (?r) (when (lit ?r) (not (lit ?r))))))";

pub(crate) const PAIRS_1: &str =
    "(define (problem pairs-1) (:domain pairs) (:objects a b) (:init (at a)) (:goal (and (at b) (lit a))))";
