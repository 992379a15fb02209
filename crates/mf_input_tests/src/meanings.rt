use crate::lines::task_lines;
use crate::tasks::{PARCELS, RING_COST};
use mf_input::read_task;
use std::alloc::Global;

// What two files mean, as `task_lines` writes it. Types, objects, predicates and functions are numbered from 0 in the
// order in which their lines stand; `?n` is the variable at place n. The expected lines were written by hand.

const PARCELS_TASK: &str = "type object - 0
type truck - 3
type van - 3
type vehicle - 5
type parcel - 5
type thing - 0
type depot - 8
type shop - 8
type place - 0
object hub - 6
object t1 - 1
object v1 - 2
object x1 - 4
object x2 - 4
object s1 - 7
object s2 - 7
predicate road (8) (8)
predicate at (5) (8)
predicate inside (4) (3)
predicate seen (4) (8)
function fuel (3)
function tank (3)
function length (8) (8)
function total-cost
action drive (1 2) (8) (8)
if (and (1 ?0 ?1) (0 ?1 ?2) (>= [0 ?0] (* 3/2 [2 ?1 ?2])))
then (do (delete 1 ?0 ?1) (add 1 ?0 ?2) (decrease [0 ?0] (* 3/2 [2 ?1 ?2])) (increase [3] [2 ?1 ?2]) (each (4) (when (2 ?3 ?0) (add 3 ?3 ?2))))
action load (4) (3) (8)
if (and (1 ?0 ?2) (1 ?1 ?2))
then (do (add 2 ?0 ?1) (delete 1 ?0 ?2) (increase [3] 1))
action unload (4) (3) (8)
if (and (2 ?0 ?1) (1 ?1 ?2))
then (do (add 1 ?0 ?2) (delete 2 ?0 ?1) (increase [3] 1))
action refill (3)
if (1 ?0 0)
then (do (assign [0 ?0] [1 ?0]) (increase [3] 5))
atom 1 1 0
atom 1 2 5
atom 1 3 0
atom 1 4 5
atom 0 0 5
atom 0 5 0
atom 0 5 6
atom 0 6 5
value 2 0 5 = 2
value 2 5 0 = 2
value 2 5 6 = 3
value 2 6 5 = 3
value 0 1 = 10
value 1 1 = 10
value 0 2 = 4
value 1 2 = 4
value 3 = 0
goal (and (all (4) (1 ?0 6)) (any (4) (3 ?0 5)))
least [3]";

const RING_TASK: &str = "type object - 0
object r1 - 0
object r2 - 0
object r3 - 0
predicate at (0)
predicate next (0) (0)
function total-cost
action go (0) (0)
if (and (0 ?0) (1 ?0 ?1))
then (do (add 0 ?1) (delete 0 ?0) (increase [0] 1))
atom 0 0
atom 1 0 1
atom 1 1 2
atom 1 2 0
value 0 = 0
goal (and (0 1) (0 2))
least [0]";

// Types below several others, constants, a variable that hides another, each kind of condition, expression and
// effect, and a term with a second start value, which is the first one written otherwise.
const GARDEN: [&str; 2] = [
    "(define (domain Garden)
 (:constants Oak - tree gate)
 (:types tree bush - plant person object)
 (:functions (water ?p - plant) (rain) - number)
 (:predicates (grown ?p - (either bush tree)) (owns ?who - person ?p - plant) (open ?x))
 (:action rest)
 (:action Grow :effect (forall (?p - plant ?q - tree) (when (and (owns ?who ?p) (not (= ?p ?q)))
   (and (grown ?p) (scale-up (water ?p) 2) (scale-down (rain) (/ 1 2)) (assign (water ?q) (* 2 (rain) 0.5)))))
  :parameters (?WHO - person))
 (:action tend :parameters (?who - person ?p - plant) :effect (not (open ?who))
  :precondition (or (not (grown ?p)) (imply (open gate) (= ?p oak))
   (exists (?p - tree ?q - person) (and (owns ?q ?p) (< (- (water ?p)) -1.50) (owns ?who ?p)))
   (forall () (> (/ (rain) 4) (- 3 (water oak)))) ())))",
    "(define (problem garden-1) (:domain elsewhere)
 (:metric maximize (- (+ (rain) total-time 0.5) (water oak)))
 (:goal (and (forall (?x - (either person bush)) (open ?x)) (<= (rain) 1) (= (water fern) 1)))
 (:init (grown oak) (not (open gate)) (= (rain) 2) (= (water oak) 0.25) (OWNS bob ivy) (= (rain) 2.0)
  (open rock) (= (water ivy) -3))
 (:objects ann bob - person fern - bush ivy - (either bush tree) rock))",
];

const GARDEN_TASK: &str = "type object - 0
type tree - 3
type bush - 3
type plant - 0
type person - 0
object oak - 1
object gate - 0
object ann - 4
object bob - 4
object fern - 2
object ivy - 2 1
object rock - 0
predicate grown (2 1)
predicate owns (4) (3)
predicate open (0)
function water (3)
function rain
action rest
if (and)
then (do)
action grow (4)
if (and)
then (each (3) (1) (when (and (1 ?0 ?1) (not (same ?1 ?2))) (do (add 0 ?1) (scale-up [0 ?1] 2) (scale-down [1] (/ 1 2)) (assign [0 ?2] (* 2 [1] 1/2)))))
action tend (4) (3)
if (or (not (0 ?1)) (imply (2 1) (same ?1 0)) (any (1) (4) (and (1 ?3 ?2) (< (neg [0 ?2]) -3/2) (1 ?0 ?2))) (all (> (/ [1] 4) (- 3 [0 0]))) (and))
then (delete 2 ?0)
atom 0 0
atom 1 3 5
atom 2 6
value 1 = 2
value 0 0 = 1/4
value 0 5 = -3
goal (and (all (4 2) (2 ?0)) (<= [1] 1) (= [0 4] 1))
most (- (+ [1] steps 1/2) [0 0])";

/// The number of the first line, from 1, that differs.
fn first_difference(own: &[u8], expected: &[u8]) -> Option<usize> {
    let mut number = 0usize;
    let mut others = expected.split(|byte| *byte == b'\n');
    for line in own.split(|byte| *byte == b'\n') {
        number = number.saturating_add(1);
        if others.next() != Some(line) {
            return Some(number);
        }
    }
    match others.next() {
        Some(_) => Some(number.saturating_add(1)),
        None => None,
    }
}

/// The first line in which the task of two files differs from the expected one; 0 where there is none.
fn first_wrong(alloc: Global, files: [&str; 2], expected: &str) -> Option<usize> {
    let [domain, problem] = files;
    let domain = domain.as_bytes();
    let problem = problem.as_bytes();
    if domain.len() > 16_777_216 || problem.len() > 16_777_216 {
        return Some(0);
    }
    let Ok(task) = read_task(alloc, domain, problem) else {
        return Some(0);
    };
    match task_lines(alloc, &task) {
        Some(sheet) => first_difference(sheet.as_slice(), expected.as_bytes()),
        None => Some(0),
    }
}

#[test]
fn files_mean_their_tasks(rt: HostRuntime) {
    let alloc = rt.alloc();
    assert_eq!(rt; first_wrong(alloc, PARCELS, PARCELS_TASK), None);
    assert_eq!(rt; first_wrong(alloc, RING_COST, RING_TASK), None);
    assert_eq!(rt; first_wrong(alloc, GARDEN, GARDEN_TASK), None);
}
