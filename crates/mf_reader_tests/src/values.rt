use crate::files::{domain, problem};
use std::alloc::Global;

const DOMAIN: &[u8] = b"(define (domain Haul)
 (:requirements :strips :typing :negative-preconditions :disjunctive-preconditions :equality
  :existential-preconditions :universal-preconditions :quantified-preconditions :conditional-effects
  :fluents :numeric-fluents :action-costs :adl)
 (:types truck - vehicle place vehicle)
 (:constants depot - place spare)
 (:predicates (at ?v - vehicle ?p - (either place depot)) (ready) (preference ?x))
 (:functions (fuel ?v - truck) (cost) - number (not ?x))
 (:action wait)
 (:action drive :effect (and (not (ready)) (decrease (fuel ?v) (* 2 (cost) 3)) (when (ready) (forall (?x) (ready))))
  :parameters (?v - truck ?from ?to - place)
  :precondition (and (at ?v ?from) (or (imply (ready) (= ?from ?to)) (forall () (exists (?p) ())))
   (>= (fuel ?v) (- (/ 1 2) (+ 1 -2.50 (- 3)))) (= (cost) 4))))";

const PROBLEM: &[u8] = b"(define (problem 7) (:goal (not (ready))) (:domain elsewhere)
 (:requirements :adl) (:objects a b - truck c)
 (:init (at a depot) (= (fuel a) 7) (not (ready)) (preference ?x) (= (cost) -1.0))
 (:metric maximize (+ total-time (total-time) (cost))))";

/// How many types, constants, predicates, functions and actions are read.
fn domain_sizes(alloc: Global, source: &[u8]) -> Option<[usize; 5]> {
    let domain = domain(alloc, source)?.ok()?;
    let sizes = [
        domain.types.len(),
        domain.constants.len(),
        domain.predicates.len(),
        domain.functions.len(),
        domain.actions.len(),
    ];
    drop(domain);
    Some(sizes)
}

/// How many objects, atoms and values are read, and whether a metric is.
fn problem_sizes(alloc: Global, source: &[u8]) -> Option<([usize; 3], bool)> {
    let problem = problem(alloc, source)?.ok()?;
    let sizes = [
        problem.objects.len(),
        problem.atoms.len(),
        problem.values.len(),
    ];
    let has_metric = problem.metric.is_some();
    drop(problem);
    Some((sizes, has_metric))
}

#[test]
fn each_form_is_read(rt: HostRuntime) {
    let alloc = rt.alloc();
    assert!(rt; domain_sizes(alloc, DOMAIN) == Some([3, 2, 3, 3, 2]));
    assert!(rt; problem_sizes(alloc, PROBLEM) == Some(([3, 3, 2], true)));
}

#[test]
fn missing_sections_are_empty(rt: HostRuntime) {
    let alloc = rt.alloc();
    let bare = b"(define (problem p) (:domain d) (:goal ()))";
    assert!(rt; domain_sizes(alloc, b"(define (domain d))") == Some([0; 5]));
    assert!(rt; problem_sizes(alloc, bare) == Some(([0; 3], false)));
}

fn is_named(alloc: Global, source: &[u8], name: &[u8]) -> bool {
    match domain(alloc, source) {
        Some(Ok(domain)) => domain.name.as_slice() == name,
        _ => false,
    }
}

#[test]
fn names_are_in_small_letters(rt: HostRuntime) {
    let alloc = rt.alloc();
    assert!(rt; is_named(alloc, b"(define (domain Depots))", b"depots"));
    assert!(rt;
        is_named(
            alloc,
            b"(define (domain Depots-Of-Two-Cities))",
            b"depots-of-two-cities"
        )
    );
}
