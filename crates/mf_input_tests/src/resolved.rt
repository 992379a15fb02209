use crate::lines::task_lines;
use crate::sheet::Sheet;
use mf_lex::{tokens, tree};
use mf_model::{FileKind, Span, Tree, TypedTask};
use mf_reader::{read_domain, read_problem};
use mf_types::{NameFault, resolve};
use std::alloc::Global;

const DOMAIN: &str = "(define (domain visits)
 (:types hall room - place place)
 (:constants home - hall)
 (:predicates (at ?p - place))
 (:functions (cost ?p - place))
 (:action go :parameters (?from - place ?to - room) :precondition (at ?from)
  :effect (and (at ?to) (not (at ?from)) (increase (cost ?to) 1))))";

const PROBLEM: &str = "(define (problem visit) (:domain visits) (:objects den - room)
 (:init (at home) (= (cost den) 2)) (:goal (at den)) (:metric minimize (cost den)))";

// The task as `task_lines` writes it. The lines were written by hand.
const TASK: &str = "type object - 0
type hall - 3
type room - 3
type place - 0
object home - 1
object den - 2
predicate at (3)
function cost (3)
action go (3) (2)
if (0 ?0)
then (do (add 0 ?1) (delete 0 ?0) (increase [0 ?1] 1))
atom 0 0
value 0 1 = 2
goal (0 1)
least [0 1]";

// `moon` is no object. It begins at byte 43.
const STRANGE_PROBLEM: &str = "(define (problem p) (:domain d) (:goal (at moon)))";

fn file_tree(alloc: Global, source: &[u8]) -> Option<Tree> {
    if source.len() > 16_777_216 {
        return None;
    }
    let tokens = tokens(alloc, source).ok()?;
    tree(alloc, source, &tokens).ok()
}

/// What the names of two files resolve to, where both have their forms.
fn resolved(alloc: Global, domain: &str, problem: &str) -> Option<Result<TypedTask, NameFault>> {
    let domain = file_tree(alloc, domain.as_bytes())?;
    let domain = read_domain(alloc, &domain).ok()?;
    let problem = file_tree(alloc, problem.as_bytes())?;
    let problem = read_problem(alloc, &problem).ok()?;
    Some(resolve(alloc, &domain, &problem))
}

fn shown(alloc: Global, domain: &str, problem: &str) -> Option<Sheet> {
    let task = resolved(alloc, domain, problem)?.ok()?;
    task_lines(alloc, &task)
}

#[test]
fn a_domain_and_a_problem_resolve(rt: HostRuntime) {
    let alloc = rt.alloc();
    let sheet = shown(alloc, DOMAIN, PROBLEM).expect(&rt, "no task");
    assert!(rt; sheet.as_slice() == TASK.as_bytes());
}

#[test]
fn a_fault_has_its_file_and_its_place(rt: HostRuntime) {
    let alloc = rt.alloc();
    let fault = resolved(alloc, DOMAIN, STRANGE_PROBLEM)
        .expect(&rt, "no forms")
        .err();
    assert!(rt;
        fault
            == Some(NameFault::UnknownName {
                file: FileKind::ProblemFile,
                span: Span { start: 43, end: 47 },
            })
    );
}
