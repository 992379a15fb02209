use crate::files::{domain, problem};
use mf_model::FileKind;
use mf_reader::FormFault;
use std::alloc::{AllocError, Global};

// A line has a kind of fault, `U` for a requirement that is not known, `L` for what is left out and `B` for
// what is of no form, and behind a blank a text, in which `@` stands before the place of the first fault.

const SECTIONS: &[u8] = b"U (:requirements :strips @:unheard)
B (:requirements @strips)
B (:requirements @(:strips))
B @word
B @()
B @(:objects a)
B @((:types) a)
B (:types a) @(:types b)
B (:predicates @p)
L @(:durative-action)
L @(:derived (p) (q))
L @(:constraints)
L @(:length)
L (:types @(either))
L (:types a - @(either b c))
B (:types @(a b))
B (:types @- a)
B (:types a @-)
B (:constants a - @(either))
B (:constants a - (either b @?c))
B (:constants a - b @- c)
B (:constants a - @- b)
B (:constants @?a)
B (:predicates (p @x))
B (:predicates @(not ?x))
B (:predicates @(1))
B (:functions @f)
B (:functions (f @x))
B (:functions (f) @-)
B (:functions (f) - @(either))
B (:functions (f) - number @- number)
L (:functions (f) - number @(g) (h) - object)
L (:functions @1 - (either number))
B @(:action)
B (:action @(a))
B (:action a @effect ())
B (:action a @(:effect) ())
B (:action a :precondition () :effect () @:precondition ())
B (:action a :effect () @:precondition)
B (:action a :parameters @?x)
B (:action a :parameters (?x @y))";

const CONDITIONS: &[u8] = b"B @p
B @(not)
B (and (p) @(not (p) (q)))
B @(imply (p))
B @(forall (?x))
B (exists @?x (p))
B @(when (p) (q))
B @(1)
B (p @1)
B @(= ?x 5)
L @(preference a (p))
L (< @#t 1)
B @(= #t a)
B (< @total-time 1)
B (> @(+ 1) 2)
B (<= @(/ 1 2 3) 2)
B (>= (- @?x) 2)";

const EFFECTS: &[u8] = b"B @p
B (not @(not (p)))
B @(or (p))
B @(when (p))
L (when (p) (and (p) (forall (?x) @(when (q) (p)))))
B (forall @?x (p))
B (increase @f 1)
B (assign (f) @x)
B @(decrease (f))
B (scale-up (f @1) 2)";

const PROBLEM_SECTIONS: &[u8] = b"B @(:goal (p))
B @(:domain e)
B @(:action a)
B @(:types a)
L @(:length (:serial 3))
L @(:durative-action a)
U (:requirements @:unheard)
B (:objects a @?b)
B (:init @p)
B (:init @())
B (:init @(not (p) (q)))
B (:init (not @(not (p))))
L (:init @(at 5 (p)))
B (:init (at a @5))
B (:init @(and (p)))
B (:init @(= x 5))
B (:init @(= (f) x))
B (:init (= @x y))
B (:init (= (f) @#t))
B (:init (= (f @?x) 1))
B (:init @(= (f)))
B (:init (= @5 1))
B @(:metric minimize)
B (:metric @foo 1)
B (:metric maximize @foo)";

const PROBLEMS: &[u8] = b"B @()
B @(define)
B @(defined (problem p) (:domain d) (:goal ()))
B (define @(domain p) (:domain d) (:goal ()))
B (define @(problem) (:domain d) (:goal ()))
B (define @problem (:domain d) (:goal ()))
B (define (problem @(p)) (:domain d) (:goal ()))
B @(define (problem p) (:domain d) (:objects 1))
B @(define (problem p) (:goal ()) (:objects 1))
B (define (problem p) @(:domain) (:goal ()))
B (define (problem p) (:domain @(d)) (:goal ()))
B (define (problem p) (:domain d) @(:goal))";

/// A text without its mark, and the place of the mark.
#[derive(Drop)]
struct Marked {
    text: Vec<u8>,
    place: Option<usize>,
}

impl Marked {
    fn add(&mut self, bytes: &[u8]) -> Result<(), AllocError> {
        for byte in bytes {
            if *byte == b'@' {
                self.place = Some(self.text.len());
            } else {
                self.text.push(*byte)?;
            }
        }
        Ok(())
    }
}

/// Three texts, one behind the other.
fn joined(alloc: Global, before: &[u8], text: &[u8], after: &[u8]) -> Result<Marked, AllocError> {
    let mut out = Marked {
        text: Vec::new(alloc),
        place: None,
    };
    out.add(before)?;
    out.add(text)?;
    out.add(after)?;
    Ok(out)
}

/// The fault that is answered for a file.
fn fault(alloc: Global, file: FileKind, source: &[u8]) -> Option<FormFault> {
    match file {
        FileKind::DomainFile => domain(alloc, source)?.err(),
        FileKind::ProblemFile => problem(alloc, source)?.err(),
    }
}

fn is_at(fault: FormFault, kind: u8, place: usize) -> bool {
    match fault {
        FormFault::UnknownRequirement { span } => kind == b'U' && span.start as usize == place,
        FormFault::LeftOut { span } => kind == b'L' && span.start as usize == place,
        FormFault::BadForm { span } => kind == b'B' && span.start as usize == place,
        FormFault::Memory => false,
    }
}

/// Whether the fault of a line is answered for its text between the other two.
fn is_answered(alloc: Global, file: FileKind, before: &[u8], line: &[u8], after: &[u8]) -> bool {
    let [kind, _, text @ ..] = line else {
        return false;
    };
    let Ok(marked) = joined(alloc, before, text, after) else {
        return false;
    };
    let Some(place) = marked.place else {
        return false;
    };
    match fault(alloc, file, marked.text.as_slice()) {
        Some(fault) => is_at(fault, *kind, place),
        None => false,
    }
}

/// The number of the first line, from 1, whose fault is not answered.
fn first_wrong(
    alloc: Global,
    file: FileKind,
    before: &[u8],
    lines: &[u8],
    after: &[u8],
) -> Option<usize> {
    let mut number = 0usize;
    for line in lines.split(|byte| *byte == b'\n') {
        number = number.saturating_add(1);
        if !is_answered(alloc, file, before, line, after) {
            return Some(number);
        }
    }
    None
}

#[test]
fn faults_of_domains(rt: HostRuntime) {
    let file = FileKind::DomainFile;
    let before = b"(define (domain d) ";
    assert_eq!(rt; first_wrong(rt.alloc(), file, before, SECTIONS, b")"), None);
}

#[test]
fn faults_of_conditions(rt: HostRuntime) {
    let file = FileKind::DomainFile;
    let before = b"(define (domain d) (:action a :precondition ";
    assert_eq!(rt;
        first_wrong(rt.alloc(), file, before, CONDITIONS, b"))"),
        None
    );
}

#[test]
fn faults_of_effects(rt: HostRuntime) {
    let file = FileKind::DomainFile;
    let before = b"(define (domain d) (:action a :effect ";
    assert_eq!(rt; first_wrong(rt.alloc(), file, before, EFFECTS, b"))"), None);
}

#[test]
fn faults_of_problem_sections(rt: HostRuntime) {
    let file = FileKind::ProblemFile;
    let before = b"(define (problem p) (:domain d) (:goal ()) ";
    assert_eq!(rt;
        first_wrong(rt.alloc(), file, before, PROBLEM_SECTIONS, b")"),
        None
    );
}

#[test]
fn faults_of_problems(rt: HostRuntime) {
    let file = FileKind::ProblemFile;
    assert_eq!(rt; first_wrong(rt.alloc(), file, b"", PROBLEMS, b""), None);
}
