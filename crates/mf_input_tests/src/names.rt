use crate::marked::joined;
use mf_input::{InputFault, Refusal, RefusalKind, read_task};
use mf_model::FileKind;
use std::alloc::Global;

// A line has a letter for its kind of fault, and behind a blank a text in which `@` stands before the place of the
// fault that is answered. The letters are T for a second declaration, Y for a cycle of types, U for an unknown name,
// C for a wrong count, W for a wrong type, M for too many, N for a wide number, L for what is not linear, B for a bad byte and G for a
// word that is too long.

const DECLARATIONS: &[u8] = b"T (:types a @a)
G (:types @aaaaaaaaaaaaaaaaaaaaaaaaaaaaaaaaaaaaaaaaaaaaaaaaaaaaaaaaaaaaaaaaaaaaaaaaaaaaaaaaaaaaaaaaaaaaaaaaaaaaaaaaaaaaaaaaaaaaaaaaaaaaaaaaaaaaaaaaaaaaaaaaaaaaaaaaaaaaaaaaaaaaaaaaaaaaaaaaaaaaaaaaaaaaaaaaaaaaaaaaaaaaaaaaaaaaaaaaaaaaaaaaaaaaaaaaaaaaaaaaaaaaaaaaaaaaaaaa\x7f)
B (:types aaaaaaaaaaaaaaaaaaaaaaaaaaaaaaaaaaaaaaaaaaaaaaaaaaaaaaaaaaaaaaaaaaaaaaaaaaaaaaaaaaaaaaaaaaaaaaaaaaaaaaaaaaaaaaaaaaaaaaaaaaaaaaaaaaaaaaaaaaaaaaaaaaaaaaaaaaaaaaaaaaaaaaaaaaaaaaaaaaaaaaaaaaaaaaaaaaaaaaaaaaaaaaaaaaaaaaaaaaaaaaaaaaaaaaaaaaaaaaaaaaaaaaaaaaaaaaa@\x7f)
T (:types a - b @a - c)
T (:constants k @k)
T (:predicates (p) (@p ?x))
T (:predicates (p ?x @?x))
T (:functions (f) (@f ?x))
T (:functions (f ?x @?x))
T (:action a) (:action @a)
T (:action a :parameters (?x @?x))
T (:action a :precondition (forall (?x @?x) ()))
T (:action a :effect (forall (?x @?x) ()))
Y (:types @a - a)
Y (:types b @c - d d - c)
Y (:types @object - a)
U (:constants k - @t)
U (:predicates (p ?x - @t))
U (:functions (f ?x - @t))
U (:types t) (:action a :parameters (?x - (either t @u)))
U (:action a :precondition (exists (?x - @t) ()))
M (:predicates (p ?a ?b ?c ?d ?e ?f ?g ?h ?i ?j ?k ?l ?m ?n ?o ?p ?q ?r ?s ?t ?u ?v ?w ?x ?y ?z ?aa ?bb ?cc ?dd ?ee ?ff @?gg))
M (:functions (f ?p1 ?p2 ?p3 ?p4 ?p5 ?p6 ?p7 ?p8 ?p9 ?p10 ?p11 ?p12 ?p13 ?p14 ?p15 ?p16 ?p17 ?p18 ?p19 ?p20 ?p21 ?p22 ?p23 ?p24 ?p25 ?p26 ?p27 ?p28 ?p29 ?p30 ?p31 ?p32 @?q))
M (:action a :parameters (?p1 ?p2 ?p3 ?p4 ?p5 ?p6 ?p7 ?p8 ?p9 ?p10 ?p11 ?p12 ?p13 ?p14 ?p15 ?p16 ?p17 ?p18 ?p19 ?p20 ?p21 ?p22 ?p23 ?p24 ?p25 ?p26 ?p27 ?p28 ?p29 ?p30 ?p31 ?p32 @?q))
M (:action a :precondition (forall (?v1 ?v2 ?v3 ?v4 ?v5 ?v6 ?v7 ?v8 ?v9 ?v10 ?v11 ?v12 ?v13 ?v14 ?v15 ?v16 ?v17 ?v18 ?v19 ?v20 ?v21 ?v22 ?v23 ?v24 ?v25 ?v26 ?v27 ?v28 ?v29 ?v30 ?v31 ?v32 ?v33 ?v34 ?v35 ?v36 ?v37 ?v38 ?v39 ?v40 ?v41 ?v42 ?v43 ?v44 ?v45 ?v46 ?v47 ?v48 ?v49 ?v50 ?v51 ?v52 ?v53 ?v54 ?v55 ?v56 ?v57 ?v58 ?v59 ?v60 ?v61 ?v62 ?v63 ?v64 @?q) ()))
M (:action a :parameters (?p1 ?p2 ?p3 ?p4 ?p5 ?p6 ?p7 ?p8 ?p9 ?p10 ?p11 ?p12 ?p13 ?p14 ?p15 ?p16 ?p17 ?p18 ?p19 ?p20 ?p21 ?p22 ?p23 ?p24 ?p25 ?p26 ?p27 ?p28 ?p29 ?p30 ?p31 ?p32) :effect (forall (?v1 ?v2 ?v3 ?v4 ?v5 ?v6 ?v7 ?v8 ?v9 ?v10 ?v11 ?v12 ?v13 ?v14 ?v15 ?v16 ?v17 ?v18 ?v19 ?v20 ?v21 ?v22 ?v23 ?v24 ?v25 ?v26 ?v27 ?v28 ?v29 ?v30 ?v31 ?v32 @?q) ()))
M (:action a :parameters (?v1 ?v2 ?v3 ?v4 ?v5 ?v6 ?v7 ?v8 ?v9 ?v10 ?v11 ?v12 ?v13 ?v14 ?v15 ?v16 ?v17 ?v18 ?v19 ?v20 ?v21 ?v22 ?v23 ?v24 ?v25 ?v26 ?v27 ?v28 ?v29 ?v30 ?v31 ?v32) :effect (forall (?v1 ?v2 ?v3 ?v4 ?v5 ?v6 ?v7 ?v8 ?v9 ?v10 ?v11 ?v12 ?v13 ?v14 ?v15 ?v16 ?v17 ?v18 ?v19 ?v20 ?v21 ?v22 ?v23 ?v24 ?v25 ?v26 ?v27 ?v28 ?v29 ?v30 ?v31 ?v32 @?q) ()))";

const USES: &[u8] = b"U (:action a :precondition (@p))
U (:predicates (p ?x)) (:action a :precondition (p @?x))
U (:predicates (p ?x)) (:action a :precondition (p @k))
U (:action a :precondition (= @k k))
U (:action a :precondition (< (@f) 1))
U (:action a :effect (@p))
U (:action a :effect (not (@p)))
U (:action a :effect (increase (@f) 1))
U (:functions (f)) (:action a :effect (assign (f) (@g)))
U (:action a :effect (when (@p) ()))
C (:predicates (p ?x)) (:action a :precondition (@p))
C (:predicates (p)) (:constants k) (:action a :effect (@p k))
C (:functions (f)) (:constants k) (:action a :precondition (< (@f k) 1))
C (:functions (f ?x)) (:action a :effect (increase (@f) 1))
W (:types t u) (:constants k - u) (:predicates (p ?x - t)) (:action a :precondition (p @k))
W (:types t u) (:predicates (p ?x - t)) (:action a :parameters (?y - u) :effect (p @?y))
W (:types t u) (:constants k - u) (:functions (f ?x - t)) (:action a :effect (increase (f @k) 1))
W (:types t u) (:predicates (p ?x - t)) (:action a :parameters (?x - t) :precondition (exists (?x - u) (p @?x)))
W (:types a b c d e f g h i j k l m n o p q r) (:constants z - (either a b c d e f g h i)) (:predicates (p ?x - (either j k l m n o p q r))) (:action a :precondition (p @z))
W (:constants k - b) (:predicates (p ?x - e)) (:action a :precondition (p @k)) (:types b - c c - b e)
Y (:constants k - b) (:predicates (p ?x - c)) (:action a :precondition (p k)) (:types @b - c c - b e)
Y (:constants k - t) (:predicates (p ?x - c)) (:action a :precondition (p k)) (:types t - b @b - c c - b)
T (:types t u) (:predicates (p ?x - t)) (:action a :precondition (p ?y) :parameters (?y - t @?y - u))
W (:types t u) (:predicates (p ?x - t)) (:action a :precondition (p @?y) :parameters (?y - u ?y - t))
Y (:predicates (p ?a - x)) (:constants c - y) (:action a :precondition (p c)) (:types @x y - object object - x)
Y (:predicates (p ?a - x)) (:constants c - y) (:action a :precondition (p c)) (:types @object - x x y - object)
W (:action a :precondition (p @k)) (:types t) (:predicates (p ?x - t)) (:constants k - u)
W (:action a :precondition (p @k)) (:constants k) (:predicates (p ?x - t))
N (:action a :precondition (< @4611686018427387905 1))
N (:functions (f)) (:action a :effect (assign (f) @0.1234567890123456789))
L (:functions (x) (y)) (:action a :precondition (> @(* (x) (y)) 1) :effect (and (increase (x) 1) (increase (y) 1)))
L (:functions (x)) (:action a :precondition (> @(/ 1 (x)) 1) :effect (increase (x) 1))
L (:functions (x)) (:action a :effect @(scale-up (x) (x)))
U (:functions (x)) (:action a :precondition (> (* (x) (@z)) 1) :effect (increase (x) 1))
U (:action a :precondition (> (/ 1 (@z)) 1))
L (:functions (x)) (:action a :precondition (> @(* (x) (z)) 1) :effect (and (increase (x) 1) (increase (z) 1)))";

const PROBLEMS: &[u8] = b"T (:goal ()) (:objects @k)
U (:goal ()) (:objects a - @v)
U (:goal (@r))
U (:goal (p @z))
C (:goal (@p))
W (:objects a - u) (:goal (p @a))
N (:goal (< (g) @4611686018427387905))
L (:goal (< @(* (g) (g)) 1))
U (:goal ()) (:init (@r))
U (:goal ()) (:init (p @z))
U (:goal ()) (:init (not (p @z)))
C (:goal ()) (:init (@p k k))
W (:goal ()) (:objects a - u) (:init (p @a))
U (:goal ()) (:init (= (@h) 1))
U (:goal ()) (:init (= (f @z) 1))
C (:goal ()) (:init (= (@g k) 1))
T (:goal ()) (:init (= (g) 1) (= (g) 1.0) (= (g) @2))
T (:goal ()) (:init (= (g) 1) (= (g) @4611686018427387905))
N (:goal ()) (:init (= (g) @4611686018427387905))
U (:goal ()) (:metric minimize (@h))
C (:goal ()) (:metric minimize (@g k))
U (:goal ()) (:metric minimize (@total-time k))
N (:goal ()) (:metric minimize @4611686018427387905)";

const BARE_PROBLEM: &[u8] = b"(define (problem p) (:domain d) (:goal ()))";

const DOMAIN: &[u8] =
    b"(define (domain d) (:types t u) (:constants k - t) (:predicates (p ?x - t) (q))
 (:functions (f ?x - t) (g)) (:action a :effect (increase (g) 1)))";

/// An argument and its parameter have nine types each, of which the last alone are related.
const LONG_LISTS: &[u8] =
    b"(define (domain d) (:types i - r a b c d e f g h j k l m n o p q r) (:constants z - (either a b c d e f g h i))
 (:predicates (p ?x - (either j k l m n o p q r))) (:action a :precondition (p z)))";

fn letter(kind: RefusalKind) -> u8 {
    match kind {
        RefusalKind::DeclaredTwice => b'T',
        RefusalKind::TypeCycle => b'Y',
        RefusalKind::UnknownName => b'U',
        RefusalKind::WrongCount => b'C',
        RefusalKind::WrongType => b'W',
        RefusalKind::TooMany => b'M',
        RefusalKind::WideNumber => b'N',
        RefusalKind::NotLinear => b'L',
        RefusalKind::BadByte => b'B',
        RefusalKind::WordTooLong => b'G',
        RefusalKind::Unbalanced
        | RefusalKind::TooDeep
        | RefusalKind::UnknownRequirement
        | RefusalKind::LeftOut
        | RefusalKind::BadForm => b'-',
    }
}

/// What refuses two files.
fn refusal(alloc: Global, domain: &[u8], problem: &[u8]) -> Option<Refusal> {
    if domain.len() > 16_777_216 || problem.len() > 16_777_216 {
        return None;
    }
    match read_task(alloc, domain, problem) {
        Err(InputFault::Refused { refusal }) => Some(refusal),
        _ => None,
    }
}

/// Whether the fault of a line is answered, where the line stands in the given file and the other file is whole.
fn is_answered(alloc: Global, file: FileKind, line: &[u8]) -> bool {
    let [kind, _, text @ ..] = line else {
        return false;
    };
    let Ok(marked) = joined(alloc, before(file), text, b")") else {
        return false;
    };
    let answered = match file {
        FileKind::DomainFile => refusal(alloc, marked.text.as_slice(), BARE_PROBLEM),
        FileKind::ProblemFile => refusal(alloc, DOMAIN, marked.text.as_slice()),
    };
    match (answered, marked.place) {
        (Some(refusal), Some(place)) => {
            refusal.file == file && letter(refusal.kind) == *kind && refusal.at as usize == place
        }
        _ => false,
    }
}

fn before(file: FileKind) -> &'static [u8] {
    match file {
        FileKind::DomainFile => b"(define (domain d) ",
        FileKind::ProblemFile => b"(define (problem p) (:domain d) ",
    }
}

/// The number of the first line, from 1, whose fault is not answered.
fn first_wrong(alloc: Global, file: FileKind, lines: &[u8]) -> Option<usize> {
    let mut number = 0usize;
    for line in lines.split(|byte| *byte == b'\n') {
        number = number.saturating_add(1);
        if !is_answered(alloc, file, line) {
            return Some(number);
        }
    }
    None
}

#[test]
fn faults_of_declarations(rt: HostRuntime) {
    assert_eq!(rt;
        first_wrong(rt.alloc(), FileKind::DomainFile, DECLARATIONS),
        None
    );
}

#[test]
fn faults_of_uses(rt: HostRuntime) {
    assert_eq!(rt; first_wrong(rt.alloc(), FileKind::DomainFile, USES), None);
}

#[test]
fn faults_of_problems(rt: HostRuntime) {
    assert_eq!(rt;
        first_wrong(rt.alloc(), FileKind::ProblemFile, PROBLEMS),
        None
    );
}

/// Whether the files have a task.
fn is_accepted(alloc: Global, domain: &[u8], problem: &[u8]) -> bool {
    if domain.len() > 16_777_216 || problem.len() > 16_777_216 {
        return false;
    }
    read_task(alloc, domain, problem).is_ok()
}

#[test]
fn files_without_faults_are_accepted(rt: HostRuntime) {
    let alloc = rt.alloc();
    let constant_factor =
        b"(define (domain d)(:functions (x) (y))(:action a :parameters () :precondition (> (* (x) (y)) 1) :effect (increase (x) 1)))";
    let metric =
        b"(define (problem p) (:domain d) (:goal ()) (:init (= (g) 1) (= (g) 1.0)) (:metric minimize (* (g) (g))))";
    assert!(rt; is_accepted(alloc, constant_factor, BARE_PROBLEM));
    assert!(rt; is_accepted(alloc, LONG_LISTS, BARE_PROBLEM));
    assert!(rt; is_accepted(alloc, DOMAIN, metric));
    let object_in_domain =
        b"(define (domain d) (:predicates (p ?x)) (:action a :precondition (p k)))";
    let object = b"(define (problem p) (:domain d) (:objects k) (:goal ()))";
    assert!(rt; is_accepted(alloc, object_in_domain, object));
}
