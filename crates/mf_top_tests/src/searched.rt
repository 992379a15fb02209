ghost use Rattle.mf_top.specs.Words.{AsksPlan, IsRequest};
ghost use Rattle.std.specs.Prelude.{IfOk};

use mf_io::{List, MemoryFolder, MemorySink, Text};
use mf_top::{Request, plan_one, run};
use std::alloc::Global;
use std::test::Fail;

const ROOMS: &str = "(define (domain rooms)
 (:types room ball)
 (:predicates (room ?r) (ball ?b) (at-robot ?r) (at ?b ?r) (holding ?b) (free))
 (:action move :parameters (?a ?b) :precondition (and (room ?a) (room ?b) (at-robot ?a))
  :effect (and (at-robot ?b) (not (at-robot ?a))))
 (:action pick :parameters (?b ?r) :precondition (and (ball ?b) (room ?r) (at ?b ?r) (at-robot ?r) (free))
  :effect (and (holding ?b) (not (at ?b ?r)) (not (free))))
 (:action drop :parameters (?b - object ?r - (either object object)) :precondition (and (ball ?b) (room ?r) (holding ?b) (at-robot ?r))
  :effect (and (at ?b ?r) (free) (not (holding ?b)))))";

const ROOMS_INIT: &str =
    "(define (problem rooms-1) (:domain rooms) (:objects rooma roomb - room ball1 - ball)
 (:init (room rooma) (room roomb) (ball ball1) (at-robot rooma) (at ball1 rooma) (free))
 (:goal ";

fn text(alloc: Global, bytes: &str) -> Result<Text, Fail> {
    Ok(Text::from_slice(alloc, bytes.as_bytes())?)
}

fn folder(alloc: Global, goal: &str) -> Result<MemoryFolder, Fail> {
    let mut problem = text(alloc, ROOMS_INIT)?;
    problem.extend_from_slice(goal.as_bytes())?;
    problem.extend_from_slice(b"))")?;
    let mut files = List::new(alloc);
    files.push((text(alloc, "domain.pddl")?, text(alloc, ROOMS)?))?;
    files.push((text(alloc, "problem.pddl")?, problem))?;
    Ok(MemoryFolder::new(alloc, files, List::new(alloc)))
}

fn words(alloc: Global) -> Result<Vec<String>, Fail> {
    let mut words = Vec::new(alloc);
    for word in [
        "plan",
        "domain.pddl",
        "problem.pddl",
        "--heuristic",
        "goals",
    ] {
        words.push(word.to_string(alloc)?)?;
    }
    Ok(words)
}

// Whether the rooms with this goal are answered with this status and text on out.
fn is_answered(alloc: Global, goal: &str, status: u8, text: &[u8]) -> Result<bool, Fail> {
    let words = words(alloc)?;
    let mut files = folder(alloc, goal)?;
    let mut out = MemorySink::new(alloc, 1000, List::new(alloc));
    let mut err = MemorySink::new(alloc, 1000, List::new(alloc));
    let ended = run(alloc, words.as_slice(), &mut files, &mut out, &mut err);
    Ok(ended.status == status && out.bytes() == text && err.bytes() == b"".as_slice())
}

#[test]
fn objects_of_types_are_searched(rt: HostRuntime) -> Result<(), Fail> {
    let alloc = rt.alloc();
    let plan = b"(pick ball1 rooma)\n(move rooma roomb)\n(drop ball1 roomb)\n; steps 3\n";
    assert!(rt; is_answered(alloc, "(at ball1 roomb)", 0, plan)?);
    Ok(())
}

#[test]
fn a_room_is_never_held(rt: HostRuntime) -> Result<(), Fail> {
    let alloc = rt.alloc();
    assert!(rt; is_answered(alloc, "(holding rooma)", 1, b"no plan\n")?);
    Ok(())
}

// A request for a plan of the rooms.
fn request(alloc: Global) -> Result<Request, Fail>
    ensures request { IfOk result IsRequest }
    ensures plan { IfOk result AsksPlan }
{
    Ok(Request::Plan {
        domain: mf_model::Text::from_slice(alloc, "domain.pddl".as_bytes())?,
        problem: mf_model::Text::from_slice(alloc, "problem.pddl".as_bytes())?,
        budget: 9,
    })
}

#[test]
fn a_request_is_searched(rt: HostRuntime) -> Result<(), Fail> {
    let alloc = rt.alloc();
    let mut files = folder(alloc, "(at-robot roomb)")?;
    let mut out = MemorySink::new(alloc, 1000, List::new(alloc));
    let mut err = MemorySink::new(alloc, 1000, List::new(alloc));
    let ended = plan_one(alloc, &request(alloc)?, &mut files, &mut out, &mut err);
    assert!(rt; ended.status == 0);
    assert!(rt; out.bytes() == b"(move rooma roomb)\n; steps 1\n".as_slice());
    Ok(())
}
