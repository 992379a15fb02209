use crate::{Ended, run};
use mf_io::{List, MemoryFolder, MemorySink, Text};
use mf_plain::Entry;
use std::alloc::Global;
use std::test::Fail;

const ROOMS: &str = "(define (domain rooms)
 (:predicates (room ?r) (ball ?b) (at-robot ?r) (at ?b ?r) (holding ?b) (free))
 (:action move :parameters (?a ?b) :precondition (and (room ?a) (room ?b) (at-robot ?a))
  :effect (and (at-robot ?b) (not (at-robot ?a))))
 (:action pick :parameters (?b ?r) :precondition (and (ball ?b) (room ?r) (at ?b ?r) (at-robot ?r) (free))
  :effect (and (holding ?b) (not (at ?b ?r)) (not (free))))
 (:action drop :parameters (?b ?r) :precondition (and (ball ?b) (room ?r) (holding ?b) (at-robot ?r))
  :effect (and (at ?b ?r) (free) (not (holding ?b)))))
";

const ROOMS_INIT: &str = "(define (problem rooms-1) (:domain rooms) (:objects rooma roomb ball1)
 (:init (room rooma) (room roomb) (ball ball1) (at-robot rooma) (at ball1 rooma) (free))
 (:goal ";

const RING: &str = "(define (domain ring) (:predicates (at ?r) (next ?a ?b))
 (:action go :parameters (?a ?b) :precondition (and (at ?a) (next ?a ?b)) :effect (and (at ?b) (not (at ?a)))))
";

const RING_3: &str = "(define (problem ring-3) (:domain ring) (:objects r1 r2 r3)
 (:init (at r1) (next r1 r2) (next r2 r3) (next r3 r1)) (:goal (and (at r2) (at r3))))
";

const RING_4: &str = "(define (problem ring-4) (:domain ring) (:objects r1 r2 r3 r4)
 (:init (at r1) (next r1 r2) (next r2 r3) (next r3 r4) (next r4 r1)) (:goal (and (at r2) (at r3))))
";

const PRODUCT: &str =
    "(define (domain d)(:functions (x) (y))(:action a :parameters () :precondition (> (* (x) (y)) 1) :effect (and (increase (x) 1) (increase (y) 1))))";

const SCALED: &str =
    "(define (domain d)(:functions (x) (y))(:action a :parameters () :precondition (> (* (x) (y)) 1) :effect (increase (x) 1)))";

const NOTHING: &str = "(define (problem p) (:domain d) (:goal ()))";

fn text(alloc: Global, bytes: &str) -> Result<Text, Fail> {
    Ok(Text::from_slice(alloc, bytes.as_bytes())?)
}

// A folder with `domain.pddl` and `rooms-1.pddl`, whose loads with the listed numbers fail.
fn folder(
    alloc: Global,
    domain: Text,
    problem: Text,
    failing: List<u64>,
) -> Result<MemoryFolder, Fail> {
    let mut files = List::new(alloc);
    files.push((text(alloc, "domain.pddl")?, domain))?;
    files.push((text(alloc, "rooms-1.pddl")?, problem))?;
    Ok(MemoryFolder::new(alloc, files, failing))
}

// The rooms problem with this goal.
fn rooms(alloc: Global, goal: &str) -> Result<Text, Fail> {
    let mut problem = text(alloc, ROOMS_INIT)?;
    problem.extend_from_slice(goal.as_bytes())?;
    problem.extend_from_slice(b"))\n")?;
    Ok(problem)
}

fn brackets(alloc: Global, number: usize) -> Result<Text, Fail> {
    let mut opened = Text::new(alloc);
    for _ in 0..number {
        opened.extend_from_slice(b"(")?;
    }
    Ok(opened)
}

// How many states the search took.
fn takes(ended: &Ended) -> usize {
    ended
        .history
        .entries
        .as_slice()
        .iter()
        .filter(|entry| matches!(entry, Entry::Take { .. }))
        .count()
}

// Whether the states of numbers 0 to 4 were taken, in this order, and the last one ended the search.
fn takes_the_first_five(ended: &Ended) -> bool {
    matches!(
        ended.history.entries.as_slice(),
        [
            Entry::Take { state: 0, .. },
            Entry::Done { .. },
            Entry::Take { state: 1, .. },
            Entry::Done { .. },
            Entry::Take { state: 2, .. },
            Entry::Done { .. },
            Entry::Take { state: 3, .. },
            Entry::Done { .. },
            Entry::Take { state: 4, .. }
        ]
    )
}

// The words of a plan, with a budget where one is given.
fn words(alloc: Global, budget: Option<&str>) -> Result<Vec<String>, Fail> {
    let mut words = Vec::new(alloc);
    words.push("plan".to_string(alloc)?)?;
    words.push("domain.pddl".to_string(alloc)?)?;
    words.push("rooms-1.pddl".to_string(alloc)?)?;
    if let Some(number) = budget {
        words.push("--budget".to_string(alloc)?)?;
        words.push(number.to_string(alloc)?)?;
    }
    words.push("--heuristic".to_string(alloc)?)?;
    words.push("goals".to_string(alloc)?)?;
    Ok(words)
}

// What a call gave: its end, the number of its loads, and what it wrote.
#[derive(Drop)]
struct Called {
    ended: Ended,
    loads: usize,
    out: Text,
    err: Text,
}

fn call_with(
    alloc: Global,
    words: &[String],
    mut files: MemoryFolder,
    mut out: MemorySink,
) -> Result<Called, Fail> {
    let mut err = MemorySink::new(alloc, 1000, List::new(alloc));
    let ended = run(alloc, words, &mut files, &mut out, &mut err);
    Ok(Called {
        ended,
        loads: files.log().len(),
        out: Text::from_slice(alloc, out.bytes())?,
        err: Text::from_slice(alloc, err.bytes())?,
    })
}

// A call over whole files and sinks.
fn planned(
    alloc: Global,
    domain: Text,
    problem: Text,
    budget: Option<&str>,
) -> Result<Called, Fail> {
    let words = words(alloc, budget)?;
    let files = folder(alloc, domain, problem, List::new(alloc))?;
    let out = MemorySink::new(alloc, 1000, List::new(alloc));
    call_with(alloc, words.as_slice(), files, out)
}

fn wrote(called: &Called, status: u8, out: &[u8], err: &[u8]) -> bool {
    called.ended.status == status && called.out.as_slice() == out && called.err.as_slice() == err
}

// Whether a call over whole files and sinks ends and writes so.
fn answers(
    alloc: Global,
    domain: Text,
    problem: Text,
    budget: Option<&str>,
    status: u8,
    out: &[u8],
    err: &[u8],
) -> Result<bool, Fail> {
    let called = planned(alloc, domain, problem, budget)?;
    Ok(wrote(&called, status, out, err))
}

// Whether the domain is refused with this line.
fn refuses(alloc: Global, domain: Text, line: &[u8]) -> Result<bool, Fail> {
    let problem = text(alloc, NOTHING)?;
    answers(alloc, domain, problem, None, 3, b"", line)
}

#[test]
fn the_ball_is_brought_to_the_other_room(rt: HostRuntime) -> Result<(), Fail> {
    let alloc = rt.alloc();
    let problem = rooms(alloc, "(at ball1 roomb)")?;
    let called = planned(alloc, text(alloc, ROOMS)?, problem, None)?;
    let plan = b"(pick ball1 rooma)\n(move rooma roomb)\n(drop ball1 roomb)\n; steps 3\n";
    assert!(rt; wrote(&called, 0, plan, b""));
    assert!(rt; takes_the_first_five(&called.ended));
    Ok(())
}

#[test]
fn a_goal_that_holds_needs_no_step(rt: HostRuntime) -> Result<(), Fail> {
    let alloc = rt.alloc();
    let domain = text(alloc, ROOMS)?;
    let problem = rooms(alloc, "(at ball1 rooma)")?;
    assert!(rt; answers(alloc, domain, problem, Some("1"), 0, b"; steps 0\n", b"")?);
    Ok(())
}

#[test]
fn a_ring_of_three_has_no_plan(rt: HostRuntime) -> Result<(), Fail> {
    let alloc = rt.alloc();
    let called = planned(alloc, text(alloc, RING)?, text(alloc, RING_3)?, None)?;
    assert!(rt; wrote(&called, 1, b"no plan\n", b""));
    assert_eq!(rt; takes(&called.ended), 3);
    Ok(())
}

// Whether the ring of four rooms is answered so within this budget.
fn ring_of_four(alloc: Global, budget: &str, status: u8, out: &[u8]) -> Result<bool, Fail> {
    let domain = text(alloc, RING)?;
    let problem = text(alloc, RING_4)?;
    answers(alloc, domain, problem, Some(budget), status, out, b"")
}

#[test]
fn a_ring_of_four_within_a_budget(rt: HostRuntime) -> Result<(), Fail> {
    let alloc = rt.alloc();
    assert!(rt; ring_of_four(alloc, "4", 1, b"no plan\n")?);
    assert!(rt; ring_of_four(alloc, "3", 6, b"budget reached after 3 expansions\n")?);
    Ok(())
}

#[test]
fn brackets_that_do_not_pair(rt: HostRuntime) -> Result<(), Fail> {
    let alloc = rt.alloc();
    assert!(rt;
        refuses(
            alloc,
            text(alloc, "(define (domain d)")?,
            b"domain.pddl:18: unbalanced\n"
        )?
    );
    assert!(rt; refuses(alloc, text(alloc, "")?, b"domain.pddl:0: unbalanced\n")?);
    assert!(rt; refuses(alloc, brackets(alloc, 257)?, b"domain.pddl:256: too deep\n")?);
    Ok(())
}

#[test]
fn a_product_of_two_functions_that_change(rt: HostRuntime) -> Result<(), Fail> {
    let alloc = rt.alloc();
    assert!(rt;
        refuses(
            alloc,
            text(alloc, PRODUCT)?,
            b"domain.pddl:81: not linear\n"
        )?
    );
    assert!(rt; refuses(alloc, text(alloc, SCALED)?, b"task: not built\n")?);
    Ok(())
}

#[test]
fn a_problem_that_cannot_be_read(rt: HostRuntime) -> Result<(), Fail> {
    let alloc = rt.alloc();
    let words = words(alloc, None)?;
    let mut failing = List::new(alloc);
    failing.push(2)?;
    let files = folder(alloc, text(alloc, ROOMS)?, text(alloc, NOTHING)?, failing)?;
    let out = MemorySink::new(alloc, 1000, List::new(alloc));
    let called = call_with(alloc, words.as_slice(), files, out)?;
    assert!(rt; wrote(&called, 4, b"", b"cannot read rooms-1.pddl\n"));
    Ok(())
}

#[test]
fn a_sink_that_fails_at_its_second_put(rt: HostRuntime) -> Result<(), Fail> {
    let alloc = rt.alloc();
    let words = words(alloc, None)?;
    let problem = rooms(alloc, "(at ball1 roomb)")?;
    let files = folder(alloc, text(alloc, ROOMS)?, problem, List::new(alloc))?;
    let mut failing = List::new(alloc);
    failing.push(2)?;
    let out = MemorySink::new(alloc, 5, failing);
    let called = call_with(alloc, words.as_slice(), files, out)?;
    assert!(rt; wrote(&called, 5, b"(pick", b""));
    Ok(())
}

#[test]
fn words_with_one_missing_are_refused(rt: HostRuntime) -> Result<(), Fail> {
    let alloc = rt.alloc();
    let words = words(alloc, None)?;
    let files = folder(
        alloc,
        text(alloc, ROOMS)?,
        text(alloc, NOTHING)?,
        List::new(alloc),
    )?;
    let out = MemorySink::new(alloc, 1000, List::new(alloc));
    let Some((_last, others)) = words.as_slice().split_last() else {
        return Ok(());
    };
    let called = call_with(alloc, others, files, out)?;
    assert!(rt; wrote(&called, 2, b"", b"words refused\n"));
    assert_eq!(rt; called.loads, 0);
    Ok(())
}

// Whether the plan for the ball that is to be brought to the other room is judged so.
fn judges(alloc: Global, plan: &str, status: u8, out: &[u8], err: &[u8]) -> Result<bool, Fail> {
    let mut words = Vec::new(alloc);
    words.push("validate".to_string(alloc)?)?;
    words.push("domain.pddl".to_string(alloc)?)?;
    words.push("rooms-1.pddl".to_string(alloc)?)?;
    words.push("plan.txt".to_string(alloc)?)?;
    let mut files = List::new(alloc);
    files.push((text(alloc, "domain.pddl")?, text(alloc, ROOMS)?))?;
    files.push((
        text(alloc, "rooms-1.pddl")?,
        rooms(alloc, "(at ball1 roomb)")?,
    ))?;
    files.push((text(alloc, "plan.txt")?, text(alloc, plan)?))?;
    let files = MemoryFolder::new(alloc, files, List::new(alloc));
    let sink = MemorySink::new(alloc, 1000, List::new(alloc));
    let called = call_with(alloc, words.as_slice(), files, sink)?;
    Ok(wrote(&called, status, out, err))
}

const WHOLE: &str =
    "0.000: (pick ball1 rooma) [1.000]\n1: (move rooma roomb)\n2: (drop ball1 roomb)\n";

const FAILING: &str = "; a plan\n(PICK BALL1 ROOMA)\n(DROP BALL1 ROOMB)\n";

#[test]
fn plans_are_judged(rt: HostRuntime) -> Result<(), Fail> {
    let alloc = rt.alloc();
    assert!(rt; judges(alloc, WHOLE, 0, b"valid\n", b"")?);
    assert!(rt; judges(alloc, FAILING, 1, b"step 2 fails\n", b"")?);
    assert!(rt; judges(alloc, "", 1, b"goal fails\n", b"")?);
    assert!(rt;
        judges(
            alloc,
            "(pick ball1)\n",
            3,
            b"",
            b"plan.txt:1: wrong arguments\n"
        )?
    );
    Ok(())
}
