ghost use Rattle.mf_top.specs.Words.{AsksJudgement, IsRequest};
ghost use Rattle.std.specs.Prelude.{IfOk};

use crate::tasks;
use mf_io::{List, MemoryFolder, MemorySink, Text};
use mf_top::{Request, run, validate};
use std::alloc::Global;
use std::test::Fail;

/// A domain, a problem and a plan.
#[derive(Drop)]
struct Case<'a> {
    domain: &'a str,
    problem: &'a str,
    plan: &'a str,
}

fn text(alloc: Global, bytes: &str) -> Result<Text, Fail> {
    Ok(Text::from_slice(alloc, bytes.as_bytes())?)
}

fn folder(alloc: Global, case: &Case) -> Result<MemoryFolder, Fail> {
    let mut files = List::new(alloc);
    files.push((text(alloc, "domain.pddl")?, text(alloc, case.domain)?))?;
    files.push((text(alloc, "problem.pddl")?, text(alloc, case.problem)?))?;
    files.push((text(alloc, "plan.txt")?, text(alloc, case.plan)?))?;
    Ok(MemoryFolder::new(alloc, files, List::new(alloc)))
}

fn words(alloc: Global) -> Result<Vec<String>, Fail> {
    let mut words = Vec::new(alloc);
    for word in ["validate", "domain.pddl", "problem.pddl", "plan.txt"] {
        words.push(word.to_string(alloc)?)?;
    }
    Ok(words)
}

// Whether the plan is judged with this status and this line on out.
fn is_judged(alloc: Global, case: &Case, status: u8, line: &[u8]) -> Result<bool, Fail> {
    let words = words(alloc)?;
    let mut files = folder(alloc, case)?;
    let mut out = MemorySink::new(alloc, 1000, List::new(alloc));
    let mut err = MemorySink::new(alloc, 1000, List::new(alloc));
    let ended = run(alloc, words.as_slice(), &mut files, &mut out, &mut err);
    Ok(ended.status == status && out.bytes() == line && err.bytes() == b"".as_slice())
}

fn burning(alloc: Global, domain: &str, plan: &str, status: u8, line: &[u8]) -> Result<bool, Fail> {
    let case = Case {
        domain,
        problem: tasks::BURN_1,
        plan,
    };
    is_judged(alloc, &case, status, line)
}

#[test]
fn a_third_of_the_fuel_is_burnt_thrice(rt: HostRuntime) -> Result<(), Fail> {
    let alloc = rt.alloc();
    let thrice = "(burn)\n(burn)\n(burn)\n";
    let unended = "(burn)\n(burn)\n(burn)";
    assert!(rt; burning(alloc, tasks::BURN_AT_LEAST, thrice, 0, b"valid\n")?);
    assert!(rt; burning(alloc, tasks::BURN_AT_LEAST, unended, 0, b"valid\n")?);
    assert!(rt;
        burning(
            alloc,
            tasks::BURN_AT_LEAST,
            "(burn)\n(burn)\n",
            1,
            b"goal fails\n"
        )?
    );
    assert!(rt; burning(alloc, tasks::BURN_MORE, thrice, 1, b"step 3 fails\n")?);
    Ok(())
}

#[test]
fn every_spelling_of_a_plan_line(rt: HostRuntime) -> Result<(), Fail> {
    let alloc = rt.alloc();
    let plan = "\t12.5:\t( BURN )\t[0.5] ; a comment\n\n;(burn)\n3:(burn)[1]\r\n (Burn)";
    assert!(rt; burning(alloc, tasks::BURN_AT_LEAST, plan, 0, b"valid\n")?);
    Ok(())
}

#[test]
fn the_metric_is_that_of_the_last_state(rt: HostRuntime) -> Result<(), Fail> {
    let alloc = rt.alloc();
    let ring = Case {
        domain: tasks::RING_COST,
        problem: tasks::RING_COST_3,
        plan: "(go r1 r2)\n(go r2 r3)\n",
    };
    let parcels = Case {
        domain: tasks::PARCELS,
        problem: tasks::PARCELS_1,
        plan: tasks::PARCELS_PLAN,
    };
    assert!(rt; is_judged(alloc, &ring, 0, b"valid, metric 2\n")?);
    assert!(rt; is_judged(alloc, &parcels, 0, b"valid, metric 9\n")?);
    Ok(())
}

fn summed(alloc: Global, problem: &str, plan: &str, status: u8, line: &[u8]) -> Result<bool, Fail> {
    let case = Case {
        domain: tasks::SUMS,
        problem,
        plan,
    };
    is_judged(alloc, &case, status, line)
}

#[test]
fn effects_on_one_term_and_an_undefined_metric(rt: HostRuntime) -> Result<(), Fail> {
    let alloc = rt.alloc();
    let undefined = b"valid, metric undefined\n";
    assert!(rt; summed(alloc, tasks::SUMS_1, "(two)\n", 0, b"valid\n")?);
    assert!(rt; summed(alloc, tasks::SUMS_1, "(mix)\n", 1, b"step 1 fails\n")?);
    assert!(rt; summed(alloc, tasks::SUMS_WITH_METRIC, "(two)\n", 0, undefined)?);
    Ok(())
}

#[test]
fn an_atom_deleted_and_added_and_a_wide_step(rt: HostRuntime) -> Result<(), Fail> {
    let alloc = rt.alloc();
    let twice = Case {
        domain: tasks::TWICE,
        problem: tasks::TWICE_1,
        plan: "(act)\n",
    };
    let grow = Case {
        domain: tasks::GROW,
        problem: tasks::GROW_1,
        plan: "(double)\n",
    };
    assert!(rt; is_judged(alloc, &twice, 0, b"valid\n")?);
    assert!(rt; is_judged(alloc, &grow, 7, b"width: step 1\n")?);
    Ok(())
}

// A request to judge the plan.
fn request(alloc: Global) -> Result<Request, Fail>
    ensures request { IfOk result IsRequest }
    ensures judgement { IfOk result AsksJudgement }
{
    Ok(Request::Validate {
        domain: mf_model::Text::from_slice(alloc, "domain.pddl".as_bytes())?,
        problem: mf_model::Text::from_slice(alloc, "problem.pddl".as_bytes())?,
        plan: mf_model::Text::from_slice(alloc, "plan.txt".as_bytes())?,
    })
}

#[test]
fn a_request_is_judged(rt: HostRuntime) -> Result<(), Fail> {
    let alloc = rt.alloc();
    let case = Case {
        domain: tasks::BURN_AT_LEAST,
        problem: tasks::BURN_1,
        plan: "(burn)\n",
    };
    let mut files = folder(alloc, &case)?;
    let mut out = MemorySink::new(alloc, 1000, List::new(alloc));
    let mut err = MemorySink::new(alloc, 1000, List::new(alloc));
    let ended = validate(alloc, &request(alloc)?, &mut files, &mut out, &mut err);
    assert!(rt; ended.status == 1);
    assert!(rt; out.bytes() == b"goal fails\n".as_slice());
    Ok(())
}
