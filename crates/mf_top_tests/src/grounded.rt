ghost use Rattle.mf_top.specs.Words.{AsksInstances, IsRequest};
ghost use Rattle.std.specs.Prelude.{IfOk};

use crate::tasks;
use mf_io::{List, MemoryFolder, MemorySink, Text};
use mf_top::{Request, ground, run};
use std::alloc::Global;
use std::test::Fail;

fn text(alloc: Global, bytes: &str) -> Result<Text, Fail> {
    Ok(Text::from_slice(alloc, bytes.as_bytes())?)
}

fn folder(alloc: Global, domain: &str, problem: &str) -> Result<MemoryFolder, Fail> {
    let mut files = List::new(alloc);
    files.push((text(alloc, "domain.pddl")?, text(alloc, domain)?))?;
    files.push((text(alloc, "problem.pddl")?, text(alloc, problem)?))?;
    Ok(MemoryFolder::new(alloc, files, List::new(alloc)))
}

// A request for the live instances.
fn request(alloc: Global) -> Result<Request, Fail>
    ensures request { IfOk result IsRequest }
    ensures instances { IfOk result AsksInstances }
{
    Ok(Request::Ground {
        domain: mf_model::Text::from_slice(alloc, "domain.pddl".as_bytes())?,
        problem: mf_model::Text::from_slice(alloc, "problem.pddl".as_bytes())?,
    })
}

// Whether the task's instances are listed with this status and this text on out.
fn is_grounded(
    alloc: Global,
    domain: &str,
    problem: &str,
    status: u8,
    text: &[u8],
) -> Result<bool, Fail> {
    let request = request(alloc)?;
    let mut files = folder(alloc, domain, problem)?;
    let mut out = MemorySink::new(alloc, 1000, List::new(alloc));
    let mut err = MemorySink::new(alloc, 1000, List::new(alloc));
    let ended = ground(alloc, &request, &mut files, &mut out, &mut err);
    Ok(ended.status == status && out.bytes() == text && err.bytes() == b"".as_slice())
}

#[test]
fn items_are_packed_one_by_one(rt: HostRuntime) -> Result<(), Fail> {
    let alloc = rt.alloc();
    let text = tasks::PACKED.as_bytes();
    assert!(rt; is_grounded(alloc, tasks::PACK, tasks::PACK_1, 0, text)?);
    Ok(())
}

#[test]
fn a_static_precondition_leaves_no_instance(rt: HostRuntime) -> Result<(), Fail> {
    let alloc = rt.alloc();
    let text = b"; instances 0, nodes 1\n";
    assert!(rt; is_grounded(alloc, tasks::SHUT, tasks::SHUT_1, 0, text)?);
    Ok(())
}

#[test]
fn pairs_of_different_places(rt: HostRuntime) -> Result<(), Fail> {
    let alloc = rt.alloc();
    let text = b"(go a b)\n(go b a)\n(stay a)\n(stay b)\n; instances 4, nodes 25\n";
    assert!(rt; is_grounded(alloc, tasks::PAIRS, tasks::PAIRS_1, 0, text)?);
    Ok(())
}

// Whether the words, with this command before two names of files, are answered so.
fn is_answered(alloc: Global, words: &[&str], status: u8, out: &[u8]) -> Result<bool, Fail> {
    let mut given = Vec::new(alloc);
    for word in words {
        given.push(word.to_string(alloc)?)?;
    }
    let mut files = folder(alloc, tasks::SHUT, tasks::SHUT_1)?;
    let mut sink = MemorySink::new(alloc, 1000, List::new(alloc));
    let mut err = MemorySink::new(alloc, 1000, List::new(alloc));
    let ended = run(alloc, given.as_slice(), &mut files, &mut sink, &mut err);
    Ok(ended.status == status && sink.bytes() == out)
}

#[test]
fn two_names_of_files_and_no_more(rt: HostRuntime) -> Result<(), Fail> {
    let alloc = rt.alloc();
    let text = b"; instances 0, nodes 1\n";
    let two = ["ground", "domain.pddl", "problem.pddl"];
    let three = ["ground", "domain.pddl", "problem.pddl", "plan.txt"];
    assert!(rt; is_answered(alloc, two.as_slice(), 0, text)?);
    assert!(rt; is_answered(alloc, three.as_slice(), 2, b"")?);
    Ok(())
}
