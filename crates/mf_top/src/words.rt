ghost use Rattle.std.specs.Prelude.{◌≡◌, ◌≤◌, map, IfOk, IfSome, string_bytes};
ghost use Rattle.mf_top.specs.declared.request.Request.TheVariants.{Plan, Validate, Ground};
ghost use Rattle.mf_top.specs.Decision.{IsUnlessMemory};
ghost use Rattle.mf_top.specs.Words.{budget_of, plan_request, validate_request, ground_request, either_request, request_of, asks_goals, greatest_budget, words_refused, ReadsWords, IsRequest};

use crate::Request;
use crate::decision::Decision;
use mf_model::Text;
use std::alloc::{AllocError, Global};

const DEFAULT_BUDGET: u64 = 1_000_000;

const GREATEST_BUDGET: u64 = 1_000_000_000_000;

// A budget of 1 to 20 decimal digits, if it lies in its range.
pub(crate) fn read_budget(word: &[u8]) -> Option<u64>
    ensures value { result ≡ budget_of word.now }
    ensures range { IfSome result (λ budget. (1 ≤ budget) × (budget ≤ greatest_budget)) }
{
    if word.is_empty() || word.len() > 20 {
        return None;
    }
    let mut number = 0;
    for byte in word {
        if !byte.is_ascii_digit() {
            return None;
        }
        number = 10 * number + u64::from(*byte - b'0');
        if number > GREATEST_BUDGET {
            return None;
        }
    }
    if number == 0 { None } else { Some(number) }
}

fn asks_for_goals(option: &str, value: &str) -> bool
    ensures { result ≡ asks_goals option.now value.now }
{
    option == "--heuristic" && value == "goals"
}

// The request for a plan of the task in two files.
fn plan_within(
    alloc: Global,
    domain: &String,
    problem: &String,
    budget: u64,
) -> Result<Option<Request>, AllocError>
    requires { (1 ≤ budget) × (budget ≤ greatest_budget) }
    ensures value { IfOk result (λ request. request ≡ Some (Plan (string_bytes domain.now) (string_bytes problem.now) budget)) }
    ensures valid { IfOk result (λ request. IfSome request IsRequest) }
{
    Ok(Some(Request::Plan {
        domain: Text::from_slice(alloc, domain.as_str().as_bytes())?,
        problem: Text::from_slice(alloc, problem.as_str().as_bytes())?,
        budget,
    }))
}

// The request to judge a plan file.
fn validate_of(
    alloc: Global,
    domain: &String,
    problem: &String,
    plan: &String,
) -> Result<Option<Request>, AllocError>
    ensures value { IfOk result (λ request. request ≡ Some (Validate (string_bytes domain.now) (string_bytes problem.now) (string_bytes plan.now))) }
    ensures valid { IfOk result (λ request. IfSome request IsRequest) }
{
    Ok(Some(Request::Validate {
        domain: Text::from_slice(alloc, domain.as_str().as_bytes())?,
        problem: Text::from_slice(alloc, problem.as_str().as_bytes())?,
        plan: Text::from_slice(alloc, plan.as_str().as_bytes())?,
    }))
}

// The request for the live instances of the task in two files.
fn ground_of(
    alloc: Global,
    domain: &String,
    problem: &String,
) -> Result<Option<Request>, AllocError>
    ensures value { IfOk result (λ request. request ≡ Some (Ground (string_bytes domain.now) (string_bytes problem.now))) }
    ensures valid { IfOk result (λ request. IfSome request IsRequest) }
{
    Ok(Some(Request::Ground {
        domain: Text::from_slice(alloc, domain.as_str().as_bytes())?,
        problem: Text::from_slice(alloc, problem.as_str().as_bytes())?,
    }))
}

// The plan that the words ask for, if they ask for one.
fn read_plan_words(alloc: Global, words: &[String]) -> Result<Option<Request>, AllocError>
    ensures value { IfOk result (λ request. request ≡ plan_request (map string_bytes words.now)) }
    ensures valid { IfOk result (λ request. IfSome request IsRequest) }
{
    match words {
        [command, domain, problem, option, value]
            if command.as_str() == "plan" && asks_for_goals(option.as_str(), value.as_str()) => {
            plan_within(alloc, domain, problem, DEFAULT_BUDGET)
        }
        [command, domain, problem, limit, number, option, value]
            if command.as_str() == "plan"
                && limit.as_str() == "--budget"
                && asks_for_goals(option.as_str(), value.as_str()) => {
            match read_budget(number.as_bytes()) {
                Some(budget) => plan_within(alloc, domain, problem, budget),
                None => Ok(None),
            }
        }
        _ => Ok(None),
    }
}

// The judgement that the words ask for, if they ask for one.
fn read_validate_words(alloc: Global, words: &[String]) -> Result<Option<Request>, AllocError>
    ensures value { IfOk result (λ request. request ≡ validate_request (map string_bytes words.now)) }
    ensures valid { IfOk result (λ request. IfSome request IsRequest) }
{
    match words {
        [command, domain, problem, plan] if command.as_str() == "validate" => {
            validate_of(alloc, domain, problem, plan)
        }
        _ => Ok(None),
    }
}

// The instances that the words ask for, if they ask for them.
fn read_ground_words(alloc: Global, words: &[String]) -> Result<Option<Request>, AllocError>
    ensures value { IfOk result (λ request. request ≡ ground_request (map string_bytes words.now)) }
    ensures valid { IfOk result (λ request. IfSome request IsRequest) }
{
    match words {
        [command, domain, problem] if command.as_str() == "ground" => {
            ground_of(alloc, domain, problem)
        }
        _ => Ok(None),
    }
}

// The plan or the instances that the words ask for.
fn read_task_words(alloc: Global, words: &[String]) -> Result<Option<Request>, AllocError>
    ensures value { IfOk result (λ request. request ≡ either_request (ground_request (map string_bytes words.now)) (plan_request (map string_bytes words.now))) }
    ensures valid { IfOk result (λ request. IfSome request IsRequest) }
{
    match read_ground_words(alloc, words)? {
        Some(request) => Ok(Some(request)),
        None => read_plan_words(alloc, words),
    }
}

// What the words ask for, if they keep the rule.
fn request_in(alloc: Global, words: &[String]) -> Result<Option<Request>, AllocError>
    ensures value { IfOk result (λ request. request ≡ request_of (map string_bytes words.now)) }
    ensures valid { IfOk result (λ request. IfSome request IsRequest) }
{
    match read_validate_words(alloc, words)? {
        Some(request) => Ok(Some(request)),
        None => read_task_words(alloc, words),
    }
}

fn refuse_words(alloc: Global) -> Decision
    ensures { IsUnlessMemory words_refused result }
{
    match Text::from_slice(alloc, b"words refused\n") {
        Ok(text) => Decision::stops(alloc, 2, text),
        Err(_) => Decision::out_of_memory(alloc),
    }
}

/// Reads the words.
pub(crate) fn read_words(alloc: Global, words: &[String]) -> Result<Request, Decision>
    ensures { ReadsWords (map string_bytes words.now) result }
{
    match request_in(alloc, words) {
        Ok(Some(request)) => Ok(request),
        Ok(None) => Err(refuse_words(alloc)),
        Err(_) => Err(Decision::out_of_memory(alloc)),
    }
}
