ghost use Rattle.mf_model.specs.Application.{instances_of};
ghost use Rattle.mf_model.specs.ResolvedTask.{IsResolvedTask};
ghost use Rattle.mf_validator.specs.Lexicons.{Adds, Knows};
ghost use Rattle.mf_validator.specs.PlanLines.{is_line_feed, line_of, lines_of};
ghost use Rattle.mf_validator.specs.PlanText.{Reads, folded, plan_of, steps_from, steps_of};
ghost use Rattle.std.specs.List.{All, position};
ghost use Rattle.std.specs.Prelude.{◌≡◌, ◌≤◌, ◌<◌, ◌∷◌, Contains, IfOk, length};

use crate::directory::{Lexicon, read_names};
use crate::fault::PlanFault;
use crate::line::{Form, read_form};
use crate::step::read_step;
use mf_model::{Instance, List, TypedTask};
use std::alloc::{AllocError, Global};

/// The plan that a file of at most 16,777,216 bytes writes. Case does not count.
///
/// A line is blank, or a step `(action object ..)`; a number and `:` may stand before it, as `0.000:`, and
/// a number in square brackets behind it. A comment runs from `;` to the end of the line.
///
/// # Errors
///
/// `BadLine` at a line of another form, `UnknownAction` where the task has no such action, and else
/// `WrongArguments` where an object is unknown or has none of its parameter's types, or where their
/// number is another. The first line at fault is named.
pub fn read_plan(
    alloc: Global,
    source: &[u8],
    task: &TypedTask,
) -> Result<List<Instance>, PlanFault>
    requires size { length source.now ≤ 16777216 }
    requires resolved { IsResolvedTask task.now }
    ensures plan { Reads (plan_of source.now task.now) result }
    ensures instances { IfOk result (All (Contains (instances_of task.now))) }
    ensures few { IfOk result (λ plan. length plan ≤ length source.now) }
{
    read_text(alloc, source, task)
}

pub(crate) fn read_text(
    alloc: Global,
    source: &[u8],
    task: &TypedTask,
) -> Result<List<Instance>, PlanFault>
    requires size { length source.now ≤ 16777216 }
    requires actions { length task.now.actions ≤ 65535 }
    requires objects { length task.now.objects ≤ 65535 }
    ensures { Reads (plan_of source.now task.now) result }
{
    let text = fold(alloc, source)?;
    let lexicon = read_names(alloc, task)?;
    read_lines(alloc, &lexicon, text.as_slice())
}

// The text in small letters.
fn fold(alloc: Global, source: &[u8]) -> Result<Vec<u8>, AllocError>
    ensures { IfOk result (λ text. text.items ≡ folded source.now) }
{
    source
        .iter()
        .map(|byte| byte.to_ascii_lowercase())
        .collect(alloc)
}

fn read_lines(
    alloc: Global,
    lexicon: &Lexicon<'_>,
    text: &[u8],
) -> Result<List<Instance>, PlanFault>
    requires size { length text.now ≤ 16777216 }
    requires knows { Knows lexicon.now }
    ensures { Reads (steps_from lexicon.now.task.now 1 (lines_of text.now)) result }
{
    let mut plan = List::new(alloc);
    let mut rest = text;
    let mut number = 1;
    while !rest.is_empty() {
        let (line, others) = split_line(rest);
        read_line(alloc, lexicon, line, number, &mut plan)?;
        rest = others;
        number += 1;
    }
    Ok(plan)
}

// The first line, and what stands behind its end.
fn split_line(text: &[u8]) -> (&[u8], &[u8])
    requires { 0 < length text.now }
    ensures lines { lines_of text.now ≡ result.0.now ∷ lines_of result.1.now }
    ensures shorter { length result.1.now < length text.now }
{
    match line_feed(text) {
        Some(at) => (&text[..at], &text[at + 1..]),
        None => (text, &[]),
    }
}

fn line_feed(text: &[u8]) -> Option<usize>
    ensures { result ≡ position is_line_feed text.now }
{
    text.iter().position(|byte| *byte == b'\n')
}

// Adds the step of the line with this number.
fn read_line(
    alloc: Global,
    lexicon: &Lexicon<'_>,
    line: &[u8],
    number: u32,
    plan: &mut List<Instance>,
) -> Result<(), PlanFault>
    requires { Knows lexicon.now }
    ensures { Adds plan.old (steps_of lexicon.now.task.now number (line_of line.now)) plan.new result }
{
    match read_form(alloc, line)? {
        Form::Blank => Ok(()),
        Form::Step(names) => {
            let step = read_step(alloc, lexicon, names.as_slice(), number)?;
            plan.push(step)?;
            Ok(())
        }
        Form::Bad => Err(PlanFault::BadLine { line: number }),
    }
}
