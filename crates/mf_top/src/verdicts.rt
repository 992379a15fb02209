ghost use Rattle.std.specs.Prelude.{◌≡◌, ◌++◌, IfOk, OnOk, codes};
ghost use Rattle.std.specs.Fmt.{decimal};
ghost use Rattle.mf_fraction.specs.Text.{text_of};
ghost use Rattle.mf_top.specs.Texts.{valid_text, verdict_text, wide_text};

use crate::texts::write_number;
use mf_fraction::Frac;
use mf_io::Memory;
use mf_model::Text;
use mf_validator::{Reported, Verdict};
use std::alloc::Global;

fn write_fraction(alloc: Global, number: Frac, text: &mut Text) -> Result<(), Memory>
    ensures { OnOk result (text.new ≡ text.old ++ text_of number) }
{
    let mut digits = Vec::new(alloc);
    match mf_fraction::write(alloc, number, &mut digits) {
        Ok(()) => text.extend(digits.as_slice())?,
        Err(_) => return Err(Memory),
    }
    Ok(())
}

fn metric_text(alloc: Global, number: Frac) -> Result<Text, Memory>
    ensures { IfOk result (λ text. text ≡ codes "valid, metric " ++ text_of number ++ codes "\n") }
{
    let mut text = Text::from_slice(alloc, b"valid, metric ")?;
    write_fraction(alloc, number, &mut text)?;
    text.push(b'\n')?;
    Ok(text)
}

fn valid_text(alloc: Global, metric: Reported) -> Result<Text, Memory>
    ensures { IfOk result (λ text. text ≡ valid_text metric) }
{
    match metric {
        Reported::Absent => Ok(Text::from_slice(alloc, b"valid\n")?),
        Reported::Undefined => Ok(Text::from_slice(alloc, b"valid, metric undefined\n")?),
        Reported::Value(number) => metric_text(alloc, number),
    }
}

fn step_text(alloc: Global, front: &[u8], step: u32, back: &[u8]) -> Result<Text, Memory>
    ensures { IfOk result (λ text. text ≡ front.now ++ decimal step ++ back.now) }
{
    let mut text = Text::from_slice(alloc, front)?;
    write_number(alloc, u64::from(step), &mut text)?;
    text.extend(back)?;
    Ok(text)
}

/// What is written of a verdict.
pub(crate) fn verdict_text(alloc: Global, verdict: &Verdict) -> Result<Text, Memory>
    ensures { IfOk result (λ text. text ≡ verdict_text verdict.now) }
{
    match verdict {
        Verdict::Valid { metric } => valid_text(alloc, *metric),
        Verdict::StepFails { step, .. } => step_text(alloc, b"step ", *step, b" fails\n"),
        Verdict::GoalFails => Ok(Text::from_slice(alloc, b"goal fails\n")?),
    }
}

/// What is written of a value that does not fit at this step, or after the last one.
pub(crate) fn wide_text(alloc: Global, step: u32) -> Result<Text, Memory>
    ensures { IfOk result (λ text. text ≡ wide_text step) }
{
    step_text(alloc, b"width: step ", step, b"\n")
}
