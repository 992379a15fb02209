ghost use Rattle.mf_normal.specs.FormParts.{IsPartPlace, IsRising, MakesList, MakesParts, PutsPart, are_narrow};
ghost use Rattle.mf_normal.specs.declared.parts.PartPlace.TheVariants.{New, There};
ghost use Rattle.mf_task.specs.LinearForms.{minus_one, scaled_part, with_parts};
ghost use Rattle.std.specs.Prelude.{◌≡◌, map, true, IfOk};

use crate::arithmetic::opposite;
use crate::fault::FormFault;
use mf_fraction::{Frac, add, mul};
use mf_model::List;
use mf_task::Part;
use std::alloc::{AllocError, Global};

/// A place in a list of parts in term order.
#[derive(Clone, Copy)]
pub(crate) enum PartPlace {
    There(usize),
    New(usize),
}

/// Adds the parts of a form to those of another, in term order.
pub(crate) fn add_parts(parts: &mut List<Part>, more: &[Part]) -> Result<(), FormFault>
    requires rising { IsRising parts.old }
    requires narrow { are_narrow parts.old ≡ true }
    requires more_rising { IsRising more.now }
    requires more_narrow { are_narrow more.now ≡ true }
    ensures { MakesParts (with_parts parts.old more.now) parts.new result }
{
    for part in more {
        add_part(parts, part)?;
    }
    Ok(())
}

// Adds a part, its coefficient to that of its term where there is one.
fn add_part(parts: &mut List<Part>, part: &Part) -> Result<(), FormFault>
    ensures { PutsPart part.now parts.old parts.new result }
{
    match place_of(parts.as_slice(), part) {
        PartPlace::There(at) => merge_part(parts, at, part),
        PartPlace::New(at) => insert_part(parts, at, part),
    }
}

fn insert_part(parts: &mut List<Part>, at: usize, part: &Part) -> Result<(), FormFault>
    requires { IsPartPlace parts.old part.now (New at) }
    ensures { PutsPart part.now parts.old parts.new result }
{
    let coefficient = part.coefficient;
    let term = part.term;
    parts.insert(at, Part { coefficient, term })?;
    Ok(())
}

fn merge_part(parts: &mut List<Part>, at: usize, part: &Part) -> Result<(), FormFault>
    requires { IsPartPlace parts.old part.now (There at) }
    ensures { PutsPart part.now parts.old parts.new result }
{
    let other = &parts.as_slice()[at];
    let coefficient = add(other.coefficient, part.coefficient)?;
    let term = other.term;
    parts.set(at, Part { coefficient, term });
    Ok(())
}

fn place_of(parts: &[Part], part: &Part) -> PartPlace
    ensures { IsPartPlace parts.now part.now result }
{
    for (at, other) in parts.iter().enumerate() {
        if part.term < other.term {
            return PartPlace::New(at);
        }
        if part.term == other.term {
            return PartPlace::There(at);
        }
    }
    PartPlace::New(parts.len())
}

/// The parts with each coefficient multiplied by a factor.
pub(crate) fn scaled_parts(
    alloc: Global,
    factor: Frac,
    parts: &[Part],
) -> Result<List<Part>, FormFault>
    requires { IsRising parts.now }
    ensures { MakesList (map (scaled_part factor) parts.now) result }
{
    let mut scaled = List::new(alloc);
    for part in parts {
        let coefficient = mul(factor, part.coefficient)?;
        let term = part.term;
        scaled.push(Part { coefficient, term })?;
    }
    Ok(scaled)
}

/// The parts with the other sign.
pub(crate) fn opposite_parts(alloc: Global, parts: &[Part]) -> Result<List<Part>, AllocError>
    requires { IsRising parts.now }
    ensures value { IfOk result (λ opposite. opposite ≡ map (scaled_part minus_one) parts.now) }
    ensures rising { IfOk result IsRising }
    ensures narrow { IfOk result (λ opposite. are_narrow opposite ≡ true) }
{
    let mut opposites = List::new(alloc);
    for part in parts {
        let coefficient = opposite(part.coefficient);
        let term = part.term;
        opposites.push(Part { coefficient, term })?;
    }
    Ok(opposites)
}
