//! What changes add to the sets of the limit closure.
ghost use Rattle.mf_limit.specs.Chances.{number_chance};
ghost use Rattle.mf_limit.specs.Growth.{Fits, Grows, gain_of, term_gains};
ghost use Rattle.mf_task.specs.NumberedTasks.{is_numbered_change};
ghost use Rattle.mf_limit.specs.Sets.{HasSizesOf};
ghost use Rattle.mf_task.specs.GroundMeaning.{optional_form_at};
ghost use Rattle.mf_task.specs.LimitClosure.{change_gains, gain_if, number_gains};
ghost use Rattle.mf_task.specs.Rows.{sight_of};
ghost use Rattle.std.specs.Prelude.{◌≡◌, ◌<◌, true, length};

use crate::chance::{FormChance, chance_of_value};
use crate::scene::Scene;
use crate::sets::{Gain, LimitSets, TermChance};
use mf_model::Op;
use mf_task::GroundChange;
use std::cmp::Ordering;

/// Adds what the change gives, and says whether something is new.
pub(crate) fn add_change(scene: &Scene<'_>, sets: &mut LimitSets, change: &GroundChange) -> bool
    requires sizes { HasSizesOf scene.now.task.now sets.old }
    requires numbered { is_numbered_change scene.now.task.now change.now ≡ true }
    ensures { Grows sets.old sets.new (λ family. change_gains scene.now.task.now (sight_of scene.now.row.now) family change.now) result }
{
    match change {
        GroundChange::Add { atom } => sets.add(Gain::MayBeTrue { atom: *atom }),
        GroundChange::Delete { atom } => sets.add(Gain::MayBeFalse { atom: *atom }),
        GroundChange::Number { op, term, value } => add_number(scene, sets, *op, *term, *value),
        GroundChange::Cost { .. } => false,
        GroundChange::Nothing => false,
    }
}

fn add_number(
    scene: &Scene<'_>,
    sets: &mut LimitSets,
    op: Op,
    term: u32,
    value: Option<u32>,
) -> bool
    requires { term < length sets.old.terms.items }
    ensures { Grows sets.old sets.new (λ family. number_gains (sight_of scene.now.row.now) family op term (optional_form_at scene.now.task.now value)) result }
{
    let value = chance_of_value(scene, sets, value);
    add_term(sets, term, number_chance(op, &value))
}

// What becomes of a term by an effect with such a right side.
fn number_chance(op: Op, value: &FormChance) -> TermChance
    ensures { result ≡ number_chance op value.now }
{
    let above = value.may_have(Ordering::Greater);
    let below = value.may_have(Ordering::Less);
    let (may_rise, may_fall, may_be_defined) = match op {
        Op::Assign => (
            value.may_be_defined,
            value.may_be_defined,
            value.may_be_defined,
        ),
        Op::ScaleUp | Op::ScaleDown => (true, true, false),
        Op::Increase => (above, below, false),
        Op::Decrease => (below, above, false),
    };
    TermChance {
        may_rise,
        may_fall,
        may_be_defined,
    }
}

fn add_term(sets: &mut LimitSets, term: u32, chance: TermChance) -> bool
    requires { term < length sets.old.terms.items }
    ensures { Grows sets.old sets.new (λ family. term_gains term chance) result }
{
    let defined = add_if(sets, chance.may_be_defined, Gain::MayBeDefined { term });
    let rises = add_if(sets, chance.may_rise, Gain::MayRise { term });
    let falls = add_if(sets, chance.may_fall, Gain::MayFall { term });
    defined | (rises | falls)
}

fn add_if(sets: &mut LimitSets, holds: bool, gain: Gain) -> bool
    requires { Fits sets.old gain }
    ensures { Grows sets.old sets.new (λ family. gain_if holds (gain_of gain)) result }
{
    if holds { sets.add(gain) } else { false }
}
