ghost use Rattle.mf_graph.specs.FirstLevels.{level_by};
ghost use Rattle.mf_task.specs.Layers.{all_levels, and_level, any_level, earlier, fact_level, or_level};
ghost use Rattle.std.specs.Prelude.{◌≡◌, map, max};

use crate::Levels;
use crate::want::want_of;
use mf_task::GroundCond;

/// The level of a condition, or of its negation: the first layer that meets it, part by part.
#[cycle(level)]
pub(crate) fn level(levels: &Levels, condition: &GroundCond, asked: bool) -> Option<u32>
    ensures { result ≡ level_by levels.now condition.now asked }
{
    match condition {
        GroundCond::Fact { holds } => fact_level(asked == *holds),
        GroundCond::Neither => None,
        GroundCond::Atom { atom } => levels.of_atom(asked, *atom),
        GroundCond::Compare { relation, form } => {
            levels.of_form(want_of(asked, *relation), *form)
        }
        GroundCond::Not { part } => level(levels, part.get(), !asked),
        GroundCond::And { parts } => level_of_and(levels, parts.as_slice(), asked),
        GroundCond::Or { parts } => level_of_or(levels, parts.as_slice(), asked),
    }
}

#[cycle(level)]
fn level_of_and(levels: &Levels, parts: &[GroundCond], asked: bool) -> Option<u32>
    ensures { result ≡ and_level (map (level_by levels.now) parts.now) asked }
{
    if asked {
        latest(levels, parts, true)
    } else {
        earliest(levels, parts, false)
    }
}

#[cycle(level)]
fn level_of_or(levels: &Levels, parts: &[GroundCond], asked: bool) -> Option<u32>
    ensures { result ≡ or_level (map (level_by levels.now) parts.now) asked }
{
    if asked {
        earliest(levels, parts, true)
    } else {
        latest(levels, parts, false)
    }
}

// The greatest level of the parts, 0 for none.
#[cycle(level)]
fn latest(levels: &Levels, parts: &[GroundCond], asked: bool) -> Option<u32>
    ensures { result ≡ all_levels (map (λ part. part asked) (map (level_by levels.now) parts.now)) }
{
    let mut last = 0;
    for part in parts {
        let Some(found) = level(levels, part, asked) else {
            return None;
        };
        last = greater(last, found);
    }
    Some(last)
}

// The least level of the parts, none for none.
#[cycle(level)]
fn earliest(levels: &Levels, parts: &[GroundCond], asked: bool) -> Option<u32>
    ensures { result ≡ any_level (map (λ part. part asked) (map (level_by levels.now) parts.now)) }
{
    let mut first = None;
    for part in parts {
        let found = level(levels, part, asked);
        first = earlier(first, found);
    }
    first
}

fn fact_level(holds: bool) -> Option<u32>
    ensures { result ≡ fact_level holds }
{
    if holds { Some(0) } else { None }
}

fn greater(a: u32, b: u32) -> u32
    ensures { result ≡ max a b }
{
    if a < b { b } else { a }
}

// The less of two levels, or the one that there is.
fn earlier(a: Option<u32>, b: Option<u32>) -> Option<u32>
    ensures { result ≡ earlier a b }
{
    match (a, b) {
        (Some(a), Some(b)) => Some(if a < b { a } else { b }),
        (Some(a), None) => Some(a),
        (None, b) => b,
    }
}
