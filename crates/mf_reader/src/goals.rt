ghost use Rattle.mf_reader.specs.Goals as spec;
ghost use Rattle.mf_reader.specs.Said.{Gives};

use crate::conditions::condition;
use crate::expressions::expression;
use crate::fault::FormFault;
use crate::places::ExprPlace;
use crate::words::{has_text, span_of};
use mf_model::{RawCond, RawMetric, Span, Tree};
use std::alloc::Global;

/// The goal, from what stands behind its keyword.
pub(crate) fn goal(alloc: Global, span: Span, trees: &[Tree]) -> Result<RawCond, FormFault>
    ensures { Gives result (spec.goal_at span trees.now) }
{
    match trees {
        [tree] => condition(alloc, tree),
        _ => Err(FormFault::BadForm { span }),
    }
}

/// Whether the least value is asked for, or the greatest.
fn is_least(tree: &Tree) -> Result<bool, FormFault>
    ensures { Gives result (spec.direction_of tree.now) }
{
    if has_text(tree, b"minimize".as_slice()) {
        Ok(true)
    } else if has_text(tree, b"maximize".as_slice()) {
        Ok(false)
    } else {
        Err(FormFault::BadForm {
            span: span_of(tree),
        })
    }
}

/// The metric, from what stands behind its keyword.
pub(crate) fn metric(alloc: Global, span: Span, trees: &[Tree]) -> Result<RawMetric, FormFault>
    ensures { Gives result (spec.metric_at span trees.now) }
{
    let [direction, tree] = trees else {
        return Err(FormFault::BadForm { span });
    };
    let least = is_least(direction)?;
    let value = expression(alloc, ExprPlace::Metric, tree)?;
    Ok(RawMetric { least, value })
}
