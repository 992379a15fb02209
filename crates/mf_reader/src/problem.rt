ghost use Rattle.std.specs.Prelude.{◌≡◌, IfErr, IfOk};
ghost use Rattle.std.specs.Option.{unwrap_or};
ghost use Rattle.mf_model.specs.Trees.{IsPlaced};
ghost use Rattle.mf_model.specs.declared.form.Problem.{Problem};
ghost use Rattle.mf_reader.specs.Filled.{Fills};
ghost use Rattle.mf_reader.specs.GrammarFiles.{IsProblem};
ghost use Rattle.mf_reader.specs.Order.{IsAnsweredFault};
ghost use Rattle.mf_reader.specs.Problems as spec;
ghost use Rattle.mf_reader.specs.Said.{Gives, Refuses, IsWhole, said};

use crate::fault::FormFault;
use crate::goals::{goal, metric};
use crate::inits::{Starts, init};
use crate::keys::{ProblemKey, problem_key_of};
use crate::requirements::requirements;
use crate::titles::{one_word, title};
use crate::typed::{Listed, typed_list};
use crate::words::has_text;
use mf_model::{List, Problem, RawCond, RawMetric, Span, Text, Tree, TypedList};
use sqlite_items::Items;
use std::alloc::Global;

/// The sections of a problem that stand so far.
#[derive(Drop)]
pub(crate) struct ProblemParts {
    pub(crate) domain: bool,
    pub(crate) requirements: bool,
    pub(crate) objects: Option<TypedList>,
    pub(crate) init: Option<Starts>,
    pub(crate) goal: Option<RawCond>,
    pub(crate) metric: Option<RawMetric>,
}

/// Whether a section may stand behind these: each stands once.
fn may_stand(key: ProblemKey, parts: &ProblemParts) -> bool
    ensures { result ≡ spec.may_stand key parts.now }
{
    match key {
        ProblemKey::Domain => !parts.domain,
        ProblemKey::Requirements => !parts.requirements,
        ProblemKey::Objects => parts.objects.is_none(),
        ProblemKey::Init => parts.init.is_none(),
        ProblemKey::Goal => parts.goal.is_none(),
        ProblemKey::Metric => parts.metric.is_none(),
        ProblemKey::LeftOut => true,
        ProblemKey::Other => false,
    }
}

/// Puts a section to those that stand.
fn add_section(
    alloc: Global,
    key: ProblemKey,
    span: Span,
    items: &[Tree],
    parts: &mut ProblemParts,
) -> Result<(), FormFault>
    ensures { Fills result parts.new (spec.with_section key span items.now parts.old) }
{
    match key {
        ProblemKey::Domain => {
            one_word(alloc, span, items)?;
            parts.domain = true;
        }
        ProblemKey::Requirements => {
            requirements(items)?;
            parts.requirements = true;
        }
        ProblemKey::Objects => {
            let objects = typed_list(alloc, Listed::Names, items)?;
            parts.objects = Some(objects);
        }
        ProblemKey::Init => {
            let init = init(alloc, items)?;
            parts.init = Some(init);
        }
        ProblemKey::Goal => {
            let goal = goal(alloc, span, items)?;
            parts.goal = Some(goal);
        }
        ProblemKey::Metric => {
            let metric = metric(alloc, span, items)?;
            parts.metric = Some(metric);
        }
        ProblemKey::LeftOut => return Err(FormFault::LeftOut { span }),
        ProblemKey::Other => return Err(FormFault::BadForm { span }),
    }
    Ok(())
}

/// Reads a section of a problem.
fn read_section(alloc: Global, tree: &Tree, parts: &mut ProblemParts) -> Result<(), FormFault>
    ensures { Fills result parts.new (spec.section_of tree.now parts.old) }
{
    match tree {
        Tree::Leaf { span, .. } => Err(FormFault::BadForm { span: *span }),
        Tree::Branch { items, span } => {
            let [head, items @ ..] = items.as_slice() else {
                return Err(FormFault::BadForm { span: *span });
            };
            let key = problem_key_of(head);
            if !may_stand(key, parts) {
                return Err(FormFault::BadForm { span: *span });
            }
            add_section(alloc, key, *span, items, parts)
        }
    }
}

/// Reads the sections of a problem.
fn read_sections(alloc: Global, trees: &[Tree], parts: &mut ProblemParts) -> Result<(), FormFault>
    ensures { Fills result parts.new (spec.sections_from parts.old trees.now) }
{
    for tree in trees {
        read_section(alloc, tree, parts)?;
    }
    Ok(())
}

/// Whether a tree is a list with the head word.
fn is_headed(tree: &Tree, key: &[u8]) -> bool
    ensures { result ≡ spec.is_headed key.now tree.now }
{
    match tree {
        Tree::Leaf { .. } => false,
        Tree::Branch { items, .. } => match items.as_slice() {
            [head, ..] => has_text(head, key),
            [] => false,
        },
    }
}

/// Whether a section with the keyword stands.
fn stands(key: &[u8], sections: &[Tree]) -> bool
    ensures { result ≡ spec.stands key.now sections.now }
{
    for section in sections {
        if is_headed(section, key) {
            return true;
        }
    }
    false
}

/// The items of the init; none where it is missing.
fn starts_or_none(alloc: Global, init: Option<Starts>) -> Starts
    ensures { result ≡ unwrap_or init spec.empty_init }
{
    init.unwrap_or(Starts {
        atoms: List::new(alloc),
        values: List::new(alloc),
    })
}

/// A problem of its name and its sections; a missing section is empty.
fn made_problem(alloc: Global, span: Span, name: Text, parts: ProblemParts) -> Problem
    ensures { result ≡ spec.made_problem span name parts }
{
    let ProblemParts {
        domain: _,
        requirements: _,
        objects,
        init,
        goal,
        metric,
    } = parts;
    let objects = objects.unwrap_or(TypedList::new(alloc));
    let Starts { atoms, values } = starts_or_none(alloc, init);
    let goal = goal.unwrap_or(RawCond::And {
        parts: Items::new(alloc),
        span,
    });
    Problem {
        name,
        objects,
        atoms,
        values,
        goal,
        metric,
    }
}

/// A problem, from its title and its sections.
fn problem_with_sections(
    alloc: Global,
    span: Span,
    head: &Tree,
    sections: &[Tree],
) -> Result<Problem, FormFault>
    ensures { Gives result (spec.problem_behind span head.now sections.now) }
{
    let name = title(alloc, head, b"problem".as_slice())?;
    let mut parts = ProblemParts {
        domain: false,
        requirements: false,
        objects: None,
        init: None,
        goal: None,
        metric: None,
    };
    read_sections(alloc, sections, &mut parts)?;
    Ok(made_problem(alloc, span, name, parts))
}

/// Whether the sections stand that a problem must have.
fn is_whole(sections: &[Tree]) -> bool
    ensures { result ≡ spec.is_whole sections.now }
{
    stands(b":domain".as_slice(), sections) && stands(b":goal".as_slice(), sections)
}

/// The problem that a tree is.
fn problem_of(alloc: Global, tree: &Tree) -> Result<Problem, FormFault>
    ensures { Gives result (spec.problem_of tree.now) }
{
    match tree {
        Tree::Leaf { span, .. } => Err(FormFault::BadForm { span: *span }),
        Tree::Branch { items, span } => {
            let [define, head, sections @ ..] = items.as_slice() else {
                return Err(FormFault::BadForm { span: *span });
            };
            if !(has_text(define, b"define".as_slice()) && is_whole(sections)) {
                return Err(FormFault::BadForm { span: *span });
            }
            problem_with_sections(alloc, *span, head, sections)
        }
    }
}

/// Reads the problem that a tree is: its objects, the atoms and values of its init, its goal and
/// its metric as they are written, in the order of the text. Where the tree is no problem of the
/// grammar (PDDL 2.1, level 2: Fox and Long, JAIR 2003; `docs/FORMATS.md` says which part of it is
/// read) the first fault in the text is answered: `UnknownRequirement` at a requirement that is not
/// known, `LeftOut` at a construct that is not read, and `BadForm` at a list or a word that is of
/// no form at its place. A problem without `:domain` or `:goal` is `BadForm` as a whole. Spans
/// count the bytes of the file.
pub fn read_problem(alloc: Global, tree: &Tree) -> Result<Problem, FormFault>
    ensures reads { Gives result (spec.problem_of tree.now) }
    ensures value { IfOk result (IsWhole (spec.problem_of tree.now)) }
    ensures fault { IfErr result (λ fault. Refuses fault (spec.problem_of tree.now).faults) }
    ensures form { IfOk result (λ problem. IsProblem problem tree.now) }
    ensures only { (problem : Problem) → IsProblem problem tree.now → Gives result (said problem) }
    ensures least { IsPlaced tree.now → IfErr result (λ fault. IsAnsweredFault fault (spec.problem_of tree.now).faults) }
{
    problem_of(alloc, tree)
}
