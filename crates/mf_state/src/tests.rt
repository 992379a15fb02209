ghost use Rattle.mf_state.specs.PackedTasks.{IsPackedTask, are_sound_effects};
ghost use Rattle.mf_task.specs.Rows.{IsRowOf};
ghost use Rattle.std.specs.Prelude.{◌≡◌, ◌∷◌, [], IfOk, Some, length, true};
ghost use Rattle.mf_task.specs.declared.ground.GroundChange.TheVariants as change;
ghost use Rattle.mf_task.specs.declared.task.Task.{Task};

use crate::reading::value_of;
use crate::width::wide_place;
use crate::{Next, StartFault, StepFault, is_goal, start, successors};
use mf_fraction::Frac;
use mf_model::{Atom, Cell, Instance, List, Op, Relation};
use mf_task::{Form, GroundAction, GroundChange, GroundCond, GroundEffect, Part, Place, Row, Task};
use std::alloc::Global;
use std::process::Abort;
use std::test::Fail;

const HALF: i64 = 2_305_843_009_213_693_952;

const GREATEST: i64 = 4_611_686_018_427_387_904;

fn one<T: Drop>(alloc: Global, item: T) -> Result<List<T>, Fail>
    ensures { IfOk result (λ list. list ≡ item ∷ []) }
{
    let mut list = List::new(alloc);
    list.push(item)?;
    Ok(list)
}

// The value of the one term, times this coefficient.
fn multiple(alloc: Global, coefficient: i64) -> Result<Form, Fail> {
    let part = Part {
        coefficient: Frac::whole(coefficient)?,
        term: 0,
    };
    Ok(Form {
        constant: Frac::whole(0)?,
        parts: one(alloc, part)?,
    })
}

// An action without parameters and precondition, with these effects.
fn action(alloc: Global, effects: List<GroundEffect>) -> GroundAction
    ensures { result.effects ≡ effects }
{
    GroundAction {
        instance: Instance {
            action: 0,
            objects: List::new(alloc),
        },
        condition: GroundCond::Fact { holds: true },
        effects,
    }
}

// An effect that fires in each state.
fn always(change: GroundChange) -> GroundEffect
    ensures { result.change ≡ change }
{
    GroundEffect {
        condition: GroundCond::Fact { holds: true },
        change,
    }
}

// A task with one action, which has these effects.
fn task_of(
    alloc: Global,
    parts: Parts,
    effects: List<GroundEffect>,
    goal: List<GroundCond>,
) -> Result<Task, Fail>
    requires { (task : Task) → length task.atoms ≡ length parts.atoms → length task.terms ≡ length parts.terms → are_sound_effects task effects ≡ true }
    ensures packed { IfOk result (λ task. IsPackedTask task) }
    ensures atoms { IfOk result (λ task. task.atoms ≡ parts.atoms) }
    ensures terms { IfOk result (λ task. task.terms ≡ parts.terms) }
{
    let actions = one(alloc, action(alloc, effects))?;
    Ok(Task {
        atoms: parts.atoms,
        terms: parts.terms,
        forms: parts.forms,
        actions,
        goal,
        start: parts.start,
    })
}

// The atoms, terms and forms of a task, and its start.
#[derive(Drop)]
struct Parts {
    atoms: List<Atom>,
    terms: List<Cell>,
    forms: List<Form>,
    start: Row,
}

// One term, which is the greatest number at the start, these forms, an action with these changes of the term, and the goal
// that form 0 is below 0.
fn numeric(alloc: Global, forms: List<Form>, effects: List<GroundEffect>) -> Result<Task, Fail>
    requires { (task : Task) → length task.terms ≡ 1 → are_sound_effects task effects ≡ true }
    ensures packed { IfOk result (λ task. IsPackedTask task) }
    ensures terms { IfOk result (λ task. length task.terms ≡ 1) }
{
    let term = Cell {
        function: 0,
        objects: List::new(alloc),
    };
    let goal = GroundCond::Compare {
        relation: Relation::Less,
        form: 0,
    };
    let mut start = Row::blank(alloc, 0, 1)?;
    start.set_value(0, Some(Frac::whole(GREATEST)?));
    let parts = Parts {
        atoms: List::new(alloc),
        terms: one(alloc, term)?,
        forms,
        start,
    };
    task_of(alloc, parts, effects, one(alloc, goal)?)
}

// The start is wide at the goal, by twice the greatest number.
#[test]
fn a_start_is_wide(rt: HostRuntime) -> Result<(), Fail> {
    let forms = one(rt.alloc(), multiple(rt.alloc(), 2)?)?;
    let task = numeric(rt.alloc(), forms, List::new(rt.alloc()))?;
    starts_wide(&rt, &task);
    Ok(())
}

fn starts_wide(rt: &impl Abort, task: &Task)
    requires { IsPackedTask task.now }
{
    let place = Place::Goal;
    let is_wide = start(task.atoms.allocator(), task).err() == Some(StartFault::Wide { place });
    assert!(rt; is_wide);
}

// The term is scaled up by 2: from half the greatest number there is one successor, and from the greatest none, since the
// action leads out of the width.
#[test]
fn numbers_grow(rt: HostRuntime) -> Result<(), Fail> {
    let mut forms = one(rt.alloc(), multiple(rt.alloc(), 1)?)?;
    forms.push(constant(rt.alloc(), 2)?)?;
    let double = change(Op::ScaleUp, 1);
    let task = numeric(rt.alloc(), forms, one(rt.alloc(), double)?)?;
    doubles(&rt, &task);
    Ok(())
}

fn doubles(rt: &impl Abort, task: &Task)
    requires packed { IsPackedTask task.now }
    requires terms { length task.now.terms ≡ 1 }
{
    let is_doubled = leads(rt, task, HALF) == Outcome::To(GREATEST);
    assert!(rt; is_doubled);
    let is_wide = leads(rt, task, GREATEST) == Outcome::Wide(0);
    assert!(rt; is_wide);
}

// Two increases of the term add up.
#[test]
fn increases_add_up(rt: HostRuntime) -> Result<(), Fail> {
    let forms = two_and_three(rt.alloc())?;
    let mut effects = one(rt.alloc(), change(Op::Increase, 1))?;
    effects.push(change(Op::Increase, 2))?;
    let task = numeric(rt.alloc(), forms, effects)?;
    adds_five(&rt, &task);
    Ok(())
}

fn adds_five(rt: &impl Abort, task: &Task)
    requires packed { IsPackedTask task.now }
    requires terms { length task.now.terms ≡ 1 }
{
    let is_sum = leads(rt, task, 0) == Outcome::To(5);
    assert!(rt; is_sum);
}

// An assign of the term beside an increase of it is not applicable.
#[test]
fn changes_clash(rt: HostRuntime) -> Result<(), Fail> {
    let forms = two_and_three(rt.alloc())?;
    let mut effects = one(rt.alloc(), change(Op::Assign, 1))?;
    effects.push(change(Op::Increase, 2))?;
    let task = numeric(rt.alloc(), forms, effects)?;
    leads_nowhere(&rt, &task);
    Ok(())
}

fn leads_nowhere(rt: &impl Abort, task: &Task)
    requires packed { IsPackedTask task.now }
    requires terms { length task.now.terms ≡ 1 }
{
    let is_nowhere = leads(rt, task, 0) == Outcome::Nowhere;
    assert!(rt; is_nowhere);
}

// Deletes come before adds: of three atoms the first two are true, the second is deleted and added, and the third added.
#[test]
fn adds_win(rt: HostRuntime) -> Result<(), Fail> {
    let mut atoms = one(rt.alloc(), atom(rt.alloc(), 0))?;
    atoms.push(atom(rt.alloc(), 1))?;
    atoms.push(atom(rt.alloc(), 2))?;
    let parts = Parts {
        atoms,
        terms: List::new(rt.alloc()),
        forms: List::new(rt.alloc()),
        start: Row::blank(rt.alloc(), 1, 0)?,
    };
    let mut effects = one(rt.alloc(), where_first(GroundChange::Delete { atom: 1 }))?;
    effects.push(where_first(GroundChange::Add { atom: 1 }))?;
    effects.push(where_first(GroundChange::Add { atom: 2 }))?;
    let mut goal = one(rt.alloc(), GroundCond::Atom { atom: 1 })?;
    goal.push(GroundCond::Atom { atom: 2 })?;
    let task = task_of(rt.alloc(), parts, effects, goal)?;
    reaches_the_goal(&rt, &task);
    Ok(())
}

fn atom(alloc: Global, predicate: u16) -> Atom {
    Atom {
        predicate,
        objects: List::new(alloc),
    }
}

// An effect that fires where the first atom is true.
fn where_first(change: GroundChange) -> GroundEffect
    ensures { result.change ≡ change }
{
    GroundEffect {
        condition: GroundCond::Atom { atom: 0 },
        change,
    }
}

fn reaches_the_goal(rt: &impl Abort, task: &Task)
    requires packed { IsPackedTask task.now }
    requires atoms { length task.now.atoms ≡ 3 }
{
    let Ok(mut row) = task.blank_row(task.atoms.allocator()) else {
        panic!(rt; "out of memory");
    };
    row.set_bit(0, true);
    row.set_bit(1, true);
    let is_reached = reaches(rt, task, &row);
    assert!(rt; is_reached);
}

// Whether the first successor is a goal.
fn reaches(rt: &impl Abort, task: &Task, row: &Row) -> bool
    requires packed { IsPackedTask task.now }
    requires shape { IsRowOf task.now row.now }
{
    if let Some(_) = wide_place(task, row) {
        panic!(rt; "the row is wide");
    }
    match successors(task.atoms.allocator(), task, row) {
        Ok(list) => is_first_goal(rt, task, list.as_slice()),
        Err(_) => false,
    }
}

fn is_first_goal(rt: &impl Abort, task: &Task, list: &[Next]) -> bool
    requires { IsPackedTask task.now }
{
    let Some(next) = list.first() else {
        return false;
    };
    if let Some(_) = wide_place(task, &next.row) {
        panic!(rt; "the row is wide");
    }
    is_goal(task, &next.row)
}

// The form of the term, and the forms of 2 and of 3.
fn two_and_three(alloc: Global) -> Result<List<Form>, Fail> {
    let mut forms = one(alloc, multiple(alloc, 1)?)?;
    forms.push(constant(alloc, 2)?)?;
    forms.push(constant(alloc, 3)?)?;
    Ok(forms)
}

fn constant(alloc: Global, value: i64) -> Result<Form, Fail> {
    Ok(Form {
        constant: Frac::whole(value)?,
        parts: List::new(alloc),
    })
}

// A change of the term by the value of this form.
fn change(op: Op, form: u32) -> GroundEffect
    ensures { result.change ≡ change.Number op 0 (Some form) }
{
    always(GroundChange::Number {
        op,
        term: 0,
        value: Some(form),
    })
}

// What the one action leads to.
#[derive(Clone, Copy, PartialEq, Eq)]
enum Outcome {
    Nowhere,
    To(i64),
    Wide(u32),
}

// Where the action leads from this value of the term.
fn leads(rt: &impl Abort, task: &Task, value: i64) -> Outcome
    requires packed { IsPackedTask task.now }
    requires terms { length task.now.terms ≡ 1 }
{
    let alloc = task.atoms.allocator();
    let Ok(mut row) = task.blank_row(alloc) else {
        panic!(rt; "out of memory");
    };
    let Ok(value) = Frac::whole(value) else {
        panic!(rt; "too wide");
    };
    row.set_value(0, Some(value));
    step(rt, task, &row)
}

fn step(rt: &impl Abort, task: &Task, row: &Row) -> Outcome
    requires packed { IsPackedTask task.now }
    requires shape { IsRowOf task.now row.now }
{
    if let Some(_) = wide_place(task, row) {
        panic!(rt; "the row is wide");
    }
    match successors(task.atoms.allocator(), task, row) {
        Ok(list) => first(list.as_slice()),
        Err(StepFault::Wide { instance }) => Outcome::Wide(instance),
        Err(StepFault::Memory) => panic!(rt; "out of memory"),
    }
}

// The value of the term at the first successor.
fn first(list: &[Next]) -> Outcome {
    match list.first() {
        Some(next) => match value_of(&next.row, 0) {
            Some(value) => Outcome::To(value.numerator()),
            None => Outcome::Nowhere,
        },
        None => Outcome::Nowhere,
    }
}
