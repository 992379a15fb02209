ghost use Rattle.mf_task.specs.NumberedTasks.{is_numbered, is_numbered_action};
ghost use Rattle.mf_task.specs.declared.task.Task.{Task};
ghost use Rattle.std.specs.List.{list_all};
ghost use Rattle.std.specs.Prelude.{◌≡◌, ◌<◌, ◌∷◌, [], length, true};

use crate::dead;
use mf_fraction::Frac;
use mf_model::{Atom, Cell, Instance, List, Op, Relation};
use mf_task::{Form, GroundAction, GroundChange, GroundCond, GroundEffect, Part, Row, Task};
use sqlite_items::{Boxed, Items};
use std::alloc::Global;
use std::process::Abort;
use std::test::Fail;

// The forms of the tasks below, of their one term x.
const OVER_A_THIRD: u32 = 0;

const A_THIRD: u32 = 1;

const X: u32 = 2;

const OVER_TEN: u32 = 3;

fn fraction(rt: &impl Abort, n: i64, d: i64) -> Frac {
    match Frac::new(n, d) {
        Ok(value) => value,
        Err(_) => panic!(rt; "no fraction"),
    }
}

fn one<T: Drop>(rt: &impl Abort, alloc: Global, item: T) -> List<T>
    ensures { result ≡ item ∷ [] }
{
    let mut list = List::new(alloc);
    match list.push(item) {
        Ok(()) => list,
        Err(_) => panic!(rt; "no memory"),
    }
}

fn add_form(rt: &impl Abort, forms: &mut List<Form>, constant: Frac, coefficient: i64) {
    let alloc = forms.allocator();
    let parts = one(
        rt,
        alloc,
        Part {
            coefficient: fraction(rt, coefficient, 1),
            term: 0,
        },
    );
    match forms.push(Form { constant, parts }) {
        Ok(()) => {}
        Err(_) => panic!(rt; "no memory"),
    }
}

// x - 1/3, 1/3 (and 0 for each x), x, and x - 10.
fn forms(rt: &impl Abort, alloc: Global) -> List<Form> {
    let mut forms = List::new(alloc);
    add_form(rt, &mut forms, fraction(rt, -1, 3), 1);
    add_form(rt, &mut forms, fraction(rt, 1, 3), 0);
    add_form(rt, &mut forms, fraction(rt, 0, 1), 1);
    add_form(rt, &mut forms, fraction(rt, -10, 1), 1);
    forms
}

// An instance that changes x by 1/3.
fn action(rt: &impl Abort, alloc: Global, condition: GroundCond, op: Op) -> GroundAction
    ensures { (task : Task) → length task.terms ≡ 1 → is_numbered_action task result ≡ true }
{
    let effect = GroundEffect {
        condition: GroundCond::Fact { holds: true },
        change: GroundChange::Number {
            op,
            term: 0,
            value: Some(A_THIRD),
        },
    };
    GroundAction {
        instance: Instance {
            action: 0,
            objects: List::new(alloc),
        },
        condition,
        effects: one(rt, alloc, effect),
    }
}

// A task of one atom and the term x, with one instance.
fn task(rt: &impl Abort, alloc: Global, action: GroundAction, goal: GroundCond) -> Task
    requires { (task : Task) → length task.terms ≡ 1 → is_numbered_action task action ≡ true }
    ensures numbered { is_numbered result ≡ true }
    ensures terms { length result.terms ≡ 1 }
{
    task_of(rt, alloc, one(rt, alloc, action), goal)
}

// A task of one atom and the term x.
fn task_of(rt: &impl Abort, alloc: Global, actions: List<GroundAction>, goal: GroundCond) -> Task
    requires { (task : Task) → length task.terms ≡ 1 → length task.atoms ≡ 1 → list_all (is_numbered_action task) actions ≡ true }
    ensures numbered { is_numbered result ≡ true }
    ensures terms { length result.terms ≡ 1 }
{
    let atom = Atom {
        predicate: 0,
        objects: List::new(alloc),
    };
    let term = Cell {
        function: 0,
        objects: List::new(alloc),
    };
    Task {
        atoms: one(rt, alloc, atom),
        terms: one(rt, alloc, term),
        forms: forms(rt, alloc),
        actions,
        goal: one(rt, alloc, goal),
        start: row(rt, alloc),
    }
}

fn row(rt: &impl Abort, alloc: Global) -> Row {
    match Row::blank(alloc, 1, 1) {
        Ok(row) => row,
        Err(_) => panic!(rt; "no memory"),
    }
}

// Whether the row in which the atom is false and x has this value is a dead end.
fn is_dead_at(rt: &impl Abort, task: &Task, n: i64, d: i64) -> bool
    requires numbered { is_numbered task.now ≡ true }
    requires terms { length task.now.terms ≡ 1 }
{
    let alloc = task.terms.allocator();
    let Ok(mut row) = task.blank_row(alloc) else {
        panic!(rt; "no memory")
    };
    row.set_value(0, Some(fraction(rt, n, d)));
    match dead(alloc, task, &row) {
        Ok(dead) => dead,
        Err(_) => panic!(rt; "no memory"),
    }
}

fn push(rt: &impl Abort, parts: &mut Items<GroundCond>, part: GroundCond) {
    match parts.push(part) {
        Ok(()) => {}
        Err(_) => panic!(rt; "no memory"),
    }
}

fn either(rt: &impl Abort, alloc: Global, left: GroundCond, right: GroundCond) -> GroundCond {
    let mut parts = Items::new(alloc);
    push(rt, &mut parts, left);
    push(rt, &mut parts, right);
    GroundCond::Or { parts }
}

fn compare(relation: Relation, form: u32) -> GroundCond {
    GroundCond::Compare { relation, form }
}

#[test]
fn fuel_that_no_burn_may_take_is_a_dead_end(rt: HostRuntime) -> Result<(), Fail> {
    let alloc = rt.alloc();
    let burn = action(
        &rt,
        alloc,
        compare(Relation::More, OVER_A_THIRD),
        Op::Decrease,
    );
    let task = task(&rt, alloc, burn, compare(Relation::AtMost, X));
    assert!(rt; is_dead_at(&rt, &task, 1, 3));
    assert!(rt; !is_dead_at(&rt, &task, 2, 3));
    Ok(())
}

#[test]
fn a_count_that_goes_on_is_no_dead_end(rt: HostRuntime) -> Result<(), Fail> {
    let alloc = rt.alloc();
    let always = GroundCond::Fact { holds: true };
    let count = action(&rt, alloc, always, Op::Increase);
    let task = task(&rt, alloc, count, compare(Relation::AtLeast, OVER_TEN));
    assert!(rt; !is_dead_at(&rt, &task, 0, 1));
    Ok(())
}

#[test]
fn an_atom_that_nothing_adds_is_a_dead_end(rt: HostRuntime) -> Result<(), Fail> {
    let alloc = rt.alloc();
    let always = GroundCond::Fact { holds: true };
    let count = action(&rt, alloc, always, Op::Increase);
    let task = task(&rt, alloc, count, GroundCond::Atom { atom: 0 });
    assert!(rt; is_dead_at(&rt, &task, 0, 1));
    Ok(())
}

#[test]
fn one_part_of_an_or_is_enough(rt: HostRuntime) -> Result<(), Fail> {
    let alloc = rt.alloc();
    let always = GroundCond::Fact { holds: true };
    let count = action(&rt, alloc, always, Op::Increase);
    let atom = GroundCond::Atom { atom: 0 };
    let goal = either(&rt, alloc, atom, compare(Relation::AtLeast, OVER_TEN));
    let task = task(&rt, alloc, count, goal);
    assert!(rt; !is_dead_at(&rt, &task, 0, 1));
    Ok(())
}

fn always_undefined(rt: &impl Abort, alloc: Global) -> GroundCond {
    match Boxed::new(alloc, GroundCond::Neither) {
        Ok(part) => GroundCond::Not { part },
        Err(_) => panic!(rt; "no memory"),
    }
}

#[test]
fn an_undefined_distance_is_a_dead_end(rt: HostRuntime) -> Result<(), Fail> {
    let alloc = rt.alloc();
    let never = always_undefined(&rt, alloc);
    let drive = action(&rt, alloc, never, Op::Increase);
    let task = task(&rt, alloc, drive, compare(Relation::AtLeast, OVER_TEN));
    assert!(rt; is_dead_at(&rt, &task, 0, 1));
    Ok(())
}

#[test]
fn a_distance_that_is_too_long_is_a_dead_end(rt: HostRuntime) -> Result<(), Fail> {
    let alloc = rt.alloc();
    let never = GroundCond::Fact { holds: false };
    let drive = action(&rt, alloc, never, Op::Increase);
    let task = task(&rt, alloc, drive, compare(Relation::AtLeast, OVER_TEN));
    assert!(rt; is_dead_at(&rt, &task, 0, 1));
    Ok(())
}

// An instance that leads from one of three places to another.
fn go(rt: &impl Abort, alloc: Global, from: u32, to: u32) -> GroundAction
    requires { (from < 3) × (to < 3) }
    ensures { (task : Task) → length task.atoms ≡ 3 → is_numbered_action task result ≡ true }
{
    let leave = GroundEffect {
        condition: GroundCond::Fact { holds: true },
        change: GroundChange::Delete { atom: from },
    };
    let arrive = GroundEffect {
        condition: GroundCond::Fact { holds: true },
        change: GroundChange::Add { atom: to },
    };
    GroundAction {
        instance: Instance {
            action: 0,
            objects: List::new(alloc),
        },
        condition: GroundCond::Atom { atom: from },
        effects: pair(rt, alloc, leave, arrive),
    }
}

fn pair<T: Drop>(rt: &impl Abort, alloc: Global, first: T, second: T) -> List<T>
    ensures { result ≡ first ∷ second ∷ [] }
{
    let mut list = one(rt, alloc, first);
    match list.push(second) {
        Ok(()) => list,
        Err(_) => panic!(rt; "no memory"),
    }
}

fn place(alloc: Global, number: u16) -> Atom {
    Atom {
        predicate: number,
        objects: List::new(alloc),
    }
}

// A ring of three places, each of which leads to the next.
fn ring(rt: &impl Abort, alloc: Global, goal: GroundCond) -> Task
    ensures numbered { is_numbered result ≡ true }
    ensures atoms { length result.atoms ≡ 3 }
{
    let mut atoms = pair(rt, alloc, place(alloc, 0), place(alloc, 1));
    let mut actions = pair(rt, alloc, go(rt, alloc, 0, 1), go(rt, alloc, 1, 2));
    let Ok(()) = atoms.push(place(alloc, 2)) else {
        panic!(rt; "no memory")
    };
    let Ok(()) = actions.push(go(rt, alloc, 2, 0)) else {
        panic!(rt; "no memory")
    };
    Task {
        atoms,
        terms: List::new(alloc),
        forms: List::new(alloc),
        actions,
        goal: one(rt, alloc, goal),
        start: row(rt, alloc),
    }
}

// Whether the row in which this atom alone is true is a dead end.
fn is_dead_in(rt: &impl Abort, task: &Task, atom: usize) -> bool
    requires numbered { is_numbered task.now ≡ true }
    requires atoms { atom < length task.now.atoms }
{
    let alloc = task.terms.allocator();
    let Ok(mut row) = task.blank_row(alloc) else {
        panic!(rt; "no memory")
    };
    row.set_bit(atom, true);
    match dead(alloc, task, &row) {
        Ok(dead) => dead,
        Err(_) => panic!(rt; "no memory"),
    }
}

#[test]
fn no_place_of_a_ring_is_a_dead_end(rt: HostRuntime) -> Result<(), Fail> {
    let alloc = rt.alloc();
    let task = ring(&rt, alloc, GroundCond::Atom { atom: 2 });
    assert!(rt; !is_dead_in(&rt, &task, 0));
    assert!(rt; !is_dead_in(&rt, &task, 1));
    assert!(rt; !is_dead_in(&rt, &task, 2));
    Ok(())
}

// An instance that makes the atom true where x is at least 10.
fn signal(rt: &impl Abort, alloc: Global) -> GroundAction
    ensures { (task : Task) → length task.atoms ≡ 1 → is_numbered_action task result ≡ true }
{
    let effect = GroundEffect {
        condition: GroundCond::Fact { holds: true },
        change: GroundChange::Add { atom: 0 },
    };
    GroundAction {
        instance: Instance {
            action: 0,
            objects: List::new(alloc),
        },
        condition: compare(Relation::AtLeast, OVER_TEN),
        effects: one(rt, alloc, effect),
    }
}

fn both(rt: &impl Abort, alloc: Global, left: GroundCond, right: GroundCond) -> GroundCond {
    let mut parts = Items::new(alloc);
    push(rt, &mut parts, left);
    push(rt, &mut parts, right);
    GroundCond::And { parts }
}

#[test]
fn a_number_that_has_to_rise_and_then_to_fall_is_no_dead_end(rt: HostRuntime) -> Result<(), Fail> {
    let alloc = rt.alloc();
    let up = action(&rt, alloc, GroundCond::Fact { holds: true }, Op::Increase);
    let down = action(&rt, alloc, GroundCond::Fact { holds: true }, Op::Decrease);
    let mut actions = pair(&rt, alloc, up, down);
    let Ok(()) = actions.push(signal(&rt, alloc)) else {
        panic!(rt; "no memory")
    };
    let atom = GroundCond::Atom { atom: 0 };
    let goal = both(&rt, alloc, atom, compare(Relation::AtMost, X));
    let task = task_of(&rt, alloc, actions, goal);
    assert!(rt; !is_dead_at(&rt, &task, 0, 1));
    Ok(())
}
