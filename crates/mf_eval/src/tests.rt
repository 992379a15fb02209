ghost use Rattle.mf_meaning.specs.SortedStates.{IsSortedState};
ghost use Rattle.mf_model.specs.VariableScopes.{action_scope_of, effect_scope_of, scope_of};
ghost use Rattle.std.specs.Prelude.{◌≡◌, IfOk, [], ◌∷◌, Some};

use crate::applying::apply_action;
use crate::binding::places;
use crate::condition::judge;
use crate::scene::Scene;
use crate::{Truth, start_state, value};
use mf_fraction::Frac;
use mf_model::{
    Action, Atom, Cell, Cond, Effect, Expr, List, PlainState, Relation, Term, Text, TypedTask,
    Valued,
};
use std::alloc::Global;
use std::test::Fail;

// Predicate 0 holds of two places that a road joins, and predicate 1 of the place that was reached. Function 0 is the
// fuel, and function 1 the height of a place. The declarations of a task are left out: no function here reads them.

fn atom(alloc: Global, predicate: u16, objects: &[u16]) -> Result<Atom, Fail> {
    Ok(Atom {
        predicate,
        objects: List::from_slice(alloc, objects)?,
    })
}

fn valued(alloc: Global, function: u16, objects: &[u16], value: i64) -> Result<Valued, Fail> {
    Ok(Valued {
        cell: Cell {
            function,
            objects: List::from_slice(alloc, objects)?,
        },
        value: Frac::whole(value)?,
    })
}

fn atoms(alloc: Global, listed: &[(u16, &[u16])]) -> Result<List<Atom>, Fail> {
    let mut atoms = List::new(alloc);
    for (predicate, objects) in listed {
        atoms.push(atom(alloc, *predicate, objects)?)?;
    }
    Ok(atoms)
}

fn values(alloc: Global, listed: &[(u16, &[u16], i64)]) -> Result<List<Valued>, Fail> {
    let mut values = List::new(alloc);
    for (function, objects, value) in listed {
        values.push(valued(alloc, *function, objects, *value)?)?;
    }
    Ok(values)
}

// The state with this place and this fuel.
fn state(alloc: Global, place: u16, fuel: i64) -> Result<PlainState, Fail> {
    let atoms = atoms(alloc, &[(0, &[0, 1]), (0, &[1, 0]), (1, &[place])])?;
    let values = values(alloc, &[(0, &[], fuel), (1, &[0], 3), (1, &[1], 7)])?;
    Ok(PlainState { atoms, values })
}

fn fuel(alloc: Global) -> Expr {
    Expr::Function {
        function: 0,
        terms: List::new(alloc),
    }
}

// The fuel is at least 1.
fn some_fuel(alloc: Global) -> Result<Cond, Fail>
    ensures { IfOk result (λ condition. scope_of condition ≡ 0) }
{
    let least = Frac::whole(1)?;
    Ok(Cond::Compare {
        relation: Relation::AtLeast,
        left: fuel(alloc),
        right: Expr::Number(least),
    })
}

// To the second place of the binding.
fn arrival(alloc: Global) -> Result<Effect, Fail>
    ensures { IfOk result (λ effect. effect_scope_of effect ≡ 0) }
{
    Ok(Effect::Add {
        predicate: 1,
        terms: List::from_slice(alloc, &[Term::Variable(1)])?,
    })
}

fn go(alloc: Global) -> Result<Action, Fail>
    ensures { IfOk result (λ action. action_scope_of (Some action) ≡ 0) }
{
    let name = Text::from_slice(alloc, b"go")?;
    let effect = arrival(alloc)?;
    Ok(Action {
        name,
        parameters: List::new(alloc),
        condition: some_fuel(alloc)?,
        effect,
    })
}

fn one<T: Drop>(alloc: Global, item: T) -> Result<List<T>, Fail>
    ensures { IfOk result (λ list. list ≡ item ∷ []) }
{
    let mut list = List::new(alloc);
    list.push(item)?;
    Ok(list)
}

// The atoms and values of a start are in no order, and one atom is there twice.
fn start(alloc: Global) -> Result<PlainState, Fail> {
    let atoms = atoms(alloc, &[(1, &[0]), (0, &[1, 0]), (1, &[0]), (0, &[0, 1])])?;
    let values = values(alloc, &[(1, &[1], 7), (1, &[0], 3), (0, &[], 2)])?;
    Ok(PlainState { atoms, values })
}

fn task(alloc: Global) -> Result<TypedTask, Fail>
    ensures objects { IfOk result (λ task. task.objects ≡ []) }
    ensures goal { IfOk result (λ task. scope_of task.goal ≡ 0) }
{
    let PlainState { atoms, values } = start(alloc)?;
    Ok(TypedTask {
        types: List::new(alloc),
        objects: List::new(alloc),
        predicates: List::new(alloc),
        functions: List::new(alloc),
        actions: List::new(alloc),
        atoms,
        values,
        goal: some_fuel(alloc)?,
        metric: None,
    })
}

// The start of the task.
fn first_state(alloc: Global) -> Result<PlainState, Fail>
    ensures { IfOk result (λ state. IsSortedState state) }
{
    let task = task(alloc)?;
    let start = start_state(alloc, &task);
    drop(task);
    Ok(start?)
}

#[test]
fn the_start_is_in_order(rt: HostRuntime) -> Result<(), Fail> {
    let alloc = rt.alloc();
    let start = first_state(alloc)?;
    assert!(rt; start == state(alloc, 0, 2)?);
    Ok(())
}

// The state after `go` from the first place to the second.
fn after_go(alloc: Global, scene: &Scene<'_>) -> Result<PlainState, Fail>
    requires objects { scene.now.task.now.objects ≡ [] }
    requires sorted { IsSortedState scene.now.state.now }
{
    let go = go(alloc)?;
    let next = apply_action(alloc, scene, &go, &[0, 1]);
    drop(go);
    Ok(next?)
}

#[test]
fn an_action_makes_a_state(rt: HostRuntime) -> Result<(), Fail> {
    let alloc = rt.alloc();
    let state = first_state(alloc)?;
    let task = task(alloc)?;
    let scene = Scene {
        task: &task,
        state: &state,
    };
    let next = after_go(alloc, &scene);
    drop(task);
    assert!(rt; next?.atoms.len() == state.atoms.len() + 1);
    Ok(())
}

#[test]
fn the_fuel_is_read(rt: HostRuntime) -> Result<(), Fail> {
    let alloc = rt.alloc();
    let state = first_state(alloc)?;
    let task = task(alloc)?;
    let left = value(&task, &fuel(alloc), &[], &state, 1);
    drop(task);
    assert!(rt; left? == Some(Frac::whole(2)?));
    Ok(())
}

#[test]
fn some_fuel_is_left(rt: HostRuntime) -> Result<(), Fail> {
    let alloc = rt.alloc();
    let state = first_state(alloc)?;
    let task = task(alloc)?;
    let scene = Scene {
        task: &task,
        state: &state,
    };
    let mut binding = places(alloc, &[]);
    let truth = judge(&scene, &task.goal, &mut binding);
    drop(task);
    assert!(rt; truth? == Truth::Yes);
    Ok(())
}
