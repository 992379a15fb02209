ghost use Rattle.std.specs.Prelude.{◌≡◌, ◌≤◌, [], ◌∷◌, IfOk, length};

use crate::PlanFault;
use crate::reading::read_text;
use mf_model::{
    Action, Cond, Effect, List, Object, SharedList, Term, Text, TypeName, TypedTask, Types,
};
use std::alloc::Global;
use std::test::Fail;

fn text(alloc: Global, bytes: &str) -> Result<Text, Fail> {
    Ok(Text::from_slice(alloc, bytes.as_bytes())?)
}

fn one<T: Drop>(alloc: Global, item: T) -> Result<List<T>, Fail>
    ensures { IfOk result (λ list. list ≡ item ∷ []) }
{
    let mut list = List::new(alloc);
    list.push(item)?;
    Ok(list)
}

fn two<T: Drop>(alloc: Global, first: T, second: T) -> Result<List<T>, Fail>
    ensures { IfOk result (λ list. length list ≡ 2) }
{
    let mut list = List::new(alloc);
    list.push(first)?;
    list.push(second)?;
    Ok(list)
}

// The types of what is a place.
fn place(alloc: Global) -> Result<Types, Fail> {
    Ok(SharedList::from_list(List::from_slice(alloc, &[1])?)?)
}

// `go ?from ?to`: from a place to another. Reading a plan asks neither for its condition nor for its effect.
fn go(alloc: Global) -> Result<Action, Fail> {
    let name = text(alloc, "go")?;
    let parameters = two(alloc, place(alloc)?, place(alloc)?)?;
    Ok(Action {
        name,
        parameters,
        condition: nothing(),
        effect: Effect::Add {
            predicate: 0,
            terms: List::new(alloc),
        },
    })
}

// It always holds.
fn nothing() -> Cond {
    Cond::Same {
        left: Term::Object(0),
        right: Term::Object(0),
    }
}

fn object(alloc: Global, name: &str) -> Result<Object, Fail> {
    Ok(Object {
        name: text(alloc, name)?,
        types: place(alloc)?,
    })
}

fn type_name(alloc: Global, name: &str) -> Result<TypeName, Fail> {
    Ok(TypeName {
        name: text(alloc, name)?,
        parent: 0,
    })
}

// Two places and `go`. What reading a plan does not ask for is left out.
fn task(alloc: Global) -> Result<TypedTask, Fail>
    ensures actions { IfOk result (λ task. length task.actions ≡ 1) }
    ensures objects { IfOk result (λ task. length task.objects ≡ 2) }
{
    let types = two(
        alloc,
        type_name(alloc, "object")?,
        type_name(alloc, "place")?,
    )?;
    let objects = two(alloc, object(alloc, "a")?, object(alloc, "b")?)?;
    let actions = one(alloc, go(alloc)?)?;
    Ok(TypedTask {
        types,
        objects,
        predicates: List::new(alloc),
        functions: List::new(alloc),
        actions,
        atoms: List::new(alloc),
        values: List::new(alloc),
        goal: nothing(),
        metric: None,
    })
}

fn fault(alloc: Global, plan: &str) -> Result<Option<PlanFault>, Fail>
    requires { length plan.now ≤ 1000 }
{
    let task = task(alloc)?;
    match read_text(alloc, plan.as_bytes(), &task) {
        Ok(_) => Ok(None),
        Err(fault) => Ok(Some(fault)),
    }
}

#[test]
fn lines_are_counted(rt: HostRuntime) -> Result<(), Fail> {
    let alloc = rt.alloc();
    assert!(rt; fault(alloc, "(go a b)\n(go a b\n")? == Some(PlanFault::BadLine { line: 2 }));
    assert!(rt; fault(alloc, "\n(stop a)")? == Some(PlanFault::UnknownAction { line: 2 }));
    assert!(rt; fault(alloc, "(go a b a)")? == Some(PlanFault::WrongArguments { line: 1 }));
    Ok(())
}
