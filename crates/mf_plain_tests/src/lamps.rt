ghost use Rattle.mf_model.specs.Objects.{HaveTopType};
ghost use Rattle.mf_plain.specs.SearchTask.{IsSearchTask};
ghost use Rattle.mf_plain.specs.Searches.{IsSearched};
ghost use Rattle.std.specs.Prelude.{◌≡◌, ℕ, IfOk, []};

use mf_model::{Action, Atom, Cond, Effect, Instance, List, PlainState, Symbol, Text, TypedTask};
use mf_plain::{
    Entry, History, Maker, Searched, Status, TraceFault, is_searchable, plan_of, search,
};
use std::alloc::Global;
use std::test::Fail;

// The numbers of the predicates of a lamp that is lit where it is dry.
const DRY: u16 = 0;

const LIT: u16 = 1;

const WARM: u16 = 2;

fn symbol(alloc: Global, name: &str) -> Result<Symbol, Fail> {
    Ok(Symbol {
        name: Text::from_slice(alloc, name.as_bytes())?,
        parameters: List::new(alloc),
    })
}

fn atom(alloc: Global, predicate: u16) -> Atom {
    Atom {
        predicate,
        objects: List::new(alloc),
    }
}

fn holds(alloc: Global, predicate: u16) -> Cond {
    Cond::Atom {
        predicate,
        terms: List::new(alloc),
    }
}

// Lights the lamp.
fn light(alloc: Global) -> Result<Action, Fail> {
    Ok(Action {
        name: Text::from_slice(alloc, b"light")?,
        parameters: List::new(alloc),
        condition: holds(alloc, DRY),
        effect: Effect::Add {
            predicate: LIT,
            terms: List::new(alloc),
        },
    })
}

// The lamp is dry, and this is to hold.
fn task(alloc: Global, goal: u16) -> Result<TypedTask, Fail>
    ensures { IfOk result (λ task. task.objects ≡ []) }
{
    Ok(TypedTask {
        types: List::new(alloc),
        objects: List::new(alloc),
        predicates: List::from_vec(vec![in alloc;
            symbol(alloc, "dry")?,
            symbol(alloc, "lit")?,
            symbol(alloc, "warm")?,
        ]?),
        functions: List::new(alloc),
        actions: List::from_vec(vec![in alloc; light(alloc)?]?),
        atoms: List::from_vec(vec![in alloc; atom(alloc, DRY)]?),
        values: List::new(alloc),
        goal: holds(alloc, goal),
        metric: None,
    })
}

// The lamp before it is lit and after it.
fn rows(alloc: Global) -> Result<List<PlainState>, Fail> {
    let before = PlainState {
        atoms: List::from_vec(vec![in alloc; atom(alloc, DRY)]?),
        values: List::new(alloc),
    };
    let after = PlainState {
        atoms: List::from_vec(vec![in alloc; atom(alloc, DRY), atom(alloc, LIT)]?),
        values: List::new(alloc),
    };
    Ok(List::from_vec(vec![in alloc; before, after]?))
}

const MAKERS: [Maker; 2] = [
    Maker::Start,
    Maker::Step {
        parent: 0,
        instance: 0,
        helpful: false,
    },
];

const fn take(state: u64) -> Entry {
    Entry::Take { worker: 1, state }
}

const fn done(state: u64) -> Entry {
    Entry::Done { worker: 1, state }
}

// Whether the lamp was lit, with these values of the two states and these steps.
fn is_kept(
    alloc: Global,
    history: &History,
    values: &[u64],
    entries: &[Entry],
) -> Result<bool, Fail> {
    Ok(
        history.rows == rows(alloc)?
            && history.values.as_slice() == values
            && history.makers.as_slice() == MAKERS.as_slice()
            && history.entries.as_slice() == entries,
    )
}

// The plan that lights the lamp.
fn steps(alloc: Global) -> Result<List<Instance>, Fail> {
    let light = Instance {
        action: 0,
        objects: List::new(alloc),
    };
    Ok(List::from_vec(vec![in alloc; light]?))
}

// Whether the search found out that the lamp is lit, in two states, and its plan is to light it.
fn is_lit(alloc: Global, task: &TypedTask, searched: &Searched) -> Result<bool, Fail>
    requires searchable { IsSearchTask task.now }
    requires objects { HaveTopType task.now }
    requires searched { (budget : ℕ) × IsSearched task.now budget searched.now }
{
    let entries = [take(0), done(0), take(1)];
    let kept = is_kept(alloc, &searched.history, &[1, 0], &entries)?;
    let plan = plan_of(alloc, task, searched)?;
    let lit = steps(alloc)?;
    Ok(kept && searched.status == Status::Plan { state: 1 } && plan == lit)
}

#[test]
fn a_lamp_is_lit(rt: HostRuntime) -> Result<(), Fail> {
    let alloc = rt.alloc();
    let task = task(alloc, LIT)?;
    assert!(rt; is_searchable(&task));
    let searched = search(alloc, &task, 9)?;
    assert!(rt; is_lit(alloc, &task, &searched)?);
    Ok(())
}

#[test]
fn a_lamp_is_never_warm(rt: HostRuntime) -> Result<(), Fail> {
    let alloc = rt.alloc();
    let task = task(alloc, WARM)?;
    assert!(rt; is_searchable(&task));
    let searched = search(alloc, &task, 9)?;
    assert!(rt; searched.status == Status::NoPlan);
    let entries = [take(0), done(0), take(1), done(1)];
    assert!(rt; is_kept(alloc, &searched.history, &[1, 1], &entries)?);
    assert!(rt; matches!(plan_of(alloc, &task, &searched), Err(TraceFault::NotFound)));
    Ok(())
}
