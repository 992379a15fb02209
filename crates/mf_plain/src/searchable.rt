ghost use Rattle.std.specs.Prelude.{◌≡◌, ◌==◌, slice_get};
ghost use Rattle.std.specs.Bool.{Decides};
ghost use Rattle.std.specs.List.{list_all};
ghost use Rattle.mf_model.specs.Plain as plain;
ghost use Rattle.mf_plain.specs.PlainTask as spec;
ghost use Rattle.mf_plain.specs.SearchTask.{IsSearchTask};
ghost use Rattle.mf_plain.specs.SearchTest as test;

use mf_model::{Action, Atom, Cond, Effect, Symbol, Term, TypedTask, Types};

// Whether every type is `object`, and there is one.
fn is_object_type(types: &[u16]) -> bool
    ensures { result ≡ spec.is_object_type types.now }
{
    match types {
        [first, others @ ..] => *first == 0 && are_object(others),
        [] => false,
    }
}

fn are_object(types: &[u16]) -> bool
    ensures { result ≡ list_all (λ number. number == 0) types.now }
{
    types.iter().all(|number| *number == 0)
}

fn are_object_types(parameters: &[Types]) -> bool
    ensures { result ≡ list_all spec.is_object_type parameters.now }
{
    parameters
        .iter()
        .all(|types| is_object_type(types.as_slice()))
}

fn are_searchable_parameters(parameters: &[Types]) -> bool
    ensures { result ≡ test.are_searchable_parameters parameters.now }
{
    are_object_types(parameters) && parameters.len() <= 32
}

fn is_searchable_symbol(symbol: &Symbol) -> bool
    ensures { result ≡ test.is_searchable_symbol symbol.now }
{
    are_searchable_parameters(symbol.parameters.as_slice())
}

fn are_searchable_symbols(symbols: &[Symbol]) -> bool
    ensures { result ≡ list_all test.is_searchable_symbol symbols.now }
{
    symbols.iter().all(is_searchable_symbol)
}

fn is_plain_term(variables: usize, objects: usize, term: &Term) -> bool
    ensures { result ≡ plain.is_plain_term variables objects term.now }
{
    match term {
        Term::Variable(place) => usize::from(*place) < variables,
        Term::Object(number) => usize::from(*number) < objects,
    }
}

fn are_plain_terms(variables: usize, objects: usize, terms: &[Term]) -> bool
    ensures { result ≡ plain.are_plain_terms variables objects terms.now }
{
    for term in terms {
        if !is_plain_term(variables, objects, term) {
            return false;
        }
    }
    true
}

fn are_below(objects: usize, numbers: &[u16]) -> bool
    ensures { result ≡ plain.are_below objects numbers.now }
{
    for number in numbers {
        if usize::from(*number) >= objects {
            return false;
        }
    }
    true
}

// Whether the predicate of this number is declared with so many parameters.
fn has_count(predicates: &[Symbol], predicate: u16, count: usize) -> bool
    ensures { result ≡ plain.has_count (slice_get predicates.now predicate) count }
{
    match predicates.get(usize::from(predicate)) {
        Some(symbol) => symbol.parameters.len() == count,
        None => false,
    }
}

fn is_plain_atom(
    predicates: &[Symbol],
    variables: usize,
    objects: usize,
    predicate: u16,
    terms: &[Term],
) -> bool
    ensures { result ≡ plain.is_plain_atom predicates.now variables objects predicate terms.now }
{
    has_count(predicates, predicate, terms.len()) && are_plain_terms(variables, objects, terms)
}

fn is_plain_condition(
    predicates: &[Symbol],
    variables: usize,
    objects: usize,
    condition: &Cond,
) -> bool
    ensures { result ≡ plain.is_plain_cond predicates.now variables objects condition.now }
{
    match condition {
        Cond::Atom { predicate, terms } => is_plain_atom(
            predicates,
            variables,
            objects,
            *predicate,
            terms.as_slice(),
        ),
        Cond::And { parts } => {
            for part in parts.as_slice() {
                if !is_plain_condition(predicates, variables, objects, part) {
                    return false;
                }
            }
            true
        }
        _ => false,
    }
}

fn is_plain_effect(predicates: &[Symbol], variables: usize, objects: usize, effect: &Effect) -> bool
    ensures { result ≡ plain.is_plain_effect predicates.now variables objects effect.now }
{
    match effect {
        Effect::Add { predicate, terms } | Effect::Delete { predicate, terms } => is_plain_atom(
            predicates,
            variables,
            objects,
            *predicate,
            terms.as_slice(),
        ),
        Effect::Group { parts } => {
            for part in parts.as_slice() {
                if !is_plain_effect(predicates, variables, objects, part) {
                    return false;
                }
            }
            true
        }
        _ => false,
    }
}

fn is_searchable_action(predicates: &[Symbol], objects: usize, action: &Action) -> bool
    ensures { result ≡ test.is_searchable_action predicates.now objects action.now }
{
    let variables = action.parameters.len();
    are_searchable_parameters(action.parameters.as_slice())
        && is_plain_condition(predicates, variables, objects, &action.condition)
        && is_plain_effect(predicates, variables, objects, &action.effect)
}

fn is_plain_fact(predicates: &[Symbol], objects: usize, atom: &Atom) -> bool
    ensures { result ≡ plain.is_plain_fact predicates.now objects atom.now }
{
    has_count(predicates, atom.predicate, atom.objects.len())
        && are_below(objects, atom.objects.as_slice())
}

fn are_plain_facts(predicates: &[Symbol], objects: usize, atoms: &[Atom]) -> bool
    ensures { result ≡ list_all (plain.is_plain_fact predicates.now objects) atoms.now }
{
    atoms
        .iter()
        .all(|atom| is_plain_fact(predicates, objects, atom))
}

fn are_searchable_names(task: &TypedTask) -> bool
    ensures { result ≡ test.are_searchable_names task.now }
{
    are_searchable_symbols(task.predicates.as_slice()) && matches!(task.functions.as_slice(), [])
}

fn is_within_limits(task: &TypedTask) -> bool
    ensures { result ≡ test.is_within_limits task.now }
{
    task.objects.len() <= 65_535 && task.predicates.len() <= 10_000 && task.actions.len() <= 1000
}

fn are_searchable_actions(predicates: &[Symbol], objects: usize, actions: &[Action]) -> bool
    ensures { result ≡ list_all (test.is_searchable_action predicates.now objects) actions.now }
{
    actions
        .iter()
        .all(|action| is_searchable_action(predicates, objects, action))
}

fn is_searchable_start(task: &TypedTask) -> bool
    ensures { result ≡ test.is_searchable_start task.now }
{
    are_plain_facts(
        task.predicates.as_slice(),
        task.objects.len(),
        task.atoms.as_slice(),
    ) && matches!(task.values.as_slice(), [])
}

fn is_searchable_end(task: &TypedTask) -> bool
    ensures { result ≡ test.is_searchable_end task.now }
{
    is_plain_condition(
        task.predicates.as_slice(),
        0,
        task.objects.len(),
        &task.goal,
    ) && matches!(task.metric, None)
}

fn passes(task: &TypedTask) -> bool
    ensures { result ≡ test.is_searchable_task task.now }
{
    are_searchable_names(task)
        && is_within_limits(task)
        && are_searchable_actions(
            task.predicates.as_slice(),
            task.objects.len(),
            task.actions.as_slice(),
        )
        && is_searchable_start(task)
        && is_searchable_end(task)
}

/// Whether the task is one that the plain search takes: it is plain and within the limits, and each of its numbers names
/// what is declared.
pub fn is_searchable(task: &TypedTask) -> bool
    ensures { Decides result (IsSearchTask task.now) }
{
    passes(task)
}
