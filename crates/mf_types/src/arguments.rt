ghost use Rattle.std.specs.Prelude.{◌≡◌};
ghost use Rattle.std.specs.List.{flat_map};
ghost use Rattle.std.specs.Option.{option_copied};
ghost use Rattle.mf_types.specs.Arguments as spec;
ghost use Rattle.mf_types.specs.Faults.{after};
ghost use Rattle.mf_types.specs.Sites.{site_of};
ghost use Rattle.mf_types.specs.Tables.{declared_of};

use crate::least::{Fault, FaultKind, at_word, stands_before};
use crate::scope::Scope;
use crate::site::Site;
use crate::tables::Tables;
use crate::type_row::TypeRow;
use mf_model::Word;

fn is_variable(name: &[u8]) -> bool
    ensures { result ≡ spec.is_variable name.now }
{
    match name {
        [] => false,
        [first, ..] => *first == b'?',
    }
}

/// The declared types of an object.
fn types_of_object<'a>(tables: &'a Tables, name: &[u8]) -> Option<&'a TypeRow>
    ensures { option_copied result ≡ spec.object_types (declared_of tables.now) name.now }
{
    let number = tables.find_object(name)?;
    Some(tables.types_of_object(number))
}

/// The types of a term: those of the innermost variable of its name, or those of the object.
fn types_of_term<'a>(tables: &'a Tables, scope: &'a Scope, name: &[u8]) -> Option<&'a TypeRow>
    ensures { option_copied result ≡ spec.term_types (declared_of tables.now) scope.now name.now }
{
    if is_variable(name) {
        scope.types_of(name)
    } else {
        types_of_object(tables, name)
    }
}

/// The fault of a term whose name isn't declared.
#[tactic(auto, using(crate::proofs::Settling::settled_term))]
pub(crate) fn term(
    site: &Site<'_>,
    best: Option<Fault>,
    scope: &Scope,
    word: &Word,
) -> Option<Fault>
    ensures { result ≡ after best (spec.term_faults (site_of site.now) scope.now word.now) }
{
    if stands_before(best, site.file, word) {
        return best;
    }
    match types_of_term(site.tables, scope, word.text.as_slice()) {
        Some(_) => best,
        None => at_word(best, FaultKind::UnknownName, site.file, word),
    }
}

/// The faults of terms whose names aren't declared.
#[tactic(auto, using(crate::proofs::After::after_append))]
fn terms(site: &Site<'_>, mut best: Option<Fault>, scope: &Scope, words: &[Word]) -> Option<Fault>
    ensures { result ≡ after best
        (flat_map (spec.term_faults (site_of site.now) scope.now) words.now) }
{
    for word in words {
        best = term(site, best, scope, word);
    }
    best
}

/// The fault of an argument that can have none of the wanted types.
#[tactic(auto, using(crate::proofs::Settling::settled_argument))]
fn argument(
    site: &Site<'_>,
    best: Option<Fault>,
    scope: &Scope,
    wanted: &TypeRow,
    word: &Word,
) -> Option<Fault>
    ensures { result ≡ after best (spec.type_faults (site_of site.now) wanted.now word.now
        (spec.term_types (declared_of site.now.tables.now) scope.now word.now.text)) }
{
    if stands_before(best, site.file, word) {
        return best;
    }
    match types_of_term(site.tables, scope, word.text.as_slice()) {
        Some(own) if !site.tables.are_related(own, wanted) => {
            at_word(best, FaultKind::WrongType, site.file, word)
        }
        _ => best,
    }
}

/// The faults of arguments that can have none of their parameters' types.
#[tactic(auto, using(crate::proofs::After::after_append))]
fn arguments(
    site: &Site<'_>,
    mut best: Option<Fault>,
    scope: &Scope,
    mut parameters: &[TypeRow],
    words: &[Word],
) -> Option<Fault>
    ensures { result ≡ after best
        (spec.argument_faults (site_of site.now) scope.now words.now parameters.entry.now) }
{
    for word in words {
        let [wanted, others @ ..] = parameters else {
            return best;
        };
        best = argument(site, best, scope, wanted, word);
        parameters = others;
    }
    best
}

/// The faults of the name of a predicate or a function, of the number of its arguments, and of
/// their types.
fn symbol(
    site: &Site<'_>,
    best: Option<Fault>,
    scope: &Scope,
    parameters: Option<&[TypeRow]>,
    name: &Word,
    words: &[Word],
) -> Option<Fault>
    ensures { result ≡ after best
        (spec.symbol_faults (site_of site.now) scope.now name.now words.now
        (option_copied parameters.entry)) }
{
    let Some(parameters) = parameters else {
        return at_word(best, FaultKind::UnknownName, site.file, name);
    };
    let best = count(site, best, parameters, name, words);
    arguments(site, best, scope, parameters, words)
}

/// The fault of a name with a wrong number of arguments.
fn count(
    site: &Site<'_>,
    best: Option<Fault>,
    parameters: &[TypeRow],
    name: &Word,
    words: &[Word],
) -> Option<Fault>
    ensures { result ≡ after best
        (spec.count_faults (site_of site.now) name.now words.now parameters.now) }
{
    if parameters.len() == words.len() {
        return best;
    }
    at_word(best, FaultKind::WrongCount, site.file, name)
}

/// The faults of an atom.
#[tactic(auto, using(crate::proofs::After::after_append))]
pub(crate) fn atom(
    site: &Site<'_>,
    best: Option<Fault>,
    scope: &Scope,
    predicate: &Word,
    words: &[Word],
) -> Option<Fault>
    ensures { result ≡ after best
        (spec.atom_faults (site_of site.now) scope.now predicate.now words.now) }
{
    let parameters = parameters_of_predicate(site.tables, predicate.text.as_slice());
    let best = symbol(site, best, scope, parameters, predicate, words);
    terms(site, best, scope, words)
}

/// The faults of a function with its arguments.
#[tactic(auto, using(crate::proofs::After::after_append))]
pub(crate) fn function(
    site: &Site<'_>,
    best: Option<Fault>,
    scope: &Scope,
    function: &Word,
    words: &[Word],
) -> Option<Fault>
    ensures { result ≡ after best
        (spec.function_faults (site_of site.now) scope.now function.now words.now) }
{
    let parameters = parameters_of_function(site.tables, function.text.as_slice());
    let best = symbol(site, best, scope, parameters, function, words);
    terms(site, best, scope, words)
}

/// For each parameter of a predicate its types.
fn parameters_of_predicate<'a>(tables: &'a Tables, name: &[u8]) -> Option<&'a [TypeRow]>
    ensures { option_copied result ≡ spec.predicate_parameters (declared_of tables.now) name.now }
{
    let number = tables.find_predicate(name)?;
    Some(tables.types_of_predicate(number))
}

/// For each parameter of a function its types.
pub(crate) fn parameters_of_function<'a>(tables: &'a Tables, name: &[u8]) -> Option<&'a [TypeRow]>
    ensures { option_copied result ≡ spec.function_parameters (declared_of tables.now) name.now }
{
    let number = tables.find_function(name)?;
    Some(tables.types_of_function(number))
}
