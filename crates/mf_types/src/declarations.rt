ghost use Rattle.std.specs.Prelude.{◌≡◌, IfOk};
ghost use Rattle.std.specs.List.{flat_map};
ghost use Rattle.mf_types.specs.DeclarationFaults as spec;
ghost use Rattle.mf_types.specs.Declarations as lists;
ghost use Rattle.mf_types.specs.Faults.{after};
ghost use Rattle.mf_types.specs.Sites.{site_of};
ghost use Rattle.mf_types.specs.Tables.{declared_of};

use crate::cycles::cycles;
use crate::least::Fault;
use crate::listing::{beyond, list_faults, object_list_faults, repeats_alone};
use crate::quantified::item_types;
use crate::site::Site;
use crate::start_values::start_values;
use crate::tables::Tables;
use crate::type_table::type_firsts;
use crate::words::{action_words, header_words, item_words, kept_words};
use mf_model::{Domain, FileKind, Header, Problem, RawAction, TypedList};
use std::alloc::{AllocError, Global};

const MOST_SYMBOLS: usize = 10_000;

const MOST_ACTIONS: usize = 1_000;

const MOST_PARAMETERS: usize = 32;

/// The faults of declarations and of start values.
#[tactic(auto, using(crate::proofs::After::after_append))]
pub(crate) fn declarations(
    alloc: Global,
    best: Option<Fault>,
    tables: &Tables,
    domain: &Domain,
    problem: &Problem,
) -> Result<Option<Fault>, AllocError>
    ensures { IfOk result
        (λ fault. fault ≡ after best
        (spec.declaration_faults_in (declared_of tables.now) domain.now problem.now)) }
{
    let site = Site {
        tables,
        file: FileKind::DomainFile,
        linear: true,
    };
    let best = types(alloc, best, tables, &domain.types)?;
    let best = objects(alloc, best, tables, &domain.constants, &problem.objects)?;
    let best = headers(alloc, best, &site, domain.predicates.as_slice())?;
    let best = headers(alloc, best, &site, domain.functions.as_slice())?;
    let best = actions(alloc, best, &site, domain.actions.as_slice())?;
    start_values(alloc, best, problem.values.as_slice())
}

#[tactic(auto, using(crate::proofs::After::after_append))]
fn types(
    alloc: Global,
    best: Option<Fault>,
    tables: &Tables,
    items: &TypedList,
) -> Result<Option<Fault>, AllocError>
    ensures { IfOk result
        (λ fault. fault ≡ after best (spec.type_list_faults (declared_of tables.now) items.now)) }
{
    let words = kept_words(alloc, items.as_slice())?;
    let best = repeats_alone(alloc, best, FileKind::DomainFile, words.as_slice())?;
    let firsts = type_firsts(alloc, items.as_slice())?;
    let best = beyond(best, FileKind::DomainFile, MOST_SYMBOLS, firsts.as_slice());
    cycles(alloc, best, tables, items.as_slice())
}

#[tactic(auto, using(crate::proofs::After::after_append))]
fn objects(
    alloc: Global,
    best: Option<Fault>,
    tables: &Tables,
    constants: &TypedList,
    objects: &TypedList,
) -> Result<Option<Fault>, AllocError>
    ensures { IfOk result
        (λ fault. fault ≡ after best
        (spec.object_faults (declared_of tables.now) constants.now objects.now)) }
{
    let best = object_names(alloc, best, constants, objects)?;
    let site = Site {
        tables,
        file: FileKind::DomainFile,
        linear: true,
    };
    let best = item_types(&site, best, constants);
    let site = Site {
        tables,
        file: FileKind::ProblemFile,
        linear: true,
    };
    Ok(item_types(&site, best, objects))
}

fn object_names(
    alloc: Global,
    best: Option<Fault>,
    constants: &TypedList,
    objects: &TypedList,
) -> Result<Option<Fault>, AllocError>
    ensures { IfOk result
        (λ fault. fault ≡ after best
        (lists.object_list_faults (lists.item_words constants.now) (lists.item_words objects.now))) }
{
    let constants = item_words(alloc, constants.as_slice())?;
    let objects = item_words(alloc, objects.as_slice())?;
    object_list_faults(alloc, best, constants.as_slice(), objects.as_slice())
}

#[tactic(auto, using(crate::proofs::After::after_append))]
fn parameters(
    alloc: Global,
    best: Option<Fault>,
    site: &Site<'_>,
    items: &TypedList,
) -> Result<Option<Fault>, AllocError>
    ensures { IfOk result
        (λ fault. fault ≡ after best (spec.parameter_faults (site_of site.now) items.now)) }
{
    let words = item_words(alloc, items.as_slice())?;
    let best = list_faults(
        alloc,
        best,
        FileKind::DomainFile,
        MOST_PARAMETERS,
        words.as_slice(),
    )?;
    Ok(item_types(site, best, items))
}

/// The faults of the declarations of predicates or of functions.
#[tactic(auto, using(crate::proofs::After::after_append))]
fn headers(
    alloc: Global,
    best: Option<Fault>,
    site: &Site<'_>,
    headers: &[Header],
) -> Result<Option<Fault>, AllocError>
    ensures { IfOk result
        (λ fault. fault ≡ after best (spec.header_list_faults (site_of site.now) headers.now)) }
{
    let words = header_words(alloc, headers)?;
    let best = list_faults(
        alloc,
        best,
        FileKind::DomainFile,
        MOST_SYMBOLS,
        words.as_slice(),
    )?;
    header_parameters(alloc, best, site, headers)
}

#[tactic(auto, using(crate::proofs::After::after_append))]
fn header_parameters(
    alloc: Global,
    mut best: Option<Fault>,
    site: &Site<'_>,
    headers: &[Header],
) -> Result<Option<Fault>, AllocError>
    ensures { IfOk result
        (λ fault. fault ≡ after best
        (flat_map (spec.header_parameter_faults (site_of site.now)) headers.now)) }
{
    for header in headers {
        best = parameters(alloc, best, site, &header.parameters)?;
    }
    Ok(best)
}

#[tactic(auto, using(crate::proofs::After::after_append))]
fn actions(
    alloc: Global,
    best: Option<Fault>,
    site: &Site<'_>,
    actions: &[RawAction],
) -> Result<Option<Fault>, AllocError>
    ensures { IfOk result
        (λ fault. fault ≡ after best (spec.action_list_faults (site_of site.now) actions.now)) }
{
    let words = action_words(alloc, actions)?;
    let best = list_faults(
        alloc,
        best,
        FileKind::DomainFile,
        MOST_ACTIONS,
        words.as_slice(),
    )?;
    action_parameters(alloc, best, site, actions)
}

#[tactic(auto, using(crate::proofs::After::after_append))]
fn action_parameters(
    alloc: Global,
    mut best: Option<Fault>,
    site: &Site<'_>,
    actions: &[RawAction],
) -> Result<Option<Fault>, AllocError>
    ensures { IfOk result
        (λ fault. fault ≡ after best
        (flat_map (spec.action_parameter_faults (site_of site.now)) actions.now)) }
{
    for action in actions {
        best = parameters(alloc, best, site, &action.parameters)?;
    }
    Ok(best)
}
