ghost use Rattle.std.specs.Prelude.{◌≡◌, IfErr, IfOk};
ghost use Rattle.mf_reader.specs.Domains as spec;
ghost use Rattle.mf_model.specs.Trees.{IsPlaced};
ghost use Rattle.mf_model.specs.declared.form.Domain.{Domain};
ghost use Rattle.mf_reader.specs.Filled.{Fills};
ghost use Rattle.mf_reader.specs.GrammarFiles.{IsDomain};
ghost use Rattle.mf_reader.specs.Order.{IsAnsweredFault};
ghost use Rattle.mf_reader.specs.Said.{Gives, Refuses, IsWhole, said};

use crate::actions::action;
use crate::fault::FormFault;
use crate::functions::functions;
use crate::headers::predicate_headers;
use crate::keys::{DomainKey, domain_key_of};
use crate::requirements::requirements;
use crate::titles::title;
use crate::typed::{Listed, typed_list};
use crate::words::has_text;
use mf_model::{Domain, Header, List, RawAction, Span, Text, Tree, TypedList};
use std::alloc::Global;

/// The sections of a domain that stand so far.
#[derive(Drop)]
pub(crate) struct DomainParts {
    pub(crate) requirements: bool,
    pub(crate) types: Option<TypedList>,
    pub(crate) constants: Option<TypedList>,
    pub(crate) predicates: Option<List<Header>>,
    pub(crate) functions: Option<List<Header>>,
    pub(crate) actions: List<RawAction>,
}

/// Whether a section may stand behind these: each stands once, but for actions.
fn may_stand(key: DomainKey, parts: &DomainParts) -> bool
    ensures { result ≡ spec.may_stand key parts.now }
{
    match key {
        DomainKey::Requirements => !parts.requirements,
        DomainKey::Types => parts.types.is_none(),
        DomainKey::Constants => parts.constants.is_none(),
        DomainKey::Predicates => parts.predicates.is_none(),
        DomainKey::Functions => parts.functions.is_none(),
        DomainKey::Action | DomainKey::LeftOut => true,
        DomainKey::Other => false,
    }
}

/// Puts a section to those that stand.
fn add_section(
    alloc: Global,
    key: DomainKey,
    span: Span,
    items: &[Tree],
    parts: &mut DomainParts,
) -> Result<(), FormFault>
    ensures { Fills result parts.new (spec.with_section key span items.now parts.old) }
{
    match key {
        DomainKey::Requirements => {
            requirements(items)?;
            parts.requirements = true;
        }
        DomainKey::Types => {
            let types = typed_list(alloc, Listed::Types, items)?;
            parts.types = Some(types);
        }
        DomainKey::Constants => {
            let constants = typed_list(alloc, Listed::Names, items)?;
            parts.constants = Some(constants);
        }
        DomainKey::Predicates => {
            let predicates = predicate_headers(alloc, items)?;
            parts.predicates = Some(predicates);
        }
        DomainKey::Functions => {
            let functions = functions(alloc, items)?;
            parts.functions = Some(functions);
        }
        DomainKey::Action => {
            let action = action(alloc, span, items)?;
            parts.actions.push(action)?;
        }
        DomainKey::LeftOut => return Err(FormFault::LeftOut { span }),
        DomainKey::Other => return Err(FormFault::BadForm { span }),
    }
    Ok(())
}

/// Reads a section of a domain.
fn read_section(alloc: Global, tree: &Tree, parts: &mut DomainParts) -> Result<(), FormFault>
    ensures { Fills result parts.new (spec.section_of tree.now parts.old) }
{
    match tree {
        Tree::Leaf { span, .. } => Err(FormFault::BadForm { span: *span }),
        Tree::Branch { items, span } => {
            let [head, items @ ..] = items.as_slice() else {
                return Err(FormFault::BadForm { span: *span });
            };
            let key = domain_key_of(head);
            if !may_stand(key, parts) {
                return Err(FormFault::BadForm { span: *span });
            }
            add_section(alloc, key, *span, items, parts)
        }
    }
}

/// Reads the sections of a domain.
fn read_sections(alloc: Global, trees: &[Tree], parts: &mut DomainParts) -> Result<(), FormFault>
    ensures { Fills result parts.new (spec.sections_from parts.old trees.now) }
{
    for tree in trees {
        read_section(alloc, tree, parts)?;
    }
    Ok(())
}

/// A domain of its name and its sections; a missing section is empty.
fn made_domain(alloc: Global, name: Text, parts: DomainParts) -> Domain
    ensures { result ≡ spec.made_domain name parts }
{
    let DomainParts {
        requirements: _,
        types,
        constants,
        predicates,
        functions,
        actions,
    } = parts;
    let types = types.unwrap_or(TypedList::new(alloc));
    let constants = constants.unwrap_or(TypedList::new(alloc));
    let predicates = predicates.unwrap_or(List::new(alloc));
    let functions = functions.unwrap_or(List::new(alloc));
    Domain {
        name,
        types,
        constants,
        predicates,
        functions,
        actions,
    }
}

/// A domain, from its title and its sections.
fn domain_with_sections(alloc: Global, head: &Tree, sections: &[Tree]) -> Result<Domain, FormFault>
    ensures { Gives result (spec.domain_behind head.now sections.now) }
{
    let name = title(alloc, head, b"domain".as_slice())?;
    let mut parts = DomainParts {
        requirements: false,
        types: None,
        constants: None,
        predicates: None,
        functions: None,
        actions: List::new(alloc),
    };
    read_sections(alloc, sections, &mut parts)?;
    Ok(made_domain(alloc, name, parts))
}

/// The domain that a tree is.
fn domain_of(alloc: Global, tree: &Tree) -> Result<Domain, FormFault>
    ensures { Gives result (spec.domain_of tree.now) }
{
    match tree {
        Tree::Leaf { span, .. } => Err(FormFault::BadForm { span: *span }),
        Tree::Branch { items, span } => {
            let [define, head, sections @ ..] = items.as_slice() else {
                return Err(FormFault::BadForm { span: *span });
            };
            if !has_text(define, b"define".as_slice()) {
                return Err(FormFault::BadForm { span: *span });
            }
            domain_with_sections(alloc, head, sections)
        }
    }
}

/// Reads the domain that a tree is: its types, constants, predicates, functions and actions as
/// they are written, in the order of the text. Where the tree is no domain of the grammar (PDDL
/// 2.1, level 2: Fox and Long, JAIR 2003; `docs/FORMATS.md` says which part of it is read) the
/// first fault in the text is answered: `UnknownRequirement` at a requirement that is not known,
/// `LeftOut` at a construct that is not read, and `BadForm` at a list or a word that is of no form
/// at its place. Spans count the bytes of the file.
pub fn read_domain(alloc: Global, tree: &Tree) -> Result<Domain, FormFault>
    ensures reads { Gives result (spec.domain_of tree.now) }
    ensures value { IfOk result (IsWhole (spec.domain_of tree.now)) }
    ensures fault { IfErr result (λ fault. Refuses fault (spec.domain_of tree.now).faults) }
    ensures form { IfOk result (λ domain. IsDomain domain tree.now) }
    ensures only { (domain : Domain) → IsDomain domain tree.now → Gives result (said domain) }
    ensures least { IsPlaced tree.now → IfErr result (λ fault. IsAnsweredFault fault (spec.domain_of tree.now).faults) }
{
    domain_of(alloc, tree)
}
