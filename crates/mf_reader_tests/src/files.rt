use mf_lex::{tokens, tree};
use mf_model::{Domain, Problem, Tree};
use mf_reader::{FormFault, read_domain, read_problem};
use std::alloc::Global;

/// The tree of a file.
fn file_tree(alloc: Global, source: &[u8]) -> Option<Tree> {
    if source.len() > 16_777_216 {
        return None;
    }
    let Ok(tokens) = tokens(alloc, source) else {
        return None;
    };
    tree(alloc, source, &tokens).ok()
}

/// What is read of a domain file that has a tree.
pub(crate) fn domain(alloc: Global, source: &[u8]) -> Option<Result<Domain, FormFault>> {
    let tree = file_tree(alloc, source)?;
    Some(read_domain(alloc, &tree))
}

/// What is read of a problem file that has a tree.
pub(crate) fn problem(alloc: Global, source: &[u8]) -> Option<Result<Problem, FormFault>> {
    let tree = file_tree(alloc, source)?;
    Some(read_problem(alloc, &tree))
}
