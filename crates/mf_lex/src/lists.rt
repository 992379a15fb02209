ghost use Rattle.std.specs.Prelude.{◌≡◌, length, IfOk, IfErr};
ghost use Rattle.mf_model.specs.Tokens.{IsTokens};
ghost use Rattle.mf_model.specs.Trees.{IsTreeOf};
ghost use Rattle.mf_lex.specs.Answers.{IsTreeFault, NoTree};

use crate::fault::TreeFault;
use crate::growth::grown_tree;
use mf_model::{Tokens, Tree};
use std::alloc::Global;

/// The tree of a file that is one list, from the file's tokens. The texts of its words are folded to
/// lower case.
///
/// # Errors
///
/// `Unbalanced` and `TooDeep`, whichever comes first in the file; then the file has no tree.
pub fn tree(alloc: Global, source: &[u8], tokens: &Tokens) -> Result<Tree, TreeFault>
    requires tokens_are { IsTokens source.now tokens.now.list }
    requires length { tokens.now.length ≡ length source.now }
    ensures tree_is { IfOk result (IsTreeOf source.now) }
    ensures fault { IfErr result (IsTreeFault source.now tokens.now.list) }
    ensures none { IfErr result (NoTree source.now) }
{
    grown_tree(alloc, source, tokens.list.as_slice(), tokens.length)
}
