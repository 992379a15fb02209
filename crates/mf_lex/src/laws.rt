ghost use Rattle.std.specs.Prelude.{◌≡◌, List, ℕ};
ghost use Rattle.mf_model.specs.Tokens.{IsTokens, BadByteAt, TooLongAt};
ghost use Rattle.mf_model.specs.Trees.{IsPlaced, IsTreeOf};
ghost use Rattle.mf_model.specs.declared.token.Token.{Token};
ghost use Rattle.mf_model.specs.declared.tree.Tree.{Tree};

/// A file has one list of tokens at most.
pub fn tokens_are_unique()
    ensures { (source : List ℕ) (left right : List Token) → IsTokens source left → IsTokens source right → left ≡ right }
{}

/// A file with tokens has no fault.
pub fn tokens_have_no_fault()
    ensures { (source : List ℕ) (tokens : List Token) (at : ℕ) → IsTokens source tokens → ¬ BadByteAt source at × ¬ TooLongAt source at }
{}

/// A file has one tree at most.
pub fn tree_is_unique()
    ensures { (source : List ℕ) (left right : Tree) → IsTreeOf source left → IsTreeOf source right → left ≡ right }
{}

/// The items of each list stand between its brackets, one behind the other.
pub fn spans_are_nested()
    ensures { (source : List ℕ) (tree : Tree) → IsTreeOf source tree → IsPlaced tree }
{}
