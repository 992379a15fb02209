use crate::{Kind, Span, Text};
use sqlite_items::Items;

/// A word or a list of a file. A leaf's text is its word folded to lower case.
#[derive(Debug, Drop)]
pub enum Tree {
    Leaf { kind: Kind, text: Text, span: Span },
    Branch { items: Items<Tree>, span: Span },
}

const _: () = prove!(size_of::<Tree>() == 40);
