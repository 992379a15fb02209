ghost use Rattle.mf_graph.specs.LayerLists.{shown};
ghost use Rattle.std.specs.Prelude.{◌≡◌};

use crate::Range;
use mf_model::List;

/// One layer: which atoms are possible and which possibly false, and the bounds of the terms that have any, by their
/// numbers.
#[derive(Debug, Drop)]
pub struct Layer {
    pub possible: List<bool>,
    pub possibly_false: List<bool>,
    pub ranges: List<Option<Range>>,
}

impl Layer {
    /// The bounds of a term, if it has any.
    pub fn range(&self, term: u32) -> Option<Range>
        ensures { result ≡ (shown self.now).range term }
    {
        match self.ranges.get(term as usize) {
            Some(range) => *range,
            None => None,
        }
    }
}
