use mf_model::List;
use mf_search::{Entry, Maker};
use mf_store::Row;

/// What a search did: the row, the value and the maker of each opened state, in the order in which they were opened, and
/// the entries in their order.
#[derive(Debug, Drop)]
pub struct History {
    pub rows: List<Row>,
    pub values: List<u64>,
    pub makers: List<Maker>,
    pub entries: List<Entry>,
}
