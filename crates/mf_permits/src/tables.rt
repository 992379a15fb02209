use mf_open::OpenList;
use mf_search::Maker;
use mf_store::Store;

/// The opened states under their numbers: the row, the value and the maker of each, and the keys of those that are open.
#[derive(Debug, Drop)]
pub(crate) struct Tables {
    pub store: Store,
    pub values: Vec<u64>,
    pub makers: Vec<Maker>,
    pub open_list: OpenList,
}
