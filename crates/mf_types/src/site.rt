use crate::tables::Tables;
use mf_model::FileKind;

/// Where names are used: what is declared, in which file, and whether products must be linear
/// there.
#[derive(Clone, Copy)]
pub(crate) struct Site<'a> {
    pub(crate) tables: &'a Tables,
    pub(crate) file: FileKind,
    pub(crate) linear: bool,
}
