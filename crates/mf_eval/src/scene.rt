use mf_model::{PlainState, TypedTask};

/// A state of a task, at which conditions and effects are looked at.
#[derive(Clone, Copy)]
pub(crate) struct Scene<'a> {
    pub(crate) task: &'a TypedTask,
    pub(crate) state: &'a PlainState,
}
