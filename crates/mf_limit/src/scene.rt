use mf_store::Row;
use mf_task::Task;

/// A task and one of its rows, at which the limit closure is asked for.
#[derive(Clone, Copy)]
pub(crate) struct Scene<'a> {
    pub(crate) task: &'a Task,
    pub(crate) row: &'a Row,
}
