/// Where a form is too wide: in the goal, or in the live instance of this number.
#[derive(Clone, Copy, Debug, PartialEq, Eq)]
pub enum Place {
    Goal,
    Action(u32),
}
