/// What a condition is at a state: a comparison with an undefined side does neither.
#[derive(Clone, Copy, Debug, PartialEq, Eq)]
pub enum Truth {
    Yes,
    No,
    Neither,
}
