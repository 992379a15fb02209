/// What orders the open states: the value, then the mark, then the number. The least key comes out first.
#[derive(Clone, Copy, Debug, PartialEq, Eq, PartialOrd, Ord)]
pub struct Key {
    /// The state's value.
    pub value: u64,

    /// Whether the state has no helpful mark. One with the mark comes first among states of one value.
    pub plain: bool,

    /// The state's number.
    pub state: u64,
}
