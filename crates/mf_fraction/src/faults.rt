/// The result is wider than a stored fraction: a part of it is above 2^62 in size.
#[derive(Clone, Copy, Debug, PartialEq, Eq)]
pub struct Wide;

/// Why a division has no stored result.
#[derive(Clone, Copy, Debug, PartialEq, Eq)]
pub enum DivFault {
    ZeroDivisor,
    Wide,
}

/// Why a word gives no stored fraction.
#[derive(Clone, Copy, Debug, PartialEq, Eq)]
pub enum NumberFault {
    NotANumber,
    Wide,
}

/// There was no memory.
#[derive(Clone, Copy, Debug, PartialEq, Eq)]
pub struct Memory;
