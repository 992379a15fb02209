use std::alloc::{AllocError, Global};

/// Numbers below a bound, with a bit for each.
#[derive(Debug, Drop)]
pub(crate) struct NumberSet {
    words: Vec<u64>,
}

impl NumberSet {
    /// No numbers.
    pub(crate) fn new(alloc: Global, bound: usize) -> Result<NumberSet, AllocError> {
        let words = vec![in alloc; 0u64; bound / 64 + 1]?;
        Ok(NumberSet { words })
    }

    pub(crate) fn insert(&mut self, number: usize) {
        if let Some(word) = self.words.get_mut(number / 64) {
            *word |= 1u64 << (number % 64);
        }
    }

    pub(crate) fn contains(&self, number: usize) -> bool {
        match self.words.get(number / 64) {
            Some(word) => (*word >> (number % 64)) & 1 == 1,
            None => false,
        }
    }

    /// The least number of both sets.
    pub(crate) fn first_common(&self, other: &NumberSet) -> Option<usize> {
        for (n, (word, other)) in self.words.iter().zip(other.words.iter()).enumerate() {
            let common = *word & *other;
            if common != 0 {
                let bit = common.trailing_zeros() as usize;
                return Some(n.saturating_mul(64).saturating_add(bit));
            }
        }
        None
    }
}
