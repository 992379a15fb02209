use std::alloc::{AllocError, Global};

/// A text without its mark `@`, and the place of the mark.
#[derive(Drop)]
pub(crate) struct Marked {
    pub(crate) text: Vec<u8>,
    pub(crate) place: Option<usize>,
}

impl Marked {
    fn add(&mut self, bytes: &[u8]) -> Result<(), AllocError> {
        for byte in bytes {
            if *byte == b'@' {
                self.place = Some(self.text.len());
            } else {
                self.text.push(*byte)?;
            }
        }
        Ok(())
    }
}

/// Three texts, one behind the other.
pub(crate) fn joined(
    alloc: Global,
    before: &[u8],
    text: &[u8],
    after: &[u8],
) -> Result<Marked, AllocError> {
    let mut out = Marked {
        text: Vec::new(alloc),
        place: None,
    };
    out.add(before)?;
    out.add(text)?;
    out.add(after)?;
    Ok(out)
}
