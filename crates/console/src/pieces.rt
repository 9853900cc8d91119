// A line, split at spaces.
use std::alloc::{AllocError, Global};

// The pieces of a line between its spaces; empty ones are left out.
// No `split` and `filter`: a piece for each space of a long row of them took up to 1.4 times as long.
pub fn split_at_spaces<'a>(heap: Global, line: &'a [u8]) -> Result<Vec<&'a [u8]>, AllocError> {
    let mut pieces = Vec::new(heap);
    let mut rest = line;
    while let Some(start) = rest.iter().position(|byte| *byte != b' ') {
        let from = &rest[start..];
        let len = from
            .iter()
            .position(|byte| *byte == b' ')
            .unwrap_or(from.len());
        pieces.push(&from[..len])?;
        rest = from.get(len + 1..).unwrap_or(&[]);
    }
    Ok(pieces)
}
