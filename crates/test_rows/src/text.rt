//! Fronts of bytes and of lines.
use std::alloc::{AllocError, Global};

/// The first bytes, or all where there are fewer.
pub fn first_bytes(bytes: &[u8], count: usize) -> &[u8] {
    bytes.get(..count).unwrap_or(bytes)
}

/// The first lines of a text, or all where there are fewer.
pub fn first_lines(text: &[u8], count: usize) -> &[u8] {
    let mut lines = 0usize;
    for (place, byte) in text.iter().enumerate() {
        if lines >= count {
            return first_bytes(text, place);
        }
        if *byte == b'\n' {
            lines = lines.saturating_add(1);
        }
    }
    text
}

/// The first lines of a text, and then this one.
pub fn first_lines_and(
    alloc: Global,
    text: &[u8],
    count: usize,
    line: &str,
) -> Result<Vec<u8>, AllocError> {
    let mut lines = first_lines(text, count).to_vec(alloc)?;
    lines.extend_from_slice(line.as_bytes())?;
    Ok(lines)
}
