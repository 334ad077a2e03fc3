//! What runs read, in parts.
use std::alloc::{AllocError, Global};

/// Two transitions, and two Index blocks around them.
pub const TWO_TRANSITIONS: [u8; 50] = [
    0x0D, 2, 12, 0, 0, 0, 0, 0, 0, 0, 0, 0, 0, 0, 0, 0, 0x60, 0x60, 0x0D, 2, 12, 0, 2, 0, 0, 0, 5,
    0, 0, 0, 24, 0, 0, 0, 0x0D, 3, 8, 0, 2, 0, 0, 0, 0, 0, 0, 0, 0x0D, 0x0D, 0x0D, 0x0D,
];

/// A part of a stream.
#[derive(Clone, Copy)]
pub enum Part {
    Bytes(&'static [u8]),
    TwoTransitions,
    /// An Index block of this stream position and sample counter.
    Index(u32, u32),
    End,
    /// An Info block of the longest text.
    Text,
}

pub fn joined(alloc: Global, parts: &[Part]) -> Result<Vec<u8>, AllocError> {
    let mut bytes = Vec::new(alloc);
    for part in parts {
        push(alloc, &mut bytes, *part)?;
    }
    Ok(bytes)
}

fn push(alloc: Global, bytes: &mut Vec<u8>, part: Part) -> Result<(), AllocError> {
    match part {
        Part::Bytes(more) => bytes.extend_from_slice(more),
        Part::TwoTransitions => bytes.extend_from_slice(&TWO_TRANSITIONS),
        Part::Index(position, sample) => push_index(bytes, position, sample),
        Part::End => bytes.extend_from_slice(&[0x0D; 4]),
        Part::Text => push_text(alloc, bytes),
    }
}

fn push_index(bytes: &mut Vec<u8>, position: u32, sample: u32) -> Result<(), AllocError> {
    bytes.extend_from_slice(&[0x0D, 2, 12, 0])?;
    bytes.extend_from_slice(&position.to_le_bytes())?;
    bytes.extend_from_slice(&sample.to_le_bytes())?;
    bytes.extend_from_slice(&[0; 4])
}

fn push_text(alloc: Global, bytes: &mut Vec<u8>) -> Result<(), AllocError> {
    let text: Vec<u8> = vec![in alloc; 0x20; 65535]?;
    bytes.extend_from_slice(&[0x0D, 4, 0xFF, 0xFF])?;
    bytes.extend_from_slice(&text)
}
