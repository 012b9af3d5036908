//! Bytes that files and outputs of the tests have.
use std::alloc::{AllocError, Global};

/// The byte at a place. Files of different letters have different bytes everywhere.
pub(crate) fn byte_at(letter: u8, place: u64) -> u8 {
    ((place % 241) as u8).wrapping_add(letter)
}

/// Bytes that repeat only every 241 places, so that a piece that is lost, or comes twice or late, shows.
pub(crate) fn bytes_of(alloc: Global, letter: u8, count: u64) -> Result<Vec<u8>, AllocError> {
    let mut bytes = Vec::new(alloc);
    for place in 0..count {
        bytes.push(byte_at(letter, place))?;
    }
    Ok(bytes)
}
