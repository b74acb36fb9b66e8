use std::alloc::{AllocError, Global};

/// The bytes of a file: byte p is (seed + p) mod 251. The length of an element leaves 25 when divided by 251, so that
/// elements in a row have different bytes.
pub(crate) fn pattern(alloc: Global, seed: u64, size: u64) -> Result<Vec<u8>, AllocError> {
    let mut bytes = Vec::with_capacity(alloc, size as usize)?;
    for p in 0..size {
        bytes.push((seed.wrapping_add(p) % 251) as u8)?;
    }
    Ok(bytes)
}
