use std::alloc::{AllocError, Global};

/// The rows of the five files of the small volumes, in the folder `out`. `AllocError`: want of memory.
pub fn five_files(alloc: Global) -> Result<Vec<u8>, AllocError> {
    let mut rows = Vec::new(alloc);
    rows.extend_from_slice(b"out\ne \ni x\nh1 hello\nh2 hello\na ")?;
    for (count, byte) in [(4096, 0x41), (4096, 0), (1808, 0x42)] {
        for _ in 0..count {
            rows.push(byte)?;
        }
    }
    rows.push(b'\n')?;
    Ok(rows)
}
