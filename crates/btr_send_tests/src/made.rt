// What a stream makes, as a text: a line for the subvolume, and then one for each directory and
// file.
use std::alloc::{AllocError, Global};

/// The lines of what is made.
#[derive(Drop)]
pub(super) struct Lines {
    text: Vec<u8>,
}

impl Lines {
    /// Nothing made.
    pub(super) fn new(alloc: Global) -> Lines {
        Lines {
            text: Vec::new(alloc),
        }
    }

    /// A subvolume, by its name, its uuid and the 8 bytes of its transid.
    pub(super) fn subvolume(
        &mut self,
        name: &[u8],
        uuid: &[u8],
        transid: &[u8],
    ) -> Result<(), AllocError> {
        self.line(&[b"s", name, uuid, transid])
    }

    /// A directory, by its path.
    pub(super) fn directory(&mut self, path: &[u8]) -> Result<(), AllocError> {
        self.line(&[b"d", path])
    }

    /// A file, by its path and its bytes.
    pub(super) fn file(&mut self, path: &[u8], bytes: &[u8]) -> Result<(), AllocError> {
        self.line(&[b"f", path, bytes])
    }

    /// All lines.
    pub(super) fn as_slice(&self) -> &[u8] {
        self.text.as_slice()
    }

    // Some words, each with a space behind it.
    fn line(&mut self, words: &[&[u8]]) -> Result<(), AllocError> {
        for word in words {
            self.text.extend_from_slice(word)?;
            self.text.push(b' ')?;
        }
        self.text.extend_from_slice(b"\n")
    }
}

/// So many bytes, of which byte p is (seed + p) mod 251.
pub(super) fn pattern(alloc: Global, seed: u64, len: u64) -> Result<Vec<u8>, AllocError> {
    let mut bytes = Vec::new(alloc);
    for p in 0..len {
        bytes.push((seed.wrapping_add(p) % 251) as u8)?;
    }
    Ok(bytes)
}

/// So many zeros.
pub(super) fn zeros(alloc: Global, len: u64) -> Result<Vec<u8>, AllocError> {
    let mut bytes = Vec::new(alloc);
    for _ in 0..len {
        bytes.push(0)?;
    }
    Ok(bytes)
}
