use btr_base::Key;
use std::alloc::{AllocError, Global};

/// Bytes that are written one field after another, as the body of an item is.
#[derive(Debug, Drop)]
pub struct Body {
    bytes: Vec<u8>,
}

impl Body {
    /// No bytes.
    pub fn new(alloc: Global) -> Body {
        Body {
            bytes: Vec::new(alloc),
        }
    }

    /// The bytes that were written so far.
    pub fn as_slice(&self) -> &[u8] {
        self.bytes.as_slice()
    }

    /// How many bytes were written so far.
    pub fn len(&self) -> usize {
        self.bytes.len()
    }

    /// Whether nothing was written so far.
    pub fn is_empty(&self) -> bool {
        self.bytes.is_empty()
    }

    /// Appends bytes as they are.
    pub fn bytes(mut self, bytes: &[u8]) -> Result<Body, AllocError> {
        self.bytes.extend_from_slice(bytes)?;
        Ok(self)
    }

    /// Appends zeros.
    pub fn zeros(mut self, count: usize) -> Result<Body, AllocError> {
        for _ in 0..count {
            self.bytes.push(0)?;
        }
        Ok(self)
    }

    /// Appends a byte.
    pub fn u8(self, n: u8) -> Result<Body, AllocError> {
        self.bytes(&[n])
    }

    /// Appends a number of 2 bytes.
    pub fn u16(self, n: u16) -> Result<Body, AllocError> {
        self.bytes(&n.to_le_bytes())
    }

    /// Appends a number of 4 bytes.
    pub fn u32(self, n: u32) -> Result<Body, AllocError> {
        self.bytes(&n.to_le_bytes())
    }

    /// Appends a number of 8 bytes.
    pub fn u64(self, n: u64) -> Result<Body, AllocError> {
        self.bytes(&n.to_le_bytes())
    }

    /// Appends a number that fits into a byte. Of a greater one it is the low byte.
    pub fn low_u8(self, n: u64) -> Result<Body, AllocError> {
        self.u8((n & 0xff) as u8)
    }

    /// Appends a length or a count that fits into 2 bytes. Of a greater one it is the low bytes.
    pub fn low_u16(self, n: usize) -> Result<Body, AllocError> {
        self.u16((n & 0xffff) as u16)
    }

    /// Appends a length or a count that fits into 4 bytes. Of a greater one it is the low bytes.
    pub fn low_u32(self, n: usize) -> Result<Body, AllocError> {
        self.u32((n & 0xffff_ffff) as u32)
    }

    /// Appends a key, of 17 bytes.
    pub fn key(self, key: Key) -> Result<Body, AllocError> {
        self.u64(key.objectid)?.u8(key.kind)?.u64(key.offset)
    }
}
