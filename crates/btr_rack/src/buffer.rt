// Bytes that wait to be written.
ghost use Rattle.std.specs.Prelude.{◌≡◌, ◌≤◌, false, [], ◌++◌, length, drop, IfOk, IsTrue};

use btr_base::Memory;
use std::alloc::Global;
use std::marker::Model;

const BUFFER_SIZE: usize = 65536;

/// Bytes that wait to be written, at most 64 KiB. Its memory is taken once, in `new`. Clauses see the bytes.
#[derive(Drop)]
pub(crate) struct Buffer {
    bytes: Vec<u8>,
    // How many of the bytes were written.
    from: usize,
}

impl Model for Buffer {
    ghost use Rattle.std.specs.Prelude.{List, ℕ, ◌≤◌, vec_len, drop};
    ghost use Rattle.std.specs.Vec.{vec_capacity};

    ghost Value = { List ℕ };

    ghost view = { λ b. drop b.from b.bytes.items };

    ghost invariant = { λ b. (b.from ≤ vec_len b.bytes) × (vec_len b.bytes ≤ 65536) × (65536 ≤ vec_capacity b.bytes) };
}

impl Buffer {
    pub(crate) fn new(alloc: Global) -> Result<Buffer, Memory>
        ensures { IfOk result (λ b. b ≡ []) }
    {
        match Vec::with_capacity(alloc, BUFFER_SIZE) {
            Ok(bytes) => Ok(Buffer { bytes, from: 0 }),
            Err(_) => Err(Memory),
        }
    }

    /// Appends the bytes, or says that there is no room for them.
    pub(crate) fn push(&mut self, bytes: &[u8]) -> bool
        ensures fits { IsTrue result → self.new ≡ self.old ++ bytes.now }
        ensures full { result ≡ false → self.new ≡ self.old }
    {
        if bytes.len() > BUFFER_SIZE - self.bytes.len() {
            return false;
        }
        self.bytes.extend_from_slice(bytes).is_ok()
    }

    /// The first bytes don't wait any more.
    pub(crate) fn forget(&mut self, count: usize)
        requires { count ≤ length self.old }
        ensures { self.new ≡ drop count self.old }
    {
        self.from += count;
        if self.from == self.bytes.len() {
            self.clear();
        }
    }

    /// No byte waits any more.
    pub(crate) fn clear(&mut self)
        ensures { self.new ≡ [] }
    {
        self.bytes.clear();
        self.from = 0;
    }

    /// Whether no byte waits.
    pub(crate) fn is_empty(&self) -> bool
        ensures { IsTrue result → self.now ≡ [] }
    {
        self.from == self.bytes.len()
    }

    pub(crate) fn as_slice(&self) -> &[u8]
        ensures { result.now ≡ self.now }
    {
        &self.bytes[self.from..]
    }
}
