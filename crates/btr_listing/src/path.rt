// The path of what is restored.
ghost use Rattle.std.specs.Prelude.{◌≡◌, [], IfOk, OnOk, length, take};
ghost use Rattle.btr_listing.specs.Lines.{path_in};

use btr_base::Memory;
use std::alloc::Global;
use std::marker::Model;

// 513 names of 255 bytes, each behind a `/`.
const MOST_BYTES: usize = 131328;

/// A path: names, each behind a `/`. Its memory is taken once, in `new`. Clauses see its bytes.
#[derive(Drop)]
pub struct Path {
    bytes: Vec<u8>,
}

impl Model for Path {
    ghost use Rattle.std.specs.Prelude.{List, ℕ};

    ghost Value = { List ℕ };

    ghost view = { λ path. path.bytes.items };
}

impl Path {
    /// The path of the destination, which has no name.
    pub fn new(alloc: Global) -> Result<Path, Memory>
        ensures { IfOk result (λ path. path ≡ []) }
    {
        match Vec::with_capacity(alloc, MOST_BYTES) {
            Ok(bytes) => Ok(Path { bytes }),
            Err(_) => Err(Memory),
        }
    }

    /// Its bytes.
    pub fn as_bytes(&self) -> &[u8]
        ensures { result.now ≡ self.now }
    {
        self.bytes.as_slice()
    }

    /// How many bytes it has.
    pub fn len(&self) -> usize
        ensures { result ≡ length self.now }
    {
        self.bytes.len()
    }

    /// Goes on to an entry of a name.
    pub fn push(&mut self, name: &[u8]) -> Result<(), Memory>
        ensures { OnOk result (self.new ≡ path_in self.old name.now) }
    {
        if self.bytes.push(b'/').is_err() || self.bytes.extend_from_slice(name).is_err() {
            return Err(Memory);
        }
        Ok(())
    }

    /// Goes back to the first bytes.
    pub fn cut(&mut self, len: usize)
        ensures { self.new ≡ take len self.old }
    {
        self.bytes.truncate(len);
    }
}
