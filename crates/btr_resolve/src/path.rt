// A path that is built from its end.
ghost use Rattle.std.specs.Prelude.{◌≡◌, ◌≤◌, ◌∷◌, ◌++◌, [], OnOk, drop, length, reverse, take};

use btr_base::Memory;
use std::alloc::Global;
use std::marker::Model;

/// A path: names, each behind a `/`, the last of which was put first. Its memory grows with it, and stays with it for the next one. Clauses see its bytes.
#[derive(Drop)]
pub(crate) struct Path {
    // The bytes from the last to the first.
    bytes: Vec<u8>,
}

impl Model for Path {
    ghost use Rattle.std.specs.Prelude.{List, ℕ, reverse};

    ghost Value = { List ℕ };

    ghost view = { λ path. reverse path.bytes.items };
}

// Turns the bytes from a place on around.
fn reverse_from(bytes: &mut [u8], at: usize)
    requires { at ≤ length bytes.old }
    ensures { bytes.new ≡ take at bytes.old ++ reverse (drop at bytes.old) }
{
    bytes[at..].reverse();
}

impl Path {
    /// A path without a name, which has no memory yet.
    pub(crate) fn new(alloc: Global) -> Path
        ensures { result ≡ [] }
    {
        Path {
            bytes: Vec::new(alloc),
        }
    }

    /// Takes all names away.
    pub(crate) fn clear(&mut self)
        ensures { self.new ≡ [] }
    {
        self.bytes.clear();
    }

    /// Puts a name in front.
    pub(crate) fn enter(&mut self, name: &[u8]) -> Result<(), Memory>
        ensures { OnOk result (self.new ≡ 47 ∷ name.now ++ self.old) }
    {
        let len = self.bytes.len();
        if self.bytes.extend_from_slice(name).is_err() {
            return Err(Memory);
        }
        reverse_from(self.bytes.as_mut_slice(), len);
        if self.bytes.push(b'/').is_err() {
            return Err(Memory);
        }
        Ok(())
    }

    /// The bytes of the path, which is used up.
    pub(crate) fn turn(&mut self) -> &[u8]
        ensures { result.now ≡ self.old }
    {
        self.bytes.as_mut_slice().reverse();
        self.bytes.as_slice()
    }
}
