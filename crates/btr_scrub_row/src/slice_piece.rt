use crate::buffer::ELEMENT;
use crate::shape::Shape;

// The piece of a slice that a block of a row is: which slice, and which bytes of it.
#[derive(Clone, Copy, Debug, PartialEq, Eq)]
pub(crate) struct SlicePiece {
    pub(crate) shape: Shape,
    pub(crate) index: u32,
    pub(crate) rest: usize,
    pub(crate) len: usize,
}

impl SlicePiece {
    ghost use Rattle.std.specs.Prelude.{◌≡◌, ◌+◌, ◌*◌, ◌≤◌};

    // Where the bytes of an element at the piece's place begin in memory.
    pub(crate) fn start(&self, element: u32) -> usize
        requires element { element ≤ 64 }
        requires rest { self.now.rest ≤ 65536 }
        ensures { result ≡ element * 65536 + self.now.rest }
    {
        element as usize * ELEMENT + self.rest
    }
}
