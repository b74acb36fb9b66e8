ghost use Rattle.std.specs.Prelude.{◌≡◌, ◌≤◌, IfOk, length};
ghost use Rattle.btr_scrub_row.specs.Mending.{HasRoom};

use btr_base::Memory;
use std::alloc::Global;

// How many bytes an element has.
pub(crate) const ELEMENT: usize = 65536;

/// Memory for one full stripe, whose elements have 65536 bytes each (`docs/FORMAT.md`, "Full stripes"). It serves row after row.
#[derive(Drop)]
pub struct RowBuffer {
    // The elements as they were read: the slices, P, and Q.
    pub(crate) elements: Vec<u8>,
    // The slices as they are to be.
    pub(crate) slices: Vec<u8>,
    // P and Q of those.
    pub(crate) p: Vec<u8>,
    pub(crate) q: Vec<u8>,
    // A block, and what is needed to compute it.
    pub(crate) block: Vec<u8>,
    pub(crate) spare: Vec<u8>,
}

// So many zeros.
fn zeros(alloc: Global, len: usize) -> Result<Vec<u8>, Memory>
    ensures { IfOk result (λ bytes. length bytes.items ≡ len) }
{
    let Ok(bytes) = vec![in alloc; 0u8; len] else {
        return Err(Memory);
    };
    Ok(bytes)
}

impl RowBuffer {
    /// Memory for the rows of chunks with this many stripes at most, which is up to 64. It is taken once, and no call on a row takes any.
    ///
    /// `Memory`: it couldn't be had.
    pub fn new(alloc: Global, elements: usize) -> Result<RowBuffer, Memory>
        requires { elements ≤ 64 }
        ensures { IfOk result (λ buffer. HasRoom buffer elements) }
    {
        Ok(RowBuffer {
            elements: zeros(alloc, elements * ELEMENT)?,
            slices: zeros(alloc, elements * ELEMENT)?,
            p: zeros(alloc, ELEMENT)?,
            q: zeros(alloc, ELEMENT)?,
            block: zeros(alloc, ELEMENT)?,
            spare: zeros(alloc, ELEMENT)?,
        })
    }
}
