// Writing what mends a row.
ghost use Rattle.std.specs.Prelude.{◌≡◌, ◌+◌, ◌≤◌, length, take};
ghost use Rattle.btr_scrub_row.specs.Writing.{CanWriteIn, WritesBytes};
ghost use Rattle.btr_scrub_row.specs.Memory.{piece_at};

use btr_rack::{Place, Rack, RackError};
use btr_scrub_copies::MendFault;

// Writes bytes into an element, from a byte of it on, and marks its slot.
pub(crate) fn write_in<R: Rack>(
    element: Place,
    rest: u64,
    bytes: &[u8],
    rack: &mut R,
    marks: &mut [bool],
) -> Result<(), MendFault>
    requires { CanWriteIn element rest (length bytes.now) (R.seen rack.old) marks.old }
    ensures slots { (R.seen rack.new).slots ≡ (R.seen rack.old).slots }
    ensures writes { WritesBytes element.slot (element.off + rest) bytes.now
        marks.old marks.new (R.seen rack.old) (R.seen rack.new) result }
{
    marks[element.slot] = true;
    match rack.write_at(element.slot, element.off + rest, bytes) {
        Ok(()) => Ok(()),
        Err(RackError::Failed) => Err(MendFault::Image(element.slot)),
        Err(RackError::Memory) => Err(MendFault::Memory),
    }
}

// Writes some bytes of a buffer into an element, at the same place, and marks its slot.
pub(crate) fn write_range<R: Rack>(
    element: Place,
    buffer: &[u8],
    start: usize,
    len: usize,
    rack: &mut R,
    marks: &mut [bool],
) -> Result<(), MendFault>
    requires fits { start + len ≤ length buffer.now }
    requires can { CanWriteIn element start len (R.seen rack.old) marks.old }
    ensures slots { (R.seen rack.new).slots ≡ (R.seen rack.old).slots }
    ensures writes { WritesBytes element.slot (element.off + start) (piece_at buffer.now start len)
        marks.old marks.new (R.seen rack.old) (R.seen rack.new) result }
{
    write_in(
        element,
        start as u64,
        &buffer[start..start + len],
        rack,
        marks,
    )
}

// Writes the front of a buffer into an element, from a byte of it on, and marks its slot.
pub(crate) fn write_front<R: Rack>(
    element: Place,
    rest: u64,
    front: &[u8],
    len: usize,
    rack: &mut R,
    marks: &mut [bool],
) -> Result<(), MendFault>
    requires fits { len ≤ length front.now }
    requires can { CanWriteIn element rest len (R.seen rack.old) marks.old }
    ensures slots { (R.seen rack.new).slots ≡ (R.seen rack.old).slots }
    ensures writes { WritesBytes element.slot (element.off + rest) (take len front.now)
        marks.old marks.new (R.seen rack.old) (R.seen rack.new) result }
{
    write_in(element, rest, &front[..len], rack, marks)
}
