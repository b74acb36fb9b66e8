// Four bytes of an image.
use btr_rack::{Rack, RackError};
use std::process::Abort;

/// Opens an image.
pub(crate) fn opened<R: Rack>(rack: &mut R, name: &str, write: bool) -> Result<usize, RackError> {
    rack.open(name, write)
}

/// Whether four bytes from `off` on lie in the image.
pub(crate) fn holds_four<R: Rack>(rt: &impl Abort, rack: &R, slot: usize, off: u64) -> bool {
    assert!(rt; slot < rack.count());
    let len = rack.len(slot);
    len >= 4 && off <= len - 4
}

/// Four bytes from `off` on, which lie in the image.
pub(crate) fn four_at<R: Rack>(
    rt: &impl Abort,
    rack: &mut R,
    slot: usize,
    off: u64,
) -> Result<[u8; 4], RackError> {
    assert!(rt; slot < rack.count());
    let len = rack.len(slot);
    assert!(rt; len >= 4 && off <= len - 4);
    let mut buf = [0; 4];
    rack.read_at(slot, off, &mut buf)?;
    Ok(buf)
}
