// Which of a file's bytes an extent has at an address.
ghost use Rattle.std.specs.Prelude.{◌≡◌, ◌+◌, ◌<◌, ◌^◌};
ghost use Rattle.btr_resolve.specs.Owning as spec;

use btr_items::{FileExtent, Shape};

/// An extent on the disk, in bytes: where it begins there and how long it is, and which of its bytes a file has.
#[derive(Clone, Copy, Debug, PartialEq, Eq)]
pub(crate) struct DiskExtent {
    pub(crate) addr: u64,
    pub(crate) disk_len: u64,
    pub(crate) skip: u64,
    pub(crate) len: u64,
}

// An extent with an address, which a hole hasn't.
fn placed(addr: u64, disk_len: u64, skip: u64, len: u64) -> Option<DiskExtent>
    ensures { result ≡ spec.placed addr disk_len skip len }
{
    if addr == 0 {
        return None;
    }
    Some(DiskExtent {
        addr,
        disk_len,
        skip,
        len,
    })
}

// Where an extent is on the disk.
fn on_disk(shape: &Shape) -> Option<DiskExtent>
    ensures { result ≡ spec.on_disk shape.now }
{
    match *shape {
        Shape::Inline { .. } => None,
        Shape::Regular {
            addr,
            disk_len,
            skip,
            len,
        } => placed(addr, disk_len, skip, len),
        Shape::Prealloc {
            addr,
            disk_len,
            skip,
            len,
        } => placed(addr, disk_len, skip, len),
    }
}

// The position in a file of the byte at an address, by the extent that begins at `start` in the file.
fn plain_position(addr: u64, start: u64, extent: &DiskExtent) -> Option<u64>
    requires { start + extent.now.len < 2 ^ 64 }
    ensures { result ≡ spec.plain_position addr start extent.now }
{
    if addr < extent.addr {
        return None;
    }
    let within = addr - extent.addr;
    if within < extent.skip || within - extent.skip >= extent.len {
        return None;
    }
    Some(start + (within - extent.skip))
}

// The same by a compressed extent: where that begins in the file.
fn packed_position(addr: u64, start: u64, extent: &DiskExtent) -> Option<u64>
    ensures { result ≡ spec.packed_position addr start extent.now }
{
    if addr < extent.addr || addr - extent.addr >= extent.disk_len {
        return None;
    }
    Some(start)
}

/// The position in a file, in bytes, of the byte at an address, by the extent that begins at `start` in the file, if it has the byte. That is where the
/// extent begins, if it is compressed.
pub(crate) fn position_in(addr: u64, start: u64, extent: &FileExtent) -> Option<u64>
    requires { spec.FitsFile start extent.now.shape }
    ensures { result ≡ spec.position_in addr start extent.now }
{
    let Some(found) = on_disk(&extent.shape) else {
        return None;
    };
    if extent.compression == 0 {
        plain_position(addr, start, &found)
    } else {
        packed_position(addr, start, &found)
    }
}
