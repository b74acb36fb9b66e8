ghost use Rattle.std.specs.Prelude.{◌≡◌, ◌≤◌, length, IsTrue};
ghost use Rattle.btr_items.specs.FileExtent as spec;

use crate::key::is_aligned;
use crate::{ItemFault, Shape};
use btr_base::{u16_at, u64_at};

/// A range of a file: the body of an EXTENT_DATA, whose key has the file and where in it the range begins.
#[derive(Clone, Copy, Debug, PartialEq, Eq)]
pub struct FileExtent {
    /// The transaction that wrote the extent.
    pub generation: u64,
    /// How many bytes the extent has when it is decompressed.
    pub ram: u64,
    /// 0 for none, 1 for zlib, 2 for LZO, 3 for zstd.
    pub compression: u64,
    /// Whether the extent is encrypted, or encoded otherwise.
    pub encoded: bool,
    pub shape: Shape,
}

impl FileExtent {
    ghost use Rattle.std.specs.Prelude.{◌≡◌, ◌≤◌, length, OnOk};
    ghost use Rattle.btr_items.specs.FileExtent.{file_extent_of, file_len, end_of, inline_data};

    /// Reads the body of an EXTENT_DATA whose key has this offset, in bytes; `ItemFault` exactly where it hasn't that form, or
    /// the offset is no multiple of 4096.
    pub fn read(offset: u64, body: &[u8]) -> Result<FileExtent, ItemFault>
        ensures form { result ≡ file_extent_of offset body.now }
        ensures front { OnOk result (21 ≤ length body.now) }
    {
        if body.len() < 21 || !is_aligned(offset) {
            return Err(ItemFault);
        }
        let shape = shape_of(offset, body)?;
        Ok(FileExtent {
            generation: u64_at(body, 0),
            ram: u64_at(body, 8),
            compression: u64::from(body[16]),
            encoded: body[17] != 0 || u16_at(body, 18) != 0,
            shape,
        })
    }

    /// How many bytes of the file it covers: an inline extent as many as stand in the item, or, compressed, as they make.
    pub fn file_len(&self) -> u64
        ensures { result ≡ file_len self.now self.now.shape }
    {
        match self.shape {
            Shape::Inline { len } if self.compression == 0 => len,
            Shape::Inline { .. } => self.ram,
            Shape::Regular { len, .. } | Shape::Prealloc { len, .. } => len,
        }
    }

    /// Where in the file it ends, where it begins at `offset`. What an inline extent makes has no bound, so the end may pass
    /// 2^64.
    pub fn end(&self, offset: u64) -> u128
        ensures { result ≡ end_of offset self.now }
    {
        u128::from(offset) + u128::from(self.file_len())
    }

    /// The bytes that stand in the body of an inline extent, compressed or not. A body that was read has 21 bytes at least.
    pub fn inline_data(body: &[u8]) -> &[u8]
        requires { 21 ≤ length body.now }
        ensures { result.now ≡ inline_data body.now }
    {
        &body[21..]
    }
}

fn shape_of(offset: u64, body: &[u8]) -> Result<Shape, ItemFault>
    requires { 21 ≤ length body.now }
    ensures { result ≡ spec.shape_of offset body.now }
{
    let kind = body[20];
    if kind == 0 {
        let len = body.len() as u64 - 21;
        return Ok(Shape::Inline { len });
    }
    if !place_fits(offset, body) {
        return Err(ItemFault);
    }
    let addr = u64_at(body, 21);
    let disk_len = u64_at(body, 29);
    let skip = u64_at(body, 37);
    let len = u64_at(body, 45);
    match kind {
        1 => Ok(Shape::Regular {
            addr,
            disk_len,
            skip,
            len,
        }),
        2 => Ok(Shape::Prealloc {
            addr,
            disk_len,
            skip,
            len,
        }),
        _ => Err(ItemFault),
    }
}

// The rules on extents on the disk: all is whole sectors, no end passes the last number, and the file's
// bytes lie in the extent. How far they lie in a compressed extent isn't looked at, nor in a hole.
fn place_fits(offset: u64, body: &[u8]) -> bool
    requires { 21 ≤ length body.now }
    ensures fits { result ≡ spec.place_fits offset body.now }
    ensures size { IsTrue result → length body.now ≡ 53 }
{
    if body.len() != 53 {
        return false;
    }
    let addr = u64_at(body, 21);
    let disk_len = u64_at(body, 29);
    let skip = u64_at(body, 37);
    let len = u64_at(body, 45);
    let lies_within = addr == 0
        || is_aligned(skip) && (body[16] != 0 || holds(disk_len, skip, len));
    is_range(offset, len) && len != 0 && is_range(addr, disk_len) && lies_within
}

// Whether bytes are whole sectors and end below 2^64.
fn is_range(start: u64, len: u64) -> bool
    ensures { result ≡ spec.is_range start len }
{
    is_aligned(start) && is_aligned(len) && len <= u64::MAX - start
}

// Whether an extent has `len` bytes from `skip` on.
fn holds(disk_len: u64, skip: u64, len: u64) -> bool
    ensures { result ≡ spec.holds disk_len skip len }
{
    skip <= disk_len && len <= disk_len - skip
}
