// Files and their checksums.
use super::volume::{DATA, START, SUMS, form, tree_at};
use btr_base::{SumKind, sum};
use btr_items::{FileExtent, Shape, item};
use btr_make_blocks::{Body, Items, Tree, bodies};
use std::alloc::{AllocError, Global};
use std::test::Fail;

/// How many sectors of data there are: the first of ones, the second of twos, and so on.
pub(super) const SECTORS: u8 = 130;

/// The length of them all.
pub(super) const DATA_LEN: u64 = 532480;

/// The data.
pub(super) fn data(alloc: Global) -> Result<Vec<u8>, AllocError> {
    let mut bytes = Vec::new(alloc);
    for byte in 0..SECTORS {
        for _ in 0..4096 {
            bytes.push(byte + 1)?;
        }
    }
    Ok(bytes)
}

/// A run of checksums from a sector on, each of a sector of one byte.
#[derive(Clone, Copy)]
pub(super) struct Run<'a> {
    pub(super) sector: u64,
    pub(super) bytes: &'a [u8],
}

/// The checksum tree with these runs.
pub(super) fn sums(alloc: Global, kind: SumKind, runs: &[Run<'_>]) -> Result<Tree, Fail> {
    let mut items = Items::new(alloc);
    for run in runs {
        let mut body = Body::new(alloc);
        for byte in run.bytes {
            body = bodies::with_sum(body, kind, &sum(kind, &[*byte; 4096]))?;
        }
        let addr = DATA + run.sector % 1024 * 4096;
        items.put(u64::MAX - 9, item::EXTENT_CSUM, addr, body)?;
    }
    tree_at(alloc, &form(kind), SUMS, items)
}

fn body(alloc: Global, shape: Shape) -> Result<Body, AllocError> {
    bodies::file_extent(
        alloc,
        &FileExtent {
            generation: 7,
            ram: DATA_LEN,
            compression: 0,
            encoded: false,
            shape,
        },
    )
}

// What an extent has: bytes of the data from a place on, zeros, room that isn't written, or five bytes of its own.
#[derive(Clone, Copy)]
enum Content {
    Data(u64, u64),
    Hole(u64),
    Preallocated(u64),
    Hello,
}

fn extent(alloc: Global, content: Content) -> Result<Body, AllocError> {
    match content {
        Content::Data(skip, len) => body(
            alloc,
            Shape::Regular {
                addr: DATA,
                disk_len: DATA_LEN,
                skip,
                len,
            },
        ),
        Content::Hole(len) => body(
            alloc,
            Shape::Regular {
                addr: 0,
                disk_len: 0,
                skip: 0,
                len,
            },
        ),
        Content::Preallocated(len) => body(
            alloc,
            Shape::Prealloc {
                addr: DATA,
                disk_len: DATA_LEN,
                skip: 0,
                len,
            },
        ),
        Content::Hello => bodies::inline(alloc, 7, b"hello"),
    }
}

// Files: 257 has a hole, two sectors and a preallocated extent, 258 is inline, 259 has the second sector behind a hole and 260 the first four,
// 261 has extents that overlap, 262 is inline and has then the fourth sector, 263 has the third to the eighth, and 264 all.
const FILES: [(u64, u64, Content); 12] = [
    (257, 0, Content::Hole(4096)),
    (257, 4096, Content::Data(0, 8192)),
    (257, 16384, Content::Preallocated(4096)),
    (258, 0, Content::Hello),
    (259, 4096, Content::Data(4096, 4096)),
    (260, 0, Content::Data(0, 16384)),
    (261, 0, Content::Data(0, 8192)),
    (261, 4096, Content::Data(0, 4096)),
    (262, 0, Content::Hello),
    (262, 4096, Content::Data(12288, 4096)),
    (263, 0, Content::Data(8192, 24576)),
    (264, 0, Content::Data(0, DATA_LEN)),
];

/// The tree of these files.
pub(super) fn files(alloc: Global, kind: SumKind) -> Result<Tree, Fail> {
    let mut items = Items::new(alloc);
    for (ino, offset, content) in &FILES {
        let body = extent(alloc, *content)?;
        items.put(*ino, item::EXTENT_DATA, *offset, body)?;
    }
    tree_at(alloc, &form(kind), START, items)
}
