// The row volumes.
mod content;
mod differing;
mod plans;

use crate::disks::add_images;
use crate::draft::Draft;
use crate::fault::MakeFault;
use btr_base::Memory;
use btr_rack::MemRack;
use std::alloc::Global;

/// The small volumes, which differ from the first in what is said of them. Each image has 16777216 bytes and one superblock,
/// at 65536; the images are `a`, `b` and so on, of devices 1, 2 and so on. All is of generation 7.
#[derive(Clone, Copy, Debug, PartialEq, Eq)]
pub enum RowVolume {
    /// One image, each chunk with one copy. Five names: `e`, empty, `i` and `h1` and `h2`, inline, and `a` with a hole.
    V1,
    /// Two copies of the metadata on the one device.
    V1d,
    /// `V1d` with the features of present filesystems, and a compressed file `z`.
    V2,
    /// Three images: the data is RAID5 on them, system and metadata are RAID1 on the first two.
    Raid5,
    /// Four images: the data is RAID6 on them, system and metadata are RAID1 on the first two.
    Raid6,
    /// A subvolume `sub`, and a snapshot `snap` in which the subvolume's name stands too. No files.
    S,
    /// A second file, `b`, that shares an extent with `a`.
    X2,
    /// `X2`, in which the shared extent's item counts one reference too many.
    X3,
    /// Two images: system and metadata are RAID1 on them.
    M1,
    /// No checksums of data.
    N,
    /// `S`, in which the snapshot is about to be deleted.
    P,
    /// A tree of a balance that is going on.
    Q,
    /// A directory that has itself as an entry, `l`.
    L,
    /// Three images: system and metadata are RAID1C3 on them, and the checksums are xxhash64.
    M3,
    /// Three images, all of RAID5, with files over several rows in which no two slices are equal.
    Rows5,
    /// Five images, all of RAID6, with the same files.
    Rows6,
    /// Three subvolumes of twelve directories: `files`, which is 256, its snapshot 257, and its snapshot 258, in which two files
    /// are others. They share most of their blocks.
    Differing,
    /// The same, but that a subvolume is named in a leaf that 258 doesn't share.
    DifferingNames,
}

/// The images of a small volume, on the shelf of a rack in which nothing is to fail. `Memory`: want of memory.
pub fn row(alloc: Global, which: RowVolume) -> Result<MemRack, Memory> {
    Ok(made(alloc, which)?)
}

// The same, with the reason of a refusal: the volumes have no other one than want of memory, which tests show.
pub(crate) fn made(alloc: Global, which: RowVolume) -> Result<MemRack, MakeFault> {
    let plan = plans::plan_of(which);
    let mut rack = add_images(alloc, &plan)?;
    let mut draft = Draft::new(alloc, plan)?;
    content::put_content(which, &mut draft, &mut rack)?;
    draft.finish(&mut rack)?;
    Ok(rack)
}
