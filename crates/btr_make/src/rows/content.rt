// The files of the row volumes.
use super::RowVolume;
use super::differing::put_differing;
use crate::draft::{
    Draft, FREE_SPACE_TREE, LooseLink, RELOCATION_TREE, RootPlan, TOP_TREE, UUID_TREE, regular,
};
use crate::fault::MakeFault;
use crate::files::{Files, TOP};
use crate::pattern::pattern;
use crate::plan::GENERATION;
use btr_items::item::{ROOT_BACKREF, ROOT_REF};
use btr_items::{FileExtent, Shape};
use btr_make_blocks::{Body, Items, bodies};
use btr_rack::MemRack;

/// Writes the trees of files of a row volume, and what goes with them.
pub(super) fn put_content(
    which: RowVolume,
    draft: &mut Draft,
    rack: &mut MemRack,
) -> Result<(), MakeFault> {
    match which {
        RowVolume::S => put_subvolumes(draft, rack, 1),
        RowVolume::P => put_subvolumes(draft, rack, 0),
        RowVolume::Rows5 | RowVolume::Rows6 => put_rows(draft, rack),
        RowVolume::L => put_loop(draft, rack),
        RowVolume::Differing => put_differing(draft, rack, false),
        RowVolume::DifferingNames => put_differing(draft, rack, true),
        _ => {
            let mut files = Files::new(draft.alloc, TOP_TREE)?;
            put_listing(draft, rack, &mut files)?;
            put_further(which, draft, rack, &mut files)?;
            draft.plant_files(rack, RootPlan::of_files(TOP_TREE, 3), files)
        }
    }
}

// The listing of most volumes: `e`, `i`, `h1` and `h2` of one inode, and `a`, whose second sector is a hole.
fn put_listing(draft: &mut Draft, rack: &mut MemRack, files: &mut Files) -> Result<(), MakeFault> {
    files.file(TOP, b"e", 257)?;
    files.file(TOP, b"i", 258)?;
    files.inline(258, b"x")?;
    files.file(TOP, b"h1", 259)?;
    files.link(TOP, b"h2", 259)?;
    files.inline(259, b"hello")?;
    files.file(TOP, b"a", 260)?;
    draft.write_extent(rack, files, 260, 0, 16777216, &[b'A'; 4096])?;
    draft.write_extent(rack, files, 260, 8192, 16781312, &[b'B'; 1808])
}

// What some volumes have beside the listing.
fn put_further(
    which: RowVolume,
    draft: &mut Draft,
    rack: &mut MemRack,
    files: &mut Files,
) -> Result<(), MakeFault> {
    match which {
        RowVolume::V2 => {
            put_compressed(draft, rack, files)?;
            put_free_space(draft, rack)
        }
        RowVolume::N => {
            draft.forget_sums();
            Ok(())
        }
        RowVolume::X2 => put_shared(draft, files),
        RowVolume::X3 => {
            put_shared(draft, files)?;
            draft.add_ref(16777216);
            Ok(())
        }
        RowVolume::Q => draft.plant(
            rack,
            RootPlan::of(RELOCATION_TREE, 5),
            Items::new(draft.alloc),
        ),
        _ => Ok(()),
    }
}

// A frame of zstd that holds 8192 bytes `z`.
const COMPRESSED: [u8; 11] = [
    0x28, 0xb5, 0x2f, 0xfd, 0x60, 0x00, 0x1f, 0x03, 0x00, 0x01, b'z',
];

// `z`, whose 8192 bytes are compressed into one sector.
fn put_compressed(
    draft: &mut Draft,
    rack: &mut MemRack,
    files: &mut Files,
) -> Result<(), MakeFault> {
    let addr = 16785408;
    let extent = FileExtent {
        generation: GENERATION,
        ram: 8192,
        compression: 3,
        encoded: false,
        shape: Shape::Regular {
            addr,
            disk_len: 4096,
            skip: 0,
            len: 8192,
        },
    };
    files.file(TOP, b"z", 261)?;
    files.extent(261, 0, &extent, 8192)?;
    let len = draft.store(rack, addr, &COMPRESSED)?;
    draft.refer(addr, len, TOP_TREE, 261, 0)
}

// An empty uuid tree, and the tree of the free space: each chunk is free from its extents' end on.
fn put_free_space(draft: &mut Draft, rack: &mut MemRack) -> Result<(), MakeFault> {
    let alloc = draft.alloc;
    draft.plant(rack, RootPlan::of(UUID_TREE, 5), Items::new(alloc))?;
    let mut items = Items::new(alloc);
    for (start, length, used) in [
        (1048576, 1048576, 16384),
        (2097152, 4194304, 114688),
        (16777216, 4194304, 12288),
    ] {
        let info = Body::new(alloc).u32(1)?.u32(0)?;
        items.put(start, FREE_SPACE_INFO, length, info)?;
        let free = Body::new(alloc);
        items.put(start + used, FREE_SPACE_EXTENT, length - used, free)?;
    }
    draft.plant(rack, RootPlan::of(FREE_SPACE_TREE, 6), items)
}

// The types of the items of the free space tree, which nothing here reads.
const FREE_SPACE_INFO: u8 = 198;

const FREE_SPACE_EXTENT: u8 = 199;

// `b`, which shares the first extent of `a`.
fn put_shared(draft: &mut Draft, files: &mut Files) -> Result<(), MakeFault> {
    let addr = 16777216;
    files.file(TOP, b"b", 261)?;
    files.extent(261, 0, &regular(addr, 4096), 4096)?;
    draft.refer_loosely(LooseLink {
        addr,
        root: TOP_TREE,
        objectid: 261,
        offset: 0,
    })
}

// The listing, and `l`, which is the top directory itself.
fn put_loop(draft: &mut Draft, rack: &mut MemRack) -> Result<(), MakeFault> {
    let mut files = Files::unnamed(draft.alloc, TOP_TREE)?;
    put_listing(draft, rack, &mut files)?;
    files.link(TOP, b"l", TOP)?;
    draft.plant_files(rack, RootPlan::of_files(TOP_TREE, 3), files)
}

// `sub`, which is subvolume 256, and `snap`, which is 257 and has the name `sub` too.
fn put_subvolumes(draft: &mut Draft, rack: &mut MemRack, refs: u32) -> Result<(), MakeFault> {
    let alloc = draft.alloc;
    let mut files = Files::new(alloc, TOP_TREE)?;
    let sub = files.subvolume(TOP, b"sub", 256)?;
    put_names(draft, TOP_TREE, 256, TOP, sub, b"sub")?;
    let snap = files.subvolume(TOP, b"snap", 257)?;
    put_names(draft, TOP_TREE, 257, TOP, snap, b"snap")?;
    draft.plant_files(rack, RootPlan::of_files(TOP_TREE, 3), files)?;
    draft.plant_files(rack, RootPlan::of_files(256, 5), Files::new(alloc, 256)?)?;
    let mut files = Files::new(alloc, 257)?;
    files.subvolume(TOP, b"sub", 256)?;
    let root = RootPlan {
        offset: GENERATION,
        refs,
        ..RootPlan::of_files(257, 6)
    };
    draft.plant_files(rack, root, files)
}

/// Puts the two items of the root tree on a subvolume's name in a directory of its parent.
pub(super) fn put_names(
    draft: &mut Draft,
    parent: u64,
    id: u64,
    dir: u64,
    index: u64,
    name: &[u8],
) -> Result<(), MakeFault> {
    let forth = bodies::root_ref(draft.alloc, dir, index, name)?;
    draft.roots.put(parent, ROOT_REF, id, forth)?;
    let back = bodies::root_ref(draft.alloc, dir, index, name)?;
    draft.roots.put(id, ROOT_BACKREF, parent, back)?;
    Ok(())
}

// Three files over rows of the data, of which no two slices are equal.
fn put_rows(draft: &mut Draft, rack: &mut MemRack) -> Result<(), MakeFault> {
    let mut files = Files::new(draft.alloc, TOP_TREE)?;
    let mut addr = draft.plan.data.start;
    for (ino, name, size) in [(257, b"f", 300000), (258, b"g", 70000), (259, b"h", 500001)] {
        files.file(TOP, name, ino)?;
        let bytes = pattern(draft.alloc, ino, size)?;
        draft.write_extent(rack, &mut files, ino, 0, addr, bytes.as_slice())?;
        addr = addr.wrapping_add(size.next_multiple_of(4096));
    }
    draft.plant_top(rack, files)
}
