// Subvolumes that share blocks.
use super::content::put_names;
use crate::draft::{Draft, LooseLink, RootPlan, TOP_TREE, regular};
use crate::fault::MakeFault;
use crate::files::{Files, TOP};
use crate::pattern::pattern;
use btr_make_blocks::{Block, Tree};
use btr_rack::MemRack;

// How many directories each of the subvolumes has.
const DIRECTORIES: u64 = 12;

// The subvolume, its snapshot that is the same, and the one in which two files are others.
const FILES: u64 = 256;

const SAME: u64 = 257;

const SNAP: u64 = 258;

// In the snapshot the file of this directory has other bytes at its beginning.
const WRITTEN: u64 = 7;

// In the snapshot the file of this directory has another name.
const RENAMED: u64 = 10;

// The directories that name a subvolume, and these subvolumes.
const NAMED: [(u64, u64); 3] = [(2, 259), (6, 260), (8, 261)];

// The same where a leaf that isn't shared has such a name too.
const ALL_NAMED: [(u64, u64); 4] = [(2, 259), (6, 260), (8, 261), (WRITTEN, 262)];

// How many bytes each extent of a file has, and how many lie between the beginnings of two: between extents is a gap.
const EXTENT: u64 = 4096;

const STEP: u64 = 8192;

// A tree that is planned: which subvolume it is, and the directories that name a subvolume.
#[derive(Clone, Copy)]
struct Branch {
    tree: u64,
    named: &'static [(u64, u64)],
}

impl Branch {
    fn is_other(&self, directory: u64, other: u64) -> bool {
        self.tree == SNAP && directory == other
    }

    // The name of the file of a directory.
    fn name(&self, directory: u64) -> &'static [u8] {
        if self.is_other(directory, RENAMED) {
            b"g"
        } else {
            b"f"
        }
    }

    // Which of the extents, one after another in the data, a file of a directory begins with.
    fn first_extent(&self, directory: u64) -> u64 {
        if self.is_other(directory, WRITTEN) {
            2 * DIRECTORIES
        } else {
            directory.wrapping_mul(2)
        }
    }

    // The subvolume that a directory names.
    fn named_in(&self, directory: u64) -> Option<u64> {
        let mut named = self.named.iter();
        named
            .find(|named| named.0 == directory)
            .map(|named| named.1)
    }
}

/// Writes the subvolume `files`, its snapshots `same` and `snap`, and the empty ones that are named in all three.
pub(super) fn put_differing(
    draft: &mut Draft,
    rack: &mut MemRack,
    all: bool,
) -> Result<(), MakeFault> {
    let named = if all {
        ALL_NAMED.as_slice()
    } else {
        NAMED.as_slice()
    };
    let first = put_branch(draft, rack, Branch { tree: FILES, named }, &[])?;
    for tree in [SAME, SNAP] {
        put_branch(draft, rack, Branch { tree, named }, first.blocks.as_slice())?;
    }
    put_snapshot_data(draft, rack)?;
    for (_, tree) in named {
        let none = Files::new(draft.alloc, *tree)?;
        draft.plant_files(rack, root_of(*tree), none)?;
    }
    put_top(draft, rack)
}

// Where the tree of a subvolume stands: behind those of the trees that each volume has.
fn root_of(tree: u64) -> RootPlan {
    RootPlan::of_files(tree, tree.wrapping_sub(FILES).wrapping_add(5))
}

// The top directory, which has the three subvolumes.
fn put_top(draft: &mut Draft, rack: &mut MemRack) -> Result<(), MakeFault> {
    let mut files = Files::new(draft.alloc, TOP_TREE)?;
    for (tree, name) in [
        (FILES, b"files".as_slice()),
        (SAME, b"same"),
        (SNAP, b"snap"),
    ] {
        let index = files.subvolume(TOP, name, tree)?;
        put_names(draft, TOP_TREE, tree, TOP, index, name)?;
    }
    draft.plant_files(rack, RootPlan::of_files(TOP_TREE, 3), files)
}

// Writes the tree of a subvolume, which shares blocks with one that has these.
fn put_branch(
    draft: &mut Draft,
    rack: &mut MemRack,
    branch: Branch,
    others: &[Block],
) -> Result<Tree, MakeFault> {
    let mut files = Files::new(draft.alloc, branch.tree)?;
    files.file(TOP, b"x", 257)?;
    files.inline(257, b"hello")?;
    for directory in 0..DIRECTORIES {
        put_directory(draft, rack, &mut files, branch, directory)?;
    }
    draft.plant_beside(rack, root_of(branch.tree), files, others)
}

// The inode of a directory, and that of its file.
fn inode_of(directory: u64) -> u64 {
    directory.wrapping_mul(10).wrapping_add(300)
}

fn file_of(directory: u64) -> u64 {
    inode_of(directory).wrapping_add(1)
}

// Writes a directory of a subvolume, in which are a file of two extents, and a second name: of the file, or of a subvolume.
fn put_directory(
    draft: &mut Draft,
    rack: &mut MemRack,
    files: &mut Files,
    branch: Branch,
    directory: u64,
) -> Result<(), MakeFault> {
    let (inode, file) = (inode_of(directory), file_of(directory));
    files.directory(TOP, &directory_name(directory), inode)?;
    files.file(inode, branch.name(directory), file)?;
    match branch.named_in(directory) {
        None => files.link(inode, b"s", file)?,
        Some(tree) => {
            let index = files.subvolume(inode, b"s", tree)?;
            put_names(draft, branch.tree, tree, inode, index, b"s")?;
        }
    }
    put_extent(draft, rack, files, file, 0, branch.first_extent(directory))?;
    let second = directory.wrapping_mul(2).wrapping_add(1);
    put_extent(draft, rack, files, file, EXTENT, second)
}

fn directory_name(directory: u64) -> [u8; 3] {
    [b'd', digit(directory / 10), digit(directory % 10)]
}

fn digit(n: u64) -> u8 {
    b'0'.wrapping_add((n % 10) as u8)
}

// Where an extent lies in the data, by its number.
fn extent_addr(draft: &Draft, number: u64) -> u64 {
    draft
        .plan
        .data
        .start
        .wrapping_add(number.wrapping_mul(STEP))
}

// Makes an extent a part of a file. The snapshots have it from the first subvolume, which alone writes it.
fn put_extent(
    draft: &mut Draft,
    rack: &mut MemRack,
    files: &mut Files,
    file: u64,
    offset: u64,
    number: u64,
) -> Result<(), MakeFault> {
    let addr = extent_addr(draft, number);
    if files.tree == FILES {
        let bytes = pattern(draft.alloc, number, EXTENT)?;
        return draft.write_extent(rack, files, file, offset, addr, bytes.as_slice());
    }
    let size = offset.wrapping_add(EXTENT);
    files.extent(file, offset, &regular(addr, EXTENT), size)?;
    Ok(())
}

// The extents of the snapshot's own leaves: one that it has alone, and those that are the first subvolume's too.
fn put_snapshot_data(draft: &mut Draft, rack: &mut MemRack) -> Result<(), MakeFault> {
    let number = 2 * DIRECTORIES;
    let addr = extent_addr(draft, number);
    let bytes = pattern(draft.alloc, number, EXTENT)?;
    let len = draft.store(rack, addr, bytes.as_slice())?;
    draft.refer(addr, len, SNAP, file_of(WRITTEN), 0)?;
    for (number, directory, offset) in [
        (2 * WRITTEN - 1, WRITTEN - 1, EXTENT),
        (2 * RENAMED - 1, RENAMED - 1, EXTENT),
        (2 * RENAMED, RENAMED, 0),
    ] {
        draft.refer_loosely(LooseLink {
            addr: extent_addr(draft, number),
            root: SNAP,
            objectid: file_of(directory),
            offset,
        })?;
    }
    Ok(())
}
