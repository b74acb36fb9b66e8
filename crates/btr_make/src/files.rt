use crate::plan::GENERATION;
use btr_base::{Key, name_hash};
use btr_items::item::{DIR_INDEX, DIR_ITEM, EXTENT_DATA, INODE_ITEM, INODE_REF, ROOT_ITEM};
use btr_items::{FileExtent, Inode, Shape};
use btr_make_blocks::{Items, bodies};
use std::alloc::{AllocError, Global};
use std::collections::BTreeMap;

/// The inode of the top directory.
pub(crate) const TOP: u64 = 256;

const DIRECTORY: u32 = 0o40755;

const REGULAR: u32 = 0o100644;

/// The kinds of entries.
const FILE_KIND: u8 = 1;

const DIRECTORY_KIND: u8 = 2;

// The first index of a directory's entries.
const FIRST_INDEX: u64 = 2;

/// A tree of files that grows name by name: the top directory of a subvolume and what is in it.
#[derive(Drop)]
pub(crate) struct Files {
    alloc: Global,
    pub(crate) tree: u64,
    items: Items,
    inodes: BTreeMap<u64, InodeDraft>,
}

// An inode, with what is known of it so far.
#[derive(Clone, Copy)]
struct InodeDraft {
    inode: Inode,
    nbytes: u64,
    next_index: u64,
}

impl Files {
    /// The tree of this id, with a top directory that is empty.
    pub(crate) fn new(alloc: Global, tree: u64) -> Result<Files, AllocError> {
        let mut files = Files::unnamed(alloc, tree)?;
        files.refer(TOP, TOP, 0, b"..")?;
        Ok(files)
    }

    /// The same, but that nothing refers to the top directory.
    pub(crate) fn unnamed(alloc: Global, tree: u64) -> Result<Files, AllocError> {
        let mut files = Files {
            alloc,
            tree,
            items: Items::new(alloc),
            inodes: BTreeMap::new(alloc),
        };
        files.add_inode(TOP, DIRECTORY)?;
        Ok(files)
    }

    /// Adds a directory of this name.
    pub(crate) fn directory(&mut self, dir: u64, name: &[u8], ino: u64) -> Result<(), AllocError> {
        self.add_inode(ino, DIRECTORY)?;
        self.link(dir, name, ino)
    }

    /// Adds an empty file of this name.
    pub(crate) fn file(&mut self, dir: u64, name: &[u8], ino: u64) -> Result<(), AllocError> {
        self.add_inode(ino, REGULAR)?;
        self.link(dir, name, ino)
    }

    /// Adds a name of an inode.
    pub(crate) fn link(&mut self, dir: u64, name: &[u8], ino: u64) -> Result<(), AllocError> {
        let location = Key {
            objectid: ino,
            kind: INODE_ITEM,
            offset: 0,
        };
        let kind = if self.is_directory(ino) {
            DIRECTORY_KIND
        } else {
            FILE_KIND
        };
        let index = self.add_entry(dir, name, location, kind)?;
        self.refer(dir, ino, index, name)
    }

    /// Adds a subvolume's name, and answers its index.
    pub(crate) fn subvolume(
        &mut self,
        dir: u64,
        name: &[u8],
        tree: u64,
    ) -> Result<u64, AllocError> {
        let location = Key {
            objectid: tree,
            kind: ROOT_ITEM,
            offset: u64::MAX,
        };
        self.add_entry(dir, name, location, DIRECTORY_KIND)
    }

    /// Makes a file whose bytes stand in the tree.
    pub(crate) fn inline(&mut self, ino: u64, bytes: &[u8]) -> Result<(), AllocError> {
        let len = bytes.len() as u64;
        let body = bodies::inline(self.alloc, GENERATION, bytes)?;
        self.items.put(ino, EXTENT_DATA, 0, body)?;
        self.grow(ino, len, len);
        Ok(())
    }

    /// Adds a range of a file from this offset on, after which the file has `size` bytes at least.
    pub(crate) fn extent(
        &mut self,
        ino: u64,
        offset: u64,
        extent: &FileExtent,
        size: u64,
    ) -> Result<(), AllocError> {
        let body = bodies::file_extent(self.alloc, extent)?;
        self.items.put(ino, EXTENT_DATA, offset, body)?;
        let len = match extent.shape {
            Shape::Inline { len } | Shape::Regular { len, .. } | Shape::Prealloc { len, .. } => len,
        };
        self.grow(ino, len, size);
        Ok(())
    }

    /// The items of the tree.
    pub(crate) fn finish(self) -> Result<Items, AllocError> {
        let Files {
            alloc,
            mut items,
            inodes,
            ..
        } = self;
        for (ino, draft) in inodes {
            let body = bodies::inode_item(alloc, &draft.inode, GENERATION, draft.nbytes)?;
            items.put(ino, INODE_ITEM, 0, body)?;
        }
        Ok(items)
    }

    fn add_inode(&mut self, ino: u64, mode: u32) -> Result<(), AllocError> {
        let draft = InodeDraft {
            inode: Inode {
                size: 0,
                nlink: 0,
                mode,
                flags: 0,
            },
            nbytes: 0,
            next_index: FIRST_INDEX,
        };
        self.inodes.insert(ino, draft)?;
        Ok(())
    }

    fn is_directory(&self, ino: u64) -> bool {
        self.inodes
            .get(&ino)
            .is_some_and(|draft| draft.inode.mode == DIRECTORY)
    }

    // Adds an entry to a directory at its next index, which is answered.
    fn add_entry(
        &mut self,
        dir: u64,
        name: &[u8],
        location: Key,
        kind: u8,
    ) -> Result<u64, AllocError> {
        let entry = bodies::entry(self.alloc, location, GENERATION, kind, name)?;
        let hash = u64::from(name_hash(name));
        let index = self.take_index(dir, name.len() as u64);
        self.items.append(dir, DIR_ITEM, hash, &entry)?;
        self.items.put(dir, DIR_INDEX, index, entry)?;
        Ok(index)
    }

    // The next index of a directory, whose size grows by twice the length of a name.
    fn take_index(&mut self, dir: u64, name_len: u64) -> u64 {
        match self.inodes.get_mut(&dir) {
            Some(draft) => {
                let index = draft.next_index;
                draft.next_index = index.wrapping_add(1);
                draft.inode.size = draft.inode.size.wrapping_add(name_len.wrapping_mul(2));
                index
            }
            None => FIRST_INDEX,
        }
    }

    // Adds a reference of an inode to a name of it.
    fn refer(&mut self, dir: u64, ino: u64, index: u64, name: &[u8]) -> Result<(), AllocError> {
        let reference = bodies::inode_ref(self.alloc, index, name)?;
        if let Some(draft) = self.inodes.get_mut(&ino) {
            draft.inode.nlink = draft.inode.nlink.wrapping_add(1);
        }
        self.items.append(ino, INODE_REF, dir, &reference)
    }

    // A file has more bytes in extents, and is at least this long.
    fn grow(&mut self, ino: u64, nbytes: u64, size: u64) {
        if let Some(draft) = self.inodes.get_mut(&ino) {
            draft.nbytes = draft.nbytes.wrapping_add(nbytes);
            draft.inode.size = draft.inode.size.max(size);
        }
    }
}
