// One thing that is made wrong in a leaf.
use super::blocks::{Old, body_at, seal_block, write_over};
use super::places::Place;
use btr_base::{Key, name_hash};
use btr_findings::{Finding, Kind};
use btr_items::item::{DIR_INDEX, DIR_ITEM, EXTENT_DATA, INODE_ITEM, INODE_REF};
use btr_rack::MemRack;
use std::alloc::Global;
use std::test::Fail;

/// An item of a leaf.
#[derive(Clone, Copy, Debug)]
pub(super) enum Item {
    /// The inode of the directory.
    Directory,
    /// The inode of its file.
    File,
    /// The file's names in the directory.
    Reference,
    /// The entry of the directory at an index: at 2 the file, at 3 the second name.
    Index(u64),
    /// The entry of the file by the hash of its name.
    Hashed,
    /// The entry of the second name by its hash.
    HashedSubvolume,
    /// The first extent of the file.
    Extent,
}

/// Bytes that are written over, from a byte of an item's body on.
#[derive(Clone, Copy, Debug)]
pub(super) struct Poke {
    pub(super) item: Item,
    pub(super) at: u64,
    pub(super) bytes: &'static [u8],
}

/// A number of a finding.
#[derive(Clone, Copy, Debug)]
pub(super) enum Number {
    Tree,
    Directory,
    File,
    /// The hash of the file's name.
    Hash,
    /// How many names the file has.
    Links,
    /// The index of the directory in the top one.
    TopIndex,
    /// The subvolume that the directory names.
    Child,
    Leaf,
    /// A leaf that comes behind in some tree.
    Behind,
    Plain(u64),
}

/// One thing that is made wrong, whether the leaf gets its checksum anew, and the findings, of which there is one for each of the
/// trees that have the leaf.
#[derive(Clone, Copy, Debug)]
pub(super) struct Row {
    pub(super) pokes: &'static [Poke],
    pub(super) is_sealed: bool,
    pub(super) lines: &'static [(Kind, &'static [Number])],
}

impl Place {
    fn inode(&self) -> u64 {
        self.directory.wrapping_mul(10).wrapping_add(300)
    }

    fn file(&self) -> u64 {
        self.inode().wrapping_add(1)
    }

    fn hash(&self) -> u64 {
        u64::from(name_hash(self.name))
    }

    // The key of an item.
    fn key(&self, item: Item) -> Key {
        let (objectid, kind, offset) = match item {
            Item::Directory => (self.inode(), INODE_ITEM, 0),
            Item::File => (self.file(), INODE_ITEM, 0),
            Item::Reference => (self.file(), INODE_REF, self.inode()),
            Item::Index(index) => (self.inode(), DIR_INDEX, index),
            Item::Hashed => (self.inode(), DIR_ITEM, self.hash()),
            Item::HashedSubvolume => (self.inode(), DIR_ITEM, u64::from(name_hash(b"s"))),
            Item::Extent => (self.file(), EXTENT_DATA, 0),
        };
        Key {
            objectid,
            kind,
            offset,
        }
    }

    fn number(&self, number: Number, tree: u64, behind: u64) -> u64 {
        match number {
            Number::Tree => tree,
            Number::Directory => self.inode(),
            Number::File => self.file(),
            Number::Hash => self.hash(),
            Number::Links => self.links,
            Number::TopIndex => self.directory.wrapping_add(3),
            Number::Child => self.child.unwrap_or(0),
            Number::Leaf => self.leaf,
            Number::Behind => behind,
            Number::Plain(n) => n,
        }
    }

    // The findings of a row in one of the trees, where one of these leaves is behind.
    fn put_findings(
        &self,
        row: &Row,
        tree: u64,
        behind: u64,
        found: &mut Vec<Finding>,
    ) -> Result<(), Fail> {
        for (kind, numbers) in row.lines {
            let mut n = [0; 7];
            for (to, number) in n.iter_mut().zip(*numbers) {
                *to = self.number(*number, tree, behind);
            }
            found.push(Finding { kind: *kind, n })?;
        }
        Ok(())
    }
}

/// Makes one thing wrong, and answers the bytes that stood there.
pub(super) fn damage(
    alloc: Global,
    rack: &mut MemRack,
    place: &Place,
    row: &Row,
) -> Result<Vec<Old>, Fail> {
    let mut olds = Vec::new(alloc);
    for poke in row.pokes {
        let body = body_at(rack, place.leaf, place.key(poke.item))?;
        let at = body.wrapping_add(poke.at);
        olds.push(write_over(alloc, rack, at, poke.bytes)?)?;
    }
    if row.is_sealed {
        seal_block(rack, place.leaf)?;
    }
    Ok(olds)
}

/// All that is to be found then, each finding once and in order.
pub(super) fn wanted(alloc: Global, place: &Place, row: &Row) -> Result<Vec<Finding>, Fail> {
    let mut found = Vec::new(alloc);
    for tree in place.trees {
        for behind in place.behind {
            place.put_findings(row, *tree, *behind, &mut found)?;
        }
    }
    found.sort_unstable();
    found.dedup();
    Ok(found)
}
