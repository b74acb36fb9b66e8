// The entries of directories.
ghost use Rattle.std.specs.Prelude.{◌≡◌};
ghost use Rattle.btr_rack.specs.Memory.{seen_of};
ghost use Rattle.btr_read.specs.Serves.{Serves};
ghost use Rattle.btr_read.specs.Store.{free_count};
ghost use Rattle.btr_files.specs.Listing.{IsDir};

use super::volume::{START, root_of, scene_by, tree_of};
use btr_base::{Key, SumKind};
use btr_files::{Dir, NameBuf};
use btr_items::item;
use btr_make_blocks::{Body, Items, Tree, bodies};
use btr_rack::MemRack;
use btr_volume::Volume;
use btr_walk::TreeFault;
use std::alloc::{AllocError, Global};
use std::test::Fail;

/// An entry by its index, its inode, and the length and the first byte of its name, or a fault in its place.
#[derive(Clone, Copy, Debug, PartialEq, Eq)]
enum Listed {
    Entry(u64, u64, u8, u8),
    Fault(TreeFault),
}

// Lists a directory up to its end or to a fault; behind a read that failed it goes on.
fn list(
    dir: &mut Dir,
    rack: &mut MemRack,
    vol: &mut Volume,
    listed: &mut Vec<Listed>,
) -> Result<(), AllocError>
    requires serves { Serves (seen_of rack.old) vol.old.store }
    requires free { free_count vol.old.store ≡ 24 }
    requires dir { IsDir dir.old }
{
    let mut name = NameBuf::new();
    for _ in 0..1000 {
        match dir.next(rack, vol, &mut name) {
            Ok(Some(row)) => listed.push(Listed::Entry(
                row.index,
                row.location.objectid,
                name.len,
                name.bytes[0],
            ))?,
            Ok(None) => return Ok(()),
            Err(fault) => {
                listed.push(Listed::Fault(fault))?;
                if !matches!(fault, TreeFault::Unread(_, _)) {
                    return Ok(());
                }
            }
        }
    }
    Ok(())
}

// The entries of a directory, where the call of this number fails; 0 is none.
fn entries(alloc: Global, tree: &Tree, failing: u64, ino: u64) -> Result<Vec<Listed>, Fail> {
    let mut scene = scene_by(alloc, SumKind::Crc32c, tree, failing)?;
    let mut dir = Dir::new(root_of(tree), ino);
    let mut listed = Vec::new(alloc);
    list(&mut dir, &mut scene.rack, &mut scene.vol, &mut listed)?;
    Ok(listed)
}

fn entry(alloc: Global, ino: u64, name: &[u8]) -> Result<Body, AllocError> {
    let location = Key {
        objectid: ino,
        kind: item::INODE_ITEM,
        offset: 0,
    };
    bodies::entry(alloc, location, 7, 1, name)
}

// Entries of directories: the parts of the item's key, the inode and the name. 256 has four, of which two are names of one inode, and an item by a name's
// hash; 257 has one.
const ENTRIES: [(u64, u8, u64, u64, &[u8]); 6] = [
    (256, item::DIR_ITEM, 9, 300, b"one"),
    (256, item::DIR_INDEX, 2, 300, b"one"),
    (256, item::DIR_INDEX, 3, 302, b"other"),
    (256, item::DIR_INDEX, 7, 301, b"b"),
    (256, item::DIR_INDEX, 8, 300, b"also"),
    (257, item::DIR_INDEX, 2, 303, b"four"),
];

// The tree of these directories, of which 257 has then one that breaks its form.
fn directories(alloc: Global) -> Result<Tree, Fail> {
    let mut items = Items::new(alloc);
    for (dir, kind, offset, ino, name) in &ENTRIES {
        items.put(*dir, *kind, *offset, entry(alloc, *ino, name)?)?;
    }
    items.put(257, item::DIR_INDEX, 3, Body::new(alloc).zeros(29)?)?;
    tree_of(alloc, items)
}

const LISTED: [(u64, &[Listed]); 3] = [
    (
        256,
        &[
            Listed::Entry(2, 300, 3, b'o'),
            Listed::Entry(3, 302, 5, b'o'),
            Listed::Entry(7, 301, 1, b'b'),
            Listed::Entry(8, 300, 4, b'a'),
        ],
    ),
    (
        257,
        &[
            Listed::Entry(2, 303, 4, b'f'),
            Listed::Fault(TreeFault::Malformed(START + 16384)),
        ],
    ),
    (258, &[]),
];

#[test]
fn entries_of_directories(rt: HostRuntime) -> Result<(), Fail> {
    let tree = directories(rt.alloc())?;
    for (ino, wanted) in &LISTED {
        let found = entries(rt.alloc(), &tree, 0, *ino)?;
        assert_eq!(rt; found.as_slice(), *wanted, "of {ino}");
    }
    Ok(())
}

// The second call reads the root, the third and the fourth the leaves of the first directory.
#[test]
fn directories_that_cannot_be_read(rt: HostRuntime) -> Result<(), Fail> {
    let tree = directories(rt.alloc())?;
    for (failing, at) in [(2, 0), (3, 0), (4, 2)] {
        let found = entries(rt.alloc(), &tree, failing, 256)?;
        assert_eq!(rt; found.len(), 5);
        assert!(rt;
            matches!(found.get(at), Some(Listed::Fault(TreeFault::Unread(_, 0)))),
            "at {failing}"
        );
    }
    Ok(())
}
