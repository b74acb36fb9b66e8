// Salvages of a volume of some directories of which one leaf of the tree of files is lost, each in its turn.
ghost use Rattle.std.specs.Prelude.{◌≡◌, ◌≤◌};

use super::memory::{NOTHING, Outcome, salvaged_from};
use btr_base::Key;
use btr_files::Counts;
use btr_make::make;
use btr_rack::{MemRack, Rack};
use btr_salvage::Salvaged;
use std::alloc::{AllocError, Global};
use std::process::Abort;
use std::test::Fail;

// Where the nodes of the tree of files stand, in two copies, on the images `a` and `b`: an address is a place on these too.
const NODES_AT: u64 = 20971520;

const NODE: u64 = 16384;

// How many nodes are looked at.
const NODES: u64 = 64;

const TOP: u64 = 256;

const DIR_INDEX: u8 = 96;

/// A leaf of the tree of files: its address, and the keys that it may have, up to before `end`.
#[derive(Clone, Copy)]
struct Leaf {
    addr: u64,
    first: Key,
    end: Key,
}

fn key(objectid: u64, kind: u8, offset: u64) -> Key {
    Key {
        objectid,
        kind,
        offset,
    }
}

impl Leaf {
    // Whether a key may stand in the leaf.
    fn holds(&self, at: Key) -> bool {
        !at.is_before(self.first) && at.is_before(self.end)
    }

    // Whether keys of an inode and from one type to another may.
    fn meets(&self, ino: u64, from: u8, to: u8) -> bool {
        !key(ino, to, u64::MAX).is_before(self.first) && key(ino, from, 0).is_before(self.end)
    }
}

// A little-endian number of image `a`.
fn number(rack: &MemRack, at: u64, len: u64) -> u64 {
    let mut n: u64 = 0;
    for k in 0..len {
        let place = at.wrapping_add(len.wrapping_sub(k).wrapping_sub(1));
        let byte = rack.byte("a", place).unwrap_or(0);
        n = n.wrapping_mul(256).wrapping_add(u64::from(byte));
    }
    n
}

// The first key of the leaf at an address.
fn first_key(rack: &MemRack, addr: u64) -> Key {
    let at = addr.wrapping_add(101);
    let kind = rack.byte("a", at.wrapping_add(8)).unwrap_or(0);
    key(
        number(rack, at, 8),
        kind,
        number(rack, at.wrapping_add(9), 8),
    )
}

// Whether a leaf of tree 5 stands at an address: by its address, its owner and its level.
fn is_leaf(rack: &MemRack, addr: u64) -> bool {
    let owner = number(rack, addr.wrapping_add(88), 8);
    let level = number(rack, addr.wrapping_add(100), 1);
    number(rack, addr.wrapping_add(48), 8) == addr && owner == 5 && level == 0
}

// The leaves of tree 5, in any order.
fn leaves(alloc: Global, rack: &MemRack) -> Result<Vec<Leaf>, AllocError> {
    let mut found = Vec::new(alloc);
    for n in 0..NODES {
        let addr = NODES_AT.wrapping_add(n.wrapping_mul(NODE));
        if is_leaf(rack, addr) {
            found.push(Leaf {
                addr,
                first: first_key(rack, addr),
                end: key(u64::MAX, u8::MAX, u64::MAX),
            })?;
        }
    }
    Ok(found)
}

// A leaf with the keys that it may have: they end where those of the next one begin.
fn bounded(leaf: Leaf, all: &[Leaf]) -> Leaf {
    let mut bounded = leaf;
    for other in all {
        if leaf.first.is_before(other.first) && other.first.is_before(bounded.end) {
            bounded.end = other.first;
        }
    }
    bounded
}

// Makes a byte of a node wrong in both copies, or right again.
fn flip(rack: &mut MemRack, addr: u64) -> Result<(), Fail> {
    let at = addr.wrapping_add(200);
    let byte = rack.byte("a", at).unwrap_or(0) ^ 255;
    for name in ["a", "b"] {
        if rack.poke(name, at, &[byte]).is_err() {
            return Err("no such image")?;
        }
    }
    Ok(())
}

/// What a salvage has to come to, written down as the entries are gone through.
#[derive(Drop)]
struct Wanted {
    text: Vec<u8>,
    rows: Vec<u8>,
    salvaged: Salvaged,
}

fn digit(n: u64) -> u8 {
    (n % 10) as u8 + b'0'
}

// A number below 100 million.
fn push_number(text: &mut Vec<u8>, n: u64) -> Result<(), AllocError> {
    let mut begun = false;
    for scale in [10000000, 1000000, 100000, 10000, 1000, 100, 10, 1] {
        let this = n.checked_div(scale).unwrap_or(0);
        begun = begun || this > 0 || scale == 1;
        if begun {
            text.push(digit(this))?;
        }
    }
    Ok(())
}

impl Wanted {
    fn missing(&mut self, word: &[u8], leaf: &Leaf, path: &[u8]) -> Result<(), AllocError> {
        self.text.extend_from_slice(word)?;
        self.text.extend_from_slice(b" lost ")?;
        push_number(&mut self.text, leaf.addr)?;
        self.text.push(b' ')?;
        self.text.extend_from_slice(path)?;
        self.text.push(b'\n')?;
        self.salvaged.broken = self.salvaged.broken.wrapping_add(1);
        Ok(())
    }

    // File j of directory i, which has a path.
    fn file(&mut self, leaf: &Leaf, i: u64, j: u64, path: &[u8]) -> Result<(), AllocError> {
        let ino = 258u64.wrapping_add(i.wrapping_mul(5)).wrapping_add(j);
        if leaf.holds(key(ino, 1, 0)) || leaf.meets(ino, 108, 108) {
            return self.missing(b"broken", leaf, path);
        }
        self.rows.push(b'f')?;
        self.rows.push(digit(j))?;
        self.rows.push(b' ')?;
        for p in 0..j.wrapping_mul(4096).wrapping_add(i) {
            let byte = i.wrapping_add(j.wrapping_mul(7)).wrapping_add(p) % 251;
            self.rows.push(byte as u8)?;
        }
        self.rows.push(b'\n')?;
        self.salvaged.counts.files = self.salvaged.counts.files.wrapping_add(1);
        Ok(())
    }

    // The four files of directory i, and the part of it that is missing, behind the entries that stand before the leaf.
    fn files(&mut self, leaf: &Leaf, i: u64, path: &mut Vec<u8>) -> Result<(), AllocError> {
        let dir = 257u64.wrapping_add(i.wrapping_mul(5));
        let mut part = leaf.meets(dir, DIR_INDEX, DIR_INDEX);
        let len = path.len();
        for j in 0..4 {
            let at = key(dir, DIR_INDEX, j + 2);
            if part && !at.is_before(leaf.end) {
                self.missing(b"part", leaf, path.as_slice())?;
                part = false;
            }
            if !leaf.holds(at) {
                path.extend_from_slice(&[b'/', b'f', digit(j)])?;
                self.file(leaf, i, j, path.as_slice())?;
                path.truncate(len);
            }
        }
        if part {
            self.missing(b"part", leaf, path.as_slice())?;
        }
        Ok(())
    }

    // Directory i.
    fn directory(&mut self, leaf: &Leaf, i: u64, path: &mut Vec<u8>) -> Result<(), AllocError> {
        let dir = 257u64.wrapping_add(i.wrapping_mul(5));
        if leaf.meets(dir, 12, 13) {
            return self.missing(b"broken", leaf, path.as_slice());
        }
        for byte in path.as_slice().iter().skip(1) {
            self.rows.push(*byte)?;
        }
        self.rows.push(b'\n')?;
        self.salvaged.counts.dirs = self.salvaged.counts.dirs.wrapping_add(1);
        self.files(leaf, i, path)?;
        self.rows.extend_from_slice(b"..\n")
    }
}

// What a salvage comes to where a leaf is lost.
fn expected(alloc: Global, directories: u64, leaf: &Leaf) -> Result<Wanted, AllocError> {
    let mut all = Wanted {
        text: Vec::new(alloc),
        rows: Vec::new(alloc),
        salvaged: Salvaged {
            counts: Counts {
                dirs: 0,
                files: 0,
                skipped: 0,
            },
            broken: 0,
        },
    };
    all.rows.extend_from_slice(b"out\n")?;
    let mut path = Vec::new(alloc);
    let mut part = leaf.meets(TOP, DIR_INDEX, DIR_INDEX);
    for i in 0..directories {
        let at = key(TOP, DIR_INDEX, i.wrapping_add(2));
        if part && !at.is_before(leaf.end) {
            all.missing(b"part", leaf, b"/")?;
            part = false;
        }
        if !leaf.holds(at) {
            path.truncate(0);
            path.extend_from_slice(&[b'/', b'd', b'0', b'0', digit(i / 10), digit(i)])?;
            all.directory(leaf, i, &mut path)?;
        }
    }
    if part {
        all.missing(b"part", leaf, b"/")?;
    }
    Ok(all)
}

// The last line.
fn ends_with_counts(all: &Wanted, alloc: Global) -> Result<Vec<u8>, AllocError> {
    let mut text = Vec::new(alloc);
    text.extend_from_slice(all.text.as_slice())?;
    text.extend_from_slice(b"directories ")?;
    push_number(&mut text, all.salvaged.counts.dirs)?;
    text.extend_from_slice(b" files ")?;
    push_number(&mut text, all.salvaged.counts.files)?;
    text.extend_from_slice(b" skipped 0 broken ")?;
    push_number(&mut text, all.salvaged.broken)?;
    text.push(b'\n')?;
    Ok(text)
}

// Loses a leaf in both copies, and compares what a salvage comes to then.
fn lose(
    rt: &impl Abort,
    alloc: Global,
    directories: u64,
    leaf: &Leaf,
    rack: &mut MemRack,
) -> Result<(), Fail> {
    flip(rack, leaf.addr)?;
    let came = salvaged_from(rt, alloc, rack, NOTHING)?;
    flip(rack, leaf.addr)?;
    let all = expected(alloc, directories, leaf)?;
    assert!(rt; came.answer == Ok(all.salvaged));
    assert!(rt; came.text.as_slice() == ends_with_counts(&all, alloc)?.as_slice());
    assert!(rt; came.rows.as_slice() == all.rows.as_slice());
    assert!(rt; came.part.is_empty());
    Ok(())
}

// The images of a made volume, opened.
fn made(alloc: Global, directories: u64) -> Result<MemRack, Fail>
    requires least { 1 ≤ directories }
    requires most { directories ≤ 1000 }
{
    let mut rack = make(alloc, directories)?;
    for name in ["a", "b", "c"] {
        rack.open(name, false)?;
    }
    Ok(rack)
}

#[test]
fn each_leaf_is_lost(rt: HostRuntime) -> Result<(), Fail> {
    let alloc = rt.alloc();
    let mut rack = made(alloc, 20)?;
    let found = leaves(alloc, &rack)?;
    assert!(rt; found.len() > 1);
    for leaf in found.as_slice() {
        let leaf = bounded(*leaf, found.as_slice());
        lose(&rt, alloc, 20, &leaf, &mut rack)?;
    }
    Ok(())
}

// The same of one leaf of a larger volume.
#[test]
fn one_leaf_of_many_is_lost(rt: HostRuntime) -> Result<(), Fail> {
    let alloc = rt.alloc();
    let mut rack = made(alloc, 100)?;
    let found = leaves(alloc, &rack)?;
    assert!(rt; found.len() > 4);
    let leaf = bounded(found.as_slice()[4], found.as_slice());
    lose(&rt, alloc, 100, &leaf, &mut rack)
}
