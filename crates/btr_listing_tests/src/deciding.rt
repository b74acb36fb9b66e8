// What the entries of small volumes come to, by each rule.
ghost use Rattle.std.specs.Prelude.{◌≡◌, ◌<◌, length};
ghost use Rattle.btr_rack.specs.Memory.{seen_of, slots_of};
ghost use Rattle.btr_read.specs.Serves.{Serves};
ghost use Rattle.btr_read.specs.Store.{free_count};

use btr_files::{Dir, NameBuf};
use btr_listing::{Decision, Entry, Path, Rules, cause_text, decide};
use btr_make::{RowVolume, row};
use btr_rack::{MemRack, Rack};
use btr_volume::{TreeRoot, Volume};
use std::alloc::{AllocError, Global};
use std::test::Fail;

const ALL: Rules = Rules {
    snapshots: true,
    subvolumes: true,
    longest: None,
};

// The word of a decision.
fn word(decision: Decision) -> &'static [u8] {
    match decision {
        Decision::Skip(cause) => cause_text(cause),
        Decision::File(_) => b"file",
        Decision::Empty => b"empty",
        Decision::Folder { tree: _, dirid: _ } => b"folder",
    }
}

// Puts a word for each entry of the top directory of a tree, up to a fault, whose word is `fault`.
fn decide_all(
    rules: &Rules,
    root: TreeRoot,
    deep: bool,
    path: &mut Path,
    rack: &mut MemRack,
    vol: &mut Volume,
    words: &mut Vec<u8>,
) -> Result<(), AllocError>
    requires serves { Serves (seen_of rack.old) vol.old.store }
    requires free { free_count vol.old.store ≡ 24 }
{
    let mut dir = Dir::new(root, root.dirid);
    let mut name = NameBuf::new();
    for _ in 0..100 {
        let Ok(Some(row)) = dir.next(rack, vol, &mut name) else {
            return Ok(());
        };
        path.cut(0);
        if path.push(name.as_bytes()).is_err() {
            return Err(AllocError);
        }
        let entry = Entry {
            tree: root,
            dirid: root.dirid,
            deep,
            row,
            name: &name,
            path: path.as_bytes(),
        };
        match decide(rules, &entry, rack, vol) {
            Ok(decision) => words.extend_from_slice(word(decision))?,
            Err(_) => words.extend_from_slice(b"fault")?,
        }
        words.push(b' ')?;
    }
    Ok(())
}

// The words of the top directory of tree 5, from the open images of a rack.
fn words_in(
    alloc: Global,
    rules: &Rules,
    deep: bool,
    rack: &mut MemRack,
    words: &mut Vec<u8>,
) -> Result<(), Fail>
    requires some { 0 < length (slots_of rack.old) }
{
    let Ok(mut vol) = Volume::open(alloc, rack) else {
        return Err("the volume doesn't open")?;
    };
    let Ok(Some(root)) = vol.tree(5, rack) else {
        return Err("there is no tree 5")?;
    };
    let Ok(mut path) = Path::new(alloc) else {
        return Err(AllocError)?;
    };
    Ok(decide_all(rules, root, deep, &mut path, rack, &mut vol, words)?)
}

// The words of the top directory of a volume's tree 5, each before a space.
fn words_of(alloc: Global, which: RowVolume, rules: &Rules, deep: bool) -> Result<Vec<u8>, Fail> {
    let mut rack = row(alloc, which)?;
    rack.open("a", false)?;
    let mut words = Vec::new(alloc);
    if rack.count() == 0 {
        return Err("no image")?;
    }
    words_in(alloc, rules, deep, &mut rack, &mut words)?;
    Ok(words)
}

// `sub` is a subvolume, and `snap` a snapshot of the same tree.
#[test]
fn a_subvolume_and_a_snapshot(rt: HostRuntime) -> Result<(), Fail> {
    let rules = [
        (ALL, b"folder folder ".as_slice()),
        (
            Rules {
                snapshots: false,
                ..ALL
            },
            b"folder snapshot ",
        ),
        (
            Rules {
                subvolumes: false,
                ..ALL
            },
            b"subvolume subvolume ",
        ),
        (
            Rules {
                longest: Some(4),
                ..ALL
            },
            b"folder path ",
        ),
    ];
    for (rules, words) in rules {
        let found = words_of(rt.alloc(), RowVolume::S, &rules, false)?;
        assert!(rt; found.as_slice() == words);
    }
    Ok(())
}

#[test]
fn a_directory_that_is_too_deep(rt: HostRuntime) -> Result<(), Fail> {
    let found = words_of(rt.alloc(), RowVolume::S, &ALL, true)?;
    assert!(rt; found.as_slice() == b"depth depth ".as_slice());
    Ok(())
}

#[test]
fn files(rt: HostRuntime) -> Result<(), Fail> {
    let found = words_of(rt.alloc(), RowVolume::V1, &ALL, true)?;
    assert!(rt; found.as_slice() == b"file file file file file ".as_slice());
    Ok(())
}
