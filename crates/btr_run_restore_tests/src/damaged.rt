// The commands that came after `restore`, over images that somebody damaged on purpose.
use crate::hostile::{DAMAGED, LEFT_OUT, edited, in_leaf};
use crate::restoring::{restores, restores_rows};
use btr_make::{RowVolume, row};
use btr_rack::MemRack;
use btr_test_calls::CallFault;
use std::alloc::{AllocError, Global};
use std::process::Abort;

const PAST: [&str; 4] = ["restore", "-i", "out", "a"];

const SEND: [&str; 4] = ["send", "out", "v", "a"];

const RESOLVE: [&str; 4] = ["inspect-internal", "logical-resolve", "16777216", "a"];

// What `restore -i` tells where the only leaf of the files is malformed, and where it is lost.
const PARTS: [&[u8]; 2] = [
    b"part malformed 2146304 /\ndirectories 0 files 0 skipped 0 broken 1\n",
    b"part lost 2146304 /\ndirectories 0 files 0 skipped 0 broken 1\n",
];

// What `restore` refuses to go past `restore -i` names; by all else it is stopped too.
#[test]
fn restores_past_damaged_trees(rt: HostRuntime) -> Result<(), CallFault> {
    for (at, (edit, text, code, rows)) in DAMAGED.iter().enumerate() {
        let rack = &mut edited(rt.alloc(), edit)?;
        let text = PARTS.get(at).unwrap_or(text);
        restores_rows(&rt, rt.alloc(), rack, &PAST, text, *code, rows)?;
    }
    Ok(())
}

// The stream is begun where a restore is begun, and isn't finished.
#[test]
fn streams_of_damaged_trees(rt: HostRuntime) -> Result<(), CallFault> {
    for (edit, text, code, rows) in DAMAGED {
        let rack = &mut edited(rt.alloc(), edit)?;
        let told = restores(&rt, rt.alloc(), rack, &SEND, text, *code)?;
        assert_eq!(rt; told.rows.as_slice(), *rows);
        assert_eq!(rt; told.has_part, !rows.is_empty());
    }
    Ok(())
}

#[test]
fn owners_in_damaged_trees(rt: HostRuntime) -> Result<(), CallFault> {
    for (edit, text, code, _) in DAMAGED {
        let rack = &mut edited(rt.alloc(), edit)?;
        restores_rows(&rt, rt.alloc(), rack, &RESOLVE, text, *code, b"")?;
    }
    Ok(())
}

const FOUR: &[u8] = b"out\ne \ni x\nh1 hello\nh2 hello\n";

// A line, and behind it another.
fn both(alloc: Global, line: &[u8], other: &[u8]) -> Result<Vec<u8>, AllocError> {
    let mut text = Vec::from_slice(alloc, line)?;
    text.extend_from_slice(other)?;
    Ok(text)
}

#[test]
fn restores_past_entries_that_are_left_out(rt: HostRuntime) -> Result<(), CallFault> {
    let alloc = rt.alloc();
    for (at, bytes, line) in LEFT_OUT {
        let text = both(alloc, line, b"directories 0 files 4 skipped 1 broken 0\n")?;
        let rack = &mut in_leaf(alloc, *at, bytes)?;
        restores_rows(&rt, alloc, rack, &PAST, &text, 1, FOUR)?;
    }
    Ok(())
}

#[test]
fn streams_without_entries_that_are_left_out(rt: HostRuntime) -> Result<(), CallFault> {
    let alloc = rt.alloc();
    for (at, bytes, line) in LEFT_OUT {
        let text = both(alloc, line, b"directories 0 files 4 skipped 1\n")?;
        let rack = &mut in_leaf(alloc, *at, bytes)?;
        let told = restores(&rt, alloc, rack, &SEND, &text, 1)?;
        assert!(rt; told.rows.starts_with(b"out\nv btrfs-stream"));
        assert!(rt; !told.has_part);
    }
    Ok(())
}

const MALFORMED: &[u8] = b"error: malformed block 2146304\n";

// What is written over in the two extents of a file, so that one breaks a rule, and what is told of
// the owners of the first.
const BROKEN: &[(u64, &[u8], &[u8])] = &[
    (2161450, &[48], MALFORMED),
    (
        2161371,
        &[9],
        b"tree 5 inode 260 position 0 path /a\nerror: malformed block 2146304\n",
    ),
];

const PAST_BROKEN: &[u8] =
    b"broken malformed 2146304 /a\ndirectories 0 files 4 skipped 0 broken 1\n";

#[test]
fn restores_past_extents_that_break_a_rule(rt: HostRuntime) -> Result<(), CallFault> {
    for (at, bytes, _) in BROKEN {
        let rack = &mut in_leaf(rt.alloc(), *at, bytes)?;
        restores_rows(&rt, rt.alloc(), rack, &PAST, PAST_BROKEN, 1, FOUR)?;
    }
    Ok(())
}

#[test]
fn streams_and_owners_end_there(rt: HostRuntime) -> Result<(), CallFault> {
    let alloc = rt.alloc();
    for (at, bytes, owners) in BROKEN {
        let rack = &mut in_leaf(alloc, *at, bytes)?;
        let told = restores(&rt, alloc, rack, &SEND, MALFORMED, 1)?;
        assert!(rt; told.has_part);
        let rack = &mut in_leaf(alloc, *at, bytes)?;
        restores(&rt, alloc, rack, &RESOLVE, owners, 1)?;
    }
    Ok(())
}

// What is told of a directory that stands in itself, but for the end of the last line.
fn deep_text(alloc: Global, end: &[u8]) -> Result<Vec<u8>, AllocError> {
    let mut text = Vec::from_slice(alloc, b"skip depth ")?;
    for _ in 0..513 {
        text.extend_from_slice(b"/l")?;
    }
    text.extend_from_slice(b"\ndirectories 512 files 2565 skipped 1")?;
    text.extend_from_slice(end)?;
    Ok(text)
}

fn in_itself(alloc: Global) -> Result<MemRack, CallFault> {
    Ok(row(alloc, RowVolume::L)?)
}

fn tells(
    rt: &impl Abort,
    alloc: Global,
    words: &[&str],
    text: &[u8],
    code: u8,
) -> Result<(), CallFault> {
    let told = restores(rt, alloc, &mut in_itself(alloc)?, words, text, code)?;
    assert!(rt; !told.has_part);
    Ok(())
}

#[test]
fn a_directory_in_itself(rt: HostRuntime) -> Result<(), CallFault> {
    let alloc = rt.alloc();
    tells(&rt, alloc, &PAST, &deep_text(alloc, b" broken 0\n")?, 1)?;
    tells(&rt, alloc, &SEND, &deep_text(alloc, b"\n")?, 1)?;
    let owner = b"tree 5 inode 260 position 0 path /a\nowners 1\n";
    tells(&rt, alloc, &RESOLVE, owner, 0)
}

// Other commands, which opening the damaged filesystem or its root tree stops as it stops a restore.
const STOPPED: [&[&str]; 4] = [
    &["check", "a"],
    &["scrub", "start", "a"],
    &["restore", "-D", "out", "a"],
    &["inspect-internal", "dump-tree", "-t", "5", "a"],
];

#[test]
fn other_commands_are_stopped_too(rt: HostRuntime) -> Result<(), CallFault> {
    for words in STOPPED {
        for (edit, text, code, _) in DAMAGED.iter().skip(2) {
            let rack = &mut edited(rt.alloc(), edit)?;
            restores_rows(&rt, rt.alloc(), rack, words, text, *code, b"")?;
        }
    }
    Ok(())
}

const ROOTS: &[u8] = b"tree 1 offset 0 bytenr 2097152 level 0 generation 7\n\
tree 3 offset 0 bytenr 1048576 level 0 generation 7\n";

// A list of roots begins with two that the superblock names.
#[test]
fn roots_of_a_lost_root_tree(rt: HostRuntime) -> Result<(), CallFault> {
    let alloc = rt.alloc();
    let text = both(alloc, ROOTS, b"error: lost block 2097152\n")?;
    for (edit, ..) in DAMAGED.iter().skip(2).take(1) {
        let rack = &mut edited(alloc, edit)?;
        restores_rows(&rt, alloc, rack, &["restore", "-l", "a"], &text, 1, b"")?;
    }
    Ok(())
}
