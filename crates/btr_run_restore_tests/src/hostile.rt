// Restores from images that somebody damaged on purpose: one edit each, with the checksum made right again.
use crate::restoring::{restores, restores_rows};
use btr_make::{RowVolume, row, seal};
use btr_rack::MemRack;
use btr_run::Answer;
use btr_test_calls::{CallFault, Failing, Told, call, call_where, five_files};
use std::alloc::{AllocError, Global};
use std::process::Abort;

// Where the superblock stands, the leaf of the files, the root of the root tree and the leaf of the chunk tree.
const SUPER: u64 = 65536;

const FILES: u64 = 2146304;

const ROOTS: u64 = 2097152;

const CHUNKS: u64 = 1048576;

const ALL: [&str; 3] = ["restore", "out", "a"];

// What is written over, and the block that has its checksum made right.
#[derive(Clone, Copy)]
pub(crate) struct Edit {
    at: u64,
    bytes: &'static [u8],
    block: u64,
}

// The small volume with one image, edited.
pub(crate) fn edited(alloc: Global, edit: &Edit) -> Result<MemRack, CallFault> {
    let mut rack = row(alloc, RowVolume::V1)?;
    rack.poke("a", edit.at, edit.bytes)?;
    let len = if edit.block == SUPER { 4096 } else { 16384 };
    seal(&mut rack, "a", edit.block, len)?;
    Ok(rack)
}

// An edit, the text, the exit status, and the rows that stand there then.
pub(crate) const DAMAGED: &[(Edit, &[u8], u8, &[u8])] = &[
    (
        Edit {
            at: FILES + 96,
            bytes: &[0x8c, 2, 0, 0],
            block: FILES,
        },
        b"error: malformed block 2146304\n",
        1,
        b"out\n",
    ),
    (
        Edit {
            at: FILES + 100,
            bytes: &[1],
            block: FILES,
        },
        b"error: lost block 2146304\n",
        1,
        b"out\n",
    ),
    (
        Edit {
            at: ROOTS + 80,
            bytes: &[6],
            block: ROOTS,
        },
        b"error: lost block 2097152\n",
        1,
        b"",
    ),
    (
        Edit {
            at: CHUNKS + 100,
            bytes: &[1],
            block: CHUNKS,
        },
        b"error: lost block 1048576\n",
        1,
        b"",
    ),
    (
        Edit {
            at: SUPER + 0xc6,
            bytes: &[8],
            block: SUPER,
        },
        b"error: unsupported geometry\n",
        3,
        b"",
    ),
    (
        Edit {
            at: SUPER + 0xa0,
            bytes: &[1, 8],
            block: SUPER,
        },
        b"error: unsupported geometry\n",
        3,
        b"",
    ),
    (
        Edit {
            at: SUPER + 0xa0,
            bytes: &[1],
            block: SUPER,
        },
        b"error: the system chunk array is damaged\n",
        3,
        b"",
    ),
    (
        Edit {
            at: SUPER + 0x58,
            bytes: &[0, 0, 0, 1],
            block: SUPER,
        },
        b"error: unmapped address 16777216\n",
        1,
        b"",
    ),
];

#[test]
fn damaged_trees(rt: HostRuntime) -> Result<(), CallFault> {
    for (edit, text, code, rows) in DAMAGED {
        let rack = &mut edited(rt.alloc(), edit)?;
        restores_rows(&rt, rt.alloc(), rack, &ALL, text, *code, rows)?;
    }
    Ok(())
}

const FOUR: &[u8] = b"out\ne \ni x\nh1 hello\nh2 hello\n";

// What is written over in the leaf of the files, and the line that is put.
// The last entry is that of `a`: its DIR_INDEX stands at 2162202, its inode at 2161468, its first extent at 2161404.
pub(crate) const LEFT_OUT: &[(u64, &[u8], &[u8])] = &[
    (2162202, &[44, 1], b"skip missing /a\n"),
    (2162231, &[7], b"skip symlink /a\n"),
    (2162231, &[3], b"skip special /a\n"),
    (2162232, b"/", b"skip name //\n"),
    (2161484, &[1, 0, 0, 0, 0, 0, 0, 16], b"skip size /a\n"),
    (2161420, &[1], b"skip compressed /a\n"),
    (2161421, &[1], b"skip encoded /a\n"),
];

// The small volume with one image, in whose leaf of the files bytes are written over.
pub(crate) fn in_leaf(alloc: Global, at: u64, bytes: &'static [u8]) -> Result<MemRack, CallFault> {
    edited(
        alloc,
        &Edit {
            at,
            bytes,
            block: FILES,
        },
    )
}

// A line, and behind it that of the counts.
fn with_counts(alloc: Global, line: &[u8]) -> Result<Vec<u8>, AllocError> {
    let mut text = Vec::from_slice(alloc, line)?;
    text.extend_from_slice(b"directories 0 files 4 skipped 1\n")?;
    Ok(text)
}

#[test]
fn entries_that_are_left_out(rt: HostRuntime) -> Result<(), CallFault> {
    let alloc = rt.alloc();
    for (at, bytes, line) in LEFT_OUT {
        let text = with_counts(alloc, line)?;
        let rack = &mut in_leaf(alloc, *at, bytes)?;
        restores_rows(&rt, alloc, rack, &ALL, &text, 1, FOUR)?;
    }
    Ok(())
}

#[test]
fn extents_that_break_a_rule(rt: HostRuntime) -> Result<(), CallFault> {
    let alloc = rt.alloc();
    let text = b"error: malformed block 2146304\n";
    let rack = &mut in_leaf(alloc, 2161450, &[48])?;
    restores_rows(&rt, alloc, rack, &ALL, text, 1, FOUR)?;
    let rack = &mut in_leaf(alloc, 2161371, &[9])?;
    restores_rows(&rt, alloc, rack, &ALL, text, 1, FOUR)
}

#[test]
fn the_largest_file(rt: HostRuntime) -> Result<(), CallFault> {
    let alloc = rt.alloc();
    let rack = &mut in_leaf(alloc, 2161484, &[0, 0, 0, 0, 0, 0, 0, 16])?;
    let text = b"file /e\nfile /i\nfile /h1\nfile /h2\nfile /a\ndirectories 0 files 5 skipped 0\n";
    let all = ["restore", "-D", "out", "a"];
    restores_rows(&rt, alloc, rack, &all, text, 0, b"")
}

// The text of a restore of a directory that stands in itself.
fn deep_text(alloc: Global) -> Result<Vec<u8>, AllocError> {
    let mut text = Vec::from_slice(alloc, b"skip depth ")?;
    for _ in 0..513 {
        text.extend_from_slice(b"/l")?;
    }
    text.extend_from_slice(b"\ndirectories 512 files 2565 skipped 1\n")?;
    Ok(text)
}

#[test]
fn a_directory_in_itself(rt: HostRuntime) -> Result<(), CallFault> {
    let alloc = rt.alloc();
    let text = deep_text(alloc)?;
    restores(&rt, alloc, &mut row(alloc, RowVolume::L)?, &ALL, &text, 1)?;
    Ok(())
}

// Whether a restore was whole, or ended at a call on an image that failed, behind a first part of what it writes.
fn ends_well(told: &Told, files: &[u8]) -> bool {
    match told.answer {
        Answer::Done { skipped } => skipped == 0 && told.rows.as_slice() == files,
        Answer::ImageFault(slot) => slot == 0 && told.rows.is_empty(),
        Answer::Unread(_, slot) => slot == 0 && files.starts_with(&told.rows),
        _ => false,
    }
}

fn ends_well_at(rt: &impl Abort, alloc: Global, number: u64) -> Result<(), CallFault> {
    let mut rack = row(alloc, RowVolume::V1d)?;
    rack.fail_call(number)?;
    let told = call(alloc, &mut rack, &ALL)?;
    assert!(rt; ends_well(&told, &five_files(alloc)?));
    Ok(())
}

#[test]
fn each_failing_call_on_an_image(rt: HostRuntime) -> Result<(), CallFault> {
    for number in 1..41 {
        ends_well_at(&rt, rt.alloc(), number)?;
    }
    Ok(())
}

const SKIPPED: &[u8] = b"skip compressed /z\ndirectories 0 files 5 skipped 1\n";

fn refuses_output(rt: &impl Abort, alloc: Global, number: u64) -> Result<(), CallFault> {
    let mut rack = row(alloc, RowVolume::V2)?;
    let told = call_where(alloc, &mut rack, &ALL, Failing::Output(number))?;
    assert_eq!(rt; told.answer, Answer::OutFault);
    assert!(rt; SKIPPED.starts_with(&told.text));
    assert!(rt; told.text.len() < SKIPPED.len());
    Ok(())
}

#[test]
fn each_failing_put(rt: HostRuntime) -> Result<(), CallFault> {
    refuses_output(&rt, rt.alloc(), 1)?;
    refuses_output(&rt, rt.alloc(), 2)
}
