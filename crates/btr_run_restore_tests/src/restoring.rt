// Restores by the words of the command line, into memory.
use btr_make::{RowVolume, row};
use btr_rack::MemRack;
use btr_test_calls::{CallFault, Told, call, five_files};
use std::alloc::Global;
use std::process::Abort;

/// Restores by these words, and asserts the text and the exit status.
pub(crate) fn restores(
    rt: &impl Abort,
    alloc: Global,
    rack: &mut MemRack,
    all: &[&str],
    text: &[u8],
    code: u8,
) -> Result<Told, CallFault> {
    let told = call(alloc, rack, all)?;
    assert_eq!(rt; told.text.as_slice(), text);
    assert_eq!(rt; told.code, code);
    Ok(told)
}

/// The same, and asserts what rows stand in the destination.
pub(crate) fn restores_rows(
    rt: &impl Abort,
    alloc: Global,
    rack: &mut MemRack,
    all: &[&str],
    text: &[u8],
    code: u8,
    rows: &[u8],
) -> Result<(), CallFault> {
    let told = restores(rt, alloc, rack, all, text, code)?;
    assert_eq!(rt; told.rows.as_slice(), rows);
    Ok(())
}

const COUNTS: &[u8] = b"directories 0 files 5 skipped 0\n";

// A volume, and the words, the text and the exit status of a restore of it.
const WHOLE: &[(RowVolume, &[&str], &[u8], u8)] = &[
    (RowVolume::V1, &["restore", "out", "a"], COUNTS, 0),
    (RowVolume::Raid5, &["restore", "out", "a", "c"], COUNTS, 0),
    (RowVolume::Raid6, &["restore", "out", "b", "d"], COUNTS, 0),
    (RowVolume::M3, &["restore", "out", "a"], COUNTS, 0),
    (
        RowVolume::V2,
        &["restore", "out", "a"],
        b"skip compressed /z\ndirectories 0 files 5 skipped 1\n",
        1,
    ),
    (
        RowVolume::N,
        &["restore", "out", "a"],
        b"unverified /a\ndirectories 0 files 5 skipped 0\n",
        0,
    ),
];

fn restores_five_files(
    rt: &impl Abort,
    alloc: Global,
    which: RowVolume,
    all: &[&str],
    text: &[u8],
    code: u8,
) -> Result<(), CallFault> {
    let told = restores(rt, alloc, &mut row(alloc, which)?, all, text, code)?;
    assert!(rt; !told.has_part);
    assert!(rt; told.rows.as_slice() == five_files(alloc)?.as_slice());
    Ok(())
}

#[test]
fn five_files_of_small_volumes(rt: HostRuntime) -> Result<(), CallFault> {
    for (which, all, text, code) in WHOLE {
        restores_five_files(&rt, rt.alloc(), *which, all, text, *code)?;
    }
    Ok(())
}

// The words, the text, the exit status and the rows of a restore of the volume with subvolumes.
const SUBVOLUMES: &[(&[&str], &[u8], u8, &[u8])] = &[
    (
        &["restore", "-v", "out", "a"],
        b"dir /sub\nskip snapshot /snap\ndirectories 1 files 0 skipped 1\n",
        1,
        b"out\nsub\n..\n",
    ),
    (
        &["restore", "-v", "-s", "out", "a"],
        b"dir /sub\ndir /snap\ndir /snap/sub\ndirectories 3 files 0 skipped 0\n",
        0,
        b"out\nsub\n..\nsnap\nsub\n..\n..\n",
    ),
    (
        &["restore", "-v", "-r", "257", "out", "a"],
        b"dir /sub\ndirectories 1 files 0 skipped 0\n",
        0,
        b"out\nsub\n..\n",
    ),
];

#[test]
fn subvolumes_by_options(rt: HostRuntime) -> Result<(), CallFault> {
    for (all, text, code, rows) in SUBVOLUMES {
        let rack = &mut row(rt.alloc(), RowVolume::S)?;
        restores_rows(&rt, rt.alloc(), rack, all, text, *code, rows)?;
    }
    Ok(())
}

// The words, the text and the exit status of calls that write nothing.
const DRY: &[(&[&str], &[u8], u8)] = &[
    (
        &["restore", "-D", "out", "a"],
        b"file /e\nfile /i\nfile /h1\nfile /h2\nfile /a\ndirectories 0 files 5 skipped 0\n",
        0,
    ),
    (
        &["restore", "-r", "300", "out", "a"],
        b"error: no tree 300\n",
        3,
    ),
    (
        &["restore", "-r", "7", "out", "a"],
        b"error: usage error at word 2\n",
        2,
    ),
];

#[test]
fn dry_runs_and_refusals(rt: HostRuntime) -> Result<(), CallFault> {
    for (all, text, code) in DRY {
        let rack = &mut row(rt.alloc(), RowVolume::V1)?;
        restores_rows(&rt, rt.alloc(), rack, all, text, *code, b"")?;
    }
    Ok(())
}
