// Rows of the commands that show trees, worked out by hand, over small volumes.
use crate::answers::answers;
use btr_make::{RowVolume, make, row, seal};
use btr_rack::MemRack;
use btr_run::Answer;
use btr_test_calls::{CallFault, Failing, call, call_where};
use std::alloc::Global;
use std::process::Abort;

// The words before an option.
const INSPECT: &str = "inspect-internal";

const DUMP: &str = "dump-tree";

const SUMS: &[u8] =
    b"leaf 2162688 items 1 generation 7 owner 7\n\titem 0 key (18446744073709551606 EXTENT_CSUM 16777216) itemoff 16275 itemsize 8\n\t\trange start 16777216 end 16785408 length 8192\n";

const SUMS_TREE: &[u8] =
    b"tree 7 offset 0\nleaf 2162688 items 1 generation 7 owner 7\n\titem 0 key (18446744073709551606 EXTENT_CSUM 16777216) itemoff 16275 itemsize 8\n\t\trange start 16777216 end 16785408 length 8192\n";

const ROOTS: &[u8] =
    b"tree 1 offset 0 bytenr 2097152 level 0 generation 7\ntree 3 offset 0 bytenr 1048576 level 0 generation 7\ntree 2 offset 0 bytenr 2113536 level 0 generation 7\ntree 4 offset 0 bytenr 2129920 level 0 generation 7\ntree 5 offset 0 bytenr 2146304 level 0 generation 7\ntree 7 offset 0 bytenr 2162688 level 0 generation 7\n";

const SUBVOLUMES: &[u8] =
    b"tree 256 offset 0 bytenr 2179072 level 0 generation 7\ntree 257 offset 7 bytenr 2195456 level 0 generation 7\n";

// Words, and the text and the exit status over the first volume.
const SHOWN: &[(&[&str], &[u8], u8)] = &[
    (&[INSPECT, DUMP, "-b", "2162688", "a"], SUMS, 0),
    (
        &[INSPECT, DUMP, "-b", "16777216", "a"],
        b"error: lost block 16777216\n",
        1,
    ),
    (
        &[INSPECT, DUMP, "-b", "20967424", "a"],
        b"error: block 20967424 crosses a stripe element\n",
        1,
    ),
    (
        &[INSPECT, DUMP, "-b", "18446744073709551615", "a"],
        b"error: unmapped address 18446744073709551615\n",
        1,
    ),
    (&[INSPECT, DUMP, "-t", "7", "a"], SUMS_TREE, 0),
    (
        &[INSPECT, DUMP, "-t", "300", "a"],
        b"error: no tree 300\n",
        3,
    ),
    (&[INSPECT, DUMP, "-r", "a"], ROOTS, 0),
    (&["restore", "-l", "a"], ROOTS, 0),
];

#[test]
fn trees_of_the_first_volume(rt: HostRuntime) -> Result<(), CallFault> {
    for (all, text, code) in SHOWN {
        answers(
            &rt,
            rt.alloc(),
            &mut row(rt.alloc(), RowVolume::V1)?,
            all,
            text,
            *code,
        )?;
    }
    Ok(())
}

// The text of a command, which is done.
fn text_of(
    rt: &impl Abort,
    alloc: Global,
    rack: &mut MemRack,
    all: &[&str],
) -> Result<Vec<u8>, CallFault> {
    let told = call(alloc, rack, all)?;
    assert_eq!(rt; told.answer, Answer::Done { skipped: 0 });
    Ok(told.text)
}

// The text of a tree of the volume with subvolumes.
fn tree_text(rt: &impl Abort, alloc: Global, id: &str) -> Result<Vec<u8>, CallFault> {
    let rack = &mut row(alloc, RowVolume::S)?;
    text_of(rt, alloc, rack, &[INSPECT, DUMP, "-t", id, "a"])
}

// The texts of some of its trees, one behind another.
fn tree_texts(rt: &impl Abort, alloc: Global, ids: &[&str]) -> Result<Vec<u8>, CallFault> {
    let mut texts = Vec::new(alloc);
    for id in ids {
        texts.extend_from_slice(&tree_text(rt, alloc, id)?)?;
    }
    Ok(texts)
}

// Without an option the trees come one after another: the root tree, the chunk tree, and those of the ROOT_ITEMs.
#[test]
fn all_trees(rt: HostRuntime) -> Result<(), CallFault> {
    let alloc = rt.alloc();
    let ids = ["1", "3", "2", "4", "5", "7", "256", "257"];
    let texts = tree_texts(&rt, alloc, &ids)?;
    let rack = &mut row(alloc, RowVolume::S)?;
    answers(&rt, alloc, rack, &[INSPECT, DUMP, "a"], &texts, 0)
}

#[test]
fn roots_of_subvolumes(rt: HostRuntime) -> Result<(), CallFault> {
    let alloc = rt.alloc();
    let rack = &mut row(alloc, RowVolume::S)?;
    let mut text = Vec::from_slice(alloc, ROOTS)?;
    text.extend_from_slice(SUBVOLUMES)?;
    answers(&rt, alloc, rack, &["restore", "-l", "a"], &text, 0)
}

// The block of checksums, by its address, and the tree of its own.
const BLOCK: [&str; 5] = [INSPECT, DUMP, "-b", "2162688", "a"];

const TREE: [&str; 5] = [INSPECT, DUMP, "-t", "7", "a"];

// A volume of which the first copy of that block can't be read.
fn unreadable(alloc: Global, which: RowVolume) -> Result<MemRack, CallFault> {
    let mut rack = row(alloc, which)?;
    rack.fail_range("a", 2162688, 4096)?;
    Ok(rack)
}

// A volume of which a byte of the first image is another.
fn damaged(alloc: Global, which: RowVolume, off: u64) -> Result<MemRack, CallFault> {
    let mut rack = row(alloc, which)?;
    rack.poke("a", off, &[1])?;
    Ok(rack)
}

// A copy that can't be read, or is damaged, is passed over for another one.
#[test]
fn other_copies(rt: HostRuntime) -> Result<(), CallFault> {
    let alloc = rt.alloc();
    answers(
        &rt,
        alloc,
        &mut unreadable(alloc, RowVolume::V1d)?,
        &BLOCK,
        SUMS,
        0,
    )?;
    let second = [INSPECT, DUMP, "-b", "2162688", "b"];
    answers(
        &rt,
        alloc,
        &mut row(alloc, RowVolume::M1)?,
        &second,
        SUMS,
        0,
    )?;
    let rack = &mut damaged(alloc, RowVolume::M1, 2162788)?;
    let both = [INSPECT, DUMP, "-b", "2162688", "a", "b"];
    answers(&rt, alloc, rack, &both, SUMS, 0)
}

#[test]
fn a_damaged_copy(rt: HostRuntime) -> Result<(), CallFault> {
    let alloc = rt.alloc();
    let block = [INSPECT, DUMP, "-b", "2146304", "a"];
    let whole = text_of(&rt, alloc, &mut row(alloc, RowVolume::V1d)?, &block)?;
    let rack = &mut damaged(alloc, RowVolume::V1d, 2146404)?;
    answers(&rt, alloc, rack, &block, &whole, 0)
}

#[test]
fn a_block_that_cannot_be_read(rt: HostRuntime) -> Result<(), CallFault> {
    let alloc = rt.alloc();
    let text = b"error: unread block 2162688 on image 0\n";
    answers(
        &rt,
        alloc,
        &mut unreadable(alloc, RowVolume::V1)?,
        &BLOCK,
        text,
        4,
    )?;
    let text = b"tree 7 offset 0\nerror: unread block 2162688 on image 0\n";
    answers(
        &rt,
        alloc,
        &mut unreadable(alloc, RowVolume::V1)?,
        &TREE,
        text,
        4,
    )
}

// The number of the call on the image that fails, the text and the exit status.
const FAILING: &[(u64, &[u8], u8)] = &[
    (1, b"error: image 0 failed\n", 4),
    (2, b"error: image 0 failed\n", 4),
    (3, b"error: unread block 1048576 on image 0\n", 4),
    (4, SUMS_TREE, 0),
    (5, SUMS_TREE, 0),
    (6, SUMS_TREE, 0),
];

// A volume of which a call on the image fails.
fn failing(alloc: Global, number: u64) -> Result<MemRack, CallFault> {
    let mut rack = row(alloc, RowVolume::V1d)?;
    rack.fail_call(number)?;
    Ok(rack)
}

// Each call in turn fails: the opening, the superblock's reading, that of the chunk tree; the rest has another copy.
#[test]
fn calls_that_fail(rt: HostRuntime) -> Result<(), CallFault> {
    for (number, text, code) in FAILING {
        answers(
            &rt,
            rt.alloc(),
            &mut failing(rt.alloc(), *number)?,
            &TREE,
            text,
            *code,
        )?;
    }
    Ok(())
}

// What stands before a line, which stands in the text.
fn text_before<'a>(rt: &impl Abort, text: &'a [u8], line: &[u8]) -> &'a [u8] {
    for at in 0..text.len() {
        if text[at..].starts_with(line) {
            return &text[..at];
        }
    }
    assert!(rt; false, "no such line");
    text
}

// The words of a dump of the tree of files.
const FILES: [&str; 7] = [INSPECT, DUMP, "-t", "5", "a", "b", "c"];

// A volume whose tree of files has two leaves, the second at 20987904 on the first two images, whose first key is another than its pointer's.
fn with_other_key(alloc: Global) -> Result<MemRack, CallFault> {
    let mut rack = make(alloc, 10)?;
    for name in ["a", "b"] {
        rack.poke(name, 20988014, &[5])?;
        seal(&mut rack, name, 20987904, 16384)?;
    }
    Ok(rack)
}

// The text goes up to that leaf.
#[test]
fn a_leaf_with_another_first_key(rt: HostRuntime) -> Result<(), CallFault> {
    let alloc = rt.alloc();
    let whole = text_of(&rt, alloc, &mut make(alloc, 10)?, &FILES)?;
    let begins = text_before(&rt, &whole, b"leaf 20987904 ");
    let mut text = Vec::from_slice(alloc, begins)?;
    text.extend_from_slice(b"error: malformed block 20987904\n")?;
    answers(&rt, alloc, &mut with_other_key(alloc)?, &FILES, &text, 1)
}

// The output refuses one of its calls: a first part of the text stands there, and no line of an error.
fn refused_output(
    rt: &impl Abort,
    alloc: Global,
    number: u64,
    whole: &[u8],
) -> Result<(), CallFault> {
    let rack = &mut row(alloc, RowVolume::V1)?;
    let told = call_where(alloc, rack, &[INSPECT, DUMP, "a"], Failing::Output(number))?;
    assert_eq!(rt; told.answer, Answer::OutFault);
    assert_eq!(rt; told.code, 4);
    assert!(rt; whole.starts_with(&told.text));
    assert!(rt; told.text.len() < whole.len());
    Ok(())
}

#[test]
fn failing_outputs(rt: HostRuntime) -> Result<(), CallFault> {
    let alloc = rt.alloc();
    let rack = &mut row(alloc, RowVolume::V1)?;
    let whole = text_of(&rt, alloc, rack, &[INSPECT, DUMP, "a"])?;
    for number in 1..3 {
        refused_output(&rt, alloc, number, &whole)?;
    }
    Ok(())
}
