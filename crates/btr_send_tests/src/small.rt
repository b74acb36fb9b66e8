// Sends of small volumes.
use super::made::Lines;
use super::memory::{NOTHING, counts, sent_from, small};
use super::replay::replayed;
use btr_make::RowVolume;
use btr_volume::Stop;
use btr_walk::TreeFault;
use std::alloc::{AllocError, Global};
use std::test::Fail;

// The first bytes of a stream.
const HEADER: &[u8] = b"btrfs-stream\0\x01\0\0\0";

// The last ones: its last command, without attributes.
const END: [u8; 10] = [0, 0, 0, 0, 21, 0, 0x50, 0x6C, 0xC9, 0x9D];

// The five files of the small volumes.
fn five_files(alloc: Global) -> Result<Lines, AllocError> {
    let mut last = Vec::new(alloc);
    last.extend_from_slice(&[0x41; 4096])?;
    last.extend_from_slice(&[0; 4096])?;
    last.extend_from_slice(&[0x42; 1808])?;
    let mut lines = Lines::new(alloc);
    lines.subvolume(b"v", &[0; 16], &[0; 8])?;
    lines.file(b"e", b"")?;
    lines.file(b"i", b"x")?;
    lines.file(b"h1", b"hello")?;
    lines.file(b"h2", b"hello")?;
    lines.file(b"a", last.as_slice())?;
    Ok(lines)
}

#[test]
fn a_whole_volume(rt: HostRuntime) -> Result<(), Fail> {
    let mut rack = small(rt.alloc(), RowVolume::V1, &["a"])?;
    let all = sent_from(&rt, rt.alloc(), 5, &mut rack, NOTHING)?;
    assert_eq!(rt; all.answer, Ok(counts(0, 5, 0)));
    let text = b"directories 0 files 5 skipped 0\n";
    assert_eq!(rt; all.text.as_slice(), text.as_slice());
    assert_eq!(rt; (all.rows, all.whole.len(), all.part.len()), (2, 6360, 0));
    assert!(rt; all.whole.starts_with(HEADER));
    assert!(rt; all.whole.ends_with(&END));
    let lines = five_files(rt.alloc())?;
    assert!(rt; replayed(rt.alloc(), all.whole.as_slice())?.as_slice() == lines.as_slice());
    Ok(())
}

// A subvolume in which there is nothing but another one.
#[test]
fn a_subvolume_in_another(rt: HostRuntime) -> Result<(), Fail> {
    let mut rack = small(rt.alloc(), RowVolume::S, &["a"])?;
    let all = sent_from(&rt, rt.alloc(), 257, &mut rack, NOTHING)?;
    assert_eq!(rt; all.answer, Ok(counts(0, 0, 1)));
    let text = b"skip subvolume /sub\ndirectories 0 files 0 skipped 1\n";
    assert_eq!(rt; all.text.as_slice(), text.as_slice());
    assert_eq!(rt; (all.rows, all.whole.len(), all.part.len()), (2, 74, 0));
    assert!(rt; all.whole.starts_with(HEADER) && all.whole.ends_with(&END));
    Ok(())
}

// The file whose first sector is lost is made, and has no byte.
#[test]
fn a_lost_sector(rt: HostRuntime) -> Result<(), Fail> {
    let mut rack = small(rt.alloc(), RowVolume::Raid5, &["b"])?;
    let all = sent_from(&rt, rt.alloc(), 5, &mut rack, NOTHING)?;
    assert_eq!(rt; all.answer, Err(Stop::Tree(TreeFault::Lost(16777216))));
    assert!(rt; all.text.is_empty());
    assert_eq!(rt; (all.rows, all.whole.len(), all.part.len()), (1, 0, 357));
    // It ends with the path of the file.
    assert!(rt; all.part.starts_with(HEADER) && all.part.ends_with(&[15, 0, 1, 0, b'a']));
    Ok(())
}

#[test]
fn no_such_subvolume(rt: HostRuntime) -> Result<(), Fail> {
    let mut rack = small(rt.alloc(), RowVolume::V1, &["a"])?;
    let all = sent_from(&rt, rt.alloc(), 300, &mut rack, NOTHING)?;
    assert_eq!(rt; all.answer, Err(Stop::NoTree(300)));
    assert!(rt; all.text.is_empty());
    assert_eq!(rt; (all.rows, all.whole.len(), all.part.len()), (0, 0, 0));
    Ok(())
}
