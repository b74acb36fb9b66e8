// Salvages of small volumes.
use super::memory::{FOUR_FILES, NOTHING, five_files, salvaged_from, small};
use btr_files::Counts;
use btr_make::RowVolume;
use btr_salvage::Salvaged;
use btr_volume::Stop;
use btr_walk::TreeFault;
use std::test::Fail;

// So many files, and so much that is missing.
fn files(files: u64, broken: u64) -> Salvaged {
    Salvaged {
        counts: Counts {
            dirs: 0,
            files,
            skipped: 0,
        },
        broken,
    }
}

// The file whose first sector is lost isn't begun.
#[test]
fn a_lost_sector(rt: HostRuntime) -> Result<(), Fail> {
    let mut rack = small(rt.alloc(), RowVolume::Raid5, &["b"])?;
    let all = salvaged_from(&rt, rt.alloc(), &mut rack, NOTHING)?;
    assert_eq!(rt; all.answer, Ok(files(4, 1)));
    let text = b"broken lost 16777216 /a\ndirectories 0 files 4 skipped 0 broken 1\n";
    assert_eq!(rt; all.text.as_slice(), text.as_slice());
    assert_eq!(rt; all.rows.as_slice(), FOUR_FILES);
    assert!(rt; all.part.is_empty());
    Ok(())
}

#[test]
fn nothing_is_lost(rt: HostRuntime) -> Result<(), Fail> {
    let mut rack = small(rt.alloc(), RowVolume::V1, &["a"])?;
    let all = salvaged_from(&rt, rt.alloc(), &mut rack, NOTHING)?;
    assert_eq!(rt; all.answer, Ok(files(5, 0)));
    let text = b"directories 0 files 5 skipped 0 broken 0\n";
    assert_eq!(rt; all.text.as_slice(), text.as_slice());
    assert!(rt; all.rows.as_slice() == five_files(rt.alloc())?.as_slice());
    assert!(rt; all.part.is_empty());
    Ok(())
}

// A sector that could not be read ends the run, before its file is begun.
#[test]
fn a_sector_that_could_not_be_read(rt: HostRuntime) -> Result<(), Fail> {
    let mut rack = small(rt.alloc(), RowVolume::V1, &["a"])?;
    rack.fail_range("a", 10485760, 4096)?;
    let all = salvaged_from(&rt, rt.alloc(), &mut rack, NOTHING)?;
    let unread = TreeFault::Unread(16777216, 0);
    assert_eq!(rt; all.answer, Err(Stop::Tree(unread)));
    assert!(rt; all.text.is_empty());
    assert_eq!(rt; all.rows.as_slice(), FOUR_FILES);
    assert!(rt; all.part.is_empty());
    Ok(())
}
