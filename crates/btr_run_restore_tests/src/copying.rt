// Restores that go past what is broken, and streams of what stands, by the words of the command line.
use super::restoring::restores;
use btr_make::{RowVolume, row};
use btr_test_calls::CallFault;

// A volume, and the words, the text and the exit status of a call on it, and whether a file is left unfinished.
const ROWS: &[(RowVolume, &[&str], &[u8], u8, bool)] = &[
    (
        RowVolume::V1,
        &["restore", "-i", "out", "a"],
        b"directories 0 files 5 skipped 0 broken 0\n",
        0,
        false,
    ),
    (
        RowVolume::Raid5,
        &["restore", "-i", "out", "b"],
        b"broken lost 16777216 /a\ndirectories 0 files 4 skipped 0 broken 1\n",
        1,
        false,
    ),
    (
        RowVolume::V1,
        &["restore", "-i", "-D", "out", "a"],
        b"error: usage error at word 2\n",
        2,
        false,
    ),
    (
        RowVolume::V1,
        &["send", "out", "v", "a"],
        b"directories 0 files 5 skipped 0\n",
        0,
        false,
    ),
    (
        RowVolume::Raid5,
        &["send", "out", "v", "b"],
        b"error: lost block 16777216\n",
        1,
        true,
    ),
    (
        RowVolume::V1,
        &["send", "out", "a/b", "a"],
        b"error: usage error at word 2\n",
        2,
        false,
    ),
];

#[test]
fn broken_files_and_streams(rt: HostRuntime) -> Result<(), CallFault> {
    for (which, all, text, code, has_part) in ROWS {
        let rack = &mut row(rt.alloc(), *which)?;
        let told = restores(&rt, rt.alloc(), rack, all, text, *code)?;
        assert_eq!(rt; told.has_part, *has_part);
    }
    Ok(())
}
