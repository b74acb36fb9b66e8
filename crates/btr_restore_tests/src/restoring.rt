// Restores of small volumes.
use super::memory::{ALL, Job, V1, five_files, outcome};
use btr_files::{Counts, RestorePlan};
use btr_make::RowVolume;
use btr_volume::Stop;
use btr_walk::TreeFault;
use std::alloc::Global;
use std::process::Abort;
use std::test::Fail;

const VERBOSE: RestorePlan = RestorePlan {
    verbose: true,
    ..ALL
};

const WITH_SNAPSHOTS: RestorePlan = RestorePlan {
    snapshots: true,
    ..VERBOSE
};

const DRY: RestorePlan = RestorePlan { dry: true, ..ALL };

const MISSING: RestorePlan = RestorePlan { root: 300, ..ALL };

/// What comes of a restore: the answer, the text, the finished rows, which are those of the five files where none are said, and the unfinished file.
#[derive(Clone, Copy)]
struct Outcome {
    answer: Result<Counts, Stop>,
    text: &'static [u8],
    rows: Option<&'static [u8]>,
    part: &'static [u8],
}

const FIVE_FILES: Outcome = Outcome {
    answer: Ok(Counts {
        dirs: 0,
        files: 5,
        skipped: 0,
    }),
    text: b"directories 0 files 5 skipped 0\n",
    rows: None,
    part: b"",
};

fn comes_to(rt: &impl Abort, alloc: Global, job: &Job, wanted: &Outcome) -> Result<(), Fail> {
    let all = outcome(rt, alloc, job)?;
    assert_eq!(rt; all.answer, wanted.answer);
    assert!(rt; all.text.as_slice() == wanted.text);
    assert!(rt; all.part.as_slice() == wanted.part);
    match wanted.rows {
        Some(rows) => assert!(rt; all.rows.as_slice() == rows),
        None => assert!(rt; all.rows.as_slice() == five_files(alloc)?.as_slice()),
    }
    Ok(())
}

const SMALL: [(RowVolume, &[&str]); 4] = [
    (RowVolume::V1, &["a"]),
    (RowVolume::V1d, &["a"]),
    (RowVolume::Raid5, &["a", "c"]),
    (RowVolume::Raid6, &["b", "d"]),
];

#[test]
fn files_of_small_volumes(rt: HostRuntime) -> Result<(), Fail> {
    for (which, names) in &SMALL {
        let job = Job {
            which: *which,
            names: *names,
            ..V1
        };
        comes_to(&rt, rt.alloc(), &job, &FIVE_FILES)?;
    }
    Ok(())
}

const OTHERS: [(RowVolume, &[&str], RestorePlan, Outcome); 5] = [
    // The file whose first sector is lost is begun, and has no byte.
    (
        RowVolume::Raid5,
        &["b"],
        ALL,
        Outcome {
            answer: Err(Stop::Tree(TreeFault::Lost(16777216))),
            text: b"",
            rows: Some(b"out\ne \ni x\nh1 hello\nh2 hello\n"),
            part: b"a \n",
        },
    ),
    (
        RowVolume::S,
        &["a"],
        VERBOSE,
        Outcome {
            answer: Ok(Counts {
                dirs: 1,
                files: 0,
                skipped: 1,
            }),
            text: b"dir /sub\nskip snapshot /snap\ndirectories 1 files 0 skipped 1\n",
            rows: Some(b"out\nsub\n..\n"),
            part: b"",
        },
    ),
    (
        RowVolume::S,
        &["a"],
        WITH_SNAPSHOTS,
        Outcome {
            answer: Ok(Counts {
                dirs: 3,
                files: 0,
                skipped: 0,
            }),
            text: b"dir /sub\ndir /snap\ndir /snap/sub\ndirectories 3 files 0 skipped 0\n",
            rows: Some(b"out\nsub\n..\nsnap\nsub\n..\n..\n"),
            part: b"",
        },
    ),
    (
        RowVolume::V2,
        &["a"],
        DRY,
        Outcome {
            answer: Ok(Counts {
                dirs: 0,
                files: 5,
                skipped: 1,
            }),
            text: b"file /e\nfile /i\nfile /h1\nfile /h2\nfile /a\nskip compressed /z\ndirectories 0 files 5 skipped 1\n",
            rows: Some(b""),
            part: b"",
        },
    ),
    (
        RowVolume::V1,
        &["a"],
        MISSING,
        Outcome {
            answer: Err(Stop::NoTree(300)),
            text: b"",
            rows: Some(b""),
            part: b"",
        },
    ),
];

#[test]
fn lost_blocks_subvolumes_dry_runs_and_missing_trees(rt: HostRuntime) -> Result<(), Fail> {
    for (which, names, plan, wanted) in &OTHERS {
        let job = Job {
            which: *which,
            names: *names,
            plan: *plan,
            ..V1
        };
        comes_to(&rt, rt.alloc(), &job, wanted)?;
    }
    Ok(())
}
