// Trials of made volumes, sound and spoiled.
ghost use Rattle.std.specs.Prelude.{IfOk};
ghost use Rattle.btr_make.specs.Shelf.{IsShelved};

use btr_make::{make, spoil};
use btr_rack::{MemOut, MemRack};
use btr_trial::trial;
use btr_volume::Stop;
use std::alloc::Global;
use std::test::Fail;

/// A volume of so many directories, some of whose images are spoiled, tried as one of so many.
struct Case {
    made: u64,
    spoiled: &'static [&'static str],
    tried: u64,
    text: &'static [u8],
    differing: u64,
}

// The second and third have directories that the trial doesn't know, or lack one. The metadata of the fourth are lost until its trial spoils the second
// image once more, which makes that right. Of the last, 64 of the 87 sectors of data stand on or need two bad images.
const CASES: [Case; 6] = [
    Case {
        made: 1,
        spoiled: &[],
        tried: 1,
        text: b"check: no findings\nfirst restore: same\nscrub: lost 0\nsecond restore: same\n",
        differing: 0,
    },
    Case {
        made: 3,
        spoiled: &[],
        tried: 2,
        text: b"check: no findings\nfirst restore: differs\nscrub: lost 0\nsecond restore: differs\n",
        differing: 2,
    },
    Case {
        made: 1,
        spoiled: &[],
        tried: 2,
        text: b"check: no findings\nfirst restore: differs\nscrub: lost 0\nsecond restore: differs\n",
        differing: 2,
    },
    Case {
        made: 10,
        spoiled: &["a", "b"],
        tried: 10,
        text: b"check: failed\nfirst restore: same\nscrub: lost 0\nsecond restore: same\n",
        differing: 1,
    },
    Case {
        made: 10,
        spoiled: &[],
        tried: 10,
        text: b"check: no findings\nfirst restore: same\nscrub: lost 0\nsecond restore: same\n",
        differing: 0,
    },
    Case {
        made: 10,
        spoiled: &["c"],
        tried: 10,
        text: b"check: no findings\nfirst restore: failed\nscrub: lost 64\nsecond restore: same\n",
        differing: 2,
    },
];

// The volume of a case.
fn volume_of(alloc: Global, case: &Case) -> Result<MemRack, Fail>
    ensures { IfOk result IsShelved }
{
    if case.made < 1 || case.made > 1000 {
        return Err("no volume is made of so many directories")?;
    }
    let mut rack = make(alloc, case.made)?;
    for name in case.spoiled {
        spoil(&mut rack, name)?;
    }
    Ok(rack)
}

// What a trial of a case answers and puts, where the put of this number fails.
fn tried(alloc: Global, case: &Case, failing: u64) -> Result<(Result<u64, Stop>, Vec<u8>), Fail> {
    if case.tried < 1 || case.tried > 1000 {
        return Err("no volume of so many directories is tried")?;
    }
    let mut rack = volume_of(alloc, case)?;
    let mut out = MemOut::new(alloc);
    out.fail_call(failing)?;
    let answer = trial(alloc, case.tried, &mut rack, &mut out);
    Ok((answer, out.text().to_vec(alloc)?))
}

#[test]
fn lines_and_answers(rt: HostRuntime) -> Result<(), Fail> {
    for case in &CASES {
        let (answer, text) = tried(rt.alloc(), case, 0)?;
        assert_eq!(rt; text.as_slice(), case.text);
        assert_eq!(rt; answer, Ok(case.differing));
    }
    Ok(())
}

// All lines are one put.
#[test]
fn an_output_that_fails(rt: HostRuntime) -> Result<(), Fail> {
    let (answer, text) = tried(rt.alloc(), &CASES[0], 1)?;
    assert_eq!(rt; answer, Err(Stop::Out));
    assert!(rt; text.is_empty());
    let (answer, text) = tried(rt.alloc(), &CASES[0], 2)?;
    assert_eq!(rt; answer, Ok(0));
    assert_eq!(rt; text.as_slice(), CASES[0].text);
    Ok(())
}
