// Checks of small volumes.
use btr_check::{check, put_findings};
use btr_make::{RowVolume, row};
use btr_rack::{MemOut, Rack};
use btr_volume::{Stop, Volume};
use btr_walk::TreeFault;
use std::alloc::Global;
use std::test::Fail;

// The lines of what is found on a volume of one image, with these bytes over those at a place; or why it isn't checked.
fn checked(
    alloc: Global,
    which: RowVolume,
    at: u64,
    bytes: &[u8],
) -> Result<Result<Vec<u8>, Stop>, Fail> {
    let mut rack = row(alloc, which)?;
    rack.poke("a", at, bytes)?;
    rack.open("a", false)?;
    let Ok(mut vol) = Volume::open(alloc, &mut rack) else {
        return Err("it wasn't opened")?;
    };
    let findings = match check(alloc, true, &mut rack, &mut vol) {
        Ok(findings) => findings,
        Err(stop) => return Ok(Err(stop)),
    };
    let mut out = MemOut::new(alloc);
    if put_findings(findings, &mut out).is_err() {
        return Err("the output failed")?;
    }
    Ok(Ok(out.text().to_vec(alloc)?))
}

#[test]
fn small_volumes(rt: HostRuntime) -> Result<(), Fail> {
    let alloc = rt.alloc();
    for (which, wanted) in [
        (RowVolume::V1, b"no findings\n".as_slice()),
        (RowVolume::S, b"no findings\n"),
        (RowVolume::X2, b"no findings\n"),
        (RowVolume::X3, b"ref-total 16777216 3 2\nfindings 1\n"),
        (
            RowVolume::N,
            b"sum-missing 5 260 16777216\nsum-missing 5 260 16781312\nfindings 2\n",
        ),
    ] {
        let Ok(text) = checked(alloc, which, 0, &[])? else {
            return Err("it wasn't checked")?;
        };
        assert_eq!(rt; text.as_slice(), wanted, "{which:?}");
    }
    Ok(())
}

// A block of a tree that is lost is found, and in the root tree it is the answer; a sector of data that is lost is found.
#[test]
fn blocks_that_are_lost(rt: HostRuntime) -> Result<(), Fail> {
    let alloc = rt.alloc();
    let answer = checked(alloc, RowVolume::V1, 2097152 + 8000, &[1])?.err();
    assert_eq!(rt; answer, Some(Stop::Tree(TreeFault::Lost(2097152))));
    for (at, wanted) in [
        (2146304 + 8000, b"lost 2146304\nfindings 1\n".as_slice()),
        (10485760, b"data-lost 16777216\nfindings 1\n"),
    ] {
        let Ok(text) = checked(alloc, RowVolume::V1, at, &[255])? else {
            return Err("it wasn't checked")?;
        };
        assert_eq!(rt; text.as_slice(), wanted);
    }
    Ok(())
}
