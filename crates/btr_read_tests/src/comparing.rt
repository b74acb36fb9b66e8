// Whether the candidates of a block agree.
use crate::given::{Given, be_idle, ready, store_without};
use crate::shape::{RAID1C4, RAID5, SINGLE, Shape, contains, place_of};
use crate::volume::{images, name_of, open};
use btr_rack::MemRack;
use btr_read::{Want, compare_candidates};
use std::alloc::Global;
use std::process::Abort;
use std::test::Fail;

// The last byte in front of which nothing is compared, and the one behind it.
const LAST_OF_SUM: u64 = 31;

const BEHIND_SUM: u64 = 32;

// Changes a byte of the data in row 1 on the stripes of a set.
fn change(rack: &mut MemRack, shape: &Shape, stripes: u32, at: u64) -> Result<(), Fail> {
    for stripe in 0..u64::from(shape.stripes) {
        if contains(stripes, stripe) {
            let name = name_of(shape.device_of(stripe));
            let off = place_of(1, stripe).wrapping_add(at);
            let byte = rack.byte(name, off).ok_or("no byte")?;
            rack.poke(name, off, &[byte ^ 0x5a])?;
        }
    }
    Ok(())
}

// Where the candidates of the first data of row 1 don't agree; no loan is live before and behind.
fn compared(
    rt: &impl Abort,
    shape: &Shape,
    rack: &mut MemRack,
    given: &mut Given,
) -> Option<usize> {
    let want = Want::Plain {
        addr: shape.addr(1, 0),
    };
    be_idle(rt, given);
    ready(rt, rack, given);
    let slot = compare_candidates(&want, rack, &mut given.store);
    be_idle(rt, given);
    slot
}

// The same, where a byte is changed on the stripes of a set. The image of the last stripe is open in slot 0.
fn changed(
    rt: &impl Abort,
    alloc: Global,
    shape: &Shape,
    stripes: u32,
    at: u64,
) -> Result<Option<usize>, Fail> {
    let mut rack = images(alloc, shape)?;
    change(&mut rack, shape, stripes, at)?;
    open(&mut rack, shape)?;
    let mut given = store_without(rt, alloc, &rack, shape, 0)?;
    Ok(compared(rt, shape, &mut rack, &mut given))
}

#[test]
fn copies_that_differ(rt: HostRuntime) -> Result<(), Fail> {
    let alloc = rt.alloc();
    for (stripes, slot) in [
        (0, None),
        (0b1111, None),
        (0b0001, Some(2)),
        (0b0010, Some(2)),
        (0b1100, Some(1)),
        (0b1110, Some(2)),
    ] {
        assert_eq!(rt; changed(&rt, alloc, &RAID1C4, stripes, BEHIND_SUM)?, slot);
    }
    assert_eq!(rt; changed(&rt, alloc, &RAID1C4, 0b0010, LAST_OF_SUM)?, None);
    assert_eq!(rt; changed(&rt, alloc, &SINGLE, 0b0001, BEHIND_SUM)?, None);
    Ok(())
}

// Row 1 has P on the first stripe, and then its slices: what P leaves of the first is read from all others.
#[test]
fn slices_and_what_parity_leaves_of_them(rt: HostRuntime) -> Result<(), Fail> {
    let alloc = rt.alloc();
    for (stripes, slot) in [
        (0, None),
        (0b0001, Some(0)),
        (0b0010, Some(0)),
        (0b0100, Some(0)),
        (0b0011, None),
    ] {
        assert_eq!(rt; changed(&rt, alloc, &RAID5, stripes, BEHIND_SUM)?, slot);
    }
    Ok(())
}

// A copy that can't be read is left out.
#[test]
fn copies_that_cannot_be_read(rt: HostRuntime) -> Result<(), Fail> {
    for (stripes, slot) in [(0b0010, None), (0b0110, Some(1))] {
        let mut rack = images(rt.alloc(), &RAID1C4)?;
        change(&mut rack, &RAID1C4, stripes, BEHIND_SUM)?;
        open(&mut rack, &RAID1C4)?;
        rack.fail_range(name_of(1), place_of(1, 1), 1)?;
        let mut given = store_without(&rt, rt.alloc(), &rack, &RAID1C4, 0)?;
        assert_eq!(rt; compared(&rt, &RAID1C4, &mut rack, &mut given), slot);
    }
    Ok(())
}
