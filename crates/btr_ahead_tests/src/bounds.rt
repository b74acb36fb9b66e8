// How far is read ahead, and what follows a read that fails.
use crate::images::{MIB, image};
use crate::sectors::{DUP, RAID0, SINGLE, Sectors, want};
use btr_read::Want;
use std::test::Fail;

#[test]
fn one_read_for_many_sectors(rt: HostRuntime) -> Result<(), Fail> {
    // The opening is the first call, and the second read fails.
    let rack = image(rt.alloc(), 3)?;
    let mut sectors = Sectors::new(&rt, rt.alloc(), SINGLE, rack)?;
    assert!(rt; sectors.has_all(0, 64, 96));
    assert!(rt; !sectors.has(&want(3, 4), 1));
    assert!(rt; !sectors.has(&want(64, 64), 32));
    assert!(rt; sectors.has(&want(64, 64), 32));
    assert!(rt; sectors.has(&want(95, 95), 1));
    Ok(())
}

#[test]
fn no_more_than_is_wanted(rt: HostRuntime) -> Result<(), Fail> {
    let rack = image(rt.alloc(), 3)?;
    let mut sectors = Sectors::new(&rt, rt.alloc(), DUP, rack)?;
    assert!(rt; sectors.has_all(4, 6, 6));
    assert!(rt; !sectors.has(&want(6, 6), 1));

    // No sector: behind the chunk, and of another kind.
    assert!(rt; !sectors.has(&want(256, 256), 1));
    assert!(rt; !sectors.has(&Want::Plain { addr: 16 * MIB }, 1));
    Ok(())
}

#[test]
fn no_further_than_an_element(rt: HostRuntime) -> Result<(), Fail> {
    let rack = image(rt.alloc(), 3)?;
    let mut sectors = Sectors::new(&rt, rt.alloc(), RAID0, rack)?;
    assert!(rt; sectors.has_all(0, 16, 64));

    // The element behind it in the image is that of the next row.
    assert!(rt; !sectors.has(&want(32, 16), 32));
    assert!(rt; sectors.has(&want(32, 16), 32));
    Ok(())
}

#[test]
fn one_by_one_around_a_bad_sector(rt: HostRuntime) -> Result<(), Fail> {
    // The opening is the first call. Sector 3 is read by the second, and by the sixth alone.
    let mut rack = image(rt.alloc(), 9)?;
    rack.fail_range("disk", MIB + 4096 * 3, 1)?;
    let mut sectors = Sectors::new(&rt, rt.alloc(), SINGLE, rack)?;
    assert!(rt; !sectors.has(&want(0, 0), 64));
    assert!(rt; sectors.has_all(0, 3, 64));
    assert!(rt; !sectors.has(&want(3, 3), 61));
    assert!(rt; sectors.has(&want(4, 4), 60));
    assert!(rt; sectors.has_all(63, 65, 65));
    assert!(rt; !sectors.has(&want(65, 65), 1));
    Ok(())
}
