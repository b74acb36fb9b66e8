// What the extent trees of small volumes store.
use super::stores::{DATA, file, times};
use btr_base::SumKind;
use btr_make::{RowVolume, row};
use btr_rack::{MemRack, Rack};
use btr_refs::{Stored, StoredList};
use btr_tour::visit;
use btr_volume::Volume;
use std::alloc::Global;
use std::process::Abort;
use std::test::Fail;

// What a visit of the extent tree of the volume of a rack's open images keeps, and how many bytes its superblock states as used.
fn collected(alloc: Global, rack: &mut MemRack) -> Result<Option<(StoredList, u64)>, Fail> {
    if rack.count() == 0 {
        return Ok(None);
    }
    let Ok(mut volume) = Volume::open(alloc, rack) else {
        return Ok(None);
    };
    let Ok(Some(extents)) = volume.tree(2, rack) else {
        return Ok(None);
    };
    let mut stored = Stored::new(alloc, u64::from(volume.sup.nodesize));
    let (place, sums) = (extents.place, SumKind::Crc32c);
    match visit(&place, sums, rack, &mut volume.store, &mut stored) {
        Ok(()) => Ok(Some((stored.into_list(alloc)?, volume.sup.bytes_used))),
        Err(_) => Ok(None),
    }
}

// All extents together have so many bytes, and the data extent states so many references.
fn has_extents(rt: &impl Abort, stored: &StoredList, bytes_used: u64, refs: u64) {
    let mut used: u64 = 0;
    for extent in stored.extents() {
        used = used.wrapping_add(extent.len);
        if extent.addr == DATA {
            assert_eq!(rt; extent.refs, refs);
        }
    }
    assert_eq!(rt; used, bytes_used);
}

#[test]
fn extents_of_small_volumes(rt: HostRuntime) -> Result<(), Fail> {
    for (which, second, refs) in [
        (RowVolume::V1, 0, 1),
        (RowVolume::X2, 1, 2),
        (RowVolume::X3, 1, 3),
    ] {
        let mut rack = row(rt.alloc(), which)?;
        rack.open("a", false)?;
        let answer = collected(rt.alloc(), &mut rack)?;
        assert!(rt; answer.is_some());
        if let Some((stored, bytes_used)) = answer {
            has_extents(&rt, &stored, bytes_used, refs);
            assert_eq!(rt; times(&stored, file(260)), 1);
            assert_eq!(rt; times(&stored, file(261)), second);
        }
    }
    Ok(())
}
