// A scrub makes as many writes as there are wrong ranges: the next one, which would fail, isn't
// made.
use crate::mending::{differing_page, scrub};
use btr_make::{RowVolume, row, spoil};
use btr_rack::MemRack;
use btr_test_calls::CallFault;
use std::alloc::Global;

// A volume, its images, those that are spoiled, how many writes mend them, and the text.
const COUNTED: &[(RowVolume, &[&str], &[&str], u64, &[u8])] = &[
    (
        RowVolume::Raid5,
        &["a", "b", "c"],
        &["a"],
        8,
        b"blocks 8 bad 8 repaired 8 lost 0 parity 0 unchecked 0\n",
    ),
    (
        RowVolume::Raid6,
        &["a", "b", "c", "d"],
        &["a", "d"],
        10,
        b"blocks 8 bad 8 repaired 8 lost 0 parity 2 unchecked 0\n",
    ),
];

fn spoiled(alloc: Global, volume: RowVolume, names: &[&str]) -> Result<MemRack, CallFault> {
    let mut rack = row(alloc, volume)?;
    for name in names {
        spoil(&mut rack, name)?;
    }
    Ok(rack)
}

#[test]
fn no_write_behind_the_last(rt: HostRuntime) -> Result<(), CallFault> {
    let alloc = rt.alloc();
    for (volume, names, bad, writes, text) in COUNTED {
        let mut rack = spoiled(alloc, *volume, bad)?;
        rack.tear(165);
        rack.fail_write(writes.wrapping_add(1))?;
        let told = scrub(alloc, &mut rack, names)?;
        assert_eq!(rt; told.text.as_slice(), *text);
        let right = row(alloc, *volume)?;
        for name in *names {
            assert_eq!(rt; differing_page(&right, &rack, name), None);
        }
    }
    Ok(())
}
