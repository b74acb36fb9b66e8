// The checked blocks of small volumes, and their sectors without a checksum.
use super::damage::scrub_images;
use super::shapes::{Made, build};
use btr_make::RowVolume;
use std::test::Fail;

// How many checked blocks volumes have, and how many sectors without a checksum: none, some in a
// hole, one before a sector that has one, one behind it up to the extent's end, and over a full
// stripe.
const COUNTS: [(Made, u64, u64); 6] = [
    (Made::Row(RowVolume::V1d), 8, 0),
    (Made::Row(RowVolume::N), 6, 2),
    (Made::HalfSummed, 7, 1),
    (Made::Unsummed5(""), 8, 15),
    (Made::Unsummed6(""), 8, 15),
    (Made::Filled5(&[]), 8, 30),
];

#[test]
fn blocks_of_small_volumes(rt: HostRuntime) -> Result<(), Fail> {
    for (which, blocks, unchecked) in COUNTS {
        let mut rack = build(rt.alloc(), which)?;
        let tally = scrub_images(&rt, rt.alloc(), false, &mut rack, which.names())?;
        assert_eq!(rt;
            tally.map(|tally| (tally.blocks, tally.unchecked)),
            Some((blocks, unchecked)),
            "{which:?}"
        );
    }
    Ok(())
}
