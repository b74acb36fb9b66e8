// The newest of the superblocks of several images.
use super::copies::sample;
use btr_super::{Super, choose};
use std::process::Abort;
use std::test::Fail;

// A superblock of a generation.
fn of_generation(generation: u64) -> Super {
    Super {
        generation,
        ..sample(0)
    }
}

// Generations, and which of them is the first of the greatest.
const NEWEST: [([u64; 3], usize); 7] = [
    ([7, 7, 7], 0),
    ([7, 7, 6], 0),
    ([6, 7, 7], 1),
    ([7, 6, 7], 0),
    ([5, 6, 7], 2),
    ([7, 6, 5], 0),
    ([1, u64::MAX, 2], 1),
];

#[test]
fn the_first_of_the_newest_is_chosen(rt: HostRuntime) -> Result<(), Fail> {
    for (generations, index) in NEWEST {
        let supers = [
            of_generation(generations[0]),
            of_generation(generations[1]),
            of_generation(generations[2]),
        ];
        assert_eq!(rt; choose(&supers), index);
    }
    assert_eq!(rt; choose(&[of_generation(0)]), 0);
    Ok(())
}
