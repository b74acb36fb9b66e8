use btr_make::{RowVolume, row, spoil};
use btr_rack::{MemRack, PokeError};
use std::test::Fail;

// The numbers of the page of the first superblock, and of that at 1048576, with the leaf of the chunk tree.
const SUPER: u64 = 16;

const CHUNKS: u64 = 256;

// Spoils an image, and says no more than the answer.
fn spoiled(rack: &mut MemRack, name: &str) -> Result<(), PokeError> {
    spoil(rack, name)
}

#[test]
fn a_second_spoiling_undoes_the_first(rt: HostRuntime) -> Result<(), Fail> {
    let whole = row(rt.alloc(), RowVolume::V1)?;
    let mut rack = row(rt.alloc(), RowVolume::V1)?;
    assert_eq!(rt; spoiled(&mut rack, "a"), Ok(()));
    assert_eq!(rt; rack.page("a", SUPER), whole.page("a", SUPER));
    assert_ne!(rt; rack.page("a", CHUNKS), whole.page("a", CHUNKS));
    assert_eq!(rt; spoiled(&mut rack, "a"), Ok(()));
    for index in 0..4096 {
        assert!(rt; rack.page("a", index) == whole.page("a", index), "{index}");
    }
    assert_eq!(rt; spoiled(&mut rack, "b"), Err(PokeError::NoImage));
    Ok(())
}
