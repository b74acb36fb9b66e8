// Superblocks that can't be written.
use super::sound::next_super;
use btr_make::{RowVolume, put_super, row};
use btr_rack::{MemRack, PokeError};
use btr_super::Super;
use std::process::Abort;
use std::test::Fail;

// Writes a superblock, and says no more than the answer.
fn written(rack: &mut MemRack, name: &str, sup: &Super) -> Result<(), PokeError> {
    put_super(rack, name, 65536, sup)
}

#[test]
fn refusals(rt: HostRuntime) -> Result<(), Fail> {
    let sup = next_super(&mut row(rt.alloc(), RowVolume::V1)?, "a")?;
    let mut rack = MemRack::new(rt.alloc());
    rack.add("a", 69631)?;
    assert_eq!(rt; written(&mut rack, "b", &sup), Err(PokeError::NoImage));
    assert_eq!(rt; written(&mut rack, "a", &sup), Err(PokeError::Range));
    Ok(())
}
