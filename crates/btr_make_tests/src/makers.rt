// What makes the volume of the self-test, and checksums that are written anew.
use super::blocks::block_at;
use super::sound::has_two_supers;
use btr_base::{SumKind, is_summed};
use btr_make::{Builder, Given, Maker, RowVolume, row, seal};
use std::alloc::Global;
use std::process::Abort;
use std::test::Fail;

#[test]
fn makers(rt: HostRuntime) -> Result<(), Fail> {
    let built = Builder.make(rt.alloc(), 1)?;
    let given = Given::new(built).make(rt.alloc(), 1)?;
    has_two_supers(&rt, &given, "c")
}

// Whether the root tree's block of a small volume has its checksum, a byte of which was changed, with its checksum written anew or not.
fn is_right(alloc: Global, is_sealed: bool) -> Result<bool, Fail> {
    let mut rack = row(alloc, RowVolume::V1)?;
    rack.poke("a", 2097352, &[1])?;
    if is_sealed {
        seal(&mut rack, "a", 2097152, 16384)?;
    }
    let block = block_at(alloc, &rack, "a", 2097152)?;
    Ok(block.len() == 16384 && is_summed(SumKind::Crc32c, block.as_slice()))
}

#[test]
fn seals(rt: HostRuntime) -> Result<(), Fail> {
    assert!(rt; !is_right(rt.alloc(), false)?);
    assert!(rt; is_right(rt.alloc(), true)?);
    Ok(())
}
