// Whether superblocks are those of a filesystem that can be read.
ghost use Rattle.std.specs.Prelude.{◌≡◌, [], true, None, IfOk};
ghost use Rattle.btr_volume.specs.Start.{has_device, foreign_from, twin_from, is_nodesize, is_geometry, refusals, first_refusal};
ghost use Rattle.btr_volume.specs.Refusing.{IsRefusal};
ghost use Rattle.btr_volume.specs.Opening.{NoneAtFault};

use crate::OpenFault;
use bitflags::Flags;
use btr_super::{Incompat, Super, diverged};

// The features that are read.
const SUPPORTED: Incompat = Incompat(
    Incompat::MIXED_BACKREF.0
        | Incompat::DEFAULT_SUBVOL.0
        | Incompat::MIXED_GROUPS.0
        | Incompat::COMPRESS_LZO.0
        | Incompat::COMPRESS_ZSTD.0
        | Incompat::BIG_METADATA.0
        | Incompat::EXTENDED_IREF.0
        | Incompat::RAID56.0
        | Incompat::SKINNY_METADATA.0
        | Incompat::NO_HOLES.0
        | Incompat::METADATA_UUID.0
        | Incompat::RAID1C34.0,
);

// The first slot whose superblock is of another filesystem.
fn foreign(chosen: &Super, supers: &[Super]) -> Option<usize>
    ensures { result ≡ foreign_from 0 chosen.now supers.now }
{
    for (slot, s) in supers.iter().enumerate() {
        if s.fsid != chosen.fsid {
            return Some(slot);
        }
    }
    None
}

// Whether one of the superblocks is that of a device.
fn has_device(supers: &[Super], devid: u64) -> bool
    ensures { result ≡ has_device supers.now devid }
{
    supers.iter().any(|s| s.devid == devid)
}

// The first slot whose device is that of an earlier slot.
fn twin(supers: &[Super]) -> Option<usize>
    ensures { result ≡ twin_from 0 [] supers.now }
{
    for (slot, s) in supers.iter().enumerate() {
        if has_device(&supers[..slot], s.devid) {
            return Some(slot);
        }
    }
    None
}

fn is_nodesize(size: u32) -> bool
    ensures { result ≡ is_nodesize size }
{
    matches!(size, 4096 | 8192 | 16384 | 32768 | 65536)
}

// Sizes and levels that are read.
fn is_geometry(s: &Super) -> bool
    ensures { result ≡ is_geometry s.now }
{
    s.sectorsize == 4096
        && is_nodesize(s.nodesize)
        && s.root_level < 8
        && s.chunk_root_level < 8
        && s.sys_chunk_array_size <= 2048
}

/// Refuses superblocks, the newest of which is `chosen`, by the first reason: `Foreign`, `Twin`, `Diverged`, `Unsupported`,
/// `Geometry`, `LogPending`.
pub(crate) fn test_supers(chosen: &Super, supers: &[Super]) -> Result<(), OpenFault>
    ensures refusal { IsRefusal (first_refusal (refusals supers.now chosen.now)) result }
    ensures geometry { IfOk result (λ _. is_geometry chosen.now ≡ true) }
    ensures own { IfOk result (λ _. twin_from 0 [] supers.now ≡ None) }
    ensures early { NoneAtFault result }
{
    if let Some(slot) = foreign(chosen, supers) {
        return Err(OpenFault::Foreign(slot));
    }
    if let Some(slot) = twin(supers) {
        return Err(OpenFault::Twin(slot));
    }
    if let Some(slot) = diverged(chosen, supers) {
        return Err(OpenFault::Diverged(slot));
    }
    let unsupported = chosen.incompat().difference(SUPPORTED);
    if !unsupported.is_empty() {
        return Err(OpenFault::Unsupported(unsupported.bits()));
    }
    if !is_geometry(chosen) {
        return Err(OpenFault::Geometry);
    }
    if chosen.log_root != 0 {
        return Err(OpenFault::LogPending);
    }
    Ok(())
}
