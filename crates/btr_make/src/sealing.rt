// Checksums of blocks in images.
ghost use Rattle.std.specs.Prelude.{◌≡◌, ◌<◌, ◌≤◌, length, IfSome, IfNone};
ghost use Rattle.btr_rack.specs.Memory.{named};
ghost use Rattle.btr_make.specs.Seal.{Seals, IsCrcOf};
ghost use Rattle.btr_make.specs.Shelf.{standing};

use crate::disks::write_at;
use crate::fault::MakeFault;
use btr_base::{SumKind, crc_register, sum};
use btr_rack::{MemRack, PokeError};

const SUPER_SIZE: u64 = 4096;

// How many bytes at a block's beginning the checksum doesn't cover.
const ROOM: u64 = 32;

/// Writes the CRC-32C of a block of `len` bytes at `off` of an image, open or not, into the block's first 4 bytes.
///
/// `NoImage` comes exactly where the name isn't there, `Range` exactly where the image ends before the block does, and
/// `Memory` for want of it. After a refusal the image has the bytes that it had.
pub fn seal(rack: &mut MemRack, name: &str, off: u64, len: u64) -> Result<(), PokeError>
    requires { 36 ≤ len }
    ensures { Seals name.now off len rack.old rack.new result }
{
    rack.poke(name, off, &[])?;
    let Some(end) = off.checked_add(len) else {
        return Err(PokeError::Range);
    };
    match crc_of(rack, name, off + ROOM, end) {
        Some(crc) => rack.poke(name, off, &crc.to_le_bytes()),
        None => Err(PokeError::Range),
    }
}

// The CRC-32C of the bytes of an image from one place to another, or `None` where they don't lie in it.
fn crc_of(rack: &MemRack, name: &str, begin: u64, end: u64) -> Option<u32>
    requires { begin < end }
    ensures some { IfSome result (λ crc. IsCrcOf crc (named rack.now name.now) begin end) }
    ensures none { IfNone result (IfSome (named rack.now name.now) (λ image. length image < end)) }
{
    let mut register = u32::MAX;
    for at in begin..end {
        let byte = rack.byte(name, at)?;
        register = crc_register(register, &[byte]);
    }
    Some(!register)
}

/// Writes the checksum of a superblock's copy, as it stands at a place, into its first bytes.
pub(crate) fn seal_super(
    rack: &mut MemRack,
    kind: SumKind,
    name: &str,
    place: u64,
) -> Result<(), MakeFault>
    ensures { standing rack.new ≡ standing rack.old }
{
    let Some(page) = rack.page(name, place / SUPER_SIZE) else {
        return Err(MakeFault::Place);
    };
    let mut covered = [0; 4064];
    for (to, from) in covered.iter_mut().zip(page.iter().skip(32)) {
        *to = *from;
    }
    write_at(rack, name, place, &sum(kind, &covered).bytes)
}
