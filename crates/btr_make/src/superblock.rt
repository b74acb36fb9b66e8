// Superblock copies.
ghost use Rattle.btr_rack.specs.Memory.{Pokes};
ghost use Rattle.btr_make.specs.Copy.{super_copy};

use crate::copy::copy_of;
use btr_rack::{MemRack, PokeError};
use btr_super::Super;

/// Writes a copy of a superblock into the 4096 bytes at a place of an image, open or not: the fields of
/// `sup`, but `place` as its bytenr, the magic, the checksum of these bytes, and zeros in all others.
/// Where the checksum type isn't supported, 32 zeros stand in the checksum's place.
///
/// `NoImage` comes exactly where the name isn't there, `Range` exactly where the image ends before the
/// copy does, and `Memory` for want of it. The image is written only where all goes well.
pub fn put_super(rack: &mut MemRack, name: &str, place: u64, sup: &Super) -> Result<(), PokeError>
    ensures { Pokes name.now place (super_copy sup.now place) rack.old rack.new result }
{
    rack.poke(name, place, &copy_of(sup, place))
}
