// The devices, and their superblocks.
ghost use Rattle.std.specs.Prelude.{◌≡◌};
ghost use Rattle.btr_make.specs.Shelf.{standing};

use crate::disks::write_at;
use crate::draft::Draft;
use crate::fault::MakeFault;
use crate::finishing::Roots;
use crate::plan::{FSID, GENERATION, NODE, Plan, device_uuid, image_name};
use crate::sealing::seal_super;
use crate::superblock::put_super;
use btr_base::SumKind;
use btr_items::DevItem;
use btr_make_blocks::bodies;
use btr_rack::MemRack;
use btr_super::Super;
use std::alloc::Global;

const SECTOR: u32 = 4096;

// Where the item of its own device stands in a superblock.
const DEVICE_AT: u64 = 0xc9;

impl Draft {
    // The superblocks of a device.
    fn superblock(&self, devid: u64, roots: Roots) -> Result<Super, MakeFault> {
        let array = self.plan.array(self.alloc)?;
        Ok(Super {
            fsid: FSID,
            place: 0,
            flags: 1,
            generation: GENERATION,
            root: roots.root,
            chunk_root: roots.chunk_root,
            log_root: 0,
            total_bytes: self.plan.images.wrapping_mul(self.plan.image_len),
            bytes_used: self.used(),
            root_dir: 6,
            num_devices: self.plan.images,
            sectorsize: SECTOR,
            nodesize: NODE as u32,
            leafsize: NODE as u32,
            stripesize: SECTOR,
            sys_chunk_array_size: array.len().min(2048) as u32,
            chunk_root_generation: GENERATION,
            compat: 0,
            compat_ro: self.plan.compat_ro,
            incompat: self.plan.incompat,
            csum_type: type_of(self.plan.sums),
            root_level: roots.root_level,
            chunk_root_level: roots.chunk_root_level,
            log_root_level: 0,
            devid,
            dev_uuid: device_uuid(devid),
            label: padded(b"rows"),
            cache_generation: 0,
            uuid_tree_generation: 0,
            metadata_uuid: [0; 16],
            reserved: [0; 224],
            array: padded(array.as_slice()),
            backups: [0; 1237],
        })
    }

    /// Writes the superblocks of each image.
    pub(crate) fn put_supers(&self, rack: &mut MemRack, roots: Roots) -> Result<(), MakeFault>
        ensures { standing rack.new ≡ standing rack.old }
    {
        for devid in 1..=self.plan.images {
            let sup = self.superblock(devid, roots)?;
            let device = self.plan.device(self.alloc, devid)?;
            let device = bodies::dev_item(self.alloc, &device, &FSID)?;
            let name = image_name(devid);
            for place in self.plan.supers {
                write_super(rack, name, *place, &sup)?;
                let at = place.wrapping_add(DEVICE_AT);
                write_at(rack, name, at, device.as_slice())?;
                seal_super(rack, self.plan.sums, name, *place)?;
            }
        }
        Ok(())
    }
}

impl Plan {
    /// A device: its size, and how much of it the stripes take up.
    pub(crate) fn device(&self, alloc: Global, devid: u64) -> Result<DevItem, MakeFault> {
        let mut used = 0u64;
        for chunk in self.chunks() {
            used = used.wrapping_add(chunk.bytes_on(alloc, devid)?);
        }
        Ok(DevItem {
            devid,
            total: self.image_len,
            used,
            uuid: device_uuid(devid),
        })
    }
}

// The number of a kind of checksum in the superblock.
fn type_of(kind: SumKind) -> u16 {
    match kind {
        SumKind::Crc32c => 0,
        SumKind::Xxh64 => 1,
        SumKind::Sha256 => 2,
    }
}

// The bytes, and zeros behind them.
fn padded<const N: usize>(bytes: &[u8]) -> [u8; N] {
    let mut array = [0; N];
    for (to, from) in array.iter_mut().zip(bytes) {
        *to = *from;
    }
    array
}

// Writes a copy of a superblock.
fn write_super(rack: &mut MemRack, name: &str, place: u64, sup: &Super) -> Result<(), MakeFault>
    ensures { standing rack.new ≡ standing rack.old }
{
    put_super(rack, name, place, sup)?;
    Ok(())
}
