// Whether superblocks of one generation are those of one commit.
ghost use Rattle.std.specs.Prelude.{◌≡◌};
ghost use Rattle.btr_super.specs.Compared.{numbers, is_same, diverged_from};

use crate::Super;

// The numbers that are compared.
fn numbers(s: &Super) -> [u64; 22]
    ensures { result ≡ numbers s.now }
{
    [
        s.flags,
        s.generation,
        s.root,
        s.chunk_root,
        s.total_bytes,
        s.bytes_used,
        s.root_dir,
        s.num_devices,
        u64::from(s.sectorsize),
        u64::from(s.nodesize),
        u64::from(s.leafsize),
        u64::from(s.stripesize),
        u64::from(s.sys_chunk_array_size),
        s.chunk_root_generation,
        s.compat,
        s.compat_ro,
        s.incompat,
        u64::from(s.csum_type),
        u64::from(s.root_level),
        u64::from(s.chunk_root_level),
        s.cache_generation,
        s.uuid_tree_generation,
    ]
}

// Whether two superblocks have the same in all that is compared.
fn is_same(a: &Super, b: &Super) -> bool
    ensures { result ≡ is_same a.now b.now }
{
    numbers(a) == numbers(b)
        && a.fsid == b.fsid
        && a.label == b.label
        && a.metadata_uuid == b.metadata_uuid
        && a.reserved == b.reserved
        && a.array == b.array
        && a.backups == b.backups
}

/// The first slot whose superblock has the chosen one's generation and another content: it differs in a byte outside the checksum,
/// the copy's own place, the fields of the log tree and the item of the image's own device.
pub fn diverged(chosen: &Super, supers: &[Super]) -> Option<usize>
    ensures { result ≡ diverged_from 0 chosen.now supers.now }
{
    for (slot, s) in supers.iter().enumerate() {
        if s.generation == chosen.generation && !is_same(s, chosen) {
            return Some(slot);
        }
    }
    None
}
