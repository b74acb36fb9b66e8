use crate::{ItemFault, item, key_fits};
use btr_base::{Key, Sum, SumKind};

/// Checksums of consecutive sectors: an EXTENT_CSUM.
#[derive(Clone, Copy, Debug, PartialEq, Eq)]
pub struct SumRun {
    /// The logical address of the first sector.
    pub start: u64,
    /// How many sectors, of 4096 bytes, there are.
    pub count: u64,
}

impl SumRun {
    ghost use Rattle.std.specs.Prelude.{◌≡◌, ◌+◌, ◌*◌, ◌<◌, ◌≤◌, length, drop, IfOk};
    ghost use Rattle.btr_base.specs.Sum.{sum_size, stored_sum};
    ghost use Rattle.btr_items.specs.SumRun.{sum_run_of};

    /// Reads an EXTENT_CSUM with this key, where checksums are of this kind: its body is `count` whole checksums, one or more.
    /// `ItemFault` exactly where the key is of another type or breaks its rules, the body isn't that, or the sectors end
    /// at 2^64 or behind.
    pub fn read(kind: SumKind, key: Key, body: &[u8]) -> Result<SumRun, ItemFault>
        ensures form { result ≡ sum_run_of kind key body.now }
        ensures size { IfOk result (λ run. run.count * sum_size kind ≡ length body.now) }
    {
        let size = kind.size();
        let count = (body.len() / size) as u64;
        let is_whole = !body.is_empty() && body.len().is_multiple_of(size);
        if key.kind != item::EXTENT_CSUM || !key_fits(key) || !is_whole {
            return Err(ItemFault);
        }
        if count > (u64::MAX - key.offset) / 4096 {
            return Err(ItemFault);
        }
        Ok(SumRun {
            start: key.offset,
            count,
        })
    }

    /// The checksum of sector `i` of the run, in the body that it was read from.
    pub fn sum_at(&self, kind: SumKind, body: &[u8], i: u64) -> Sum
        requires below { i < self.now.count }
        requires stands { (i + 1) * sum_size kind ≤ length body.now }
        ensures { result ≡ stored_sum kind (drop (i * sum_size kind) body.now) }
    {
        let size = kind.size();
        let at = i as usize * size;
        let mut bytes = [0; 32];
        bytes[..size].copy_from_slice(&body[at..at + size]);
        Sum {
            bytes,
            size: size as u8,
        }
    }
}
