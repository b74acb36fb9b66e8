// Checksums of sectors that are read one behind another.
ghost use Rattle.std.specs.Prelude.{◌*◌, ◌≤◌};
ghost use Rattle.btr_base.specs.Sum.{sum_size};

use crate::sums::sum_in;
use btr_base::{Sum, SumKind};
use btr_items::SumRun;

/// How many bytes of checksums are kept: those of 256 sectors by CRC-32C, and of 32 by SHA-256.
pub(crate) const ROOM: usize = 1024;

/// Checksums of sectors one behind another, all from one item of the checksum tree: what `sum_ahead` keeps.
#[derive(Clone, Copy)]
pub struct SumsAhead {
    pub(crate) kind: SumKind,
    pub(crate) run: SumRun,
    pub(crate) bytes: [u8; ROOM],
    ghost fits: { run.count * sum_size kind ≤ 1024 },
}

impl SumsAhead {
    ghost use Rattle.std.specs.Prelude.{◌≡◌, ℕ, None, Some};
    ghost use Rattle.btr_base.specs.declared.stored.Sum.{Sum};
    ghost use Rattle.btr_files.specs.Aheads.{kept_sum};

    /// None are kept.
    pub fn new() -> SumsAhead
        ensures { (addr : ℕ) → kept_sum result addr ≡ None }
    {
        SumsAhead {
            kind: SumKind::Crc32c,
            run: SumRun { start: 0, count: 0 },
            bytes: [0; ROOM],
        }
    }

    /// The checksum of the sector at an address; `None` exactly where none of this kind is kept.
    pub fn get(&self, kind: SumKind, addr: u64) -> Option<Sum>
        ensures found { (sum : Sum) → result ≡ Some sum → (self.now.kind ≡ kind) × (kept_sum self.now addr ≡ Some sum) }
        ensures kept { self.now.kind ≡ kind → result ≡ kept_sum self.now addr }
    {
        if self.kind != kind {
            return None;
        }
        sum_in(self.kind, addr, &self.bytes, &self.run)
    }
}
