// Checksums that are read ahead.
ghost use Rattle.std.specs.Prelude.{◌≡◌, ℕ, ◌+◌, ◌-◌, ◌*◌, ◌/◌, ◌%◌, ◌<◌, ◌≤◌, length, take, true};
ghost use Rattle.btr_base.specs.Sum.{sum_size};
ghost use Rattle.btr_walk.specs.BlockPointer.{is_below};
ghost use Rattle.btr_files.specs.Aheads.{sum_key, IsFrom, IsReadAhead};

use crate::lookup::key_of;
use crate::sums::{SUMS, is_sums};
use crate::sums_ahead::{ROOM, SumsAhead};
use btr_base::{Key, SumKind};
use btr_items::{SumRun, item};
use btr_walk::Reach;

// How many sectors from an address on have keys of checksums below a bound.
pub(crate) fn sectors_below(addr: u64, until: Option<Key>) -> u64
    ensures { (other : ℕ) → addr ≤ other → other < addr + result * 4096 → is_below until (sum_key other) ≡ true }
{
    let Some(key) = until else {
        return u64::MAX;
    };
    if key_of(SUMS, item::EXTENT_CSUM, u64::MAX).is_before(key) {
        return (u64::MAX - addr) / 4096;
    }
    if key.objectid == SUMS && key.kind == item::EXTENT_CSUM && key.offset >= addr {
        (key.offset - addr) / 4096
    } else {
        0
    }
}

// Some bytes, and zeros behind them.
fn copied(bytes: &[u8]) -> [u8; ROOM]
    requires { length bytes.now ≤ 1024 }
    ensures { take (length bytes.now) result ≡ bytes.now }
{
    let mut copy = [0; ROOM];
    copy[..bytes.len()].copy_from_slice(bytes);
    copy
}

// The checksums from that of the sector at an address on, in the body of a run, as far as there is room and the bound reaches.
fn from_run(kind: SumKind, addr: u64, body: &[u8], run: &SumRun, until: Option<Key>) -> SumsAhead
    requires size { run.now.count * sum_size kind ≡ length body.now }
    requires behind { run.now.start ≤ addr }
    requires aligned { (addr - run.now.start) % 4096 ≡ 0 }
    requires covered { (addr - run.now.start) / 4096 < run.now.count }
    ensures { IsFrom kind addr body.now run.now until result }
{
    let size = kind.size();
    let first = (addr - run.start) / 4096;
    let count = (run.count - first)
        .min((ROOM / size) as u64)
        .min(sectors_below(addr, until));
    let at = first as usize * size;
    let len = count as usize * size;
    SumsAhead {
        kind,
        run: SumRun { start: addr, count },
        bytes: copied(&body[at..at + len]),
    }
}

/// The checksums from that of the sector at an address on, where a lookup at its key found their item.
pub(crate) fn read_ahead(kind: SumKind, addr: u64, reach: &Reach<'_>) -> SumsAhead
    ensures { IsReadAhead kind addr reach.now result }
{
    let Some(found) = reach.found else {
        return SumsAhead::new();
    };
    if !is_sums(found.key) {
        return SumsAhead::new();
    }
    let Ok(run) = SumRun::read(kind, found.key, found.body) else {
        return SumsAhead::new();
    };
    if addr < run.start || !(addr - run.start).is_multiple_of(4096) {
        return SumsAhead::new();
    }
    if (addr - run.start) / 4096 >= run.count {
        return SumsAhead::new();
    }
    from_run(kind, addr, found.body, &run, reach.until)
}
