// The checksum of a sector.
ghost use Rattle.std.specs.Prelude.{◌≡◌, ◌≤◌, ◌<◌, ◌-◌, ◌/◌, ◌*◌, length, IfOk, Some};
ghost use Rattle.btr_base.specs.Sum.{sum_size};
ghost use Rattle.btr_rack.specs.Rack.{OnlyReads};
ghost use Rattle.btr_read.specs.Serves.{Serves};
ghost use Rattle.btr_read.specs.Store.{SameLoans, free_count};
ghost use Rattle.btr_walk.specs.Reading.{HasCause, Tells};
ghost use Rattle.btr_walk.specs.Showing.{item_of};
ghost use Rattle.btr_volume.specs.Looking.{Judges, Looks, SameVolume};
ghost use Rattle.btr_files.specs.Aheads.{item_reached};
ghost use Rattle.btr_files.specs.Gaps.{HasFirst, IsGap, IsReadGap, first_sum};
ghost use Rattle.btr_files.specs.Sums.{is_sums, kind_in, sum_found, sum_in, sum_under, tree_behind};
ghost use Rattle.btr_files.specs.Told.{TellsGap, TellsSum, KeepsAhead, KeepsSums};

use crate::lookup::{give_back, key_of};
use crate::reading_ahead::{read_ahead, sectors_below};
use crate::summed::Summed;
use crate::sums_ahead::SumsAhead;
use btr_base::{Key, Sum, SumKind};
use btr_items::{SumRun, item};
use btr_rack::Rack;
use btr_read::Store;
use btr_super::Super;
use btr_volume::{TreeRoot, Volume};
use btr_walk::{Found, Reach, RootPlace, TreeFault, find_reach};

/// The objectid of all checksums of data: minus 10.
pub(crate) const SUMS: u64 = u64::MAX - 9;

// The kind of a filesystem's checksums.
pub(crate) fn kind_of(sup: &Super) -> SumKind
    ensures { result ≡ kind_in sup.now }
{
    match SumKind::from_type(sup.csum_type) {
        Some(kind) => kind,
        None => SumKind::Crc32c,
    }
}

// Whether this is the key of checksums of data.
pub(crate) fn is_sums(key: Key) -> bool
    ensures { result ≡ is_sums key }
{
    key.objectid == SUMS && key.kind == item::EXTENT_CSUM
}

// The checksum of the sector at an address, if the run in a body covers it.
pub(crate) fn sum_in(kind: SumKind, addr: u64, body: &[u8], run: &SumRun) -> Option<Sum>
    requires { run.now.count * sum_size kind ≤ length body.now }
    ensures { result ≡ sum_in kind addr body.now run.now }
{
    if addr < run.start {
        return None;
    }
    let sector = (addr - run.start) / 4096;
    if sector >= run.count {
        return None;
    }
    Some(run.sum_at(kind, body, sector))
}

// The checksum in what was found for an address: none where it is another item.
fn sum_found(kind: SumKind, addr: u64, found: &Found<'_>) -> Result<Option<Sum>, TreeFault>
    ensures { Judges (sum_found kind addr (Some (item_of found.now))) result }
{
    if !is_sums(found.key) {
        return Ok(None);
    }
    match SumRun::read(kind, found.key, found.body) {
        Ok(run) => Ok(sum_in(kind, addr, found.body, &run)),
        Err(_) => Err(TreeFault::Malformed(found.block)),
    }
}

// The same where perhaps nothing was found.
fn sum_reached(kind: SumKind, addr: u64, reach: &Reach<'_>) -> Result<Option<Sum>, TreeFault>
    ensures { Judges (sum_found kind addr (item_reached reach.now)) result }
{
    match &reach.found {
        None => Ok(None),
        Some(found) => sum_found(kind, addr, found),
    }
}

// The checksum in what was found for an address, or how many sectors from it on have none.
fn summed(kind: SumKind, addr: u64, reach: &Reach<'_>) -> Result<Summed, TreeFault>
    ensures sum { Judges (sum_found kind addr (item_reached reach.now)) (first_sum result) }
    ensures some { IfOk result HasFirst }
    ensures gap { IsReadGap kind addr reach.now result }
{
    match sum_reached(kind, addr, reach)? {
        Some(sum) => Ok(Summed::Sum(sum)),
        None => Ok(Summed::Gap(sectors_below(addr, reach.until).max(1))),
    }
}

// The checksum of the sector at an address in the tree with this root, or how many sectors from
// it on have none.
#[tactic(auto, using(btr_volume::proofs::Looked::served_base))]
fn find_sums<R: Rack>(
    store: &mut Store,
    sums: &TreeRoot,
    kind: SumKind,
    addr: u64,
    rack: &mut R,
) -> Result<Summed, TreeFault>
    requires serves { Serves (R.seen rack.old) store.old }
    requires room { 4 ≤ free_count store.old }
    ensures serves { Serves (R.seen rack.new) store.new }
    ensures reads { OnlyReads (R.seen rack.old) (R.seen rack.new) }
    ensures loans { SameLoans store.old store.new }
    ensures cause { HasCause store.old.layout (R.seen rack.old) (R.seen rack.new) result }
    ensures some { IfOk result HasFirst }
    ensures gap { Tells store.old.layout (R.seen rack.old) (R.seen rack.new)
        (λ B. IsGap kind B (Some sums.now) addr result) }
    ensures content { Looks store.old.layout (R.seen rack.old) (R.seen rack.new)
        (sum_under kind sums.now.place addr) (first_sum result) }
{
    let mut loan = None;
    let key = key_of(SUMS, item::EXTENT_CSUM, addr);
    let found = match find_reach(store, &sums.place, key, rack, &mut loan) {
        Err(fault) => Err(fault),
        Ok(reach) => summed(kind, addr, &reach),
    };
    give_back(store, loan);
    found
}

// The checksum of the sector at an address in the tree with this root. Where one is found, those
// behind it in its item are kept.
#[tactic(auto, using(btr_volume::proofs::Looked::served_base))]
fn find_ahead<R: Rack>(
    store: &mut Store,
    root: &RootPlace,
    kind: SumKind,
    addr: u64,
    ahead: &mut SumsAhead,
    rack: &mut R,
) -> Result<Option<Sum>, TreeFault>
    requires serves { Serves (R.seen rack.old) store.old }
    requires room { 4 ≤ free_count store.old }
    ensures serves { Serves (R.seen rack.new) store.new }
    ensures reads { OnlyReads (R.seen rack.old) (R.seen rack.new) }
    ensures loans { SameLoans store.old store.new }
    ensures cause { HasCause store.old.layout (R.seen rack.old) (R.seen rack.new) result }
    ensures ahead { KeepsAhead store.old.layout (R.seen rack.old) (R.seen rack.new) root.now ahead.old ahead.new }
    ensures content { Looks store.old.layout (R.seen rack.old) (R.seen rack.new) (sum_under kind root.now addr) result }
{
    let mut loan = None;
    let key = key_of(SUMS, item::EXTENT_CSUM, addr);
    let sum = match find_reach(store, root, key, rack, &mut loan) {
        Err(fault) => Err(fault),
        Ok(reach) => {
            *ahead = read_ahead(kind, addr, &reach);
            sum_reached(kind, addr, &reach)
        }
    };
    give_back(store, loan);
    sum
}

/// Answers the checksum of the sector at an address, which is a multiple of 4096; `None` exactly
/// where no item of the checksum tree covers it, or there is no such tree. The checksums behind it
/// in its item are kept: where those kept before are what look-ups give, so are these. It takes no
/// memory, and four slots are free.
///
/// The faults are those of the blocks that are read, in their order: `Lost`, `Unread`, `Unmapped`
/// and `Crosses` of a block, and `Malformed` where one breaks a rule, doesn't fit its place, or has
/// an item that breaks its form.
pub fn sum_ahead<R: Rack>(
    sums: Option<&TreeRoot>,
    addr: u64,
    ahead: &mut SumsAhead,
    rack: &mut R,
    vol: &mut Volume,
) -> Result<Option<Sum>, TreeFault>
    requires serves { Serves (R.seen rack.old) vol.old.store }
    requires room { 4 ≤ free_count vol.old.store }
    ensures serves { Serves (R.seen rack.new) vol.new.store }
    ensures reads { OnlyReads (R.seen rack.old) (R.seen rack.new) }
    ensures volume { SameVolume vol.old vol.new }
    ensures cause { HasCause vol.old.store.layout (R.seen rack.old) (R.seen rack.new) result }
    ensures ahead { KeepsSums vol.old (R.seen rack.old) (R.seen rack.new) (tree_behind sums.entry) ahead.old ahead.new }
    ensures content { TellsSum vol.old (R.seen rack.old) (R.seen rack.new) (tree_behind sums.entry) addr result }
{
    match sums {
        None => Ok(None),
        Some(sums) => find_ahead(
            &mut vol.store,
            &sums.place,
            kind_of(&vol.sup),
            addr,
            ahead,
            rack,
        ),
    }
}

/// Answers the checksum of the sector at an address, which is a multiple of 4096, or how many
/// sectors from it on have none, as far as one look-up tells: at least one. It takes no memory, and
/// four slots are free.
///
/// The faults are those of `sum_ahead`.
pub fn sums_from<R: Rack>(
    sums: Option<&TreeRoot>,
    addr: u64,
    rack: &mut R,
    vol: &mut Volume,
) -> Result<Summed, TreeFault>
    requires serves { Serves (R.seen rack.old) vol.old.store }
    requires room { 4 ≤ free_count vol.old.store }
    ensures serves { Serves (R.seen rack.new) vol.new.store }
    ensures reads { OnlyReads (R.seen rack.old) (R.seen rack.new) }
    ensures volume { SameVolume vol.old vol.new }
    ensures cause { HasCause vol.old.store.layout (R.seen rack.old) (R.seen rack.new) result }
    ensures some { IfOk result HasFirst }
    ensures gap { TellsGap vol.old (R.seen rack.old) (R.seen rack.new)
        (tree_behind sums.entry) addr result }
    ensures content { TellsSum vol.old (R.seen rack.old) (R.seen rack.new)
        (tree_behind sums.entry) addr (first_sum result) }
{
    match sums {
        None => Ok(Summed::Gap(u64::MAX)),
        Some(sums) => find_sums(&mut vol.store, sums, kind_of(&vol.sup), addr, rack),
    }
}
