// What is kept of the blocks that are listed: those for which something may have to be written, and of a full stripe all or none.
ghost use Rattle.std.specs.Prelude.{◌≡◌, ◌+◌, ◌<◌, ◌≤◌, ◌^◌, ◌||◌, nat_lt, [], ◌∷◌, false, Err, Ok, IfOk, IfSome, IsOk, IsSome, OnOk, Option, Some};
ghost use Rattle.btr_rack.specs.Rack.{OnlyReads};
ghost use Rattle.btr_read.specs.Fate.{sought};
ghost use Rattle.btr_read.specs.Layout.{Layout};
ghost use Rattle.btr_read.specs.Store.{SameLoans};
ghost use Rattle.btr_scrub_copies.specs.Writes.{AccountsMend, Images};
ghost use Rattle.btr_scrub.specs.WrittenRanges.{LiesInStripe};
ghost use Rattle.btr_scrub.specs.Listed.{AreOfKind, IsList, IsOfKind, kept_wants};
ghost use Rattle.btr_scrub.specs.Order.{AreApart};
ghost use Rattle.btr_scrub.specs.Scanning.{IsSpanIn};
ghost use Rattle.btr_scrub.specs.Scrubbing.{CanMend, HasRooms};
ghost use Rattle.btr_chunk.specs.Table.{IsTable, chunk_at};
ghost use Rattle.btr_chunk.specs.declared.chunk.Chunk.{Chunk};
ghost use Rattle.btr_scrub.specs.Rowing.{KeepsRows};
ghost use Rattle.btr_chunk.specs.Chunk.{mirrors};
ghost use Rattle.btr_scrub.specs.Sifting.{CanSift, PassesInert, Sifts, SiftsNext, HasKeptOf, WentIn, is_copy_needed, lies_in};
ghost use Rattle.btr_scrub.specs.Judged.{has_older};
ghost use Rattle.btr_read.specs.Candidates.{Target};
ghost use Rattle.btr_scrub.specs.Whole.{answer_of};
ghost use Rattle.btr_scrub.specs.declared.gathered.Gathered.{Gathered};
ghost use Rattle.btr_scrub.specs.declared.tally.Tally.{Tally};

use crate::doubts::{copies_of, has_older};
use crate::extent::Span;
use crate::gathered::Gathered;
use crate::judging::judge_blocks;
use crate::listed::Listed;
use crate::reader::{Reader, read_all};
use crate::rowed::{RowRoom, keep_rows};
use crate::rows::sift_row;
use crate::sifted::Sifted;
use btr_base::{Memory, SumKind};
use btr_rack::Rack;
use btr_read::{Store, Want};
use btr_scrub_copies::{MendFault, Mended, mend_copies};
use btr_scrub_row::is_plain;
use btr_volume::Stop;
use btr_walk::TreeFault;
use std::alloc::Global;

/// What is kept of the blocks that were listed so far.
#[derive(Drop)]
pub(crate) struct Sieve {
    /// What is kept of them.
    pub sifted: Sifted,
    /// How many sectors of data have no checksum.
    pub unchecked: u64,
    /// Where the last block ends.
    pub end: u64,
    /// Why the first block is refused that has no position or begins before the one before ends;
    /// nothing more is kept then.
    pub refused: Option<TreeFault>,
}

// Whether some image of the chunk in which a block lies is older.
fn lies_older(want: &Want, store: &Store) -> bool
    requires { IsOk (sought store.now.layout want.now) }
    ensures { (t : Target) → sought store.now.layout want.now ≡ Ok t → result ≡ has_older store.now.layout.devices t.chunk }
{
    let Some(chunk) = store.chunks().find(want.addr()) else {
        unreachable!();
    };
    has_older(chunk, store)
}

// Whether a block of which this would come isn't sound.
fn is_unsound(mended: &Mended) -> bool
    ensures { result ≡ (nat_lt 0 mended.now.bad || mended.now.lost) }
{
    mended.bad > 0 || mended.lost
}

// Whether something may have to be written for a block of a chunk with copies. Those of a checked one are read.
fn is_needed<R: Rack>(
    want: &Want,
    rack: &mut R,
    store: &mut Store,
    marks: &mut [bool],
) -> Result<bool, MendFault>
    requires ready { CanMend false (R.seen rack.old) store.old marks.old }
    requires sought { IsOk (sought store.old.layout want.now) }
    requires copies { (t : Target) → sought store.old.layout want.now ≡ Ok t → IsSome (mirrors t.chunk) }
    ensures ready { CanMend false (R.seen rack.new) store.new marks.new }
    ensures loans { SameLoans store.old store.new }
    ensures reads { OnlyReads (R.seen rack.old) (R.seen rack.new) }
    ensures needed { (t : Target) → sought store.old.layout want.now ≡ Ok t
        → IfOk result (λ needed. IfSome (R.seen rack.old).held (λ images. needed ≡ is_copy_needed images store.old.layout t)) }
    ensures account { AccountsMend (LiesInStripe store.old.layout) (R.seen rack.old) (R.seen rack.new) result }
{
    if is_plain(want) {
        return Ok(lies_older(want, store));
    }
    let mended = mend_copies(want, false, rack, store, marks)?;
    Ok(is_unsound(&mended))
}

// Keeps a block of a chunk with copies, or counts it.
fn sift_one<R: Rack>(
    want: &Want,
    rack: &mut R,
    store: &mut Store,
    marks: &mut [bool],
    sifted: &mut Sifted,
) -> Result<(), MendFault>
    requires ready { CanMend false (R.seen rack.old) store.old marks.old }
    requires sought { IsOk (sought store.old.layout want.now) }
    requires copies { (t : Target) → sought store.old.layout want.now ≡ Ok t → IsSome (mirrors t.chunk) }
    requires can { CanSift store.old.layout sifted.old }
    requires of_kind { IsOfKind sifted.old.kept.kind want.now }
    ensures ready { CanMend false (R.seen rack.new) store.new marks.new }
    ensures loans { SameLoans store.old store.new }
    ensures reads { OnlyReads (R.seen rack.old) (R.seen rack.new) }
    ensures sifts { OnOk result (Sifts store.old.layout (R.seen rack.old).held (want.now ∷ []) sifted.old sifted.new) }
    ensures account { AccountsMend (LiesInStripe store.old.layout) (R.seen rack.old) (R.seen rack.new) result }
{
    if is_needed(want, rack, store, marks)? {
        return match sifted.kept.push(want) {
            Ok(()) => Ok(()),
            Err(Memory) => Err(MendFault::Memory),
        };
    }
    if !is_plain(want) {
        sifted.sound = sifted.sound.saturating_add(1);
    }
    Ok(())
}

// Passes over the sectors without a checksum that follow one for which nothing has to be written,
// as far as they lie in its chunk: nothing has to be written for them either.
fn pass_inert(want: &Want, blocks: &mut Reader<'_>, store: &Store)
    requires table { IsTable store.now.layout.chunks }
    ensures { PassesInert store.now.layout want.now blocks.old blocks.new }
{
    if !is_plain(want) {
        return;
    }
    let Some(chunk) = store.chunks().find(want.addr()) else {
        return;
    };
    if chunk.mirrors().is_some() && !has_older(chunk, store) {
        blocks.pass_plain(chunk.start + chunk.length);
    }
}

// Keeps the rows of a block's chunk that come next and hold nothing but sectors without a checksum one behind another: each of them is kept whole.
fn keep_plain(
    addr: u64,
    blocks: &mut Reader<'_>,
    store: &Store,
    kept: &mut Listed,
) -> Result<(), Memory>
    requires chunk { IsSome (chunk_at store.now.layout.chunks addr) }
    requires is_list { IsList kept.old }
    ensures { (chunk : Chunk) → chunk_at store.now.layout.chunks addr ≡ Some chunk
        → OnOk result (KeepsRows chunk blocks.old blocks.new kept.old kept.new) }
{
    let Some(chunk) = store.chunks().find(addr) else {
        unreachable!();
    };
    keep_rows(chunk, blocks, kept)
}

// Sifts a block, and those that are sifted with it: the others of its full stripe and the plain rows behind it, or the plain
// sectors that follow one in a chunk with copies.
fn sift_next<R: Rack>(
    want: Want,
    blocks: &mut Reader<'_>,
    rack: &mut R,
    store: &mut Store,
    marks: &mut [bool],
    sifted: &mut Sifted,
) -> Result<(), MendFault>
    requires ready { CanMend false (R.seen rack.old) store.old marks.old }
    requires apart { AreApart store.old.layout 0 (want ∷ blocks.old) }
    requires can { CanSift store.old.layout sifted.old }
    requires of_kind { AreOfKind sifted.old.kept.kind (want ∷ blocks.old) }
    ensures ready { CanMend false (R.seen rack.new) store.new marks.new }
    ensures loans { SameLoans store.old store.new }
    ensures reads { OnlyReads (R.seen rack.old) (R.seen rack.new) }
    ensures sifts { OnOk result (SiftsNext store.old.layout (R.seen rack.old).held want blocks.old blocks.new sifted.old sifted.new) }
    ensures account { AccountsMend (LiesInStripe store.old.layout) (R.seen rack.old) (R.seen rack.new) result }
{
    if copies_of(&want, store).is_none() {
        let addr = want.addr();
        sift_row(want, blocks, rack, store, marks, sifted)?;
        return match keep_plain(addr, blocks, store, &mut sifted.kept) {
            Ok(()) => Ok(()),
            Err(Memory) => Err(MendFault::Memory),
        };
    }
    sift_one(&want, rack, store, marks, sifted)?;
    pass_inert(&want, blocks, store);
    Ok(())
}

/// Sifts the blocks that a reader has: those for which something may have to be written are kept,
/// and of the others those with a checksum are counted. The copies of each block with a checksum are
/// read; in a chunk with parity each full stripe is, unless a plain sector lies in it.
///
/// `Image`: a read of an image failed, and nothing was tried behind it. `Memory`: for want of
/// memory.
pub(crate) fn sift<R: Rack>(
    blocks: &mut Reader<'_>,
    rack: &mut R,
    store: &mut Store,
    marks: &mut [bool],
    sifted: &mut Sifted,
) -> Result<(), MendFault>
    requires ready { CanMend false (R.seen rack.old) store.old marks.old }
    requires apart { AreApart store.old.layout 0 blocks.old }
    requires can { CanSift store.old.layout sifted.old }
    requires of_kind { AreOfKind sifted.old.kept.kind blocks.old }
    ensures ready { CanMend false (R.seen rack.new) store.new marks.new }
    ensures loans { SameLoans store.old store.new }
    ensures reads { OnlyReads (R.seen rack.old) (R.seen rack.new) }
    ensures sifts { OnOk result (Sifts store.old.layout (R.seen rack.old).held blocks.old sifted.old sifted.new) }
    ensures account { AccountsMend (LiesInStripe store.old.layout) (R.seen rack.old) (R.seen rack.new) result }
{
    while let Some(want) = blocks.next() {
        sift_next(want, blocks, rack, store, marks, sifted)?;
    }
    Ok(())
}

// What a fault of the mending is answered as.
pub(crate) fn stop_of(fault: MendFault) -> Stop
    ensures { (tally : Tally) → Err result ≡ answer_of (Err fault) tally }
{
    match fault {
        MendFault::Image(slot) => Stop::Image(slot),
        MendFault::Memory => Stop::Memory,
    }
}

/// A sieve that nothing was put into, for checksums of a kind.
pub(crate) fn new_sieve(alloc: Global, kind: SumKind, nodesize: u32, room: RowRoom) -> Sieve
    requires large { 4096 ≤ nodesize }
    ensures kind { result.sifted.kept.kind ≡ kind }
    ensures can { (layout : Layout) → nodesize ≡ layout.setting.nodesize → HasRooms layout room.buffer → CanSift layout result.sifted }
    ensures begins { result.end ≡ 0 }
    ensures stands { (layout : Layout) (held : Option Images) (list : Gathered) → kept_wants list.list ≡ [] → IsList list.list → list.list.kind ≡ kind
        → list.unchecked ≡ 0 → CanSift layout result.sifted → HasKeptOf layout held list result }
{
    let sifted = Sifted {
        kept: Listed::new(alloc, kind),
        sound: 0,
        nodesize,
        room,
    };
    Sieve {
        sifted,
        unchecked: 0,
        end: 0,
        refused: None,
    }
}

// Whether the blocks of a list, the last of which ends at an address, lie in a span: the first doesn't begin before it, and the
// last ends in it. That is enough, since each begins at or behind the end of the one before.
fn lies_in(list: &Listed, span: &Span, end: u64) -> bool
    requires is_list { IsList list.now }
    requires span { span.now.start + span.now.length < 2 ^ 64 }
    ensures { result ≡ lies_in (kept_wants list.now) span.now end }
{
    match read_all(list).next() {
        None => true,
        Some(first) => span.start <= first.addr() && end <= span.start + span.length,
    }
}

/// Judges the blocks that were listed in a span behind those that a sieve has, and sifts them. Where one is
/// refused no more is kept. Answers whether they lie in the span; a full stripe of a chunk is whole then.
///
/// `Image`: a read of an image failed, and nothing was tried behind it. `Memory`: for want of
/// memory.
pub(crate) fn sift_listed<R: Rack>(
    gathered: &Gathered,
    span: &Span,
    rack: &mut R,
    store: &mut Store,
    marks: &mut [bool],
    sieve: &mut Sieve,
) -> Result<bool, MendFault>
    requires ready { CanMend false (R.seen rack.old) store.old marks.old }
    requires listed { IsList gathered.now.list }
    requires can { CanSift store.old.layout sieve.old.sifted }
    requires kind { gathered.now.list.kind ≡ sieve.old.sifted.kept.kind }
    requires range { span.now.start + span.now.length < 2 ^ 64 }
    requires chunk { IsSpanIn store.old.layout span.now }
    requires behind { sieve.old.end ≤ span.now.start }
    ensures ready { CanMend false (R.seen rack.new) store.new marks.new }
    ensures loans { SameLoans store.old store.new }
    ensures reads { OnlyReads (R.seen rack.old) (R.seen rack.new) }
    ensures went { IfOk result (WentIn store.old.layout (R.seen rack.old).held gathered.now span.now sieve.old sieve.new) }
    ensures can { OnOk result (CanSift store.old.layout sieve.new.sifted) }
    ensures kind { OnOk result (sieve.new.sifted.kept.kind ≡ sieve.old.sifted.kept.kind) }
    ensures end { OnOk result (sieve.new.end ≤ span.now.start + span.now.length) }
    ensures account { AccountsMend (LiesInStripe store.old.layout) (R.seen rack.old) (R.seen rack.new) result }
{
    sieve.unchecked = gathered.unchecked;
    if sieve.refused.is_some() {
        return Ok(true);
    }
    let nodesize = sieve.sifted.nodesize;
    match judge_blocks(&mut read_all(&gathered.list), sieve.end, nodesize, store) {
        Ok(end) => {
            if !lies_in(&gathered.list, span, end) {
                return Ok(false);
            }
            sieve.end = end;
            let mut blocks = read_all(&gathered.list);
            sift(&mut blocks, rack, store, marks, &mut sieve.sifted)?;
            Ok(true)
        }
        Err(fault) => {
            sieve.refused = Some(fault);
            Ok(true)
        }
    }
}
