// The copies of a plain sector, brought up to date.
ghost use Rattle.std.specs.Prelude.{◌≡◌, ◌≤◌, length, IsTrue, IfOk, Ok, Some};
ghost use Rattle.std.specs.Str.{bytes_eq};
ghost use Rattle.btr_chunk.specs.Chunk.{mirrors};
ghost use Rattle.btr_chunk.specs.declared.place.Part.TheVariants.{Mirror};
ghost use Rattle.btr_rack.specs.Rack.{OnlyReads};
ghost use Rattle.btr_read.specs.Candidates.{Target, element};
ghost use Rattle.btr_read.specs.Fate.{is_plain, sought};
ghost use Rattle.btr_read.specs.Mirror.{HasMirror};
ghost use Rattle.btr_read.specs.Serves.{Serves};
ghost use Rattle.btr_read.specs.Store.{IsLiveIn, SameLoans, block_of, free_count};
ghost use Rattle.btr_read.specs.Want.{len_of};
ghost use Rattle.btr_scrub_copies.specs.Fresh.{flagged, fresh, is_stale};
ghost use Rattle.btr_scrub_copies.specs.Freshening.{FindsFresh, LendsAny, MendsFresh, OfLoan, RestsUnread, lent_bytes};
ghost use Rattle.btr_scrub_copies.specs.Mending.{AccountsCopies, AreFlagged, InTold, IsCopied};
ghost use Rattle.btr_scrub_copies.specs.Writes.{AreWritable};

use crate::copied_block::CopiedBlock;
use crate::copies::copies_of;
use crate::finding::{Bad, counted};
use crate::fresh::{first_trusted, is_on_behind, lies_behind};
use crate::judged_copies::JudgedCopies;
use crate::mending::mend_bad;
use crate::plain_sector::PlainSector;
use crate::{MendFault, Mended};
use btr_rack::Rack;
use btr_read::{Loan, Store, Tried, TryFault, Want, try_mirror};

// Lends the bytes of a copy, which always pass.
fn lend_copy<R: Rack>(
    want: &Want,
    mirror: u32,
    rack: &mut R,
    store: &mut Store,
) -> Result<Option<Loan>, MendFault>
    requires serves { Serves (R.seen rack.old) store.old }
    requires room { 1 ≤ free_count store.old }
    requires copied { IsCopied store.old.layout want.now }
    requires plain { IsTrue (is_plain want.now) }
    requires mirror { (t : Target) → sought store.old.layout want.now ≡ Ok t → HasMirror mirror t }
    ensures serves { Serves (R.seen rack.new) store.new }
    ensures reads { OnlyReads (R.seen rack.old) (R.seen rack.new) }
    ensures lent { LendsAny want.now store.old store.new result }
    ensures bytes { InTold store.old want.now (R.seen rack.old)
        (λ images t. IfOk result (λ copy. lent_bytes store.new copy ≡ Some (element images t (Mirror mirror)))) }
    ensures account { AccountsCopies store.old want.now (R.seen rack.old) (R.seen rack.new) result }
{
    match try_mirror(want, mirror, rack, store) {
        Ok(Tried::Passed(loan)) => Ok(Some(loan)),
        Ok(Tried::Differs) => Ok(None),
        Ok(Tried::Absent) => unreachable!(),
        Err(TryFault::Failed(slot)) => Err(MendFault::Image(slot)),
    }
}

// Lends the fresh bytes, if there are any.
fn lend_fresh<R: Rack>(
    block: &CopiedBlock<'_>,
    failing: &[bool],
    rack: &mut R,
    store: &mut Store,
) -> Result<Option<Loan>, MendFault>
    requires serves { Serves (R.seen rack.old) store.old }
    requires room { 1 ≤ free_count store.old }
    requires copied { IsCopied store.old.layout block.now.want.now }
    requires plain { IsTrue (is_plain block.now.want.now) }
    requires copies { (t : Target) → sought store.old.layout block.now.want.now ≡ Ok t → mirrors t.chunk ≡ Some block.now.copies }
    ensures serves { Serves (R.seen rack.new) store.new }
    ensures reads { OnlyReads (R.seen rack.old) (R.seen rack.new) }
    ensures lent { LendsAny block.now.want.now store.old store.new result }
    ensures found { InTold store.old block.now.want.now (R.seen rack.old)
        (λ images t. FindsFresh images (flagged failing.now) t store.new result) }
    ensures account { AccountsCopies store.old block.now.want.now (R.seen rack.old) (R.seen rack.new) result }
{
    match first_trusted(block, failing, store) {
        Some(mirror) => lend_copy(block.want, mirror, rack, store),
        None => Ok(None),
    }
}

// Whether a copy has the bytes of a loan.
fn has_bytes<R: Rack>(
    want: &Want,
    mirror: u32,
    loan: &Loan,
    rack: &mut R,
    store: &mut Store,
) -> Result<bool, MendFault>
    requires serves { Serves (R.seen rack.old) store.old }
    requires room { 1 ≤ free_count store.old }
    requires copied { IsCopied store.old.layout want.now }
    requires plain { IsTrue (is_plain want.now) }
    requires mirror { (t : Target) → sought store.old.layout want.now ≡ Ok t → HasMirror mirror t }
    requires live { IsLiveIn store.old loan.now }
    ensures serves { Serves (R.seen rack.new) store.new }
    ensures reads { OnlyReads (R.seen rack.old) (R.seen rack.new) }
    ensures same { SameLoans store.old store.new }
    ensures has { InTold store.old want.now (R.seen rack.old) (λ images t. IfOk result (λ same.
        OfLoan store.old loan.now (λ bytes. same ≡ bytes_eq (element images t (Mirror mirror)) bytes))) }
    ensures account { AccountsCopies store.old want.now (R.seen rack.old) (R.seen rack.new) result }
{
    match lend_copy(want, mirror, rack, store)? {
        Some(copy) => {
            let bytes = store.bytes(&copy);
            let wanted = store.bytes(loan);
            let same = bytes == wanted;
            store.give(copy);
            Ok(same)
        }
        None => Ok(true),
    }
}

// Whether a copy is stale beside the bytes of a loan. Only one that lies on an image that is behind is read.
fn is_stale<R: Rack>(
    want: &Want,
    mirror: u32,
    failing: &[bool],
    loan: &Loan,
    rack: &mut R,
    store: &mut Store,
) -> Result<bool, MendFault>
    requires serves { Serves (R.seen rack.old) store.old }
    requires room { 1 ≤ free_count store.old }
    requires copied { IsCopied store.old.layout want.now }
    requires plain { IsTrue (is_plain want.now) }
    requires mirror { (t : Target) → sought store.old.layout want.now ≡ Ok t → HasMirror mirror t }
    requires live { IsLiveIn store.old loan.now }
    ensures serves { Serves (R.seen rack.new) store.new }
    ensures reads { OnlyReads (R.seen rack.old) (R.seen rack.new) }
    ensures same { SameLoans store.old store.new }
    ensures stale { InTold store.old want.now (R.seen rack.old) (λ images t. IfOk result (λ stale.
        OfLoan store.old loan.now (λ bytes. stale ≡ is_stale images (flagged failing.now) t bytes (Mirror mirror)))) }
    ensures account { AccountsCopies store.old want.now (R.seen rack.old) (R.seen rack.new) result }
{
    if !is_on_behind(want, mirror, failing, store) {
        return Ok(false);
    }
    let same = has_bytes(want, mirror, loan, rack, store)?;
    Ok(!same)
}

// The copies that are stale beside the bytes of a loan.
fn stale_copies<R: Rack>(
    block: &CopiedBlock<'_>,
    failing: &[bool],
    loan: &Loan,
    rack: &mut R,
    store: &mut Store,
) -> Result<Bad, MendFault>
    requires serves { Serves (R.seen rack.old) store.old }
    requires room { 1 ≤ free_count store.old }
    requires copied { IsCopied store.old.layout block.now.want.now }
    requires plain { IsTrue (is_plain block.now.want.now) }
    requires few { block.now.copies ≤ 4 }
    requires copies { (t : Target) → sought store.old.layout block.now.want.now ≡ Ok t → mirrors t.chunk ≡ Some block.now.copies }
    requires live { IsLiveIn store.old loan.now }
    ensures serves { Serves (R.seen rack.new) store.new }
    ensures reads { OnlyReads (R.seen rack.old) (R.seen rack.new) }
    ensures same { SameLoans store.old store.new }
    ensures stale { InTold store.old block.now.want.now (R.seen rack.old) (λ images t. IfOk result (λ stale.
        OfLoan store.old loan.now (λ bytes.
        AreFlagged (is_stale images (flagged failing.now) t bytes) block.now.copies stale.flags stale.count))) }
    ensures account { AccountsCopies store.old block.now.want.now (R.seen rack.old) (R.seen rack.new) result }
{
    let mut flags = [false; 4];
    let mut count = 0;
    for mirror in 0..block.copies {
        let stale = is_stale(block.want, mirror, failing, loan, rack, store)?;
        flags[mirror as usize] = stale;
        count = counted(count, stale);
    }
    Ok(Bad { flags, count })
}

// Brings a sector up to date whose fresh bytes are lent.
fn mend_stale<R: Rack>(
    sector: &PlainSector<'_>,
    write: bool,
    loan: &Loan,
    rack: &mut R,
    store: &mut Store,
    marks: &mut [bool],
) -> Result<Mended, MendFault>
    requires serves { Serves (R.seen rack.old) store.old }
    requires room { 1 ≤ free_count store.old }
    requires writable { IsTrue write → AreWritable (R.seen rack.old).slots }
    requires slots { length (R.seen rack.old).slots ≤ length marks.old }
    requires copied { IsCopied store.old.layout sector.now.block.want.now }
    requires plain { IsTrue (is_plain sector.now.block.want.now) }
    requires few { sector.now.block.copies ≤ 4 }
    requires copies { (t : Target) → sought store.old.layout sector.now.block.want.now ≡ Ok t
        → mirrors t.chunk ≡ Some sector.now.block.copies }
    requires live { IsLiveIn store.old loan.now }
    requires len { loan.now.len ≡ len_of store.old.layout.setting sector.now.block.want.now }
    requires fresh { InTold store.old sector.now.block.want.now (R.seen rack.old)
        (λ images t. block_of store.old loan.now ≡ fresh images (flagged sector.now.failing.now) t) }
    ensures serves { Serves (R.seen rack.new) store.new }
    ensures loans { SameLoans store.old store.new }
    ensures mends { MendsFresh store.old sector.now.block.want.now write sector.now.failing.now
        marks.old marks.new (R.seen rack.old) (R.seen rack.new) result }
{
    let block = sector.block;
    let bad = stale_copies(&block, sector.failing, loan, rack, store)?;
    let judged = JudgedCopies { block, bad };
    mend_bad(&judged, write, loan, rack, store, marks)
}

/// Brings the copies of a plain sector, which has no checksum, up to date. Its fresh bytes are those of the first copy that lies on no image in doubt.
/// Each copy that lies on an image that is behind, and has other bytes, is stale, and is written over with these, by one write each, in the order of the
/// copies. Where no copy lies on such an image nothing is read, and where all lie on images in doubt nothing is written, nor where it is only to be
/// read. The slots that were written are marked; a mark is never taken away. Stale copies are counted as bad ones, and a plain sector is never lost.
///
/// An image is in doubt where it is older or its slot is flagged in `failing`, as some checked block doesn't pass at its place on it, and is behind where
/// both hold; a slot past the flags isn't flagged.
///
/// The sector lies in a chunk with copies, all of which stand, and two slots are free. Where it is to be written, each image was opened for writing.
///
/// `Image`: a read or a write of an image failed, and nothing was tried behind it. `Memory`: a write wanted memory.
pub fn mend_plain<R: Rack>(
    want: &Want,
    write: bool,
    failing: &[bool],
    rack: &mut R,
    store: &mut Store,
    marks: &mut [bool],
) -> Result<Mended, MendFault>
    requires serves { Serves (R.seen rack.old) store.old }
    requires room { 2 ≤ free_count store.old }
    requires writable { IsTrue write → AreWritable (R.seen rack.old).slots }
    requires slots { length (R.seen rack.old).slots ≤ length marks.old }
    requires copied { IsCopied store.old.layout want.now }
    requires plain { IsTrue (is_plain want.now) }
    ensures serves { Serves (R.seen rack.new) store.new }
    ensures loans { SameLoans store.old store.new }
    ensures mends { MendsFresh store.old want.now write failing.now marks.old marks.new (R.seen rack.old) (R.seen rack.new) result }
    ensures unread { RestsUnread store.old want.now failing.now (R.seen rack.old) (R.seen rack.new) }
{
    let copies = copies_of(want, store);
    let block = CopiedBlock { want, copies };
    if !lies_behind(&block, failing, store) {
        return Ok(Mended {
            bad: 0,
            repaired: 0,
            lost: false,
        });
    }
    match lend_fresh(&block, failing, rack, store)? {
        None => Ok(Mended {
            bad: 0,
            repaired: 0,
            lost: false,
        }),
        Some(loan) => {
            let sector = PlainSector { block, failing };
            let mended = mend_stale(&sector, write, &loan, rack, store, marks);
            store.give(loan);
            mended
        }
    }
}
