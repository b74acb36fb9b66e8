// A block, mended by its copies.
ghost use Rattle.std.specs.Prelude.{◌≡◌, ◌≤◌, length, IsTrue, Ok, Some};
ghost use Rattle.btr_chunk.specs.Chunk.{mirrors};
ghost use Rattle.btr_read.specs.Candidates.{Target};
ghost use Rattle.btr_read.specs.Fate.{sought};
ghost use Rattle.btr_read.specs.Serves.{Serves};
ghost use Rattle.btr_read.specs.Store.{IsLiveIn, SameLoans, free_count};
ghost use Rattle.btr_read.specs.Want.{len_of};
ghost use Rattle.btr_scrub_copies.specs.Mending.{HasFirst, InTold, IsCopied, MendsBad, MendsWant};
ghost use Rattle.btr_scrub_copies.specs.Writes.{AreWritable};

use crate::copied_block::CopiedBlock;
use crate::copies::copies_of;
use crate::finding::{First, bad_copies, first_good};
use crate::judged_copies::JudgedCopies;
use crate::overwriting::write_over;
use crate::{MendFault, Mended};
use btr_rack::Rack;
use btr_read::{Loan, Store, Want};

// Writes a loan's bytes over the bad copies, where they are to be written.
pub(crate) fn mend_bad<R: Rack>(
    judged: &JudgedCopies<'_>,
    write: bool,
    loan: &Loan,
    rack: &mut R,
    store: &mut Store,
    marks: &mut [bool],
) -> Result<Mended, MendFault>
    requires serves { Serves (R.seen rack.old) store.old }
    requires writable { IsTrue write → AreWritable (R.seen rack.old).slots }
    requires slots { length (R.seen rack.old).slots ≤ length marks.old }
    requires copied { IsCopied store.old.layout judged.now.block.want.now }
    requires few { judged.now.block.copies ≤ 4 }
    requires copies { (t : Target) → sought store.old.layout judged.now.block.want.now ≡ Ok t → mirrors t.chunk ≡ Some judged.now.block.copies }
    requires live { IsLiveIn store.old loan.now }
    requires len { loan.now.len ≡ len_of store.old.layout.setting judged.now.block.want.now }
    ensures serves { Serves (R.seen rack.new) store.new }
    ensures loans { SameLoans store.old store.new }
    ensures mends { MendsBad store.old judged.now loan.now write marks.old marks.new (R.seen rack.old) (R.seen rack.new) result }
{
    if !write {
        return Ok(Mended {
            bad: judged.bad.count,
            repaired: 0,
            lost: false,
        });
    }
    store.forget_kept();
    write_over(judged, loan, rack, store, marks)?;
    Ok(Mended {
        bad: judged.bad.count,
        repaired: judged.bad.count,
        lost: false,
    })
}

// Mends a block whose first copy that passes is lent.
fn mend_others<R: Rack>(
    block: &CopiedBlock<'_>,
    write: bool,
    first: &First,
    rack: &mut R,
    store: &mut Store,
    marks: &mut [bool],
) -> Result<Mended, MendFault>
    requires serves { Serves (R.seen rack.old) store.old }
    requires room { 1 ≤ free_count store.old }
    requires writable { IsTrue write → AreWritable (R.seen rack.old).slots }
    requires slots { length (R.seen rack.old).slots ≤ length marks.old }
    requires copied { IsCopied store.old.layout block.now.want.now }
    requires few { block.now.copies ≤ 4 }
    requires copies { (t : Target) → sought store.old.layout block.now.want.now ≡ Ok t → mirrors t.chunk ≡ Some block.now.copies }
    requires live { IsLiveIn store.old first.now.loan }
    requires len { first.now.loan.len ≡ len_of store.old.layout.setting block.now.want.now }
    requires first { InTold store.old block.now.want.now (R.seen rack.old) (λ images t. HasFirst images t store.old first.now) }
    ensures serves { Serves (R.seen rack.new) store.new }
    ensures loans { SameLoans store.old store.new }
    ensures mends { MendsWant store.old block.now.want.now write marks.old marks.new (R.seen rack.old) (R.seen rack.new) result }
{
    let bad = bad_copies(block, first, rack, store)?;
    let judged = JudgedCopies { block: *block, bad };
    mend_bad(&judged, write, &first.loan, rack, store, marks)
}

/// Mends a block by its copies: each copy that is bad, as it doesn't pass or isn't the bytes of the first that does, is written over with these, by one
/// write each, in the order of the copies. The first is by the order of the candidates: copies on older images come last. Where none passes all are bad,
/// and nothing is written, nor where it is only to be read. The slots that were written are marked; a mark is never taken away.
///
/// The block lies in a chunk with copies, all of which stand, and two slots are free. Where it is to be written, each image was opened for writing.
///
/// `Image`: a read or a write of an image failed, and nothing was tried behind it. `Memory`: a write wanted memory.
pub fn mend_copies<R: Rack>(
    want: &Want,
    write: bool,
    rack: &mut R,
    store: &mut Store,
    marks: &mut [bool],
) -> Result<Mended, MendFault>
    requires serves { Serves (R.seen rack.old) store.old }
    requires room { 2 ≤ free_count store.old }
    requires writable { IsTrue write → AreWritable (R.seen rack.old).slots }
    requires slots { length (R.seen rack.old).slots ≤ length marks.old }
    requires copied { IsCopied store.old.layout want.now }
    ensures serves { Serves (R.seen rack.new) store.new }
    ensures loans { SameLoans store.old store.new }
    ensures mends { MendsWant store.old want.now write marks.old marks.new (R.seen rack.old) (R.seen rack.new) result }
{
    let copies = copies_of(want, store);
    let block = CopiedBlock { want, copies };
    match first_good(&block, rack, store)? {
        None => Ok(Mended {
            bad: copies,
            repaired: 0,
            lost: true,
        }),
        Some(first) => {
            let mended = mend_others(&block, write, &first, rack, store, marks);
            let First { mirror: _, loan } = first;
            store.give(loan);
            mended
        }
    }
}
