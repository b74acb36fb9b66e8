// The first copy of a block that passes, and which copies are bad beside it.
ghost use Rattle.std.specs.Prelude.{◌≡◌, ◌+◌, ◌≤◌, ◌<◌, not, Ok, Some, IfOk, IfSome, if◌then◌else◌};
ghost use Rattle.btr_chunk.specs.Chunk.{mirrors};
ghost use Rattle.btr_chunk.specs.declared.place.Part.TheVariants.{Mirror};
ghost use Rattle.btr_rack.specs.Rack.{OnlyReads};
ghost use Rattle.btr_read.specs.Candidates.{Target};
ghost use Rattle.btr_read.specs.Fate.{sought};
ghost use Rattle.btr_read.specs.Mirror.{HasMirror};
ghost use Rattle.btr_read.specs.Serves.{Serves};
ghost use Rattle.btr_read.specs.Store.{IsLiveIn, SameLoans, free_count};
ghost use Rattle.btr_scrub_copies.specs.Blocks.{is_sound};
ghost use Rattle.btr_scrub_copies.specs.Mending.{AccountsCopies, AreBad, FindsFirst, HasFirst, InTold, IsCopied, LendsFirst};

use crate::MendFault;
use crate::comparing::same_bytes;
use crate::copied_block::CopiedBlock;
use btr_rack::Rack;
use btr_read::{Loan, Store, Tried, TryFault, Want, try_mirror, way_at};

// The copy that is accepted, with a loan of its bytes.
#[derive(Debug)]
pub(crate) struct First {
    pub(crate) mirror: u32,
    pub(crate) loan: Loan,
}

// The bad copies, by number, and how many there are.
#[derive(Clone, Copy, Debug, PartialEq, Eq)]
pub(crate) struct Bad {
    pub(crate) flags: [bool; 4],
    pub(crate) count: u32,
}

// Lends the first copy that passes, in the order of the candidates, if one does.
pub(crate) fn first_good<R: Rack>(
    block: &CopiedBlock<'_>,
    rack: &mut R,
    store: &mut Store,
) -> Result<Option<First>, MendFault>
    requires serves { Serves (R.seen rack.old) store.old }
    requires room { 1 ≤ free_count store.old }
    requires copied { IsCopied store.old.layout block.now.want.now }
    requires copies { (t : Target) → sought store.old.layout block.now.want.now ≡ Ok t → mirrors t.chunk ≡ Some block.now.copies }
    ensures serves { Serves (R.seen rack.new) store.new }
    ensures reads { OnlyReads (R.seen rack.old) (R.seen rack.new) }
    ensures lent { LendsFirst block.now.want.now store.old store.new result }
    ensures found { InTold store.old block.now.want.now (R.seen rack.old)
        (λ images t. FindsFirst images t store.new result) }
    ensures below { IfOk result (λ found. IfSome found (λ first. first.mirror < block.now.copies)) }
    ensures account { AccountsCopies store.old block.now.want.now (R.seen rack.old) (R.seen rack.new) result }
{
    for k in 0..block.copies {
        let mirror = way_at(block.want, k, store);
        match try_mirror(block.want, mirror, rack, store) {
            Ok(Tried::Passed(loan)) => return Ok(Some(First { mirror, loan })),
            Ok(Tried::Differs) => {}
            Ok(Tried::Absent) => unreachable!(),
            Err(TryFault::Failed(slot)) => return Err(MendFault::Image(slot)),
        }
    }
    Ok(None)
}

// Whether a copy passes, and has the bytes of the first that does.
fn is_sound<R: Rack>(
    want: &Want,
    mirror: u32,
    first: &First,
    rack: &mut R,
    store: &mut Store,
) -> Result<bool, MendFault>
    requires serves { Serves (R.seen rack.old) store.old }
    requires room { 1 ≤ free_count store.old }
    requires copied { IsCopied store.old.layout want.now }
    requires mirror { (t : Target) → sought store.old.layout want.now ≡ Ok t → HasMirror mirror t }
    requires live { IsLiveIn store.old first.now.loan }
    requires first { InTold store.old want.now (R.seen rack.old) (λ images t. HasFirst images t store.old first.now) }
    ensures serves { Serves (R.seen rack.new) store.new }
    ensures reads { OnlyReads (R.seen rack.old) (R.seen rack.new) }
    ensures same { SameLoans store.old store.new }
    ensures sound { InTold store.old want.now (R.seen rack.old)
        (λ images t. IfOk result (λ sound. sound ≡ is_sound images t (Mirror mirror))) }
    ensures account { AccountsCopies store.old want.now (R.seen rack.old) (R.seen rack.new) result }
{
    match try_mirror(want, mirror, rack, store) {
        Ok(Tried::Passed(copy)) => {
            let bytes = store.bytes(&copy);
            let accepted = store.bytes(&first.loan);
            let same = same_bytes(bytes, accepted);
            store.give(copy);
            Ok(same)
        }
        Ok(Tried::Differs) => Ok(false),
        Ok(Tried::Absent) => unreachable!(),
        Err(TryFault::Failed(slot)) => Err(MendFault::Image(slot)),
    }
}

// Whether a copy is bad, where the first that passes is lent.
fn is_bad<R: Rack>(
    want: &Want,
    mirror: u32,
    first: &First,
    rack: &mut R,
    store: &mut Store,
) -> Result<bool, MendFault>
    requires serves { Serves (R.seen rack.old) store.old }
    requires room { 1 ≤ free_count store.old }
    requires copied { IsCopied store.old.layout want.now }
    requires mirror { (t : Target) → sought store.old.layout want.now ≡ Ok t → HasMirror mirror t }
    requires live { IsLiveIn store.old first.now.loan }
    requires first { InTold store.old want.now (R.seen rack.old) (λ images t. HasFirst images t store.old first.now) }
    ensures serves { Serves (R.seen rack.new) store.new }
    ensures reads { OnlyReads (R.seen rack.old) (R.seen rack.new) }
    ensures same { SameLoans store.old store.new }
    ensures bad { InTold store.old want.now (R.seen rack.old)
        (λ images t. IfOk result (λ bad. bad ≡ not (is_sound images t (Mirror mirror)))) }
    ensures account { AccountsCopies store.old want.now (R.seen rack.old) (R.seen rack.new) result }
{
    if mirror == first.mirror {
        return Ok(false);
    }
    let sound = is_sound(want, mirror, first, rack, store)?;
    Ok(!sound)
}

// A count, with one more if there is one.
pub(crate) fn counted(count: u32, more: bool) -> u32
    requires { count < 4 }
    ensures { result ≡ count + (if more then 1 else 0) }
{
    if more { count + 1 } else { count }
}

// The bad copies, where the first that passes is lent.
pub(crate) fn bad_copies<R: Rack>(
    block: &CopiedBlock<'_>,
    first: &First,
    rack: &mut R,
    store: &mut Store,
) -> Result<Bad, MendFault>
    requires serves { Serves (R.seen rack.old) store.old }
    requires room { 1 ≤ free_count store.old }
    requires copied { IsCopied store.old.layout block.now.want.now }
    requires few { block.now.copies ≤ 4 }
    requires copies { (t : Target) → sought store.old.layout block.now.want.now ≡ Ok t → mirrors t.chunk ≡ Some block.now.copies }
    requires live { IsLiveIn store.old first.now.loan }
    requires first { InTold store.old block.now.want.now (R.seen rack.old) (λ images t. HasFirst images t store.old first.now) }
    ensures serves { Serves (R.seen rack.new) store.new }
    ensures reads { OnlyReads (R.seen rack.old) (R.seen rack.new) }
    ensures same { SameLoans store.old store.new }
    ensures bad { InTold store.old block.now.want.now (R.seen rack.old)
        (λ images t. IfOk result (λ bad. AreBad images t block.now.copies bad.flags bad.count)) }
    ensures account { AccountsCopies store.old block.now.want.now (R.seen rack.old) (R.seen rack.new) result }
{
    let mut flags = [false; 4];
    let mut count = 0;
    for mirror in 0..block.copies {
        let bad = is_bad(block.want, mirror, first, rack, store)?;
        flags[mirror as usize] = bad;
        count = counted(count, bad);
    }
    Ok(Bad { flags, count })
}
