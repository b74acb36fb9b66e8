// Writing over bad copies.
ghost use Rattle.std.specs.Prelude.{◌≡◌, ◌<◌, ◌≤◌, [], ◌∷◌, false, length, slice_index_or, Ok, Some, if◌then◌else◌};
ghost use Rattle.btr_chunk.specs.Chunk.{mirrors};
ghost use Rattle.btr_chunk.specs.declared.place.Part.TheVariants.{Mirror};
ghost use Rattle.btr_read.specs.Candidates.{Target};
ghost use Rattle.btr_read.specs.Fate.{sought};
ghost use Rattle.btr_read.specs.Layout.{AreOpen};
ghost use Rattle.btr_read.specs.Mirror.{HasMirror};
ghost use Rattle.btr_read.specs.Store.{IsLiveIn};
ghost use Rattle.btr_read.specs.Want.{len_of};
ghost use Rattle.btr_scrub_copies.specs.Mending.{IsCopied, WritesLoan, flagged_copies};
ghost use Rattle.btr_scrub_copies.specs.Writes.{AreWritable};

use crate::MendFault;
use crate::copies::place_of_copy;
use crate::judged_copies::JudgedCopies;
use btr_rack::{Rack, RackError};
use btr_read::{Loan, Store, Want};

// Writes a loan's bytes over a copy, and marks its slot.
fn overwrite<R: Rack>(
    want: &Want,
    mirror: u32,
    loan: &Loan,
    rack: &mut R,
    store: &Store,
    marks: &mut [bool],
) -> Result<(), MendFault>
    requires open { AreOpen (R.seen rack.old).slots store.now.layout.devices }
    requires writable { AreWritable (R.seen rack.old).slots }
    requires slots { length (R.seen rack.old).slots ≤ length marks.old }
    requires copied { IsCopied store.now.layout want.now }
    requires mirror { (t : Target) → sought store.now.layout want.now ≡ Ok t → HasMirror mirror t }
    requires live { IsLiveIn store.now loan.now }
    requires len { loan.now.len ≡ len_of store.now.layout.setting want.now }
    ensures slots { (R.seen rack.new).slots ≡ (R.seen rack.old).slots }
    ensures writes { WritesLoan store.now want.now loan.now (Mirror mirror ∷ [])
        marks.old marks.new (R.seen rack.old) (R.seen rack.new) result }
{
    let bytes = store.bytes(loan);
    let place = place_of_copy(want, mirror, bytes.len() as u64, store);
    marks[place.slot] = true;
    match rack.write_at(place.slot, place.off, bytes) {
        Ok(()) => Ok(()),
        Err(RackError::Failed) => Err(MendFault::Image(place.slot)),
        Err(RackError::Memory) => Err(MendFault::Memory),
    }
}

// The same where the copy is bad.
fn overwrite_if<R: Rack>(
    judged: &JudgedCopies<'_>,
    mirror: u32,
    loan: &Loan,
    rack: &mut R,
    store: &Store,
    marks: &mut [bool],
) -> Result<(), MendFault>
    requires open { AreOpen (R.seen rack.old).slots store.now.layout.devices }
    requires writable { AreWritable (R.seen rack.old).slots }
    requires slots { length (R.seen rack.old).slots ≤ length marks.old }
    requires copied { IsCopied store.now.layout judged.now.block.want.now }
    requires few { mirror < 4 }
    requires mirror { (t : Target) → sought store.now.layout judged.now.block.want.now ≡ Ok t → HasMirror mirror t }
    requires live { IsLiveIn store.now loan.now }
    requires len { loan.now.len ≡ len_of store.now.layout.setting judged.now.block.want.now }
    ensures slots { (R.seen rack.new).slots ≡ (R.seen rack.old).slots }
    ensures writes { WritesLoan store.now judged.now.block.want.now loan.now
        (if slice_index_or judged.now.bad.flags mirror false then Mirror mirror ∷ [] else [])
        marks.old marks.new (R.seen rack.old) (R.seen rack.new) result }
{
    let bad = judged.bad.flags[mirror as usize];
    if !bad {
        return Ok(());
    }
    overwrite(judged.block.want, mirror, loan, rack, store, marks)
}

// Writes a loan's bytes over the bad copies, and marks their slots.
pub(crate) fn write_over<R: Rack>(
    judged: &JudgedCopies<'_>,
    loan: &Loan,
    rack: &mut R,
    store: &Store,
    marks: &mut [bool],
) -> Result<(), MendFault>
    requires open { AreOpen (R.seen rack.old).slots store.now.layout.devices }
    requires writable { AreWritable (R.seen rack.old).slots }
    requires slots { length (R.seen rack.old).slots ≤ length marks.old }
    requires copied { IsCopied store.now.layout judged.now.block.want.now }
    requires few { judged.now.block.copies ≤ 4 }
    requires copies { (t : Target) → sought store.now.layout judged.now.block.want.now ≡ Ok t → mirrors t.chunk ≡ Some judged.now.block.copies }
    requires live { IsLiveIn store.now loan.now }
    requires len { loan.now.len ≡ len_of store.now.layout.setting judged.now.block.want.now }
    ensures slots { (R.seen rack.new).slots ≡ (R.seen rack.old).slots }
    ensures writes { WritesLoan store.now judged.now.block.want.now loan.now (flagged_copies judged.now.bad.flags judged.now.block.copies)
        marks.old marks.new (R.seen rack.old) (R.seen rack.new) result }
{
    for mirror in 0..judged.block.copies {
        overwrite_if(judged, mirror, loan, rack, store, marks)?;
    }
    Ok(())
}
