// The superblocks of the open images.
ghost use Rattle.std.specs.Prelude.{◌≡◌, IfSome, IfOk, length};
ghost use Rattle.btr_rack.specs.Rack.{OnlyCounts};
ghost use Rattle.btr_volume.specs.Start.{no_super};
ghost use Rattle.btr_volume.specs.Opening.{ReadsSupers, SupersCause};

use crate::OpenFault;
use btr_rack::Rack;
use btr_super::{SlotFault, Super, read_slot};
use std::alloc::Global;

/// The superblocks of the open images, one a slot: of each the newest of its valid copies.
///
/// `NoSuper` and `SumKind` speak of the first image without a valid copy, `ImageFault` names the first image of which a read
/// failed, and `Memory` comes for want of it.
#[tactic(auto, using(crate::proofs::Readings::read_more, crate::proofs::Readings::only_counts_twice, crate::proofs::Readings::none_failed_twice, crate::proofs::Readings::refused_cause))]
pub fn read_supers<R: Rack>(alloc: Global, rack: &mut R) -> Result<Vec<Super>, OpenFault>
    ensures supers { IfSome (R.seen rack.old).held (λ images. ReadsSupers images result) }
    ensures same { OnlyCounts (R.seen rack.old) (R.seen rack.new) }
    ensures cause { SupersCause (R.seen rack.old) (R.seen rack.new) result }
    ensures count { IfOk result (λ supers. length supers.items ≡ length (R.seen rack.old).slots) }
{
    let mut supers = Vec::new(alloc);
    for slot in 0..rack.count() {
        match read_slot(rack, slot) {
            Err(fault) => return Err(refusal_of(slot, fault)),
            Ok(found) => match supers.push(found) {
                Ok(()) => {}
                Err(_) => return Err(OpenFault::Memory),
            },
        }
    }
    Ok(supers)
}

// What is answered where a slot has no superblock.
fn refusal_of(slot: usize, fault: SlotFault) -> OpenFault
    ensures { result ≡ no_super slot fault }
{
    match fault {
        SlotFault::Failed => OpenFault::ImageFault(slot),
        SlotFault::SumKind(kind) => OpenFault::SumKind(kind),
        SlotFault::NoSuper => OpenFault::NoSuper(slot),
    }
}
