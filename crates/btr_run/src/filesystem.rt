// Opening the filesystem of the open images.
ghost use Rattle.std.specs.Prelude.{◌≡◌, ◌≢◌, ◌⊎◌, ◌<◌, ℕ, length, IfErr, IfOk, IfSome};
ghost use Rattle.btr_rack.specs.Rack.{NoneFailed, OnlyReads};
ghost use Rattle.btr_volume.specs.Opening.{IsFresh, SuperUnread};
ghost use Rattle.btr_volume.specs.declared.which.Which.TheVariants.{Images};
ghost use Rattle.btr_run.specs.Behind.{HasTreeCause, IfSteady, IsFault};
ghost use Rattle.btr_run.specs.Filesystem.{IsRefusal, MayMend, OpensAs, OpensFilesystem};

use crate::answer::Answer;
use btr_rack::Rack;
use btr_volume::Volume;
use std::alloc::Global;

/// Opens the filesystem of the open images: the second step of each command that reads trees.
///
/// The error is the answer of the first refusal.
pub(crate) fn open_filesystem<R: Rack>(alloc: Global, rack: &mut R) -> Result<Volume, Answer>
    requires { 0 < length (R.seen rack.old).slots }
    ensures content { IfSteady (R.seen rack.old).held (R.seen rack.old).account (R.seen rack.new).account (λ images.
        OpensFilesystem images result) }
    ensures opened { IfSome (R.seen rack.old).held (λ images.
        OpensAs images (R.seen rack.old) (R.seen rack.new) result) }
    ensures reads { OnlyReads (R.seen rack.old) (R.seen rack.new) }
    ensures fresh { IfOk result (IsFresh (R.seen rack.new)) }
    ensures refusal { IfErr result IsRefusal }
    ensures counted { IfErr result (λ answer. (n : ℕ) → answer ≢ Answer.Limit Images n) }

    // An image is at fault only where a read of its superblock failed, which no sure rack does.
    ensures image { IfErr result (λ answer. (slot : ℕ) → answer ≡ Answer.ImageFault slot
        → SuperUnread (R.seen rack.old) (R.seen rack.new) slot) }
    ensures tree { IfErr result (HasTreeCause (R.seen rack.old) (R.seen rack.new)) }
    ensures hidden { IfErr result (λ answer.
        NoneFailed (R.seen rack.old).account (R.seen rack.new).account ⊎ IsFault answer ⊎ MayMend answer) }
{
    Ok(Volume::open(alloc, rack)?)
}
