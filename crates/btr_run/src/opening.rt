// Opening the images that the words name.
ghost use Rattle.std.specs.Prelude.{◌≡◌, ◌<◌, [], true, ℕ, map, length, IfErr, OnOk};
ghost use Rattle.std.specs.String.{string_bytes};
ghost use Rattle.btr_run.specs.Images.{AreOpenedAs, IsMissing, most_images};
ghost use Rattle.btr_run.specs.Opening.{HasTooMany, OpeningCause, OpensAll};

use crate::answer::Answer;
use btr_rack::{Rack, RackError};
use btr_volume::Which;

const MOST_IMAGES: usize = 64;

/// Why the named images aren't open.
#[derive(Clone, Copy, Debug, PartialEq, Eq)]
pub(crate) enum OpeningFault {
    /// More than 64 images are named: this many.
    TooMany(u64),
    /// The image of this slot couldn't be opened.
    Failed(usize),
    /// Memory was wanted.
    Memory,
}

impl From<OpeningFault> for Answer {
    ghost use Rattle.std.specs.Prelude.{◌≡◌};
    ghost use Rattle.btr_run.specs.Opening.{opening_answer};

    ghost from_gives = { λ fault answer. answer ≡ opening_answer fault };

    fn from(fault: OpeningFault) -> Answer {
        match fault {
            OpeningFault::TooMany(count) => Answer::Limit(Which::Images, count),
            OpeningFault::Failed(slot) => Answer::ImageFault(slot),
            OpeningFault::Memory => Answer::Memory,
        }
    }
}

/// Opens the named images in order, each in the next slot, to be written or only to be read: the
/// first step of each command.
///
/// `TooMany` comes before any call on the rack, exactly where more than 64 images are named.
/// `Failed` names the first image that can't be opened; `Memory` comes for want of it.
pub(crate) fn open_images<R: Rack>(
    names: &[String],
    write: bool,
    rack: &mut R,
) -> Result<(), OpeningFault>
    requires empty { (R.seen rack.old).slots ≡ [] }
    requires some { 0 < length names.now }
    ensures images { OpensAll (map string_bytes names.now) (R.seen rack.old).shelf
        (R.seen rack.new).held result }
    ensures limit { HasTooMany (map string_bytes names.now) result }
    ensures early { most_images < length names.now → rack.new ≡ rack.old }
    ensures cause { OpeningCause write (map string_bytes names.now)
        (R.seen rack.old) (R.seen rack.new) result }

    // A sure rack fails to open only what isn't on the shelf.
    ensures sure { IfErr result (λ fault. (slot : ℕ) → fault ≡ OpeningFault.Failed slot
        → (R.seen rack.old).sure ≡ true
        → IsMissing (map string_bytes names.now) (R.seen rack.old).shelf slot) }
    ensures opened { AreOpenedAs write (R.seen rack.old).shelf
        (R.seen rack.new).slots (R.seen rack.new).held }
    ensures kept { OnOk result ((R.seen rack.new).sure ≡ (R.seen rack.old).sure) }
    ensures unsynced { (R.seen rack.new).unsynced ≡ (R.seen rack.old).unsynced }
    ensures never_synced { (R.seen rack.new).never_synced ≡ (R.seen rack.old).never_synced }
    ensures count { OnOk result (length (R.seen rack.new).slots ≡ length names.now) }
{
    if names.len() > MOST_IMAGES {
        return Err(OpeningFault::TooMany(names.len() as u64));
    }
    for (slot, name) in names.iter().enumerate() {
        match rack.open(name.as_str(), write) {
            Ok(_) => {}
            Err(RackError::Failed) => return Err(OpeningFault::Failed(slot)),
            Err(RackError::Memory) => return Err(OpeningFault::Memory),
        }
    }
    Ok(())
}
