// The superblock of a slot.
ghost use Rattle.std.specs.Prelude.{false, ◌≡◌, ◌≢◌, ◌+◌, ◌<◌, ◌≤◌, [], ◌∷◌, ◌++◌, List, Ok, Err, length, IfErr, ◌^◌, OnErr, Option, Result, Some, None};
ghost use Rattle.btr_rack.specs.Rack.{len_of, OnlyCounts};
ghost use Rattle.btr_super.specs.Slot.{AnswersCopy, AnswersSlot, FailedAt, FailedAtPlace, AnswersLook, IsSoFar, kind_then, slot_answer, sum_kind};

use crate::seen::Seen;
use crate::{SlotFault, Super, SuperFault};
use btr_rack::{Rack, RackError};

const PLACES: [u64; 3] = [65536, 67108864, 274877906944];

// What stands at a place whose 4096 bytes lie in the image.
fn read_copy<R: Rack>(
    rack: &mut R,
    slot: usize,
    place: u64,
) -> Result<Result<Super, SuperFault>, RackError>
    requires open { slot < length (R.seen rack.old).slots }
    requires range { place + 4096 ≤ len_of (R.seen rack.old).slots slot }
    ensures found { AnswersCopy (R.seen rack.old).held slot place result }
    ensures same { OnlyCounts (R.seen rack.old) (R.seen rack.new) }
    ensures account { FailedAt slot place (R.seen rack.old).account (R.seen rack.new).account result }
    ensures sure { OnErr result ((R.seen rack.old).sure ≡ false) }
{
    let mut bytes = [0u8; 4096];
    match rack.read_at(slot, place, &mut bytes) {
        Ok(()) => Ok(Super::read(&bytes, place)),
        Err(_) => Err(RackError::Failed),
    }
}

fn newer(seen: Seen, s: Super) -> Seen
    ensures { (found : List _) → IsSoFar found seen → IsSoFar (found ++ Ok s ∷ []) result }
{
    match seen.newest {
        Some(newest) => {
            if newest.generation < s.generation {
                Seen {
                    newest: Some(s),
                    kind: seen.kind,
                }
            } else {
                seen
            }
        }
        None => Seen {
            newest: Some(s),
            kind: seen.kind,
        },
    }
}

fn kind_of(fault: SuperFault) -> Option<u16>
    ensures { result ≡ sum_kind (Err fault) }
{
    match fault {
        SuperFault::SumKind(kind) => Some(kind),
        SuperFault::Magic => None,
        SuperFault::Place => None,
        SuperFault::Sum => None,
    }
}

fn first_of(first: Option<u16>, other: Option<u16>) -> Option<u16>
    ensures { result ≡ kind_then first other }
{
    match first {
        Some(kind) => Some(kind),
        None => other,
    }
}

fn refused(seen: Seen, fault: SuperFault) -> Seen
    ensures { (found : List _) → IsSoFar found seen → IsSoFar (found ++ Err fault ∷ []) result }
{
    Seen {
        newest: seen.newest,
        kind: first_of(seen.kind, kind_of(fault)),
    }
}

fn with_copy(seen: Seen, found: Result<Super, SuperFault>) -> Seen
    ensures { (before : List _) → IsSoFar before seen → IsSoFar (before ++ found ∷ []) result }
{
    match found {
        Ok(s) => newer(seen, s),
        Err(fault) => refused(seen, fault),
    }
}

fn answer(seen: Seen) -> Result<Super, SlotFault>
    ensures answer { (found : List _) → IsSoFar found seen → slot_answer found ≡ result }
    ensures read { result ≢ Err SlotFault.Failed }
{
    match (seen.newest, seen.kind) {
        (Some(newest), _) => Ok(newest),
        (None, Some(kind)) => Err(SlotFault::SumKind(kind)),
        (None, None) => Err(SlotFault::NoSuper),
    }
}

// Looks at one more place.
fn look<R: Rack>(rack: &mut R, slot: usize, place: u64, seen: Seen) -> Result<Seen, SlotFault>
    requires open { slot < length (R.seen rack.old).slots }
    requires bound { place < 2 ^ 63 }
    ensures seen { AnswersLook (R.seen rack.old).held slot place seen result }
    ensures fault { IfErr result (λ e. e ≡ SlotFault.Failed) }
    ensures same { OnlyCounts (R.seen rack.old) (R.seen rack.new) }
    ensures account { FailedAt slot place (R.seen rack.old).account (R.seen rack.new).account result }
    ensures sure { OnErr result ((R.seen rack.old).sure ≡ false) }
{
    if place + 4096 > rack.len(slot) {
        return Ok(seen);
    }
    match read_copy(rack, slot, place) {
        Ok(found) => Ok(with_copy(seen, found)),
        Err(_) => Err(SlotFault::Failed),
    }
}

/// The newest valid copy of the superblock of an open image, the first of equals.
///
/// `Failed` comes only where a read of a copy's 4096 bytes failed in this call; the other two errors
/// say that no copy is valid.
pub fn read_slot<R: Rack>(rack: &mut R, slot: usize) -> Result<Super, SlotFault>
    requires { slot < length (R.seen rack.old).slots }
    ensures answer { AnswersSlot (R.seen rack.old).held slot result }
    ensures same { OnlyCounts (R.seen rack.old) (R.seen rack.new) }
    ensures account { FailedAtPlace slot (R.seen rack.old).account (R.seen rack.new).account result }
    ensures sure { result ≡ Err SlotFault.Failed → (R.seen rack.old).sure ≡ false }
{
    let mut seen = Seen {
        newest: None,
        kind: None,
    };
    for place in PLACES {
        seen = look(rack, slot, place, seen)?;
    }
    answer(seen)
}
