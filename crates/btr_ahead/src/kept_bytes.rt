// Bytes of an image that were read by one read.
ghost use Rattle.std.specs.Prelude.{◌≡◌, ◌+◌, ◌<◌, ◌≤◌, ◌&&◌, nat_eq, nat_le, nat_lt, false, length, IfSome, IfNone, IsTrue};
ghost use Rattle.btr_rack.specs.Rack.{NoneFailed, OnlyReads, len_of};
ghost use Rattle.btr_ahead.specs.Ahead.{AreRead, AreSteady, IsInSlot, IsPlaceKept, piece_of};
ghost use Rattle.btr_ahead.specs.Reader.{FailsFrom};

use crate::first_place::FirstPlace;
use btr_rack::{Place, Rack};

// How many bytes are read at once, at most.
const ROOM: usize = 262144;

/// No place at all.
pub(crate) const NOWHERE: Place = Place {
    slot: 0,
    off: 0,
    len: 0,
};

/// Bytes of an image, up to 262144, and their place in it.
#[derive(Drop)]
pub(crate) struct KeptBytes {
    pub(crate) place: Place,
    pub(crate) bytes: [u8; ROOM],
    // What the last read that failed was to read: there sectors are read one by one.
    failed: Place,
}

/// Whether a place begins in another one.
pub(crate) fn begins_in(place: Place, other: Place) -> bool
    ensures { result ≡ (nat_eq place.slot other.slot && nat_le other.off place.off && nat_lt place.off (other.off + other.len)) }
{
    place.slot == other.slot && other.off <= place.off && place.off - other.off < other.len
}

// How many bytes to read for so many sectors, the first of which has this place, in an image of this length.
fn span(first: &FirstPlace, wanted: u64, image_len: u64) -> u64
    requires { first.now.place.off ≤ image_len }
    ensures room { result ≤ ROOM }
    ensures inside { first.now.place.off + result ≤ image_len }
    ensures first { 0 < wanted → 4096 ≤ first.now.reach → first.now.place.off + 4096 ≤ image_len → 4096 ≤ result }
    ensures more { 1 < wanted → 4096 < first.now.reach → first.now.place.off + 4096 < image_len → 4096 < result }
{
    let all = wanted.saturating_mul(4096);
    all.min(first.reach)
        .min(ROOM as u64)
        .min(image_len - first.place.off)
}

impl KeptBytes {
    ghost use Rattle.std.specs.Prelude.{Option, List, ℕ};

    /// Nothing is kept.
    pub(crate) fn new() -> KeptBytes
        ensures { (held : Option (List (List ℕ))) → AreRead held result }
    {
        KeptBytes {
            place: NOWHERE,
            bytes: [0; ROOM],
            failed: NOWHERE,
        }
    }

    /// Reads at most so many sectors from a place on, by one call. `false`: it failed, and nothing is kept.
    pub(crate) fn read_from<R: Rack>(
        &mut self,
        first: &FirstPlace,
        wanted: u64,
        rack: &mut R,
    ) -> bool
        requires slot { IsInSlot (R.seen rack.old).slots first.now.place }
        requires reach { 4096 ≤ first.now.reach }
        ensures reads { OnlyReads (R.seen rack.old) (R.seen rack.new) }
        ensures ahead { AreRead (R.seen rack.new).held self.new }
        ensures kept { 0 < wanted → AreSteady (R.seen rack.old) (R.seen rack.new) → IsPlaceKept self.new first.now.place }
        ensures none { IsTrue result → NoneFailed (R.seen rack.old).account (R.seen rack.new).account }
        ensures failed { result ≡ false → (len : ℕ)
            × (1 < wanted → 4096 < first.now.reach → first.now.place.off + 4096 < len_of (R.seen rack.old).slots first.now.place.slot → 4096 < len)
            × FailsFrom first.now.place len (R.seen rack.old).account (R.seen rack.new).account }
    {
        let Place { slot, off, len: _ } = first.place;
        let len = span(first, wanted, rack.len(slot));
        let read = rack.read_at(slot, off, &mut self.bytes[..len as usize]);
        self.place = Place { slot, off, len };
        match read {
            Ok(()) => true,
            Err(_) => {
                self.failed = self.place;
                self.place.len = 0;
                false
            }
        }
    }

    /// The bytes of a place that lies in what is kept.
    pub(crate) fn piece(&self, place: Place) -> Option<&[u8]>
        ensures inside { IfSome result (λ piece. IsPlaceKept self.now place) }
        ensures none { IfNone result (IsPlaceKept self.now place → ⊥) }
        ensures piece { IfSome result (λ piece. piece.now ≡ piece_of self.now place) }
        ensures long { IfSome result (λ piece. length piece.now ≡ place.len) }
    {
        if place.slot != self.place.slot || place.off < self.place.off {
            return None;
        }
        let start = place.off - self.place.off;
        if start > self.place.len || place.len > self.place.len - start {
            return None;
        }
        self.bytes.get(start as usize..(start + place.len) as usize)
    }

    /// Whether a place begins in what the last read that failed was to read.
    pub(crate) fn has_failed_at(&self, place: Place) -> bool {
        begins_in(place, self.failed)
    }

    /// Keeps nothing any more.
    pub(crate) fn clear(&mut self)
        ensures { (held : Option (List (List ℕ))) → AreRead held self.new }
    {
        self.place = NOWHERE;
    }

    /// Reads at most so many sectors from a place on, unless it is kept: one where a read of more failed. Where it can't, nothing is kept, and the rack is
    /// told to forget it.
    pub(crate) fn look<R: Rack>(&mut self, first: &FirstPlace, wanted: u64, rack: &mut R)
        requires slot { IsInSlot (R.seen rack.old).slots first.now.place }
        requires reach { 4096 ≤ first.now.reach }
        requires ahead { AreRead (R.seen rack.old).held self.old }
        ensures reads { OnlyReads (R.seen rack.old) (R.seen rack.new) }
        ensures ahead { AreRead (R.seen rack.new).held self.new }
        ensures kept { 0 < wanted → AreSteady (R.seen rack.old) (R.seen rack.new) → IsPlaceKept self.new first.now.place }
    {
        if self.piece(first.place).is_some() {
            return;
        }
        let most = if begins_in(first.place, self.failed) {
            wanted.min(1)
        } else {
            wanted
        };
        if !self.read_from(first, most, rack) {
            rack.forget();
        }
    }
}
