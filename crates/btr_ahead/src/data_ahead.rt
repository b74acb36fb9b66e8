// Sectors that are read ahead.
ghost use Rattle.std.specs.Prelude.{◌<◌, IsTrue};
ghost use Rattle.btr_rack.specs.Rack.{OnlyReads};
ghost use Rattle.btr_read.specs.Serves.{Serves};
ghost use Rattle.btr_ahead.specs.Ahead.{AreSteady, IsAhead, CanBeRead, SaysFirst};

use crate::first_place::first_place;
use crate::kept_bytes::KeptBytes;
use btr_base::SumRoom;
use btr_rack::Rack;
use btr_read::{Store, Want, passes_in};

/// Bytes of an image, up to 262144, that were read by one read: what `has` looks at.
#[derive(Drop)]
pub struct DataAhead {
    pub(crate) kept: KeptBytes,
    // Where their checksums are computed.
    room: SumRoom,
}

impl DataAhead {
    ghost use Rattle.std.specs.Prelude.{Option, List, ℕ};

    /// Nothing is kept.
    pub fn new() -> DataAhead
        ensures { (held : Option (List (List ℕ))) → IsAhead held result }
    {
        DataAhead {
            kept: KeptBytes::new(),
            room: SumRoom::new(),
        }
    }

    /// Whether the part that is read first for a sector passes for its want: then it comes to bytes. Where it isn't kept, that and at most `wanted`
    /// sectors from it on, itself among them, are read first, as far as they lie behind one another in the image, and up to 262144 bytes. Where such a
    /// read failed, the sectors that it was to read are read one by one, so that a bad sector isn't tried again for each one before it.
    ///
    /// `false` says that it doesn't pass where no read failed and some were wanted, and else nothing: a read that fails is answered so, and the rack is
    /// told to forget it. It takes no memory.
    pub fn has<R: Rack>(&mut self, want: &Want, wanted: u64, rack: &mut R, store: &Store) -> bool
        requires serves { Serves (R.seen rack.old) store.now }
        requires ahead { IsAhead (R.seen rack.old).held self.old }
        ensures serves { Serves (R.seen rack.new) store.now }
        ensures reads { OnlyReads (R.seen rack.old) (R.seen rack.new) }
        ensures ahead { IsAhead (R.seen rack.new).held self.new }
        ensures comes { IsTrue result → CanBeRead (R.seen rack.old).held store.now.layout want.now }
        ensures first { 0 < wanted
            → AreSteady (R.seen rack.old) (R.seen rack.new)
            → SaysFirst (R.seen rack.old).held store.now.layout want.now result }
    {
        let Want::Sector { addr, .. } = want else {
            return false;
        };
        let Some(first) = first_place(*addr, store) else {
            return false;
        };
        self.kept.look(&first, wanted, rack);
        match self.kept.piece(first.place) {
            Some(piece) => passes_in(&mut self.room, want, store, piece),
            None => false,
        }
    }
}
