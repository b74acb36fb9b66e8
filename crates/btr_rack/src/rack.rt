// The images of the devices, as the engine sees them.
ghost use Rattle.std.specs.Prelude.{◌≡◌, ◌+◌, ◌<◌, ◌≤◌, ◌^◌, length, IsTrue, OnOk, IsErrOf};
ghost use Rattle.btr_rack.specs.Rack.{Seen, IsRack, OnlyCounts, Unsyncs, Syncs, OpensSurely, FailsUnsure, len_of, opened_to_write, range_in};
ghost use Rattle.btr_rack.specs.Rack.{forgotten, Opens, Writes, AreBytesOf, TakesFromShelf, AccountsCall, AccountsNextOpening};

use crate::RackError;

/// A rack of images, which are opened by name into slots. Each call that answers `Failed` is in the account, and no
/// other. A rack in which nothing is to fail is sure.
pub trait Rack {
    /// What is seen of it.
    ghost seen: { Self → Seen };

    /// Opens the named image as the next slot, and answers its number. `Failed`: the name can't be opened.
    /// After a refusal the slots are as before.
    fn open(&mut self, name: &str, write: bool) -> Result<usize, RackError>
        ensures slots { Opens name.now write (seen self.old).slots (seen self.new).slots result }
        ensures images { TakesFromShelf name.now (seen self.old) (seen self.new) result }
        ensures unsynced { (seen self.new).unsynced ≡ (seen self.old).unsynced }
        ensures never_synced { (seen self.new).never_synced ≡ (seen self.old).never_synced }
        ensures account { AccountsNextOpening name.now write (seen self.old) (seen self.new) result }
        ensures sure { OpensSurely name.now (seen self.old) (seen self.new) result };

    /// How many images are open.
    fn count(&self) -> usize
        ensures { result ≡ length (seen self.now).slots };

    /// The length of an image in bytes, which doesn't change.
    fn len(&self, slot: usize) -> u64
        requires { slot < length (seen self.now).slots }
        ensures len { result ≡ len_of (seen self.now).slots slot }
        ensures bound { result < 2 ^ 63 };

    /// Fills `buf` with the image's bytes from `off` on. After `Failed` it holds any bytes. For want of memory it
    /// refuses nothing.
    fn read_at(&mut self, slot: usize, off: u64, buf: &mut [u8]) -> Result<(), RackError>
        requires open { slot < length (seen self.old).slots }
        requires range { off + length buf.old ≤ len_of (seen self.old).slots slot }
        ensures bytes { OnOk result (AreBytesOf (seen self.old).held slot off (length buf.old) buf.new) }
        ensures same { OnlyCounts (seen self.old) (seen self.new) }
        ensures account { AccountsCall (range_in slot off (length buf.old)) (seen self.old) (seen self.new) result }
        ensures sure { FailsUnsure (seen self.old).sure result }
        ensures memory { IsErrOf result RackError.Memory → ⊥ };

    /// Writes over the image's bytes from `off` on. After a refusal the range holds any bytes, and all else is
    /// as before.
    fn write_at(&mut self, slot: usize, off: u64, bytes: &[u8]) -> Result<(), RackError>
        requires open { slot < length (seen self.old).slots }
        requires write { IsTrue (opened_to_write (seen self.old).slots slot) }
        requires range { off + length bytes.now ≤ len_of (seen self.old).slots slot }
        ensures held { Writes slot off bytes.now (seen self.old).held (seen self.new).held result }
        ensures rest { Unsyncs (range_in slot off (length bytes.now)) (seen self.old) (seen self.new) }
        ensures account { AccountsCall (range_in slot off (length bytes.now)) (seen self.old) (seen self.new) result }
        ensures sure { FailsUnsure (seen self.old).sure result };

    /// Waits until what was written to the image is stored. It changes no byte, and takes no memory. `Failed`: that can't
    /// be known any more of what was written, by no later sync either.
    fn sync(&mut self, slot: usize) -> Result<(), RackError>
        requires { slot < length (seen self.old).slots }
        ensures synced { Syncs slot (seen self.old) (seen self.new) result }
        ensures account { AccountsCall (range_in slot 0 0) (seen self.old) (seen self.new) result }
        ensures sure { FailsUnsure (seen self.old).sure result }
        ensures memory { IsErrOf result RackError.Memory → ⊥ };

    /// Starts the number and the places of the failed calls anew.
    fn forget(&mut self)
        ensures { seen self.new ≡ record (seen self.old) { account = forgotten (seen self.old).account } };

    /// The opened images have the lengths of their slots, and what is told are bytes.
    ghost sound: { (rack : Self) → IsRack (seen rack) };
}
