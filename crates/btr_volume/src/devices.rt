// The devices of the images.
ghost use Rattle.std.specs.Prelude.{◌≡◌, ◌≤◌, None, [], IfOk, length};
ghost use Rattle.btr_read.specs.Store.{none_kept};
ghost use Rattle.btr_volume.specs.Start.{twin_from, over_slots};

use btr_base::Memory;
use btr_rack::Rack;
use btr_read::Store;
use btr_super::Super;

/// Adds the device of each image, which stands in the slot of its superblock; an image of a generation less than the newest
/// one is older. No two superblocks are those of one device.
pub(crate) fn add_devices<R: Rack>(
    supers: &[Super],
    newest: u64,
    rack: &R,
    store: &mut Store,
) -> Result<(), Memory>
    requires count { length supers.now ≤ length (R.seen rack.now).slots }
    requires own { twin_from 0 [] supers.now ≡ None }
    requires empty { store.old.layout.devices ≡ [] }
    ensures devices { IfOk result (λ _. store.new.layout ≡ over_slots store.old.layout newest supers.now (R.seen rack.now)) }
    ensures loans { store.new.loans ≡ store.old.loans }
    ensures kept { store.old.kept ≡ none_kept → store.new.kept ≡ none_kept }
{
    for (slot, s) in supers.iter().enumerate() {
        store.add_device(s.devid, slot, rack.len(slot), s.generation < newest)?;
    }
    Ok(())
}
