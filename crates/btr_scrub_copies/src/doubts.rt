// Images in doubt, and images that are behind.
ghost use Rattle.std.specs.Prelude.{◌≡◌};
ghost use Rattle.btr_scrub_copies.specs.Fresh.{flagged, is_behind, is_doubtful};

use btr_read::Store;

// What flags say of a slot.
fn flagged(flags: &[bool], slot: usize) -> bool
    ensures { result ≡ flagged flags.now slot }
{
    if slot < flags.len() {
        flags[slot]
    } else {
        false
    }
}

/// Whether the image of a device is in doubt: it is older, or flagged by its slot, as some checked block doesn't pass at its place on it.
pub fn is_doubtful(devid: u64, failing: &[bool], store: &Store) -> bool
    ensures { result ≡ is_doubtful store.now.layout.devices (flagged failing.now) devid }
{
    match store.device(devid) {
        Some(device) => device.older || flagged(failing, device.slot),
        None => false,
    }
}

/// Whether it is behind: it is older, and flagged.
pub fn is_behind(devid: u64, failing: &[bool], store: &Store) -> bool
    ensures { result ≡ is_behind store.now.layout.devices (flagged failing.now) devid }
{
    match store.device(devid) {
        Some(device) => device.older && flagged(failing, device.slot),
        None => false,
    }
}
