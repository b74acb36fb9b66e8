// Syncing the images that were written.
ghost use Rattle.std.specs.Prelude.{◌≡◌, ◌<◌, length};
ghost use Rattle.btr_scrub_copies.specs.Syncing.{SyncsIf, SyncsMarked, SyncsOne};

use crate::MendFault;
use btr_rack::Rack;

// Syncs an image, if it is marked.
fn sync_one<R: Rack>(marked: bool, slot: usize, rack: &mut R) -> Result<(), MendFault>
    requires { slot < length (R.seen rack.old).slots }
    ensures { SyncsOne marked slot (R.seen rack.old) (R.seen rack.new) result }
{
    if !marked {
        return Ok(());
    }
    match rack.sync(slot) {
        Ok(()) => Ok(()),
        Err(_) => Err(MendFault::Image(slot)),
    }
}

/// Syncs the marked images by ascending slot, and takes their marks away.
///
/// `Image`: a sync failed, and those behind it weren't tried.
pub fn sync_marked<R: Rack>(rack: &mut R, marks: &mut [bool]) -> Result<(), MendFault>
    requires { length marks.old ≡ length (R.seen rack.old).slots }
    ensures { SyncsMarked marks.old marks.new (R.seen rack.old) (R.seen rack.new) result }
{
    for slot in 0..marks.len() {
        sync_one(marks[slot], slot, rack)?;
        marks[slot] = false;
    }
    Ok(())
}

/// The same where it is wanted; else nothing is done.
pub fn sync_if<R: Rack>(wanted: bool, rack: &mut R, marks: &mut [bool]) -> Result<(), MendFault>
    requires { length marks.old ≡ length (R.seen rack.old).slots }
    ensures syncs { SyncsIf wanted marks.old marks.new (R.seen rack.old) (R.seen rack.new) result }
    ensures slots { (R.seen rack.new).slots ≡ (R.seen rack.old).slots }
{
    if wanted {
        sync_marked(rack, marks)
    } else {
        Ok(())
    }
}
