// What the extents of a file come to.
ghost use Rattle.std.specs.Prelude.{◌≡◌, ◌≤◌};
ghost use Rattle.btr_rack.specs.Rack.{OnlyReads};
ghost use Rattle.btr_read.specs.Serves.{Serves};
ghost use Rattle.btr_read.specs.Store.{free_count};
ghost use Rattle.btr_walk.specs.Reading.{HasCause};
ghost use Rattle.btr_volume.specs.Looking.{Looks, SameVolume};
ghost use Rattle.btr_files.specs.Extents.{judged, survey};

use crate::Survey;
use crate::lookup::{key_of, lookup};
use btr_items::{FileExtent, item};
use btr_rack::Rack;
use btr_volume::{TreeRoot, Volume};
use btr_walk::{Folder, Found, Took, TreeFault};
use std::convert::Infallible;

// What an extent by itself comes to.
pub(crate) fn judge(extent: &FileExtent) -> Survey
    ensures { result ≡ judged extent.now }
{
    if extent.compression != 0 {
        return Survey::Compressed;
    }
    if extent.encoded {
        return Survey::Encoded;
    }
    Survey::Clear
}

/// A survey of a file's extents up to the position where the last one ends.
#[derive(Drop)]
pub(crate) struct Surveyor {
    pub(crate) end: u128,
}

impl Folder<Survey, Infallible> for Surveyor {
    ghost use Rattle.btr_files.specs.Steps.{survey_step};
    ghost use Rattle.btr_files.specs.declared.clearness.Survey.TheVariants.{Clear};

    ghost step = { survey_step };

    ghost answer = { λ surveyor. Clear };

    fn take(&mut self, item: &Found<'_>) -> Result<Took<Survey>, Infallible> {
        let start = item.key.offset;
        let Ok(extent) = FileExtent::read(start, item.body) else {
            return Ok(Took::Broken);
        };
        if u128::from(start) < self.end {
            return Ok(Took::Broken);
        }
        match judge(&extent) {
            Survey::Clear => {
                self.end = extent.end(start);
                Ok(Took::Go)
            }
            found => Ok(Took::End(found)),
        }
    }

    fn end(self) -> Survey {
        Survey::Clear
    }
}

/// Answers what the extents of a file come to: the first that isn't clear decides, and no extent behind it is looked at. It takes no memory, and four
/// slots are free.
///
/// The faults are those of the blocks that are read, in their order: `Lost`, `Unread`, `Unmapped` and `Crosses` of a block, and `Malformed` where one
/// breaks a rule, doesn't fit its place, or has an item that breaks its form, or an extent that
/// begins before the end of the one before.
pub fn survey<R: Rack>(
    tree: &TreeRoot,
    ino: u64,
    rack: &mut R,
    vol: &mut Volume,
) -> Result<Survey, TreeFault>
    requires serves { Serves (R.seen rack.old) vol.old.store }
    requires room { 4 ≤ free_count vol.old.store }
    ensures serves { Serves (R.seen rack.new) vol.new.store }
    ensures reads { OnlyReads (R.seen rack.old) (R.seen rack.new) }
    ensures volume { SameVolume vol.old vol.new }
    ensures cause { HasCause vol.old.store.layout (R.seen rack.old) (R.seen rack.new) result }
    ensures content { Looks vol.old.store.layout (R.seen rack.old) (R.seen rack.new) (survey tree.now ino) result }
{
    let lo = key_of(ino, item::EXTENT_DATA, 0);
    let hi = key_of(ino, item::EXTENT_DATA, u64::MAX);
    lookup(&tree.place, lo, hi, rack, vol, Surveyor { end: 0 })
}
