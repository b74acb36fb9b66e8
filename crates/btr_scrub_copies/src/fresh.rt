// Which copies of a plain sector lie on images in doubt, and which on images that are behind.
ghost use Rattle.std.specs.Prelude.{◌≡◌, IfSome, IsTrue, Ok, Some};
ghost use Rattle.std.specs.Option.{option_map};
ghost use Rattle.btr_chunk.specs.Chunk.{mirrors};
ghost use Rattle.btr_chunk.specs.Mapping.{place_at};
ghost use Rattle.btr_chunk.specs.declared.place.Part.TheVariants.{Mirror};
ghost use Rattle.btr_read.specs.Candidates.{Target};
ghost use Rattle.btr_read.specs.Fate.{is_plain, sought};
ghost use Rattle.btr_read.specs.Mirror.{HasMirror, mirror_candidate};
ghost use Rattle.btr_scrub_copies.specs.Fresh.{first_trusted, flagged, is_on_behind, is_on_doubtful, lies_behind};
ghost use Rattle.btr_scrub_copies.specs.Mending.{IsCopied};

use crate::copied_block::CopiedBlock;
use crate::copies::begin_of_copy;
use crate::doubts::{is_behind, is_doubtful};
use btr_read::{Store, Want};

// How many bytes a sector has.
const SECTOR: u64 = 4096;

// The device on which a copy lies.
fn devid_of_copy(want: &Want, mirror: u32, store: &Store) -> u64
    requires copied { IsCopied store.now.layout want.now }
    requires plain { IsTrue (is_plain want.now) }
    requires mirror { (t : Target) → sought store.now.layout want.now ≡ Ok t → HasMirror mirror t }
    ensures { (t : Target) → sought store.now.layout want.now ≡ Ok t
        → result ≡ (place_at t.chunk (Mirror mirror) t.at).devid }
{
    begin_of_copy(want, mirror, SECTOR, store).devid
}

// Whether a copy lies on an image in doubt.
fn is_on_doubtful(want: &Want, mirror: u32, failing: &[bool], store: &Store) -> bool
    requires copied { IsCopied store.now.layout want.now }
    requires plain { IsTrue (is_plain want.now) }
    requires mirror { (t : Target) → sought store.now.layout want.now ≡ Ok t → HasMirror mirror t }
    ensures { (t : Target) → sought store.now.layout want.now ≡ Ok t
        → result ≡ is_on_doubtful (flagged failing.now) t (Mirror mirror) }
{
    is_doubtful(devid_of_copy(want, mirror, store), failing, store)
}

// Whether a copy lies on an image that is behind.
pub(crate) fn is_on_behind(want: &Want, mirror: u32, failing: &[bool], store: &Store) -> bool
    requires copied { IsCopied store.now.layout want.now }
    requires plain { IsTrue (is_plain want.now) }
    requires mirror { (t : Target) → sought store.now.layout want.now ≡ Ok t → HasMirror mirror t }
    ensures { (t : Target) → sought store.now.layout want.now ≡ Ok t
        → result ≡ is_on_behind (flagged failing.now) t (Mirror mirror) }
{
    is_behind(devid_of_copy(want, mirror, store), failing, store)
}

// Whether some copy does.
pub(crate) fn lies_behind(block: &CopiedBlock<'_>, failing: &[bool], store: &Store) -> bool
    requires copied { IsCopied store.now.layout block.now.want.now }
    requires plain { IsTrue (is_plain block.now.want.now) }
    requires copies { (t : Target) → sought store.now.layout block.now.want.now ≡ Ok t → mirrors t.chunk ≡ Some block.now.copies }
    ensures { (t : Target) → sought store.now.layout block.now.want.now ≡ Ok t
        → result ≡ lies_behind (flagged failing.now) t }
{
    for mirror in 0..block.copies {
        if is_on_behind(block.want, mirror, failing, store) {
            return true;
        }
    }
    false
}

// The first copy that lies on no image in doubt, by number, if one does.
pub(crate) fn first_trusted(block: &CopiedBlock<'_>, failing: &[bool], store: &Store) -> Option<u32>
    requires copied { IsCopied store.now.layout block.now.want.now }
    requires plain { IsTrue (is_plain block.now.want.now) }
    requires copies { (t : Target) → sought store.now.layout block.now.want.now ≡ Ok t → mirrors t.chunk ≡ Some block.now.copies }
    ensures first { (t : Target) → sought store.now.layout block.now.want.now ≡ Ok t
        → first_trusted (flagged failing.now) t ≡ option_map mirror_candidate result }
    ensures mirror { IfSome result (λ mirror. (t : Target) → sought store.now.layout block.now.want.now ≡ Ok t → HasMirror mirror t) }
{
    for mirror in 0..block.copies {
        if !is_on_doubtful(block.want, mirror, failing, store) {
            return Some(mirror);
        }
    }
    None
}
