// The images on which some checked block doesn't pass at its place.
ghost use Rattle.std.specs.Prelude.{◌≡◌, ◌+◌, ◌<◌, ◌≤◌, length, slice_set, true};
ghost use Rattle.std.specs.Prelude.{IfOk, IfSome, IsOk, IsTrue, Ok, Some};
ghost use Rattle.std.specs.List.{list_any};
ghost use Rattle.btr_chunk.specs.Chunk.{data_count, mirrors};
ghost use Rattle.btr_chunk.specs.Table.{IsTable};
ghost use Rattle.btr_rack.specs.Rack.{OnlyReads, bytes_of, len_of as image_len};
ghost use Rattle.btr_rack.specs.declared.place.Place.{Place as Range};
ghost use Rattle.btr_read.specs.Candidates.{Target, range_of};
ghost use Rattle.btr_read.specs.Fate.{is_plain, sought};
ghost use Rattle.btr_read.specs.Layout.{AreOpen};
ghost use Rattle.btr_read.specs.Want.{len_of, passes};
ghost use Rattle.btr_scrub_copies.specs.Writes.{AccountsMend};
ghost use Rattle.btr_scrub.specs.Doubts.{fails_at, fails_on};
ghost use Rattle.btr_scrub.specs.Judged.{AccountsParts, FlagsAll, FlagsBlock, HasOwn};
ghost use Rattle.btr_scrub.specs.Judged.{IsIdle, HasRoom, Suffices, has_older, is_older, some_older, some_parity};
ghost use Rattle.btr_scrub.specs.WrittenRanges.{LiesInStripe};
ghost use Rattle.btr_scrub.specs.Listed.{IsList, kept_wants};
ghost use Rattle.btr_scrub.specs.Order.{AreApart};

use crate::copied::pass_if;
use crate::judging::len_of;
use crate::listed::Listed;
use crate::mending::has_parity;
use crate::reader::{Reader, read_all};
use btr_chunk::{Chunk, Part, elements, place_of};
use btr_rack::{Place, Rack, RackError};
use btr_read::{Store, Want, passes};
use btr_scrub_copies::MendFault;
use btr_scrub_row::is_plain;
use std::alloc::Global;

// Room for a block, and by slot whether one failed on it.
#[derive(Drop)]
pub(crate) struct Probe {
    pub(crate) buffer: Vec<u8>,
    pub(crate) failing: Vec<bool>,
}

// Where a part of a block lies, if it stands.
fn place_of_part(want: &Want, part: Part, nodesize: u32, store: &Store) -> Option<Place>
    requires nodesize { nodesize ≡ store.now.layout.setting.nodesize }
    requires own { HasOwn store.now.layout part want.now }
    ensures { (t : Target) → sought store.now.layout want.now ≡ Ok t → result ≡ range_of t part }
{
    let Some(chunk) = store.chunks().find(want.addr()) else {
        unreachable!();
    };
    let len = len_of(want, nodesize);
    let Ok(at) = elements(chunk, want.addr(), len) else {
        unreachable!();
    };
    let place = place_of(chunk, part, &at);
    let device = store.device(place.devid)?;
    if len > device.len || place.offset > device.len - len {
        return None;
    }
    Some(Place {
        slot: device.slot,
        off: place.offset,
        len,
    })
}

// Whether a block passes at a place in an image.
fn passes_at<R: Rack>(
    want: &Want,
    range: Place,
    rack: &mut R,
    store: &Store,
    buffer: &mut [u8],
) -> Result<bool, MendFault>
    requires open { range.slot < length (R.seen rack.old).slots }
    requires within { range.off + range.len ≤ image_len (R.seen rack.old).slots range.slot }
    requires len { range.len ≡ len_of store.now.layout.setting want.now }
    requires fits { range.len ≤ length buffer.old }
    ensures reads { OnlyReads (R.seen rack.old) (R.seen rack.new) }
    ensures passes { IfOk result (λ good. IfSome (R.seen rack.old).held
        (λ images. good ≡ passes store.now.layout.setting want.now
        (bytes_of images range.slot range.off range.len))) }
    ensures account { AccountsMend (λ (place : Range). place ≡ range)
        (R.seen rack.old) (R.seen rack.new) result }
{
    let block = &mut buffer[..range.len as usize];
    match rack.read_at(range.slot, range.off, block) {
        Ok(()) => Ok(passes(want, store, block)),
        Err(RackError::Failed) => Err(MendFault::Image(range.slot)),
        Err(RackError::Memory) => unreachable!(),
    }
}

// Flags a slot.
fn flag(probe: &mut Probe, slot: usize)
    requires { slot < length probe.old.failing.items }
    ensures buffer { probe.new.buffer ≡ probe.old.buffer }
    ensures failing { probe.new.failing.items ≡ slice_set probe.old.failing.items slot true }
{
    probe.failing[slot] = true;
}

// Flags the image on which a part of a block lies, if the block doesn't pass there.
fn flag_part<R: Rack>(
    want: &Want,
    part: Part,
    nodesize: u32,
    rack: &mut R,
    store: &Store,
    probe: &mut Probe,
) -> Result<(), MendFault>
    requires open { AreOpen (R.seen rack.old).slots store.now.layout.devices }
    requires nodesize { nodesize ≡ store.now.layout.setting.nodesize }
    requires own { HasOwn store.now.layout part want.now }
    requires ready { HasRoom nodesize (R.seen rack.old) probe.old }
    ensures ready { HasRoom nodesize (R.seen rack.new) probe.new }
    ensures reads { OnlyReads (R.seen rack.old) (R.seen rack.new) }
    ensures flags { FlagsBlock store.now.layout want.now (R.seen rack.old)
        (λ images t slot. fails_at images t slot part)
        probe.old.failing.items probe.new.failing.items result }
    ensures account { AccountsParts store.now.layout want.now
        (R.seen rack.old) (R.seen rack.new) result }
{
    let Some(range) = place_of_part(want, part, nodesize, store) else {
        return Ok(());
    };
    let good = passes_at(want, range, rack, store, &mut probe.buffer)?;
    if good {
        return Ok(());
    }
    flag(probe, range.slot);
    Ok(())
}

// How many copies a block has; none where its chunk has parity.
pub(crate) fn copies_of(want: &Want, store: &Store) -> Option<u32>
    requires { IsOk (sought store.now.layout want.now) }
    ensures { (t : Target) → sought store.now.layout want.now ≡ Ok t → result ≡ mirrors t.chunk }
{
    let Some(chunk) = store.chunks().find(want.addr()) else {
        unreachable!();
    };
    chunk.mirrors()
}

// The slice in which a block lies.
fn slice_of(want: &Want, nodesize: u32, store: &Store) -> u32
    requires nodesize { nodesize ≡ store.now.layout.setting.nodesize }
    requires sought { IsOk (sought store.now.layout want.now) }
    ensures index { (t : Target) → sought store.now.layout want.now ≡ Ok t → result ≡ t.at.index }
    ensures below { (t : Target) → sought store.now.layout want.now ≡ Ok t
        → result < data_count t.chunk.profile (length t.chunk.stripes) }
{
    let Some(chunk) = store.chunks().find(want.addr()) else {
        unreachable!();
    };
    let Ok(at) = elements(chunk, want.addr(), len_of(want, nodesize)) else {
        unreachable!();
    };
    at.index
}

// The same for all copies of a block.
fn flag_copies<R: Rack>(
    want: &Want,
    copies: u32,
    nodesize: u32,
    rack: &mut R,
    store: &Store,
    probe: &mut Probe,
) -> Result<(), MendFault>
    requires open { AreOpen (R.seen rack.old).slots store.now.layout.devices }
    requires nodesize { nodesize ≡ store.now.layout.setting.nodesize }
    requires sought { IsOk (sought store.now.layout want.now) }
    requires copies { (t : Target) → sought store.now.layout want.now ≡ Ok t
        → mirrors t.chunk ≡ Some copies }
    requires ready { HasRoom nodesize (R.seen rack.old) probe.old }
    ensures ready { HasRoom nodesize (R.seen rack.new) probe.new }
    ensures reads { OnlyReads (R.seen rack.old) (R.seen rack.new) }
    ensures flags { FlagsBlock store.now.layout want.now (R.seen rack.old)
        (λ images t slot. fails_on images slot t)
        probe.old.failing.items probe.new.failing.items result }
    ensures account { AccountsParts store.now.layout want.now
        (R.seen rack.old) (R.seen rack.new) result }
{
    for mirror in 0..copies {
        flag_part(want, Part::Mirror(mirror), nodesize, rack, store, probe)?;
    }
    Ok(())
}

// The same for a block, wherever it lies. A sector without a checksum passes everywhere.
fn flag_block<R: Rack>(
    want: &Want,
    nodesize: u32,
    rack: &mut R,
    store: &Store,
    probe: &mut Probe,
) -> Result<(), MendFault>
    requires open { AreOpen (R.seen rack.old).slots store.now.layout.devices }
    requires nodesize { nodesize ≡ store.now.layout.setting.nodesize }
    requires sought { IsOk (sought store.now.layout want.now) }
    requires ready { HasRoom nodesize (R.seen rack.old) probe.old }
    ensures ready { HasRoom nodesize (R.seen rack.new) probe.new }
    ensures reads { OnlyReads (R.seen rack.old) (R.seen rack.new) }
    ensures flags { FlagsBlock store.now.layout want.now (R.seen rack.old)
        (λ images t slot. fails_on images slot t)
        probe.old.failing.items probe.new.failing.items result }
    ensures account { AccountsParts store.now.layout want.now
        (R.seen rack.old) (R.seen rack.new) result }
{
    if is_plain(want) {
        return Ok(());
    }
    match copies_of(want, store) {
        Some(copies) => flag_copies(want, copies, nodesize, rack, store, probe),
        None => {
            let part = Part::Slice(slice_of(want, nodesize, store));
            flag_part(want, part, nodesize, rack, store, probe)
        }
    }
}

/// Flags by slot the images on which some of a list's blocks doesn't pass at its place. The blocks
/// have positions and are apart.
///
/// `Image`: a read of an image failed, and nothing was tried behind it.
pub(crate) fn flag_blocks<R: Rack>(
    blocks: &mut Reader<'_>,
    nodesize: u32,
    rack: &mut R,
    store: &Store,
    probe: &mut Probe,
) -> Result<(), MendFault>
    requires open { AreOpen (R.seen rack.old).slots store.now.layout.devices }
    requires nodesize { nodesize ≡ store.now.layout.setting.nodesize }
    requires table { IsTable store.now.layout.chunks }
    requires apart { AreApart store.now.layout 0 blocks.old }
    requires ready { HasRoom nodesize (R.seen rack.old) probe.old }
    ensures ready { HasRoom nodesize (R.seen rack.new) probe.new }
    ensures reads { OnlyReads (R.seen rack.old) (R.seen rack.new) }
    ensures flags { FlagsAll store.now.layout blocks.old (R.seen rack.old)
        probe.old.failing.items probe.new.failing.items result }
    ensures account { AccountsMend (LiesInStripe store.now.layout)
        (R.seen rack.old) (R.seen rack.new) result }
{
    while let Some(want) = blocks.next() {
        flag_block(&want, nodesize, rack, store, probe)?;
        pass_if(is_plain(&want), u64::MAX, blocks);
    }
    Ok(())
}

// Whether some chunk has parity.
fn some_parity(store: &Store) -> bool
    ensures { result ≡ some_parity store.now.layout.chunks }
{
    for i in 0..store.chunks().count() {
        if has_parity(i, store) {
            return true;
        }
    }
    false
}

// Whether the image of a device is older.
fn is_older(devid: u64, store: &Store) -> bool
    ensures { result ≡ is_older store.now.layout.devices devid }
{
    match store.device(devid) {
        Some(device) => device.older,
        None => false,
    }
}

// Whether some image of a chunk is.
pub(crate) fn has_older(chunk: &Chunk, store: &Store) -> bool
    ensures { result ≡ has_older store.now.layout.devices chunk.now }
{
    for i in 0..chunk.stripes.len() {
        if is_older(chunk.stripes.at(i).devid, store) {
            return true;
        }
    }
    false
}

// Whether some image of some chunk is.
fn some_older(store: &Store) -> bool
    ensures { result ≡ some_older store.now.layout }
{
    for i in 0..store.chunks().count() {
        if has_older(store.chunks().at(i), store) {
            return true;
        }
    }
    false
}

// Whether there is a sector without a checksum among the blocks that a reader has.
fn some_plain(blocks: &mut Reader<'_>) -> bool
    ensures { result ≡ list_any is_plain blocks.old }
{
    while let Some(want) = blocks.next() {
        if is_plain(&want) {
            return true;
        }
    }
    false
}

// Whether it matters nowhere which images fail.
fn is_idle(list: &Listed, store: &Store) -> bool
    requires { IsList list.now }
    ensures { IsTrue result → IsIdle store.now.layout (kept_wants list.now) }
{
    if !some_parity(store) && !some_older(store) {
        return true;
    }
    !some_plain(&mut read_all(list))
}

/// By slot, whether some of the listed blocks doesn't pass at its place on the image. It matters for
/// sectors without a checksum alone, where some chunk has parity or some image is older: else nothing is read.
///
/// `Image`: a read of an image failed, and nothing was tried behind it.
/// `Memory`: for want of memory.
pub(crate) fn failing_images<R: Rack>(
    alloc: Global,
    list: &Listed,
    nodesize: u32,
    rack: &mut R,
    store: &Store,
) -> Result<Vec<bool>, MendFault>
    requires open { AreOpen (R.seen rack.old).slots store.now.layout.devices }
    requires nodesize { nodesize ≡ store.now.layout.setting.nodesize }
    requires large { 4096 ≤ nodesize }
    requires table { IsTable store.now.layout.chunks }
    requires is_list { IsList list.now }
    requires apart { AreApart store.now.layout 0 (kept_wants list.now) }
    ensures reads { OnlyReads (R.seen rack.old) (R.seen rack.new) }
    ensures flags { IfOk result (λ flags. Suffices store.now.layout (kept_wants list.now)
        (R.seen rack.old) flags.items) }
    ensures account { AccountsMend (LiesInStripe store.now.layout)
        (R.seen rack.old) (R.seen rack.new) result }
{
    let Ok(failing) = vec![in alloc; false; rack.count()] else {
        return Err(MendFault::Memory);
    };
    if is_idle(list, store) {
        return Ok(failing);
    }
    let Ok(buffer) = vec![in alloc; 0; nodesize as usize] else {
        return Err(MendFault::Memory);
    };
    let mut probe = Probe { buffer, failing };
    let mut blocks = read_all(list);
    flag_blocks(&mut blocks, nodesize, rack, store, &mut probe)?;
    Ok(probe.failing)
}
