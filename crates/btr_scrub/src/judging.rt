// A second look at the list of the checked blocks, before anything is written.
ghost use Rattle.std.specs.Prelude.{◌≡◌};
ghost use Rattle.btr_chunk.specs.Table.{IsTable};
ghost use Rattle.btr_read.specs.Want.{len_of};
ghost use Rattle.btr_read.specs.declared.setting.Setting.{Setting};
ghost use Rattle.btr_scrub.specs.Judging.{ArePlaced, Judged, JudgedOne};

use crate::reader::Reader;
use btr_chunk::{MapFault, elements};
use btr_read::{Store, Want};
use btr_scrub_row::is_plain;
use btr_walk::TreeFault;

// How many bytes a block has.
pub(crate) fn len_of(want: &Want, nodesize: u32) -> u64
    ensures { (setting : Setting) → setting.nodesize ≡ nodesize → result ≡ len_of setting want.now }
{
    match want {
        Want::Tree { .. } => u64::from(nodesize),
        Want::Block { .. } => u64::from(nodesize),
        Want::Sector { .. } => 4096,
        Want::Plain { .. } => 4096,
    }
}

// Where a block ends, if it has a position and begins at or behind an address.
fn end_of(want: &Want, from: u64, nodesize: u32, store: &Store) -> Result<u64, TreeFault>
    requires { nodesize ≡ store.now.layout.setting.nodesize }
    ensures { JudgedOne store.now.layout from want.now result }
{
    let addr = want.addr();
    let Some(chunk) = store.chunks().find(addr) else {
        return Err(TreeFault::Unmapped(addr));
    };
    let len = len_of(want, nodesize);
    match elements(chunk, addr, len) {
        Err(MapFault::Unmapped) => return Err(TreeFault::Unmapped(addr)),
        Err(MapFault::Crosses) => return Err(TreeFault::Crosses(addr)),
        Ok(_) => {}
    }
    if addr < from {
        return Err(TreeFault::Malformed(addr));
    }
    Ok(addr + len)
}

// Up to which address sectors that follow each other from an address on have a position, all in its
// chunk.
fn placed_until(addr: u64, store: &Store) -> u64
    requires { IsTable store.now.layout.chunks }
    ensures { ArePlaced store.now.layout addr result }
{
    let Some(chunk) = store.chunks().find(addr) else {
        return addr;
    };
    if !addr.is_multiple_of(4096) {
        return addr;
    }
    (chunk.start + chunk.length).saturating_sub(4095)
}

/// Where the blocks of a list end, if each has a position, and begins at or behind the end of the
/// one before, the first one at or behind an address. Blocks of
/// sound trees do; those that were listed after a read failed may come from a copy that passes and
/// yet isn't the same. A refusal names the first block for
/// which it doesn't hold.
///
/// `Unmapped` and `Crosses`: the block has no position. `Malformed`: it begins before the end of the one before.
pub(crate) fn judge_blocks(
    blocks: &mut Reader<'_>,
    from: u64,
    nodesize: u32,
    store: &Store,
) -> Result<u64, TreeFault>
    requires nodesize { nodesize ≡ store.now.layout.setting.nodesize }
    requires table { IsTable store.now.layout.chunks }
    ensures { Judged store.now.layout from blocks.old result }
{
    let mut end = from;
    while let Some(want) = blocks.next() {
        end = end_of(&want, end, nodesize, store)?;
        if is_plain(&want) {
            end = blocks.pass_from(end, placed_until(end, store));
        }
    }
    Ok(end)
}
