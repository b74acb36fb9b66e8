// The block at an address.
ghost use Rattle.std.specs.Prelude.{◌≤◌, []};
ghost use Rattle.btr_prog.specs.Prog.{exec};
ghost use Rattle.btr_rack.specs.Rack.{Seen, OnlyReads};
ghost use Rattle.btr_read.specs.Layout.{Layout};
ghost use Rattle.btr_read.specs.Serves.{Serves};
ghost use Rattle.btr_read.specs.Store.{SameLoans, free_count};
ghost use Rattle.btr_read.specs.declared.want.Want.{Want};
ghost use Rattle.btr_walk.specs.Reading.{unread_by};
ghost use Rattle.btr_volume.specs.Looking.{SameVolume};
ghost use Rattle.btr_dump.specs.Pieces.{kind_in, held_block, held_in, block_shown};
ghost use Rattle.btr_dump.specs.Showing.{Grows, ShowsText, WritesAlways, PutsText, TellsBlock};
ghost use Rattle.btr_dump.specs.Stops.{StopCounts, DumpStopCause};

use crate::ending::{finish, stop_of};
use crate::kind::kind_in;
use btr_base::SumKind;
use btr_block_text::write_block;
use btr_node::{Malformed, Node};
use btr_rack::{Out, Rack};
use btr_read::{Store, Want, fetch};
use btr_text::TextBuffer;
use btr_volume::{Stop, Volume};
use btr_walk::TreeFault;

// The size of a block's header.
const HEADER: usize = 101;

/// ShowsText a block that keeps the rules of one block; another one is malformed.
#[tactic(auto, unfolding(crate::specs::Pieces::held_block))]
pub(crate) fn write_held<O: Out>(
    kind: SumKind,
    addr: u64,
    block: &[u8],
    text: &mut TextBuffer,
    out: &mut O,
) -> Result<(), Stop>
    ensures text { WritesAlways (held_block kind addr block.now (held_in block.now))
        (O.text out.old) (O.text out.new) text.old text.new result }
    ensures account { StopCounts (O.account out.old) (O.account out.new) result }
    ensures cause { (layout : Layout) (before now : Seen) → DumpStopCause layout before now result }
{
    if block.len() < HEADER {
        return Err(Stop::Tree(TreeFault::Malformed(addr)));
    }
    match Node::view(block) {
        Err(Malformed) => Err(Stop::Tree(TreeFault::Malformed(addr))),
        Ok(_) => match write_block(kind, addr, block, text, out) {
            Ok(()) => Ok(()),
            Err(refusal) => Err(stop_of(refusal)),
        },
    }
}

// ShowsText the block at an address, of whatever tree it is.
fn show_block<R: Rack, O: Out>(
    kind: SumKind,
    addr: u64,
    rack: &mut R,
    store: &mut Store,
    text: &mut TextBuffer,
    out: &mut O,
) -> Result<(), Stop>
    requires serves { Serves (R.seen rack.old) store.old }
    requires room { 4 ≤ free_count store.old }
    ensures serves { Serves (R.seen rack.new) store.new }
    ensures reads { OnlyReads (R.seen rack.old) (R.seen rack.new) }
    ensures loans { SameLoans store.old store.new }
    ensures account { StopCounts (O.account out.old) (O.account out.new) result }
    ensures cause { DumpStopCause store.old.layout (R.seen rack.old) (R.seen rack.new) result }
    ensures grows { Grows (O.text out.old) (O.text out.new) }
    ensures content { TellsBlock store.old.layout addr (R.seen rack.old) (R.seen rack.new)
        (λ B. ShowsText (unread_by store.old.layout (R.seen rack.old) (R.seen rack.new)) []
        (exec B (block_shown kind addr))
        (O.text out.old) (O.text out.new) text.old text.new result) }
{
    let loan = match fetch(&Want::Block { addr }, rack, store) {
        Ok(loan) => loan,
        Err(fault) => return Err(Stop::Tree(TreeFault::from(fault))),
    };
    let shown = write_held(kind, addr, store.bytes(&loan), text, out);
    store.give(loan);
    shown
}

/// PutsText the text of the block at a logical address, of whatever tree it is: of the first copy that passes. It takes no memory of its
/// own. Four slots are free, and after it as many as before.
///
/// `Tree`: the block is `Lost`, `Unread`, `Unmapped` or `Crosses`, or `Malformed` where it breaks a rule of one block; then nothing was
/// put. `Out` and `Memory` are the output's refusals: then a first part of the text was put.
pub fn dump_block<R: Rack, O: Out>(
    addr: u64,
    rack: &mut R,
    vol: &mut Volume,
    out: &mut O,
) -> Result<(), Stop>
    requires serves { Serves (R.seen rack.old) vol.old.store }
    requires room { 4 ≤ free_count vol.old.store }
    ensures serves { Serves (R.seen rack.new) vol.new.store }
    ensures reads { OnlyReads (R.seen rack.old) (R.seen rack.new) }
    ensures same { SameVolume vol.old vol.new }
    ensures account { StopCounts (O.account out.old) (O.account out.new) result }
    ensures cause { DumpStopCause vol.old.store.layout (R.seen rack.old) (R.seen rack.new) result }
    ensures grows { Grows (O.text out.old) (O.text out.new) }
    ensures content { TellsBlock vol.old.store.layout addr (R.seen rack.old) (R.seen rack.new)
        (λ B. PutsText (unread_by vol.old.store.layout (R.seen rack.old) (R.seen rack.new))
        (exec B (block_shown (kind_in vol.old.sup) addr))
        (O.text out.old) (O.text out.new) result) }
{
    let mut text = TextBuffer::new();
    let kind = kind_in(&vol.sup);
    let shown = show_block(kind, addr, rack, &mut vol.store, &mut text, out);
    finish(shown, text, out)
}
