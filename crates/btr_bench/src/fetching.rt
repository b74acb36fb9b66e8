// The fetching of a block from the image of a device, in a chunk of the profile single.
ghost use Rattle.std.specs.Prelude.{◌≡◌, ◌<◌, ◌≤◌, IfOk, IsTrue};
ghost use Rattle.std.specs.Result.{is_ok};
ghost use Rattle.btr_rack.specs.Rack.{Seen, Steady, OnlyReads};
ghost use Rattle.btr_rack.specs.Memory.{seen_of, held_of};
ghost use Rattle.btr_read.specs.Fate.{fate};
ghost use Rattle.btr_read.specs.Store.{SameLoans, free_count};
ghost use Rattle.btr_read.specs.Serves.{Serves};
ghost use Rattle.btr_bench.specs.Fetching.{takes, times_got};

use crate::image::{image_of, sealed, sector, store_over};
use crate::pattern::pattern;
use btr_rack::MemRack;
use btr_read::{Store, Want, fetch};
use std::alloc::{AllocError, Global};

/// What is fetched.
#[derive(Clone, Copy, Debug, PartialEq, Eq)]
pub enum Block {
    /// A tree block, which is as long as a node, read in each turn.
    Tree,
    /// A tree block that the store keeps from the first turn on.
    Kept,
    /// A sector of data.
    Sector,
}

impl Block {
    ghost use Rattle.std.specs.Prelude.{◌≡◌};
    ghost use Rattle.btr_bench.specs.Fetching.{takes};

    /// Whether the block can have so many bytes.
    pub fn takes(self, size: usize) -> bool
        ensures { result ≡ takes self size }
    {
        match self {
            Block::Tree | Block::Kept => 4096 <= size && size <= 65536,
            Block::Sector => size == 4096,
        }
    }
}

// Lets the store forget what it keeps, but for a block that is to be kept.
fn begin_turn(block: Block, store: &mut Store)
    ensures same { SameLoans store.old store.new }
    ensures serves { (rack : Seen) → Serves rack store.old → Serves rack store.new }
{
    if block == Block::Kept {
        return;
    }
    store.forget_kept();
}

// Fetches a block and gives it back. It is false where there is none to be had.
fn gets(want: &Want, rack: &mut MemRack, store: &mut Store) -> bool
    requires serves { Serves (seen_of rack.old) store.old }
    requires room { 4 ≤ free_count store.old }
    ensures serves { Serves (seen_of rack.new) store.new }
    ensures reads { OnlyReads (seen_of rack.old) (seen_of rack.new) }
    ensures store { SameLoans store.old store.new }
    ensures answer { Steady rack.old.account.faults rack.new.account.faults
        → result ≡ is_ok (fate (held_of rack.old) store.old.layout want.now) }
{
    match fetch(want, rack, store) {
        Ok(loan) => {
            store.give(loan);
            true
        }
        Err(_) => false,
    }
}

// How many of `times` turns get the block: where no read fails, all of them or none.
fn count(block: Block, want: &Want, rack: &mut MemRack, store: &mut Store, times: u64) -> u64
    requires serves { Serves (seen_of rack.old) store.old }
    requires room { 4 ≤ free_count store.old }
    ensures most { result ≤ times }
    ensures exact { Steady rack.old.account.faults rack.new.account.faults
        → result ≡ times_got times (fate (held_of rack.old) store.old.layout want.now) }
{
    let mut got = 0;
    for _turn in 0..times {
        begin_turn(block, store);
        if gets(want, rack, store) {
            got += 1;
        }
    }
    got
}

/// Puts a block of so many bytes on a rack, fetches it in each turn, and answers how many of them got it. `AllocError`:
/// there is no memory for the image or the store.
pub fn run(alloc: Global, block: Block, size: usize, times: u64) -> Result<u64, AllocError>
    requires { IsTrue (takes block size) }
    ensures { IfOk result (λ got. got ≤ times) }
{
    let mut bytes = pattern(alloc, size)?;
    let want = match block {
        Block::Tree | Block::Kept => sealed(bytes.as_mut_slice()),
        Block::Sector => sector(bytes.as_slice()),
    };
    let mut rack = image_of(alloc, bytes.as_slice())?;
    let mut store = store_over(alloc, size as u32, &rack)?;
    Ok(count(block, &want, &mut rack, &mut store, times))
}
