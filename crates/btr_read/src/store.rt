ghost use Rattle.std.specs.Option.{is_some};
ghost use Rattle.btr_node.specs.Node.{node_of};
ghost use Rattle.std.specs.Prelude.{◌≡◌, ◌≤◌, IfOk, OnErr, IsNone, IsSomeAnd, IsTrue, Some, None, length};
ghost use Rattle.btr_read.specs.Layout.{device_in};
ghost use Rattle.btr_read.specs.Store.{IsLiveIn, IsNode, block_of, free_count, store_of, with_chunks, with_device, with_loan, without_kept};

use crate::device::{Device, Member, find_device};
use crate::kept::{Kept, SLOTS};
use crate::loan::Loan;
use crate::setting::Setting;
use btr_base::{Memory, SumKind};
use btr_chunk::ChunkTable;
use btr_node::Node;
use btr_pool::Pool;
use std::alloc::Global;
use std::marker::Model;

/// What is needed to read the blocks of a filesystem: its chunks, the devices that are given, how its blocks are
/// tested, and 24 slots for blocks, as long as a node, in which tree blocks are kept from one loan to the next. After
/// `new` no reading takes memory.
#[derive(Drop)]
pub struct Store {
    pub(crate) pool: Pool,
    pub(crate) kept: Kept,
    pub(crate) chunks: ChunkTable,
    pub(crate) devices: Vec<Member>,
    pub(crate) setting: Setting,
}

impl Model for Store {
    ghost use Rattle.btr_pool.specs.Slots.{loans_of};
    ghost use Rattle.btr_read.specs.Store.{Blocks, IsSound, kept_in};

    ghost Value = { Blocks };

    ghost view = { λ s. record { layout = record { chunks = s.chunks; devices = s.devices.items; setting = s.setting }; loans = loans_of s.pool; kept = kept_in s.setting s.kept.wants s.pool.bytes } };

    ghost invariant = { λ s. IsSound s.pool s.kept.wants s.kept.nodes s.setting };
}

impl Store {
    /// A store with no device: the kind of the checksums; the id in the headers of tree blocks, which is metadata_uuid
    /// where the superblock's incompat bit 400h is set, else fsid; the length of a tree block in bytes, which is from
    /// 4096 to 65536; and the chunks.
    ///
    /// `Memory`: the slots couldn't be had, and the chunks are dropped.
    pub fn new(
        alloc: Global,
        kind: SumKind,
        fsid: [u8; 16],
        nodesize: u32,
        chunks: ChunkTable,
    ) -> Result<Store, Memory>
        requires large { 4096 ≤ nodesize }
        requires small { nodesize ≤ 65536 }
        ensures { IfOk result (λ store. store ≡ store_of chunks kind fsid nodesize) }
    {
        let pool = Pool::new(alloc, nodesize as usize, SLOTS)?;
        Ok(Store {
            pool,
            kept: Kept::new(),
            chunks,
            devices: Vec::new(alloc),
            setting: Setting {
                kind,
                fsid,
                nodesize,
            },
        })
    }

    /// Gives one more device: the image of `len` bytes in a slot of the rack, and whether its superblock has a smaller
    /// generation than the chosen one, so that it missed writes. The store has no device of that id, and forgets the blocks
    /// that it kept.
    ///
    /// `Memory`: the store is as before.
    pub fn add_device(
        &mut self,
        devid: u64,
        slot: usize,
        len: u64,
        older: bool,
    ) -> Result<(), Memory>
        requires { IsNone (device_in self.old.layout.devices devid) }
        ensures added { IfOk result (λ _. self.new ≡ with_device self.old devid slot len older) }
        ensures unchanged { OnErr result (self.new ≡ self.old) }
    {
        let member = Member {
            devid,
            device: Device { slot, len, older },
        };
        match self.devices.push(member) {
            Ok(()) => {
                self.kept = Kept::new();
                Ok(())
            }
            Err(_) => Err(Memory),
        }
    }

    /// Puts other chunks in the place of those that the store has, and forgets the blocks that it kept.
    pub fn replace_chunks(&mut self, chunks: ChunkTable)
        ensures { self.new ≡ with_chunks self.old chunks }
    {
        self.chunks = chunks;
        self.kept = Kept::new();
    }

    /// Forgets the blocks that are kept, as before bytes of an image are written.
    pub fn forget_kept(&mut self)
        ensures { self.new ≡ without_kept self.old }
    {
        self.kept = Kept::new();
    }

    /// The chunks.
    pub fn chunks(&self) -> &ChunkTable
        ensures { result.now ≡ self.now.layout.chunks }
    {
        &self.chunks
    }

    /// The device of an id, if it is given.
    pub fn device(&self, devid: u64) -> Option<Device>
        ensures { result ≡ device_in self.now.layout.devices devid }
    {
        find_device(&self.devices, devid)
    }

    /// The bytes of a live loan, as many as its want has.
    pub fn bytes(&self, loan: &Loan) -> &[u8]
        requires { IsLiveIn self.now loan.now }
        ensures value { block_of self.now loan.now ≡ Some result.now }
        ensures len { length result.now ≡ loan.now.len }
    {
        &self.pool.bytes(&loan.slot)[..loan.len]
    }

    // Whether the block of a live loan is known to be a good node.
    fn is_known_node(&self, loan: &Loan) -> bool
        requires { IsLiveIn self.now loan.now }
        ensures { IsTrue result → IsSomeAnd (block_of self.now loan.now) IsNode }
    {
        if loan.len != self.setting.nodesize as usize {
            return false;
        }
        let slot = loan.slot.slot();
        slot < SLOTS && self.kept.is_node(slot)
    }

    // Notes that the block of a live loan is a good node, as it is. It is known for as long as the block is kept.
    fn note_node(&mut self, loan: &Loan)
        requires live { IsLiveIn self.old loan.now }
        requires node { IsSomeAnd (block_of self.old loan.now) IsNode }
        ensures { self.new ≡ self.old }
    {
        if loan.len != self.setting.nodesize as usize {
            return;
        }
        let slot = loan.slot.slot();
        if slot < SLOTS {
            self.kept.note_node(slot);
        }
    }

    /// Whether the block of a live loan of 101 bytes at least is a good node, as `Node::view` tests it. While a block is kept
    /// that is tested once.
    pub fn has_node(&mut self, loan: &Loan) -> bool
        requires live { IsLiveIn self.old loan.now }
        requires header { 101 ≤ loan.now.len }
        ensures same { self.new ≡ self.old }
        ensures node { IsSomeAnd (block_of self.old loan.now) (λ block. result ≡ is_some (node_of block)) }
    {
        if self.is_known_node(loan) {
            return true;
        }
        let is_node = Node::view(self.bytes(loan)).is_ok();
        if is_node {
            self.note_node(loan);
        }
        is_node
    }

    /// Takes a live loan back.
    pub fn give(&mut self, loan: Loan)
        requires { IsLiveIn self.old loan }
        ensures { self.new ≡ with_loan self.old loan.slot None }
    {
        let Loan { slot, len: _ } = loan;
        self.pool.give(slot);
    }

    /// How many slots are free.
    pub fn free(&self) -> usize
        ensures { result ≡ free_count self.now }
    {
        self.pool.free()
    }
}
