ghost use Rattle.std.specs.Prelude.{◌≡◌, ◌≤◌, length};
ghost use Rattle.btr_chunk.specs.Item.{has_form};

use crate::kind::profile_of;
use crate::{ChunkFault, Profile, Stripes};
use btr_base::{u16_at, u64_at};
use std::alloc::Global;

pub(crate) const SECTOR: u64 = 4096;

/// The bytes of an element: where the data of a chunk lies on its stripes element by element, so many stand behind one another.
pub const ELEMENT: u64 = 65536;

const MAX_STRIPES: u16 = 64;

const ITEM_SIZE: usize = 48;

const STRIPE_SIZE: usize = 32;

/// A range of logical addresses, and the stripes that its bytes lie on.
#[derive(Debug, Drop)]
pub struct Chunk {
    /// The first logical address.
    pub start: u64,
    /// How many logical addresses there are, one for each byte.
    pub length: u64,
    /// The bits of the type: DATA 1, SYSTEM 2, METADATA 4, and at most one for the profile.
    pub kind: u64,
    /// The profile of the type.
    pub profile: Profile,
    /// Where the bytes lie, as the profile says.
    pub stripes: Stripes,
}

impl Chunk {
    ghost use Rattle.std.specs.Prelude.{◌≡◌, ◌*◌, ◌+◌, ◌≤◌, length, IfOk};
    ghost use Rattle.btr_chunk.specs.Chunk.{IsChunk, keeps_rule, stripe_length, mirrors};
    ghost use Rattle.btr_chunk.specs.Item.{IsReading, chunk_of};
    ghost use Rattle.btr_chunk.specs.Table.{same_chunk};

    /// The chunk that an item describes, where `start` is the offset of the item's key.
    ///
    /// `Bad` for an item shorter than 48 bytes, then `Stripes` for more than 64 stripes, then `Bad` where
    /// another rule of chunks is broken. `Memory` may come in the place of each but the first two.
    pub fn read(alloc: Global, start: u64, bytes: &[u8]) -> Result<Chunk, ChunkFault>
        ensures exact { IsReading (chunk_of start bytes.now) result }
        ensures sound { IfOk result IsChunk }
    {
        if bytes.len() < ITEM_SIZE {
            return Err(ChunkFault::Bad);
        }
        let count = u16_at(bytes, 44);
        if count > MAX_STRIPES {
            return Err(ChunkFault::Stripes(count));
        }
        let kind = u64_at(bytes, 24);
        let Some(profile) = profile_of(kind) else {
            return Err(ChunkFault::Bad);
        };
        if !has_form(bytes, profile) {
            return Err(ChunkFault::Bad);
        }
        let chunk = Chunk {
            start,
            length: u64_at(bytes, 0),
            kind,
            profile,
            stripes: Stripes::read(alloc, count, bytes)?,
        };
        if !chunk.keeps_rule() {
            return Err(ChunkFault::Bad);
        }
        Ok(chunk)
    }

    // Whether the numbers of a chunk, whose profile is that of its type, keep the rule of chunks.
    fn keeps_rule(&self) -> bool
        requires { length self.now.stripes ≤ 64 }
        ensures { result ≡ keeps_rule self.now }
    {
        let count = self.stripes.len() as u64;
        if !self.profile.has_count(count) {
            return false;
        }
        let data = self.profile.data_count(count);
        let unit = if self.profile.is_striped() {
            data * ELEMENT
        } else {
            SECTOR
        };
        self.start % SECTOR == 0
            && self.length % unit == 0
            && self.length != 0
            && self.start.checked_add(self.length).is_some()
            && self.stripes.keep_rule(self.length / data)
    }

    // Whether the chunks are equal in all fields.
    pub(crate) fn is_same(&self, other: &Chunk) -> bool
        ensures { result ≡ same_chunk self.now other.now }
    {
        self.start == other.start
            && self.length == other.length
            && self.kind == other.kind
            && self.stripes.are_same(&other.stripes)
    }

    /// How many bytes of its device each stripe has.
    pub fn stripe_length(&self) -> u64
        requires { IsChunk self.now }
        ensures { result ≡ stripe_length self.now }
    {
        let count = self.stripes.len() as u64;
        self.length / self.profile.data_count(count)
    }

    /// How many copies of each byte there are; `None` for RAID5 and RAID6, where a lost slice is computed from
    /// the others and the parities.
    pub fn mirrors(&self) -> Option<u32>
        requires { IsChunk self.now }
        ensures { result ≡ mirrors self.now }
    {
        match self.profile {
            Profile::Raid0 => Some(1),
            Profile::Raid10 => Some(2),
            Profile::Raid5 | Profile::Raid6 => None,
            _ => Some(self.stripes.len() as u32),
        }
    }
}

fn has_form(bytes: &[u8], profile: Profile) -> bool
    requires { 48 ≤ length bytes.now }
    ensures { result ≡ has_form bytes.now profile }
{
    bytes.len() == ITEM_SIZE + STRIPE_SIZE * usize::from(u16_at(bytes, 44))
        && u64_at(bytes, 16) == ELEMENT
        && (profile != Profile::Raid10 || u16_at(bytes, 46) == 2)
}
