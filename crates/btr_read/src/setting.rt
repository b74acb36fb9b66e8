ghost use Rattle.std.specs.Prelude.{◌≡◌};
ghost use Rattle.btr_read.specs.Want.{same_sum};

use crate::Want;
use btr_base::{Header, Sum, SumKind, SumRoom, is_summed, sum};

// Whether two checksums are the same.
fn is_same(found: &Sum, wanted: &Sum) -> bool
    ensures { result ≡ same_sum found.now wanted.now }
{
    found.bytes == wanted.bytes && found.size == wanted.size
}

/// What all blocks of a filesystem have in common.
#[derive(Clone, Copy, Debug, PartialEq, Eq)]
pub struct Setting {
    /// The kind of the checksums.
    pub kind: SumKind,
    /// The id in the header of each tree block.
    pub fsid: [u8; 16],
    /// The length of a tree block in bytes.
    pub nodesize: u32,
}

impl Setting {
    ghost use Rattle.std.specs.Prelude.{◌≡◌, ◌≤◌, length};
    ghost use Rattle.btr_read.specs.Want.{len_of, passes, is_block};

    // How many bytes a want has.
    pub(crate) fn len(&self, want: &Want) -> usize
        ensures { result ≡ len_of self.now want.now }
    {
        match want {
            Want::Tree { .. } | Want::Block { .. } => self.nodesize as usize,
            Want::Sector { .. } | Want::Plain { .. } => 4096,
        }
    }

    // Whether a reading of the want, which is as long as it, passes.
    pub(crate) fn passes(&self, want: &Want, bytes: &[u8]) -> bool
        requires long { length bytes.now ≡ len_of self.now want.now }
        requires node { 101 ≤ self.now.nodesize }
        ensures { result ≡ passes self.now want.now bytes.now }
    {
        match want {
            Want::Tree {
                addr,
                generation,
                level,
            } => {
                let header = Header::read(self.kind, bytes);
                header.generation == *generation
                    && header.level == *level
                    && self.is_block(*addr, &header, bytes)
            }
            Want::Block { addr } => {
                let header = Header::read(self.kind, bytes);
                self.is_block(*addr, &header, bytes)
            }
            Want::Sector {
                addr: _,
                sum: wanted,
            } => is_same(&sum(self.kind, bytes), wanted),
            Want::Plain { .. } => true,
        }
    }

    // The same, where the checksum of a sector is computed in room that is kept.
    pub(crate) fn passes_in(&self, room: &mut SumRoom, want: &Want, bytes: &[u8]) -> bool
        requires long { length bytes.now ≡ len_of self.now want.now }
        requires node { 101 ≤ self.now.nodesize }
        ensures { result ≡ passes self.now want.now bytes.now }
    {
        match want {
            Want::Sector {
                addr: _,
                sum: wanted,
            } => is_same(&room.sum(self.kind, bytes), wanted),
            Want::Tree { .. } | Want::Block { .. } | Want::Plain { .. } => self.passes(want, bytes),
        }
    }

    // Whether bytes with this header are the tree block of an address.
    fn is_block(&self, addr: u64, header: &Header, bytes: &[u8]) -> bool
        requires { 32 ≤ length bytes.now }
        ensures { result ≡ is_block self.now addr header.now bytes.now }
    {
        header.addr == addr && header.fsid == self.fsid && is_summed(self.kind, bytes)
    }
}
