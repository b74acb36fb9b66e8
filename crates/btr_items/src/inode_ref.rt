ghost use Rattle.std.specs.Prelude.{◌≡◌, All, IfOk};
ghost use Rattle.btr_items.specs.InodeRef as spec;
ghost use Rattle.btr_items.specs.Form.{HasName};

use crate::name::{is_name_length, name_at};
use crate::{ItemFault, Part, Parts};
use btr_base::{u16_at, u64_at};

/// A name of an inode, as an INODE_REF has them one after another: its header has 10 bytes, then comes the
/// name. The item's key has the directory.
#[derive(Clone, Copy, Debug, PartialEq, Eq)]
pub struct InodeRef {
    /// The index of the name in the directory.
    pub index: u64,
    /// Where the name begins in the body.
    pub name_at: usize,
    /// How many bytes the name has: 1 to 255.
    pub name_len: usize,
    /// Where the reference ends in the body.
    pub end: usize,
}

impl InodeRef {
    ghost use Rattle.std.specs.Prelude.{◌≡◌, ◌≤◌, length, IfOk};
    ghost use Rattle.btr_base.specs.Field.{bytes_at};
    ghost use Rattle.btr_items.specs.InodeRef.{inode_ref_at};
    ghost use Rattle.btr_items.specs.Form.{HasName};

    /// Reads the reference that begins at `at`; `ItemFault` exactly where its 10 bytes and a name of 1 to 255 bytes don't all
    /// stand in the body.
    pub fn read(body: &[u8], at: usize) -> Result<InodeRef, ItemFault>
        requires { at ≤ length body.now }
        ensures form { result ≡ inode_ref_at at body.now }
        ensures name { IfOk result (λ found. HasName body.now found.name_at found.name_len) }
    {
        if body.len() - at < 10 {
            return Err(ItemFault);
        }
        let name_len = u16_at(body, at + 8) as usize;
        let end = at + 10 + name_len;
        if !is_name_length(name_len) || end > body.len() {
            return Err(ItemFault);
        }
        Ok(InodeRef {
            index: u64_at(body, at),
            name_at: at + 10,
            name_len,
            end,
        })
    }

    /// The bytes of the name, in the body that it was read from.
    pub fn name<'a>(&self, body: &'a [u8]) -> &'a [u8]
        requires { HasName body.now self.now.name_at self.now.name_len }
        ensures { result.now ≡ bytes_at self.now.name_len self.now.name_at body.now }
    {
        name_at(body, self.name_at, self.name_len)
    }
}

impl Part for InodeRef {
    ghost use Rattle.btr_items.specs.InodeRef.{inode_ref_at};
    ghost use Rattle.btr_items.specs.Ends.{inode_ref_ends};

    ghost part_at = { inode_ref_at };

    ghost end_of = { λ part. part.end };

    ghost ends_within = { inode_ref_ends };

    fn read_at(body: &[u8], at: usize) -> Result<InodeRef, ItemFault> {
        InodeRef::read(body, at)
    }

    fn end(&self) -> usize {
        self.end
    }
}

/// The references of an INODE_REF. Their names lie in the body.
pub fn inode_refs(body: &[u8]) -> Parts<'_, InodeRef>
    ensures list { result ≡ spec.inode_refs_of body.now }
    ensures names { All (λ read. IfOk read (λ found. HasName body.now found.name_at found.name_len)) result }
{
    Parts::new(body, 0)
}
