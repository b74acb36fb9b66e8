use crate::ItemFault;
use crate::name::{is_name_length, name_at};
use btr_base::{u16_at, u64_at};

/// A name of a subvolume: the body of a ROOT_REF or a ROOT_BACKREF.
#[derive(Clone, Copy, Debug, PartialEq, Eq)]
pub struct RootRef {
    /// The inode of the directory that holds the name.
    pub dirid: u64,
    /// The index of the name in that directory.
    pub sequence: u64,
    /// Where the name begins in the body.
    pub name_at: usize,
    /// How many bytes the name has: 1 to 255.
    pub name_len: usize,
}

impl RootRef {
    ghost use Rattle.std.specs.Prelude.{◌≡◌, IfOk};
    ghost use Rattle.btr_base.specs.Field.{bytes_at};
    ghost use Rattle.btr_items.specs.Form.{HasName};
    ghost use Rattle.btr_items.specs.RootRef.{root_ref_of};

    /// Reads the body of a ROOT_REF or a ROOT_BACKREF; `ItemFault` exactly where it isn't 18 bytes and then, to its end, a
    /// name as long as they say.
    pub fn read(body: &[u8]) -> Result<RootRef, ItemFault>
        ensures form { result ≡ root_ref_of body.now }
        ensures name { IfOk result (λ found. HasName body.now found.name_at found.name_len) }
    {
        if body.len() < 18 {
            return Err(ItemFault);
        }
        let name_len = u16_at(body, 16) as usize;
        if !is_name_length(name_len) || body.len() != 18 + name_len {
            return Err(ItemFault);
        }
        Ok(RootRef {
            dirid: u64_at(body, 0),
            sequence: u64_at(body, 8),
            name_at: 18,
            name_len,
        })
    }

    /// The bytes of the name, in the body that it was read from.
    pub fn name<'a>(&self, body: &'a [u8]) -> &'a [u8]
        requires { HasName body.now self.now.name_at self.now.name_len }
        ensures { result.now ≡ bytes_at self.now.name_len self.now.name_at body.now }
    {
        name_at(body, self.name_at, self.name_len)
    }
}
