ghost use Rattle.std.specs.Prelude.{◌≡◌, All, IfOk};
ghost use Rattle.btr_items.specs.Entry as spec;
ghost use Rattle.btr_items.specs.Form.{HasName};

use crate::field::key_at;
use crate::name::{is_name_length, name_at};
use crate::{ItemFault, Part, Parts, item};
use btr_base::{Key, u16_at, u64_at};

/// An entry of a directory, or an extended attribute: its header has 30 bytes, then come the name and the
/// data.
#[derive(Clone, Copy, Debug, PartialEq, Eq)]
pub struct Entry {
    /// The key of the inode, or of the subvolume's root item, that the entry leads to.
    pub location: Key,
    /// The transaction that wrote the entry.
    pub transid: u64,
    /// 1 file, 2 directory, 3 character device, 4 block device, 5 pipe, 6 socket, 7 symbolic link,
    /// 8 extended attribute.
    pub kind: u8,
    /// How many bytes of data stand behind the name.
    pub extra_len: usize,
    /// Where the name begins in the body.
    pub name_at: usize,
    /// How many bytes the name has: 1 to 255.
    pub name_len: usize,
    /// Where the entry ends in the body.
    pub end: usize,
}

impl Entry {
    ghost use Rattle.std.specs.Prelude.{◌≡◌, ◌≤◌, length, IfOk};
    ghost use Rattle.btr_base.specs.Field.{bytes_at};
    ghost use Rattle.btr_items.specs.Entry.{entry_at, index_entry_of};
    ghost use Rattle.btr_items.specs.Form.{HasName};

    /// Reads the entry that begins at `at`; `ItemFault` exactly where its 30 bytes, a name of 1 to 255 bytes and its data don't
    /// all stand in the body.
    pub fn read(body: &[u8], at: usize) -> Result<Entry, ItemFault>
        requires { at ≤ length body.now }
        ensures form { result ≡ entry_at at body.now }
        ensures name { IfOk result (λ entry. HasName body.now entry.name_at entry.name_len) }
    {
        if body.len() - at < 30 {
            return Err(ItemFault);
        }
        let extra_len = u16_at(body, at + 25) as usize;
        let name_len = u16_at(body, at + 27) as usize;
        let end = at + 30 + name_len + extra_len;
        if !is_name_length(name_len) || end > body.len() {
            return Err(ItemFault);
        }
        Ok(Entry {
            location: key_at(body, at),
            transid: u64_at(body, at + 17),
            kind: body[at + 29],
            extra_len,
            name_at: at + 30,
            name_len,
            end,
        })
    }

    /// Reads the body of a DIR_INDEX: one entry, which isn't an extended attribute, has no data, and leads to an inode or, as
    /// a directory, to a subvolume. `ItemFault` exactly where it hasn't that form.
    pub fn index(body: &[u8]) -> Result<Entry, ItemFault>
        ensures form { result ≡ index_entry_of body.now }
        ensures name { IfOk result (λ entry. HasName body.now entry.name_at entry.name_len) }
    {
        let entry = Entry::read(body, 0)?;
        if !is_index(&entry, body.len()) {
            return Err(ItemFault);
        }
        Ok(entry)
    }

    /// The bytes of the name, in the body that it was read from.
    pub fn name<'a>(&self, body: &'a [u8]) -> &'a [u8]
        requires { HasName body.now self.now.name_at self.now.name_len }
        ensures { result.now ≡ bytes_at self.now.name_len self.now.name_at body.now }
    {
        name_at(body, self.name_at, self.name_len)
    }
}

// The rules on the entry of a DIR_INDEX whose body has this size.
fn is_index(entry: &Entry, size: usize) -> bool
    ensures { result ≡ spec.is_index entry.now size }
{
    let leads_on = match entry.location.kind {
        item::INODE_ITEM => true,
        item::ROOT_ITEM => entry.kind == 2,
        _ => false,
    };
    (1..=7).contains(&entry.kind) && entry.extra_len == 0 && entry.end == size && leads_on
}

impl Part for Entry {
    ghost use Rattle.btr_items.specs.Entry.{entry_at};
    ghost use Rattle.btr_items.specs.Ends.{entry_ends};

    ghost part_at = { entry_at };

    ghost end_of = { λ part. part.end };

    ghost ends_within = { entry_ends };

    fn read_at(body: &[u8], at: usize) -> Result<Entry, ItemFault> {
        Entry::read(body, at)
    }

    fn end(&self) -> usize {
        self.end
    }
}

/// The entries of a DIR_ITEM, a DIR_INDEX or an XATTR_ITEM. Their names lie in the body.
pub fn entries(body: &[u8]) -> Parts<'_, Entry>
    ensures list { result ≡ spec.entries_of body.now }
    ensures names { All (λ read. IfOk read (λ entry. HasName body.now entry.name_at entry.name_len)) result }
{
    Parts::new(body, 0)
}
