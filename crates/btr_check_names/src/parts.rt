// Parts of items that give names.
ghost use Rattle.std.specs.Prelude.{◌≡◌};
ghost use Rattle.btr_items.specs.Form.{HasName};
ghost use Rattle.btr_check_names.specs.Entry.{entry_of, ref_of};
ghost use Rattle.btr_check_names.specs.Items.{entry_with, ref_with, ext_ref_with};

use crate::{DirEntry, LinkName, Target};
use btr_base::Key;
use btr_items::{Entry, ExtRef, InodeRef};

/// An entry in the body of an item of a directory.
pub(crate) fn entry_in<'a>(key: Key, body: &'a [u8], entry: &Entry) -> DirEntry<'a>
    requires { HasName body.now entry.now.name_at entry.now.name_len }
    ensures { entry_of result ≡ entry_with key body.now entry.now }
{
    DirEntry {
        dir: key.objectid,
        offset: key.offset,
        target: Target::of(entry.location),
        kind: entry.kind,
        name: entry.name(body),
    }
}

/// A reference in the body of an INODE_REF.
pub(crate) fn ref_in<'a>(key: Key, body: &'a [u8], part: &InodeRef) -> LinkName<'a>
    requires { HasName body.now part.now.name_at part.now.name_len }
    ensures { ref_of result ≡ ref_with key body.now part.now }
{
    LinkName {
        inode: key.objectid,
        parent: key.offset,
        index: part.index,
        name: part.name(body),
    }
}

/// A reference in the body of an INODE_EXTREF.
pub(crate) fn ext_ref_in<'a>(key: Key, body: &'a [u8], part: &ExtRef) -> LinkName<'a>
    requires { HasName body.now part.now.name_at part.now.name_len }
    ensures { ref_of result ≡ ext_ref_with key body.now part.now }
{
    LinkName {
        inode: key.objectid,
        parent: part.parent,
        index: part.index,
        name: part.name(body),
    }
}
