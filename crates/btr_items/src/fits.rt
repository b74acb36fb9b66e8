ghost use Rattle.std.specs.Prelude.{◌≡◌};
ghost use Rattle.std.specs.List.{list_all};
ghost use Rattle.std.specs.Result.{is_ok};
ghost use Rattle.btr_items.specs.ChunkItem.{has_chunk_size};
ghost use Rattle.btr_items.specs.Item as spec;

use crate::{
    BlockGroup, DevExtent, DevItem, Entry, ExtentItem, FileExtent, Form, Inode, LooseRef, Part,
    Parts, RootItem, RootRef, SumRun, entries, ext_refs, inline_refs, inode_refs, key_fits,
};
use btr_base::{Key, SumKind, u16_at};

/// Whether an item has its form: its key keeps the rules of its type, and the readers of its type accept its
/// body from the first byte to the last. Items of other types have no form to break, and of a CHUNK_ITEM only
/// the length is looked at. Checksums are of this kind.
pub fn item_fits(sums: SumKind, key: Key, body: &[u8]) -> bool
    ensures { result ≡ spec.item_fits sums key body.now }
{
    key_fits(key) && body_fits(Form::of_type(key.kind), sums, key, body)
}

fn body_fits(form: Form, sums: SumKind, key: Key, body: &[u8]) -> bool
    ensures { result ≡ spec.body_fits form sums key body.now }
{
    match form {
        Form::Inode => Inode::read(body).is_ok(),
        Form::InodeRefs => are_some(body, inode_refs(body)),
        Form::ExtRefs => are_some(body, ext_refs(body)),
        Form::Entries => are_some(body, entries(body)),
        Form::IndexEntry => Entry::index(body).is_ok(),
        Form::Empty => body.is_empty(),
        Form::FileExtent => FileExtent::read(key.offset, body).is_ok(),
        Form::Sums => SumRun::read(sums, key, body).is_ok(),
        Form::Root => RootItem::read(body).is_ok(),
        Form::RootRef => RootRef::read(body).is_ok(),
        Form::Extent => extent_fits(key.kind, body),
        Form::LooseRef => LooseRef::read(key, body).is_ok(),
        Form::BlockGroup => BlockGroup::read(body).is_ok(),
        Form::DevExtent => DevExtent::read(body).is_ok(),
        Form::DevItem => DevItem::read(body).is_ok(),
        Form::Chunk => has_chunk_size(body),
        Form::Other => true,
    }
}

// A chunk has 48 bytes, the number of stripes among them, and 32 bytes for each stripe.
fn has_chunk_size(body: &[u8]) -> bool
    ensures { result ≡ has_chunk_size body.now }
{
    body.len() >= 48 && body.len() == 48 + 32 * usize::from(u16_at(body, 44))
}

// One or more parts, each in its form.
fn are_some<P: Part>(body: &[u8], parts: Parts<'_, P>) -> bool
    ensures { result ≡ spec.are_some body.now parts.entry }
{
    !body.is_empty() && all_fit(parts)
}

fn all_fit<P: Part>(mut parts: Parts<'_, P>) -> bool
    ensures { result ≡ list_all is_ok parts.entry }
{
    parts.all(|part| part.is_ok())
}

// An extent, and the inline references behind it.
fn extent_fits(kind: u8, body: &[u8]) -> bool
    ensures { result ≡ spec.extent_fits kind body.now }
{
    match ExtentItem::read(kind, body) {
        Ok(extent) => all_fit(inline_refs(body, extent.first)),
        Err(_) => false,
    }
}
