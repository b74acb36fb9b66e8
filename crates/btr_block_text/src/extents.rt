// The lines of extents and of references to them.
ghost use Rattle.std.specs.Prelude.{◌≡◌, ◌≤◌, length};
ghost use Rattle.btr_rack.specs.Out.{Counts};
ghost use Rattle.btr_text.specs.Pieces.{text_of};
ghost use Rattle.btr_block_text.specs.Read.{WritesTo};
ghost use Rattle.btr_block_text.specs.Extents as spec;

use crate::parts::write_parts;
use btr_base::Key;
use btr_items::{ExtentItem, Link, LooseRef, inline_refs};
use btr_rack::{Out, SinkError};
use btr_text::{Piece, TextBuffer};

fn file_link(root: u64, objectid: u64, offset: u64, count: u32) -> [Piece<'static>; 9]
    ensures { text_of result ≡ spec.file_line root objectid offset count }
{
    [
        Piece::Plain(b"\t\tfile ref root "),
        Piece::Decimal(root),
        Piece::Plain(b" objectid "),
        Piece::Decimal(objectid),
        Piece::Plain(b" offset "),
        Piece::Decimal(offset),
        Piece::Plain(b" count "),
        Piece::Decimal(count as u64),
        Piece::Plain(b"\n"),
    ]
}

fn shared_file_link(parent: u64, count: u32) -> [Piece<'static>; 5]
    ensures { text_of result ≡ spec.shared_file_line parent count }
{
    [
        Piece::Plain(b"\t\tshared file ref parent "),
        Piece::Decimal(parent),
        Piece::Plain(b" count "),
        Piece::Decimal(count as u64),
        Piece::Plain(b"\n"),
    ]
}

fn tree_link(word: &'static [u8], id: u64) -> [Piece<'static>; 3]
    ensures { text_of result ≡ spec.tree_line word.now id }
{
    [Piece::Plain(word), Piece::Decimal(id), Piece::Plain(b"\n")]
}

/// Writes the line of a reference. The error is the output's.
pub(crate) fn write_link<O: Out>(
    link: Link,
    count: u32,
    text: &mut TextBuffer,
    out: &mut O,
) -> Result<(), SinkError>
    ensures text { WritesTo O.text out.old out.new text.old text.new (spec.link_line link count) result }
    ensures account { Counts (O.account out.old) (O.account out.new) result }
{
    match link {
        Link::Tree(root) => text.push_all(&tree_link(b"\t\ttree ref root ", root), out),
        Link::File {
            root,
            objectid,
            offset,
        } => text.push_all(&file_link(root, objectid, offset, count), out),
        Link::SharedTree(parent) => text.push_all(
            &tree_link(b"\t\tshared tree ref parent ", parent),
            out,
        ),
        Link::SharedFile(parent) => text.push_all(&shared_file_link(parent, count), out),
    }
}

fn extent_line(extent: &ExtentItem) -> [Piece<'static>; 7]
    ensures { text_of result ≡ spec.extent_line extent.now }
{
    [
        Piece::Plain(b"\t\trefs "),
        Piece::Decimal(extent.refs),
        Piece::Plain(b" generation "),
        Piece::Decimal(extent.generation),
        Piece::Plain(b" flags "),
        Piece::Hexadecimal(extent.flags),
        Piece::Plain(b"\n"),
    ]
}

fn block_line(key: Key, level: u8) -> [Piece<'static>; 5]
    ensures { text_of result ≡ spec.block_line key level }
{
    [
        Piece::Plain(b"\t\tblock key "),
        Piece::Key(key),
        Piece::Plain(b" level "),
        Piece::Decimal(level as u64),
        Piece::Plain(b"\n"),
    ]
}

// The line of the tree block of an EXTENT_ITEM, if it has one.
fn write_tree_block<O: Out>(
    key: Option<Key>,
    level: Option<u8>,
    text: &mut TextBuffer,
    out: &mut O,
) -> Result<(), SinkError>
    ensures text { WritesTo O.text out.old out.new text.old text.new (spec.tree_block_line key level) result }
    ensures account { Counts (O.account out.old) (O.account out.new) result }
{
    let (Some(key), Some(level)) = (key, level) else {
        return Ok(());
    };
    text.push_all(&block_line(key, level), out)
}

// Writes the lines of an extent: its own, that of its tree block, and one for each reference in the item.
fn write_all<O: Out>(
    body: &[u8],
    extent: &ExtentItem,
    text: &mut TextBuffer,
    out: &mut O,
) -> Result<(), SinkError>
    requires { extent.now.first ≤ length body.now }
    ensures text { WritesTo O.text out.old out.new text.old text.new (spec.extent_lines body.now extent.now) result }
    ensures account { Counts (O.account out.old) (O.account out.new) result }
{
    text.push_all(&extent_line(extent), out)?;
    write_tree_block(extent.block_key(body), extent.level, text, out)?;
    write_parts(body, inline_refs(body, extent.first), text, out)
}

/// Writes the lines of an EXTENT_ITEM or a METADATA_ITEM. The error is the output's.
pub(crate) fn write_extent<O: Out>(
    kind: u8,
    body: &[u8],
    text: &mut TextBuffer,
    out: &mut O,
) -> Result<(), SinkError>
    ensures text { WritesTo O.text out.old out.new text.old text.new (spec.extent_text kind body.now) result }
    ensures account { Counts (O.account out.old) (O.account out.new) result }
{
    match ExtentItem::read(kind, body) {
        Ok(extent) => write_all(body, &extent, text, out),
        Err(_) => Ok(()),
    }
}

/// Writes the line of a reference in an item of its own, with this key. The error is the output's.
pub(crate) fn write_loose_ref<O: Out>(
    key: Key,
    body: &[u8],
    text: &mut TextBuffer,
    out: &mut O,
) -> Result<(), SinkError>
    ensures text { WritesTo O.text out.old out.new text.old text.new (spec.loose_ref_text key body.now) result }
    ensures account { Counts (O.account out.old) (O.account out.new) result }
{
    match LooseRef::read(key, body) {
        Ok(found) => write_link(found.link, found.count, text, out),
        Err(_) => Ok(()),
    }
}
