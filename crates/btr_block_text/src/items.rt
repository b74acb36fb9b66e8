// The text of an item: its line, and then the lines of its body.
ghost use Rattle.std.specs.Prelude.{◌≡◌, IsTrue};
ghost use Rattle.btr_items.specs.Item.{body_fits};
ghost use Rattle.btr_node.specs.LeafItem.{item_of};
ghost use Rattle.btr_rack.specs.Out.{Counts};
ghost use Rattle.btr_text.specs.Pieces.{text_of};
ghost use Rattle.btr_block_text.specs.Read.{WritesTo};
ghost use Rattle.btr_block_text.specs.Items as spec;

use crate::chunk::write_chunk;
use crate::extents::{write_extent, write_loose_ref};
use crate::files::{write_file_extent, write_index, write_inode};
use crate::parts::write_parts;
use crate::trees::{
    write_block_group, write_dev_extent, write_dev_item, write_root, write_root_ref, write_sums,
};
use btr_base::{Key, SumKind};
use btr_items::{Form, entries, ext_refs, inode_refs, item_fits};
use btr_node::LeafItem;
use btr_rack::{Out, SinkError};
use btr_text::{Piece, TextBuffer};

// A body as it is, in hexadecimal digits.
fn write_raw<O: Out>(body: &[u8], text: &mut TextBuffer, out: &mut O) -> Result<(), SinkError>
    ensures text { WritesTo O.text out.old out.new text.old text.new (spec.raw_line body.now) result }
    ensures account { Counts (O.account out.old) (O.account out.new) result }
{
    if body.is_empty() {
        return text.push(Piece::Plain(b"\t\traw\n"), out);
    }
    let line = [
        Piece::Plain(b"\t\traw "),
        Piece::HexadecimalBytes(body),
        Piece::Plain(b"\n"),
    ];
    text.push_all(&line, out)
}

// The lines of a body that has this form.
fn write_form<O: Out>(
    form: Form,
    sums: SumKind,
    key: Key,
    body: &[u8],
    text: &mut TextBuffer,
    out: &mut O,
) -> Result<(), SinkError>
    requires { IsTrue (body_fits form sums key body.now) }
    ensures text { WritesTo O.text out.old out.new text.old text.new (spec.form_lines form sums key body.now) result }
    ensures account { Counts (O.account out.old) (O.account out.new) result }
{
    match form {
        Form::Inode => write_inode(body, text, out),
        Form::InodeRefs => write_parts(body, inode_refs(body), text, out),
        Form::ExtRefs => write_parts(body, ext_refs(body), text, out),
        Form::Entries => write_parts(body, entries(body), text, out),
        Form::IndexEntry => write_index(body, text, out),
        Form::Empty => Ok(()),
        Form::FileExtent => write_file_extent(key.offset, body, text, out),
        Form::Sums => write_sums(sums, key, body, text, out),
        Form::Root => write_root(body, text, out),
        Form::RootRef => write_root_ref(body, text, out),
        Form::Extent => write_extent(key.kind, body, text, out),
        Form::LooseRef => write_loose_ref(key, body, text, out),
        Form::BlockGroup => write_block_group(body, text, out),
        Form::DevExtent => write_dev_extent(body, text, out),
        Form::DevItem => write_dev_item(body, text, out),
        Form::Chunk => write_chunk(body, text, out),
        Form::Other => write_raw(body, text, out),
    }
}

#[tactic(auto, unfolding(crate::specs::Items::body_lines))]
fn write_body<O: Out>(
    sums: SumKind,
    key: Key,
    body: &[u8],
    text: &mut TextBuffer,
    out: &mut O,
) -> Result<(), SinkError>
    ensures text { WritesTo O.text out.old out.new text.old text.new (spec.body_lines sums key body.now) result }
    ensures account { Counts (O.account out.old) (O.account out.new) result }
{
    if item_fits(sums, key, body) {
        write_form(Form::of_type(key.kind), sums, key, body, text, out)
    } else {
        write_raw(body, text, out)
    }
}

fn item_line(i: usize, item: &LeafItem<'_>) -> [Piece<'static>; 9]
    ensures { text_of result ≡ spec.item_line i (item_of item.now) }
{
    [
        Piece::Plain(b"\titem "),
        Piece::Decimal(i as u64),
        Piece::Plain(b" key "),
        Piece::Key(item.key),
        Piece::Plain(b" itemoff "),
        Piece::Decimal(item.offset as u64),
        Piece::Plain(b" itemsize "),
        Piece::Decimal(item.body.len() as u64),
        Piece::Plain(b"\n"),
    ]
}

/// Writes the text of item `i` of a leaf, where checksums are of this kind. The error is the output's.
pub(crate) fn write_item<O: Out>(
    sums: SumKind,
    i: usize,
    item: &LeafItem<'_>,
    text: &mut TextBuffer,
    out: &mut O,
) -> Result<(), SinkError>
    ensures text { WritesTo O.text out.old out.new text.old text.new (spec.item_text sums i (item_of item.now)) result }
    ensures account { Counts (O.account out.old) (O.account out.new) result }
{
    text.push_all(&item_line(i, item), out)?;
    write_body(sums, item.key, item.body, text, out)
}
