// The lines of the items of files and directories.
ghost use Rattle.std.specs.Prelude.{◌≡◌};
ghost use Rattle.btr_items.specs.Form.{HasName};
ghost use Rattle.btr_rack.specs.Out.{Counts};
ghost use Rattle.btr_text.specs.Pieces.{text_of};
ghost use Rattle.btr_block_text.specs.Read.{WritesTo};
ghost use Rattle.btr_block_text.specs.Files as spec;

use btr_items::{Entry, ExtRef, FileExtent, Inode, InodeRef, Shape};
use btr_rack::{Out, SinkError};
use btr_text::{Piece, TextBuffer};

fn inode_line(inode: &Inode) -> [Piece<'static>; 9]
    ensures { text_of result ≡ spec.inode_line inode.now }
{
    [
        Piece::Plain(b"\t\tsize "),
        Piece::Decimal(inode.size),
        Piece::Plain(b" nlink "),
        Piece::Decimal(inode.nlink as u64),
        Piece::Plain(b" mode "),
        Piece::Octal(inode.mode as u64),
        Piece::Plain(b" flags "),
        Piece::Hexadecimal(inode.flags),
        Piece::Plain(b"\n"),
    ]
}

pub(crate) fn inode_ref_line<'a>(body: &'a [u8], found: &InodeRef) -> [Piece<'a>; 7]
    requires { HasName body.now found.now.name_at found.now.name_len }
    ensures { text_of result ≡ spec.inode_ref_line body.now found.now }
{
    [
        Piece::Plain(b"\t\tindex "),
        Piece::Decimal(found.index),
        Piece::Plain(b" namelen "),
        Piece::Decimal(found.name_len as u64),
        Piece::Plain(b" name "),
        Piece::Name(found.name(body)),
        Piece::Plain(b"\n"),
    ]
}

pub(crate) fn ext_ref_line<'a>(body: &'a [u8], found: &ExtRef) -> [Piece<'a>; 9]
    requires { HasName body.now found.now.name_at found.now.name_len }
    ensures { text_of result ≡ spec.ext_ref_line body.now found.now }
{
    [
        Piece::Plain(b"\t\tparent "),
        Piece::Decimal(found.parent),
        Piece::Plain(b" index "),
        Piece::Decimal(found.index),
        Piece::Plain(b" namelen "),
        Piece::Decimal(found.name_len as u64),
        Piece::Plain(b" name "),
        Piece::Name(found.name(body)),
        Piece::Plain(b"\n"),
    ]
}

pub(crate) fn entry_line<'a>(body: &'a [u8], entry: &Entry) -> [Piece<'a>; 13]
    requires { HasName body.now entry.now.name_at entry.now.name_len }
    ensures { text_of result ≡ spec.entry_line body.now entry.now }
{
    [
        Piece::Plain(b"\t\tlocation "),
        Piece::Key(entry.location),
        Piece::Plain(b" kind "),
        Piece::Decimal(entry.kind as u64),
        Piece::Plain(b" transid "),
        Piece::Decimal(entry.transid),
        Piece::Plain(b" datalen "),
        Piece::Decimal(entry.extra_len as u64),
        Piece::Plain(b" namelen "),
        Piece::Decimal(entry.name_len as u64),
        Piece::Plain(b" name "),
        Piece::Name(entry.name(body)),
        Piece::Plain(b"\n"),
    ]
}

fn disk_text(
    name: &'static [u8],
    addr: u64,
    disk_len: u64,
    skip: u64,
    len: u64,
) -> [Piece<'static>; 8]
    ensures { text_of result ≡ spec.disk_text name.now addr disk_len skip len }
{
    [
        Piece::Plain(name),
        Piece::Decimal(addr),
        Piece::Plain(b" length "),
        Piece::Decimal(disk_len),
        Piece::Plain(b" offset "),
        Piece::Decimal(skip),
        Piece::Plain(b" bytes "),
        Piece::Decimal(len),
    ]
}

fn write_shape<O: Out>(shape: Shape, text: &mut TextBuffer, out: &mut O) -> Result<(), SinkError>
    ensures text { WritesTo O.text out.old out.new text.old text.new (spec.shape_text shape) result }
    ensures account { Counts (O.account out.old) (O.account out.new) result }
{
    match shape {
        Shape::Inline { len } => text.push_all(
            &[Piece::Plain(b" inline bytes "), Piece::Decimal(len)],
            out,
        ),
        Shape::Regular {
            addr,
            disk_len,
            skip,
            len,
        } => text.push_all(
            &disk_text(b" regular disk ", addr, disk_len, skip, len),
            out,
        ),
        Shape::Prealloc {
            addr,
            disk_len,
            skip,
            len,
        } => text.push_all(
            &disk_text(b" prealloc disk ", addr, disk_len, skip, len),
            out,
        ),
    }
}

fn range_end(extent: &FileExtent) -> [Piece<'static>; 5]
    ensures { text_of result ≡ spec.range_end extent.now }
{
    [
        Piece::Plain(b" ram "),
        Piece::Decimal(extent.ram),
        Piece::Plain(b" compression "),
        Piece::Decimal(extent.compression),
        Piece::Plain(b"\n"),
    ]
}

fn write_range<O: Out>(
    extent: &FileExtent,
    text: &mut TextBuffer,
    out: &mut O,
) -> Result<(), SinkError>
    ensures text { WritesTo O.text out.old out.new text.old text.new (spec.file_extent_line extent.now) result }
    ensures account { Counts (O.account out.old) (O.account out.new) result }
{
    let front = [
        Piece::Plain(b"\t\tgeneration "),
        Piece::Decimal(extent.generation),
    ];
    text.push_all(&front, out)?;
    write_shape(extent.shape, text, out)?;
    text.push_all(&range_end(extent), out)
}

/// Writes the line of an INODE_ITEM. The error is the output's.
pub(crate) fn write_inode<O: Out>(
    body: &[u8],
    text: &mut TextBuffer,
    out: &mut O,
) -> Result<(), SinkError>
    ensures text { WritesTo O.text out.old out.new text.old text.new (spec.inode_text body.now) result }
    ensures account { Counts (O.account out.old) (O.account out.new) result }
{
    match Inode::read(body) {
        Ok(inode) => text.push_all(&inode_line(&inode), out),
        Err(_) => Ok(()),
    }
}

/// Writes the line of a DIR_INDEX. The error is the output's.
pub(crate) fn write_index<O: Out>(
    body: &[u8],
    text: &mut TextBuffer,
    out: &mut O,
) -> Result<(), SinkError>
    ensures text { WritesTo O.text out.old out.new text.old text.new (spec.index_text body.now) result }
    ensures account { Counts (O.account out.old) (O.account out.new) result }
{
    match Entry::index(body) {
        Ok(entry) => text.push_all(&entry_line(body, &entry), out),
        Err(_) => Ok(()),
    }
}

/// Writes the line of an EXTENT_DATA whose key has this offset. The error is the output's.
pub(crate) fn write_file_extent<O: Out>(
    offset: u64,
    body: &[u8],
    text: &mut TextBuffer,
    out: &mut O,
) -> Result<(), SinkError>
    ensures text { WritesTo O.text out.old out.new text.old text.new (spec.file_extent_text offset body.now) result }
    ensures account { Counts (O.account out.old) (O.account out.new) result }
{
    match FileExtent::read(offset, body) {
        Ok(extent) => write_range(&extent, text, out),
        Err(_) => Ok(()),
    }
}
