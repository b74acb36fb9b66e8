// The lines of the items of roots, checksums, block groups and devices.
ghost use Rattle.std.specs.Prelude.{◌≡◌, ◌+◌, ◌*◌, ◌^◌, ◌<◌};
ghost use Rattle.btr_items.specs.Form.{HasName};
ghost use Rattle.btr_rack.specs.Out.{Counts};
ghost use Rattle.btr_text.specs.Pieces.{text_of};
ghost use Rattle.btr_block_text.specs.Read.{WritesTo};
ghost use Rattle.btr_block_text.specs.Trees as spec;

use btr_base::{Key, SumKind};
use btr_items::{BlockGroup, DevExtent, DevItem, RootItem, RootRef, SumRun};
use btr_rack::{Out, SinkError};
use btr_text::{Piece, TextBuffer};

// A sector has 4096 bytes.
fn sums_line(run: &SumRun) -> [Piece<'static>; 7]
    requires { run.now.start + run.now.count * 4096 < 2 ^ 64 }
    ensures { text_of result ≡ spec.sums_line run.now }
{
    let len = run.count * 4096;
    [
        Piece::Plain(b"\t\trange start "),
        Piece::Decimal(run.start),
        Piece::Plain(b" end "),
        Piece::Decimal(run.start + len),
        Piece::Plain(b" length "),
        Piece::Decimal(len),
        Piece::Plain(b"\n"),
    ]
}

fn root_line(root: &RootItem) -> [Piece<'static>; 13]
    ensures { text_of result ≡ spec.root_line root.now }
{
    [
        Piece::Plain(b"\t\tgeneration "),
        Piece::Decimal(root.generation),
        Piece::Plain(b" dirid "),
        Piece::Decimal(root.dirid),
        Piece::Plain(b" bytenr "),
        Piece::Decimal(root.bytenr),
        Piece::Plain(b" level "),
        Piece::Decimal(root.level),
        Piece::Plain(b" flags "),
        Piece::Hexadecimal(root.flags),
        Piece::Plain(b" refs "),
        Piece::Decimal(root.refs as u64),
        Piece::Plain(b"\n"),
    ]
}

fn root_ref_line<'a>(body: &'a [u8], found: &RootRef) -> [Piece<'a>; 9]
    requires { HasName body.now found.now.name_at found.now.name_len }
    ensures { text_of result ≡ spec.root_ref_line body.now found.now }
{
    [
        Piece::Plain(b"\t\tdirid "),
        Piece::Decimal(found.dirid),
        Piece::Plain(b" sequence "),
        Piece::Decimal(found.sequence),
        Piece::Plain(b" namelen "),
        Piece::Decimal(found.name_len as u64),
        Piece::Plain(b" name "),
        Piece::Name(found.name(body)),
        Piece::Plain(b"\n"),
    ]
}

fn block_group_line(group: &BlockGroup) -> [Piece<'static>; 7]
    ensures { text_of result ≡ spec.block_group_line group.now }
{
    [
        Piece::Plain(b"\t\tused "),
        Piece::Decimal(group.used),
        Piece::Plain(b" owner "),
        Piece::Decimal(group.owner),
        Piece::Plain(b" flags "),
        Piece::Hexadecimal(group.flags),
        Piece::Plain(b"\n"),
    ]
}

fn dev_extent_line(extent: &DevExtent) -> [Piece<'static>; 5]
    ensures { text_of result ≡ spec.dev_extent_line extent.now }
{
    [
        Piece::Plain(b"\t\tchunk "),
        Piece::Decimal(extent.chunk),
        Piece::Plain(b" length "),
        Piece::Decimal(extent.length),
        Piece::Plain(b"\n"),
    ]
}

fn dev_item_line(device: &DevItem) -> [Piece<'static>; 9]
    ensures { text_of result ≡ spec.dev_item_line device.now }
{
    [
        Piece::Plain(b"\t\tdevid "),
        Piece::Decimal(device.devid),
        Piece::Plain(b" total "),
        Piece::Decimal(device.total),
        Piece::Plain(b" used "),
        Piece::Decimal(device.used),
        Piece::Plain(b" uuid "),
        Piece::Id(device.uuid),
        Piece::Plain(b"\n"),
    ]
}

/// Writes the line of an EXTENT_CSUM with this key, where checksums are of this kind. The error is the output's.
pub(crate) fn write_sums<O: Out>(
    kind: SumKind,
    key: Key,
    body: &[u8],
    text: &mut TextBuffer,
    out: &mut O,
) -> Result<(), SinkError>
    ensures text { WritesTo O.text out.old out.new text.old text.new (spec.sums_text kind key body.now) result }
    ensures account { Counts (O.account out.old) (O.account out.new) result }
{
    match SumRun::read(kind, key, body) {
        Ok(run) => text.push_all(&sums_line(&run), out),
        Err(_) => Ok(()),
    }
}

/// Writes the line of a ROOT_ITEM. The error is the output's.
pub(crate) fn write_root<O: Out>(
    body: &[u8],
    text: &mut TextBuffer,
    out: &mut O,
) -> Result<(), SinkError>
    ensures text { WritesTo O.text out.old out.new text.old text.new (spec.root_text body.now) result }
    ensures account { Counts (O.account out.old) (O.account out.new) result }
{
    match RootItem::read(body) {
        Ok(root) => text.push_all(&root_line(&root), out),
        Err(_) => Ok(()),
    }
}

/// Writes the line of a ROOT_REF or a ROOT_BACKREF. The error is the output's.
pub(crate) fn write_root_ref<O: Out>(
    body: &[u8],
    text: &mut TextBuffer,
    out: &mut O,
) -> Result<(), SinkError>
    ensures text { WritesTo O.text out.old out.new text.old text.new (spec.root_ref_text body.now) result }
    ensures account { Counts (O.account out.old) (O.account out.new) result }
{
    match RootRef::read(body) {
        Ok(found) => text.push_all(&root_ref_line(body, &found), out),
        Err(_) => Ok(()),
    }
}

/// Writes the line of a BLOCK_GROUP_ITEM. The error is the output's.
pub(crate) fn write_block_group<O: Out>(
    body: &[u8],
    text: &mut TextBuffer,
    out: &mut O,
) -> Result<(), SinkError>
    ensures text { WritesTo O.text out.old out.new text.old text.new (spec.block_group_text body.now) result }
    ensures account { Counts (O.account out.old) (O.account out.new) result }
{
    match BlockGroup::read(body) {
        Ok(group) => text.push_all(&block_group_line(&group), out),
        Err(_) => Ok(()),
    }
}

/// Writes the line of a DEV_EXTENT. The error is the output's.
pub(crate) fn write_dev_extent<O: Out>(
    body: &[u8],
    text: &mut TextBuffer,
    out: &mut O,
) -> Result<(), SinkError>
    ensures text { WritesTo O.text out.old out.new text.old text.new (spec.dev_extent_text body.now) result }
    ensures account { Counts (O.account out.old) (O.account out.new) result }
{
    match DevExtent::read(body) {
        Ok(extent) => text.push_all(&dev_extent_line(&extent), out),
        Err(_) => Ok(()),
    }
}

/// Writes the line of a DEV_ITEM. The error is the output's.
pub(crate) fn write_dev_item<O: Out>(
    body: &[u8],
    text: &mut TextBuffer,
    out: &mut O,
) -> Result<(), SinkError>
    ensures text { WritesTo O.text out.old out.new text.old text.new (spec.dev_item_text body.now) result }
    ensures account { Counts (O.account out.old) (O.account out.new) result }
{
    match DevItem::read(body) {
        Ok(device) => text.push_all(&dev_item_line(&device), out),
        Err(_) => Ok(()),
    }
}
