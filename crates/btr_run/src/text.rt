// The text of a superblock.
ghost use Rattle.std.specs.Prelude.{◌≡◌};
ghost use Rattle.btr_rack.specs.Out.{Puts, Counts};
ghost use Rattle.btr_text.specs.Pieces.{name_text as shown_name, text_of};
ghost use Rattle.btr_run.specs.Text.{ids_text, roots_text, sizes_text, bits_text, label_text, super_text};

use btr_rack::{Out, SinkError};
use btr_super::Super;
use btr_text::{Piece, TextBuffer};

// The label, which ends before its first zero byte.
fn label_of(field: &[u8]) -> &[u8]
    ensures { shown_name result.now ≡ label_text field.now }
{
    for (i, b) in field.iter().enumerate() {
        if *b == 0 {
            return &field[..i];
        }
    }
    field
}

fn ids(slot: usize, s: &Super) -> [Piece<'static>; 8]
    ensures { text_of result ≡ ids_text slot s.now }
{
    [
        Piece::Plain(b"slot "),
        Piece::Decimal(slot as u64),
        Piece::Plain(b" place "),
        Piece::Decimal(s.place),
        Piece::Plain(b"\nfsid "),
        Piece::Id(s.fsid),
        Piece::Plain(b"\nmetadata_uuid "),
        Piece::Id(s.metadata_uuid),
    ]
}

fn roots(s: &Super) -> [Piece<'static>; 14]
    ensures { text_of result ≡ roots_text s.now }
{
    [
        Piece::Plain(b"\ngeneration "),
        Piece::Decimal(s.generation),
        Piece::Plain(b"\nroot "),
        Piece::Decimal(s.root),
        Piece::Plain(b" level "),
        Piece::Decimal(s.root_level as u64),
        Piece::Plain(b"\nchunk_root "),
        Piece::Decimal(s.chunk_root),
        Piece::Plain(b" level "),
        Piece::Decimal(s.chunk_root_level as u64),
        Piece::Plain(b" generation "),
        Piece::Decimal(s.chunk_root_generation),
        Piece::Plain(b"\nlog_root "),
        Piece::Decimal(s.log_root),
    ]
}

fn sizes(s: &Super) -> [Piece<'static>; 12]
    ensures { text_of result ≡ sizes_text s.now }
{
    [
        Piece::Plain(b"\ntotal_bytes "),
        Piece::Decimal(s.total_bytes),
        Piece::Plain(b"\nbytes_used "),
        Piece::Decimal(s.bytes_used),
        Piece::Plain(b"\nnum_devices "),
        Piece::Decimal(s.num_devices),
        Piece::Plain(b"\nsectorsize "),
        Piece::Decimal(s.sectorsize as u64),
        Piece::Plain(b" nodesize "),
        Piece::Decimal(s.nodesize as u64),
        Piece::Plain(b"\ncsum_type "),
        Piece::Decimal(s.csum_type as u64),
    ]
}

fn bits(s: &Super) -> [Piece<'static>; 9]
    ensures { text_of result ≡ bits_text s.now }
{
    [
        Piece::Plain(b"\ncompat "),
        Piece::Hexadecimal(s.compat),
        Piece::Plain(b" compat_ro "),
        Piece::Hexadecimal(s.compat_ro),
        Piece::Plain(b" incompat "),
        Piece::Hexadecimal(s.incompat),
        Piece::Plain(b"\ndevid "),
        Piece::Decimal(s.devid),
        Piece::Plain(b"\n"),
    ]
}

/// Puts the text of the superblock of a slot. The error is the output's.
pub(crate) fn put_super<O: Out>(slot: usize, s: &Super, out: &mut O) -> Result<(), SinkError>
    ensures text { Puts (O.text out.old) (O.text out.new) (super_text slot s.now) result }
    ensures account { Counts (O.account out.old) (O.account out.new) result }
{
    let mut text = TextBuffer::new();
    let name = [
        Piece::Plain(b"\nlabel ["),
        Piece::Name(label_of(&s.label)),
        Piece::Plain(b"]"),
    ];
    text.push_all(&ids(slot, s), out)?;
    text.push_all(&name, out)?;
    text.push_all(&roots(s), out)?;
    text.push_all(&sizes(s), out)?;
    text.push_all(&bits(s), out)?;
    text.flush(out)
}
