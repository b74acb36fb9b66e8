// The texts of the pieces, and a text that is longer than the buffer.
use crate::{Piece, TextBuffer, put_pieces};
use btr_base::Key;
use btr_rack::{MemOut, SinkError};
use std::alloc::{AllocError, Global};
use std::process::Abort;
use std::test::Fail;

fn shows(rt: &impl Abort, alloc: Global, piece: Piece, expected: &[u8]) -> Result<(), Fail> {
    let mut out = MemOut::new(alloc);
    put_pieces(&[piece], &mut out).map_err(|_| AllocError)?;
    assert_eq!(rt; out.text(), expected);
    Ok(())
}

#[test]
fn pieces(rt: HostRuntime) -> Result<(), Fail> {
    let alloc = rt.alloc();
    let key = |kind| Key {
        objectid: 256,
        kind,
        offset: u64::MAX,
    };
    shows(&rt, alloc, Piece::Plain(b"a\tb"), b"a\tb")?;
    shows(&rt, alloc, Piece::Decimal(0), b"0")?;
    shows(
        &rt,
        alloc,
        Piece::Decimal(u64::MAX),
        b"18446744073709551615",
    )?;
    shows(&rt, alloc, Piece::Hexadecimal(0x361), b"0000000000000361")?;
    shows(&rt, alloc, Piece::Octal(0), b"0")?;
    shows(&rt, alloc, Piece::Octal(33188), b"100644")?;
    shows(
        &rt,
        alloc,
        Piece::Octal(u64::MAX),
        b"1777777777777777777777",
    )?;
    shows(&rt, alloc, Piece::Name(b"a b\\\xc3"), b"a b\\x5c\\xc3")?;
    shows(
        &rt,
        alloc,
        Piece::HexadecimalBytes(b"\x0a\xff\0"),
        b"0aff00",
    )?;
    shows(&rt, alloc, Piece::HexadecimalBytes(b""), b"")?;
    shows(
        &rt,
        alloc,
        Piece::Id([0x1a; 16]),
        b"1a1a1a1a-1a1a-1a1a-1a1a-1a1a1a1a1a1a",
    )?;
    shows(
        &rt,
        alloc,
        Piece::Key(key(132)),
        b"(256 ROOT_ITEM 18446744073709551615)",
    )?;
    shows(
        &rt,
        alloc,
        Piece::Key(key(7)),
        b"(256 UNKNOWN.7 18446744073709551615)",
    )
}

#[test]
fn full_buffers_are_put_on_the_way(rt: HostRuntime) -> Result<(), Fail> {
    let alloc = rt.alloc();
    let short = [b'a'; 3000];
    let long = [b'b'; 5000];
    let mut out = MemOut::new(alloc);
    out.fail_call(4).map_err(|_| AllocError)?;
    let mut text = TextBuffer::new();
    let mut lengths = [0; 4];
    for (piece, length) in [&short[..], &short, &long, &short].iter().zip(&mut lengths) {
        text.push(Piece::Plain(piece), &mut out)
            .map_err(|_| AllocError)?;
        *length = out.text().len();
    }
    assert_eq!(rt; lengths, [0, 3000, 11000, 11000]);
    assert_eq!(rt; text.flush(&mut out), Err(SinkError::Failed));
    assert_eq!(rt; out.text().len(), 11000);
    Ok(())
}
