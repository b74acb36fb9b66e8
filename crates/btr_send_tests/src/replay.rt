// A reader of streams, written from the format alone: what their commands make, one after another.
use super::made::Lines;
use std::alloc::{AllocError, Global};
use std::test::Fail;

/// A command, by its number and its attributes.
#[derive(Clone, Copy)]
struct Command<'a> {
    number: u64,
    attributes: &'a [u8],
}

// A number whose least byte is the first.
fn number(bytes: &[u8]) -> u64 {
    let mut n = 0u64;
    for byte in bytes.iter().rev() {
        n = n.wrapping_mul(256).wrapping_add(u64::from(*byte));
    }
    n
}

// So many bytes, and those behind them.
fn cut(bytes: &[u8], len: u64) -> Result<(&[u8], &[u8]), Fail> {
    if len > bytes.len() as u64 {
        return Err("the stream is cut short")?;
    }
    Ok(bytes.split_at(len as usize))
}

// A register of CRC-32C behind some more bytes, bit by bit.
fn register(before: u32, bytes: &[u8]) -> u32 {
    let mut now = before;
    for byte in bytes {
        now ^= u32::from(*byte);
        for _ in 0..8 {
            let odd = now & 1 == 1;
            now >>= 1;
            if odd {
                now ^= 0x82f6_3b78;
            }
        }
    }
    now
}

// The first command, whose checksum is right, and what is behind it.
fn next_command(stream: &[u8]) -> Result<(Command<'_>, &[u8]), Fail> {
    let (size, rest) = cut(stream, 4)?;
    let (kind, rest) = cut(rest, 2)?;
    let (sum, rest) = cut(rest, 4)?;
    let (attributes, behind) = cut(rest, number(size))?;
    let head = register(register(register(0, size), kind), &[0; 4]);
    if u64::from(register(head, attributes)) != number(sum) {
        return Err("a checksum is wrong")?;
    }
    let command = Command {
        number: number(kind),
        attributes,
    };
    Ok((command, behind))
}

// The data of the first attribute, which has this type, and the attributes behind it.
fn attribute(attributes: &[u8], kind: u64) -> Result<(&[u8], &[u8]), Fail> {
    let (found, rest) = cut(attributes, 2)?;
    let (len, rest) = cut(rest, 2)?;
    if number(found) != kind {
        return Err("another attribute is expected")?;
    }
    cut(rest, number(len))
}

// The data of the last attribute.
fn last(attributes: &[u8], kind: u64) -> Result<&[u8], Fail> {
    let (data, behind) = attribute(attributes, kind)?;
    if !behind.is_empty() {
        return Err("an attribute too many")?;
    }
    Ok(data)
}

/// What was made: all but the last, where that is a file, which may still grow.
#[derive(Drop)]
struct Made {
    lines: Lines,
    grows: bool,
    path: Vec<u8>,
    bytes: Vec<u8>,
}

impl Made {
    // The last file doesn't grow any more.
    fn settle(&mut self) -> Result<(), AllocError> {
        if self.grows {
            self.lines
                .file(self.path.as_slice(), self.bytes.as_slice())?;
        }
        self.grows = false;
        Ok(())
    }

    fn directory(&mut self, path: &[u8]) -> Result<(), AllocError> {
        self.settle()?;
        self.lines.directory(path)
    }

    fn file(&mut self, path: &[u8]) -> Result<(), AllocError> {
        self.settle()?;
        self.grows = true;
        self.path.clear();
        self.bytes.clear();
        self.path.extend_from_slice(path)
    }

    // The last file grows by zeros up to a size, and by some bytes.
    fn grow(&mut self, path: &[u8], size: u64, bytes: &[u8]) -> Result<(), Fail> {
        let len = self.bytes.len() as u64;
        if !self.grows || self.path.as_slice() != path || size < len {
            return Err("no file can grow so")?;
        }
        for _ in len..size {
            self.bytes.push(0)?;
        }
        Ok(self.bytes.extend_from_slice(bytes)?)
    }

    // Bytes are written, at most 4096 and some.
    fn write(&mut self, attributes: &[u8]) -> Result<(), Fail> {
        let (path, rest) = attribute(attributes, 15)?;
        let (offset, rest) = attribute(rest, 18)?;
        let bytes = last(rest, 19)?;
        if offset.len() != 8 || bytes.is_empty() || bytes.len() > 4096 {
            return Err("no such write")?;
        }
        self.grow(path, number(offset), bytes)
    }

    fn truncate(&mut self, attributes: &[u8]) -> Result<(), Fail> {
        let (path, rest) = attribute(attributes, 15)?;
        let size = last(rest, 4)?;
        if size.len() != 8 {
            return Err("no such size")?;
        }
        self.grow(path, number(size), &[])
    }

    // One command more, which isn't the first or the last.
    fn play(&mut self, command: Command<'_>) -> Result<(), Fail> {
        match command.number {
            3 => Ok(self.file(last(command.attributes, 15)?)?),
            4 => Ok(self.directory(last(command.attributes, 15)?)?),
            15 => self.write(command.attributes),
            17 => self.truncate(command.attributes),
            _ => Err("no such command")?,
        }
    }

    // The first command, which has the subvolume.
    fn begin(&mut self, command: Command<'_>) -> Result<(), Fail> {
        let (name, rest) = attribute(command.attributes, 15)?;
        let (uuid, rest) = attribute(rest, 1)?;
        let transid = last(rest, 2)?;
        if command.number != 1 {
            return Err("no subvolume")?;
        }
        Ok(self.lines.subvolume(name, uuid, transid)?)
    }
}

const HEADER: &[u8] = b"btrfs-stream\0\x01\0\0\0";

const END: u64 = 21;

/// What a stream makes; a fault where it isn't one, to its last byte.
pub(super) fn replayed(alloc: Global, stream: &[u8]) -> Result<Lines, Fail> {
    let (header, rest) = cut(stream, 17)?;
    if header != HEADER {
        return Err("no header")?;
    }
    let (first, mut rest) = next_command(rest)?;
    let mut made = Made {
        lines: Lines::new(alloc),
        grows: false,
        path: Vec::new(alloc),
        bytes: Vec::new(alloc),
    };
    made.begin(first)?;
    for _ in 0..stream.len() {
        let (next, behind) = next_command(rest)?;
        rest = behind;
        if next.number == END {
            break;
        }
        made.play(next)?;
    }
    if !rest.is_empty() {
        return Err("something is behind the end")?;
    }
    made.settle()?;
    Ok(made.lines)
}
