// One command of the stream.
ghost use Rattle.std.specs.Prelude.{◌≡◌, ◌+◌, ◌≤◌, ◌<◌, ◌++◌, IfOk, IfSome, OnOk, [], drop, length, replicate, take};
ghost use Rattle.btr_base.specs.Crc.{crc32c, register};
ghost use Rattle.btr_send.specs.Command.{attribute, below, command, end, mkdir, mkfile, subvol, truncate, write, IsLastCrc};

use crate::shift::{SECTOR, SectorShift};
use btr_base::{Memory, crc_register};
use std::alloc::Global;
use std::marker::Model;

// The longest command: a write of 4096 bytes, with a path of 4095 bytes.
const MOST_BYTES: usize = 8221;

const PATH: u16 = 15;

const UUID: u16 = 1;

const CTRANSID: u16 = 2;

const SIZE: u16 = 4;

const FILE_OFFSET: u16 = 18;

const DATA: u16 = 19;

const SUBVOL: u16 = 1;

const MKFILE: u16 = 3;

const MKDIR: u16 = 4;

const WRITE: u16 = 15;

const TRUNCATE: u16 = 17;

const END: u16 = 21;

/// One command, or the header, as it is put. Its memory is taken once, in `new`. Clauses see its bytes.
#[derive(Drop)]
pub(crate) struct Buffer {
    bytes: Vec<u8>,
    shift: SectorShift,
}

impl Model for Buffer {
    ghost use Rattle.std.specs.Prelude.{List, ℕ};

    ghost Value = { List ℕ };

    ghost view = { λ buffer. buffer.bytes.items };
}

// A path without the `/` in front.
fn below(path: &[u8]) -> &[u8]
    ensures { result.now ≡ below path.now }
{
    match path.split_first() {
        Some((_, rest)) => rest,
        None => path,
    }
}

// Writes a part of some bytes.
fn write_at(bytes: &mut [u8], at: usize, part: &[u8])
    requires { at + length part.now ≤ length bytes.old }
    ensures { bytes.new ≡ take at bytes.old ++ part.now ++ drop (at + length part.now) bytes.old }
{
    bytes[at..at + part.len()].copy_from_slice(part);
}

// The CRC-32C of a part, where that is a whole sector.
fn of_sector(part: &[u8], crc: Option<u32>) -> Option<u32>
    requires { IfSome crc (λ c. c ≡ crc32c part.now) }
    ensures { IfSome result (λ c. (length part.now ≡ 4096) × (c ≡ crc32c part.now)) }
{
    if part.len() == SECTOR { crc } else { None }
}

// The register from 0 after a command, of whose last bytes the CRC-32C may be known.
fn register_of(bytes: &[u8], crc: Option<u32>, shift: &SectorShift) -> u32
    requires { IfSome crc (IsLastCrc bytes.now) }
    ensures { result ≡ register 0 bytes.now }
{
    match crc {
        None => crc_register(0, bytes),
        Some(crc) => {
            let front = &bytes[..bytes.len() - SECTOR];
            shift.register_behind(crc_register(0, front), crc)
        }
    }
}

// Writes the first ten bytes of a command: the length of its attributes, its number and its checksum.
fn write_head(bytes: &mut [u8], number: u16, len: u32, crc: Option<u32>, shift: &SectorShift)
    requires blank { take 10 bytes.old ≡ replicate 10 0 }
    requires long { length bytes.old ≡ 10 + len }
    requires known { IfSome crc (IsLastCrc bytes.old) }
    ensures { bytes.new ≡ command number (drop 10 bytes.old) }
{
    write_at(bytes, 0, &len.to_le_bytes());
    write_at(bytes, 4, &number.to_le_bytes());
    let sum = register_of(bytes, crc, shift);
    write_at(bytes, 6, &sum.to_le_bytes());
}

impl Buffer {
    /// An empty buffer.
    pub(crate) fn new(alloc: Global) -> Result<Buffer, Memory>
        ensures { IfOk result (λ buffer. buffer ≡ []) }
    {
        match Vec::with_capacity(alloc, MOST_BYTES) {
            Ok(bytes) => Ok(Buffer {
                bytes,
                shift: SectorShift::new(),
            }),
            Err(_) => Err(Memory),
        }
    }

    pub(crate) fn as_bytes(&self) -> &[u8]
        ensures { result.now ≡ self.now }
    {
        self.bytes.as_slice()
    }

    // Adds bytes.
    fn add(&mut self, part: &[u8]) -> Result<(), Memory>
        ensures { OnOk result (self.new ≡ self.old ++ part.now) }
    {
        match self.bytes.extend_from_slice(part) {
            Ok(()) => Ok(()),
            Err(_) => Err(Memory),
        }
    }

    // Begins a command: room for its head.
    fn begin(&mut self) -> Result<(), Memory>
        ensures { OnOk result (self.new ≡ replicate 10 0) }
    {
        self.bytes.clear();
        self.add(&[0; 10])
    }

    // Adds an attribute.
    fn add_attribute(&mut self, kind: u16, part: &[u8]) -> Result<(), Memory>
        requires { length part.now < 65536 }
        ensures { OnOk result (self.new ≡ self.old ++ attribute kind part.now) }
    {
        self.add(&kind.to_le_bytes())?;
        self.add(&(part.len() as u16).to_le_bytes())?;
        self.add(part)
    }

    // Ends a command, behind its attributes. Of its last bytes the CRC-32C may be known.
    fn finish_by(&mut self, number: u16, crc: Option<u32>)
        requires blank { take 10 self.old ≡ replicate 10 0 }
        requires long { 10 ≤ length self.old }
        requires fits { length self.old < 65536 }
        requires known { IfSome crc (IsLastCrc self.old) }
        ensures { self.new ≡ command number (drop 10 self.old) }
    {
        let len = (self.bytes.len() - 10) as u32;
        write_head(self.bytes.as_mut_slice(), number, len, crc, &self.shift);
    }

    // Ends a command, behind its attributes.
    fn finish(&mut self, number: u16)
        requires blank { take 10 self.old ≡ replicate 10 0 }
        requires long { 10 ≤ length self.old }
        requires fits { length self.old < 65536 }
        ensures { self.new ≡ command number (drop 10 self.old) }
    {
        self.finish_by(number, None);
    }

    /// The command of the subvolume. `Memory`: the buffer has no room, which it has for a name of 255 bytes.
    #[tactic(auto, using(crate::proofs::Encoding::attribute_length))]
    pub(crate) fn fill_subvol(
        &mut self,
        name: &[u8],
        uuid: &[u8],
        transid: u64,
    ) -> Result<(), Memory>
        requires short { length name.now < 256 }
        requires whole { length uuid.now ≡ 16 }
        ensures { OnOk result (self.new ≡ subvol name.now uuid.now transid) }
    {
        self.begin()?;
        self.add_attribute(PATH, name)?;
        self.add_attribute(UUID, uuid)?;
        self.add_attribute(CTRANSID, &transid.to_le_bytes())?;
        self.finish(SUBVOL);
        Ok(())
    }

    /// The command that makes a file of a path, whose first `/` it leaves out. `Memory` as for all paths: the buffer has no room, which it has for 4096 bytes.
    #[tactic(auto, using(crate::proofs::Encoding::attribute_length))]
    pub(crate) fn fill_mkfile(&mut self, path: &[u8]) -> Result<(), Memory>
        requires { length path.now ≤ 4096 }
        ensures { OnOk result (self.new ≡ mkfile path.now) }
    {
        self.begin()?;
        self.add_attribute(PATH, below(path))?;
        self.finish(MKFILE);
        Ok(())
    }

    /// The command that makes a directory of a path. `Memory` as for a file.
    #[tactic(auto, using(crate::proofs::Encoding::attribute_length))]
    pub(crate) fn fill_mkdir(&mut self, path: &[u8]) -> Result<(), Memory>
        requires { length path.now ≤ 4096 }
        ensures { OnOk result (self.new ≡ mkdir path.now) }
    {
        self.begin()?;
        self.add_attribute(PATH, below(path))?;
        self.finish(MKDIR);
        Ok(())
    }

    /// The command that writes bytes of a file from an offset on. Their CRC-32C may be known: then those of a whole sector aren't summed once more.
    #[tactic(auto, using(crate::proofs::Encoding::attribute_length))]
    pub(crate) fn fill_write(
        &mut self,
        path: &[u8],
        offset: u64,
        part: &[u8],
        crc: Option<u32>,
    ) -> Result<(), Memory>
        requires short { length path.now ≤ 4096 }
        requires few { length part.now ≤ 4096 }
        requires sum { IfSome crc (λ c. c ≡ crc32c part.now) }
        ensures { OnOk result (self.new ≡ write path.now offset part.now) }
    {
        self.begin()?;
        self.add_attribute(PATH, below(path))?;
        self.add_attribute(FILE_OFFSET, &offset.to_le_bytes())?;
        self.add_attribute(DATA, part)?;
        self.finish_by(WRITE, of_sector(part, crc));
        Ok(())
    }

    /// The command that sets the size of a file.
    #[tactic(auto, using(crate::proofs::Encoding::attribute_length))]
    pub(crate) fn fill_truncate(&mut self, path: &[u8], size: u64) -> Result<(), Memory>
        requires { length path.now ≤ 4096 }
        ensures { OnOk result (self.new ≡ truncate path.now size) }
    {
        self.begin()?;
        self.add_attribute(PATH, below(path))?;
        self.add_attribute(SIZE, &size.to_le_bytes())?;
        self.finish(TRUNCATE);
        Ok(())
    }

    /// The command that ends the stream.
    pub(crate) fn fill_end(&mut self) -> Result<(), Memory>
        ensures { OnOk result (self.new ≡ end) }
    {
        self.begin()?;
        self.finish(END);
        Ok(())
    }
}
