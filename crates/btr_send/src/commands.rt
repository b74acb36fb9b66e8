// The commands of the stream, each put whole into the one file.
ghost use Rattle.std.specs.Prelude.{◌≡◌, ◌≢◌, ◌≤◌, ◌<◌, [], IfSome, OnOk, length};
ghost use Rattle.btr_base.specs.Crc.{crc32c};
ghost use Rattle.btr_prog.specs.Prog.{Emit, Return};
ghost use Rattle.btr_rack.specs.Name.{IsGoodName};
ghost use Rattle.btr_rack.specs.Sink.{NotStarted, BetweenFiles, InFile, started, begun};
ghost use Rattle.btr_listing.specs.Step.{Start, File, Done};
ghost use Rattle.btr_send.specs.Command.{end, header, mkdir, mkfile, subvol, truncate, write};
ghost use Rattle.btr_restore.specs.Running.{WroteIn};
ghost use Rattle.btr_send.specs.Sending.{behind, tells, writes};

use crate::buffer::Buffer;
use crate::source::Source;
use btr_rack::TreeSink;
use btr_restore::sink_stop;
use btr_volume::Stop;

const HEADER: &[u8] = b"btrfs-stream\0\x01\0\0\0";

/// Begins in the destination.
pub(crate) fn start_in<T: TreeSink>(dest: &str, tree: &mut T) -> Result<(), Stop>
    requires fresh { (T.sink tree.old).stage ≡ NotStarted }
    ensures wrote { WroteIn (Emit (Start dest.now) (Return tt)) T.sink T.account tree.old tree.new result }
    ensures after { OnOk result ((T.sink tree.new).stage ≡ BetweenFiles) }
{
    match tree.start(dest) {
        Ok(()) => Ok(()),
        Err(error) => Err(sink_stop(error)),
    }
}

/// Begins the file of the stream.
pub(crate) fn begin_file<T: TreeSink>(name: &str, tree: &mut T) -> Result<(), Stop>
    requires between { (T.sink tree.old).stage ≡ BetweenFiles }
    requires good { IsGoodName name.now }
    ensures wrote { WroteIn (Emit (File name.now) (Return tt)) T.sink T.account tree.old tree.new result }
    ensures after { OnOk result ((T.sink tree.new).stage ≡ InFile) }
{
    match tree.file(name) {
        Ok(()) => Ok(()),
        Err(error) => Err(sink_stop(error)),
    }
}

/// Finishes the file of the stream.
pub(crate) fn finish_file<T: TreeSink>(tree: &mut T) -> Result<(), Stop>
    requires begun { (T.sink tree.old).stage ≡ InFile }
    ensures { WroteIn (Emit Done (Return tt)) T.sink T.account tree.old tree.new result }
{
    match tree.done() {
        Ok(()) => Ok(()),
        Err(error) => Err(sink_stop(error)),
    }
}

// Writes a command, or the header.
fn put_bytes<T: TreeSink>(bytes: &[u8], tree: &mut T) -> Result<(), Stop>
    requires begun { (T.sink tree.old).stage ≡ InFile }
    requires some { bytes.now ≢ [] }
    ensures wrote { WroteIn (tells bytes.now (Return tt)) T.sink T.account tree.old tree.new result }
    ensures stage { (T.sink tree.new).stage ≡ InFile }
{
    match tree.put(bytes) {
        Ok(()) => Ok(()),
        Err(error) => Err(sink_stop(error)),
    }
}

/// Writes the header.
pub(crate) fn put_header<T: TreeSink>(tree: &mut T) -> Result<(), Stop>
    requires begun { (T.sink tree.old).stage ≡ InFile }
    ensures wrote { WroteIn (tells header (Return tt)) T.sink T.account tree.old tree.new result }
    ensures stage { (T.sink tree.new).stage ≡ InFile }
{
    put_bytes(HEADER, tree)
}

/// Writes the subvolume.
pub(crate) fn put_subvol<T: TreeSink>(
    name: &str,
    source: &Source,
    buffer: &mut Buffer,
    tree: &mut T,
) -> Result<(), Stop>
    requires begun { (T.sink tree.old).stage ≡ InFile }
    requires short { length name.now < 256 }
    ensures wrote { WroteIn (tells (subvol name.now source.now.uuid source.now.transid) (Return tt))
        T.sink T.account tree.old tree.new result }
    ensures stage { (T.sink tree.new).stage ≡ InFile }
{
    match buffer.fill_subvol(name.as_bytes(), &source.uuid, source.transid) {
        Ok(()) => put_bytes(buffer.as_bytes(), tree),
        Err(_) => Err(Stop::Memory),
    }
}

/// Makes a file of a path.
pub(crate) fn put_mkfile<T: TreeSink>(
    path: &[u8],
    buffer: &mut Buffer,
    tree: &mut T,
) -> Result<(), Stop>
    requires begun { (T.sink tree.old).stage ≡ InFile }
    requires short { length path.now ≤ 4096 }
    ensures wrote { WroteIn (tells (mkfile path.now) (Return tt)) T.sink T.account tree.old tree.new result }
    ensures stage { (T.sink tree.new).stage ≡ InFile }
{
    match buffer.fill_mkfile(path) {
        Ok(()) => put_bytes(buffer.as_bytes(), tree),
        Err(_) => Err(Stop::Memory),
    }
}

/// Makes a directory of a path.
pub(crate) fn put_mkdir<T: TreeSink>(
    path: &[u8],
    buffer: &mut Buffer,
    tree: &mut T,
) -> Result<(), Stop>
    requires begun { (T.sink tree.old).stage ≡ InFile }
    requires short { length path.now ≤ 4096 }
    ensures wrote { WroteIn (tells (mkdir path.now) (Return tt)) T.sink T.account tree.old tree.new result }
    ensures stage { (T.sink tree.new).stage ≡ InFile }
{
    match buffer.fill_mkdir(path) {
        Ok(()) => put_bytes(buffer.as_bytes(), tree),
        Err(_) => Err(Stop::Memory),
    }
}

// Writes at most 4096 bytes of a file from an offset on. Their CRC-32C may be known.
fn put_write<T: TreeSink>(
    path: &[u8],
    offset: u64,
    part: &[u8],
    crc: Option<u32>,
    buffer: &mut Buffer,
    tree: &mut T,
) -> Result<(), Stop>
    requires begun { (T.sink tree.old).stage ≡ InFile }
    requires short { length path.now ≤ 4096 }
    requires few { length part.now ≤ 4096 }
    requires sum { IfSome crc (λ c. c ≡ crc32c part.now) }
    ensures wrote { WroteIn (tells (write path.now offset part.now) (Return tt)) T.sink T.account tree.old tree.new result }
    ensures stage { (T.sink tree.new).stage ≡ InFile }
{
    match buffer.fill_write(path, offset, part, crc) {
        Ok(()) => put_bytes(buffer.as_bytes(), tree),
        Err(_) => Err(Stop::Memory),
    }
}

/// An offset with some more bytes; it stands still at its last value.
pub(crate) fn behind(offset: u64, n: u64) -> u64
    ensures { result ≡ behind offset n }
{
    offset.saturating_add(n)
}

/// Writes bytes of a file from an offset on: at most 4096 with each command. Their CRC-32C may be known.
pub(crate) fn put_writes<T: TreeSink>(
    path: &[u8],
    offset: u64,
    part: &[u8],
    crc: Option<u32>,
    buffer: &mut Buffer,
    tree: &mut T,
) -> Result<(), Stop>
    requires begun { (T.sink tree.old).stage ≡ InFile }
    requires short { length path.now ≤ 4096 }
    requires some { 0 < length part.now }
    requires sum { IfSome crc (λ c. c ≡ crc32c part.now) }
    ensures wrote { WroteIn (writes path.now offset part.now) T.sink T.account tree.old tree.new result }
    ensures stage { (T.sink tree.new).stage ≡ InFile }
{
    if part.len() <= 4096 {
        return put_write(path, offset, part, crc, buffer, tree);
    }
    let (front, rest) = part.split_at(4096);
    put_write(path, offset, front, None, buffer, tree)?;
    put_writes(path, behind(offset, 4096), rest, None, buffer, tree)
}

/// Sets the size of a file.
pub(crate) fn put_truncate<T: TreeSink>(
    path: &[u8],
    size: u64,
    buffer: &mut Buffer,
    tree: &mut T,
) -> Result<(), Stop>
    requires begun { (T.sink tree.old).stage ≡ InFile }
    requires short { length path.now ≤ 4096 }
    ensures wrote { WroteIn (tells (truncate path.now size) (Return tt)) T.sink T.account tree.old tree.new result }
    ensures stage { (T.sink tree.new).stage ≡ InFile }
{
    match buffer.fill_truncate(path, size) {
        Ok(()) => put_bytes(buffer.as_bytes(), tree),
        Err(_) => Err(Stop::Memory),
    }
}

/// Ends the stream.
pub(crate) fn put_end<T: TreeSink>(buffer: &mut Buffer, tree: &mut T) -> Result<(), Stop>
    requires begun { (T.sink tree.old).stage ≡ InFile }
    ensures wrote { WroteIn (tells end (Return tt)) T.sink T.account tree.old tree.new result }
    ensures stage { (T.sink tree.new).stage ≡ InFile }
{
    match buffer.fill_end() {
        Ok(()) => put_bytes(buffer.as_bytes(), tree),
        Err(_) => Err(Stop::Memory),
    }
}
