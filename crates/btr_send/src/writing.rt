// The bytes of a file.
ghost use Rattle.std.specs.Prelude.{◌≡◌, ◌≤◌, ◌<◌, IfOk, IfSome, length};
ghost use Rattle.btr_rack.specs.Sink.{InFile};
ghost use Rattle.btr_read.specs.Store.{SameLoans, free_count};
ghost use Rattle.btr_files.specs.Streaming.{bytes_left, IsPiece, IsReading, piece_of, without_file};
ghost use Rattle.btr_volume.specs.Readable.{CanRead};
ghost use Rattle.btr_restore.specs.Running.{RanBeside, beside, WroteIn};
ghost use Rattle.btr_send.specs.Sending.{at_front, pieces, put};
ghost use Rattle.btr_restore.specs.Writing.{WritesNext, WritesRest};

use crate::buffer::Buffer;
use crate::commands::{behind, put_writes};
use crate::progress::{SentFile, SentPart};
use btr_files::{FileBytes, Piece, next_piece};
use btr_items::Inode;
use btr_rack::{Rack, TreeSink};
use btr_restore::{has_no_sums, is_plain};
use btr_volume::{Stop, TreeRoot, Volume};

/// A file that is to be sent: where its inode and its checksums stand.
#[derive(Clone, Copy)]
pub(crate) struct FileToSend<'a> {
    pub(crate) path: &'a [u8],
    pub(crate) tree: TreeRoot,
    pub(crate) ino: u64,
    pub(crate) inode: &'a Inode,
    pub(crate) sums: Option<TreeRoot>,
}

// Writes a piece of a file, behind those before it.
fn put_piece<T: TreeSink>(
    path: &[u8],
    now: SentPart,
    piece: Piece<'_>,
    buffer: &mut Buffer,
    tree: &mut T,
) -> Result<SentPart, Stop>
    requires begun { (T.sink tree.old).stage ≡ InFile }
    requires short { length path.now ≤ 4096 }
    requires some { IsPiece piece }
    ensures wrote { WroteIn (put path.now now (piece_of piece.entry)) T.sink T.account tree.old tree.new result }
    ensures stage { (T.sink tree.new).stage ≡ InFile }
{
    match piece {
        Piece::Gap(count) => Ok(SentPart {
            offset: behind(now.offset, count),
            plain: now.plain,
        }),
        Piece::Bytes {
            bytes,
            verified,
            crc,
        } => {
            put_writes(path, now.offset, bytes, crc, buffer, tree)?;
            Ok(SentPart {
                offset: behind(now.offset, bytes.len() as u64),
                plain: is_plain(now.plain, verified),
            })
        }
    }
}

// Gives the next piece of a file, and puts it: how much was sent then, or `None` exactly after the last.
fn put_next<R: Rack, T: TreeSink>(
    so_far: &SentFile<'_>,
    file: &mut FileBytes,
    buffer: &mut Buffer,
    rack: &mut R,
    vol: &mut Volume,
    tree: &mut T,
) -> Result<Option<SentPart>, Stop>
    requires ready { IsReading (R.seen rack.old) vol.old.store file.old }
    requires room { 5 ≤ free_count (without_file vol.old.store file.old) }
    requires begun { (T.sink tree.old).stage ≡ InFile }
    requires short { length so_far.now.path.now ≤ 4096 }
    ensures writes { WritesNext (put so_far.now.path.now) so_far.now.sent file.old file.new
        (beside R.seen T.sink T.account rack.old vol.old tree.old)
        (beside R.seen T.sink T.account rack.new vol.new tree.new) result }
    ensures ready { IsReading (R.seen rack.new) vol.new.store file.new }
    ensures room { SameLoans (without_file vol.old.store file.old) (without_file vol.new.store file.new) }
    ensures rank_falls { IfOk result (λ on. IfSome on (λ after. bytes_left file.new < bytes_left file.old)) }
    ensures stage { (T.sink tree.new).stage ≡ InFile }
{
    match next_piece(vol, file, rack) {
        Err(fault) => Err(Stop::Tree(fault)),
        Ok(None) => Ok(None),
        Ok(Some(piece)) => {
            let after = put_piece(so_far.path, so_far.sent, piece, buffer, tree)?;
            Ok(Some(after))
        }
    }
}

// Writes the pieces of a file that are still to come. Answers how much was sent.
fn put_pieces<R: Rack, T: TreeSink>(
    path: &[u8],
    file: &mut FileBytes,
    buffer: &mut Buffer,
    rack: &mut R,
    vol: &mut Volume,
    tree: &mut T,
) -> Result<SentPart, Stop>
    requires ready { IsReading (R.seen rack.old) vol.old.store file.old }
    requires room { 5 ≤ free_count (without_file vol.old.store file.old) }
    requires begun { (T.sink tree.old).stage ≡ InFile }
    requires short { length path.now ≤ 4096 }
    ensures writes { WritesRest (put path.now) at_front file.old file.new
        (beside R.seen T.sink T.account rack.old vol.old tree.old)
        (beside R.seen T.sink T.account rack.new vol.new tree.new) result }
    ensures ready { IsReading (R.seen rack.new) vol.new.store file.new }
    ensures stage { (T.sink tree.new).stage ≡ InFile }
{
    let mut now = SentPart {
        offset: 0,
        plain: false,
    };
    loop {
        let so_far = SentFile { path, sent: now };
        match put_next(&so_far, file, buffer, rack, vol, tree)? {
            None => return Ok(now),
            Some(after) => now = after,
        }
    }
}

/// Writes the bytes of a file, by its inode. Answers how much was sent.
pub(crate) fn write_bytes<R: Rack, T: TreeSink>(
    which: &FileToSend<'_>,
    buffer: &mut Buffer,
    rack: &mut R,
    vol: &mut Volume,
    tree: &mut T,
) -> Result<SentPart, Stop>
    requires ready { CanRead 6 (R.seen rack.old) vol.old }
    requires begun { (T.sink tree.old).stage ≡ InFile }
    requires short { length which.now.path.now ≤ 4096 }
    ensures ran { RanBeside vol.old.sup (λ s. pieces s which.now.sums which.now.tree which.now.ino which.now.path.now which.now.inode.now)
        (beside R.seen T.sink T.account rack.old vol.old tree.old)
        (beside R.seen T.sink T.account rack.new vol.new tree.new) result }
    ensures stage { (T.sink tree.new).stage ≡ InFile }
{
    let nosum = has_no_sums(which.inode);
    let mut file = FileBytes::new(which.tree, which.ino, which.inode.size, nosum, which.sums);
    let sent = put_pieces(which.path, &mut file, buffer, rack, vol, tree);
    file.finish(vol);
    sent
}
