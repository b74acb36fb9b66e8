// The bytes of a file.
ghost use Rattle.std.specs.Prelude.{◌≡◌, ◌≤◌, ◌<◌, ◌||◌, not, false, IfOk, IfSome, Option};
ghost use Rattle.btr_rack.specs.Sink.{InFile};
ghost use Rattle.btr_read.specs.Store.{SameLoans, free_count};
ghost use Rattle.btr_files.specs.Streaming.{bytes_left, IsPiece, IsReading, piece_of, without_file};
ghost use Rattle.btr_restore.specs.Journey.{has_no_sums, pieces, put};
ghost use Rattle.btr_volume.specs.Readable.{CanRead};
ghost use Rattle.btr_restore.specs.Running.{KeepsSink, RanBeside, WroteIn, beside};
ghost use Rattle.btr_restore.specs.Writing.{WritesNext, WritesRest};

use crate::job::Job;
use crate::telling::sink_stop;
use bitflags::Flags;
use btr_files::{FileBytes, Piece, next_piece};
use btr_items::{Inode, InodeFlags};
use btr_listing::Entry;
use btr_rack::{Rack, TreeSink};
use btr_volume::{Stop, Volume};

/// Whether some piece was read without a checksum, this one included.
pub fn is_plain(plain: bool, verified: bool) -> bool
    ensures { result ≡ (plain || not verified) }
{
    plain || !verified
}

// Writes a piece of a file. Answers whether some piece was read without a checksum, as `plain` says of those before.
fn put_piece<T: TreeSink>(piece: Piece<'_>, plain: bool, tree: &mut T) -> Result<bool, Stop>
    requires begun { (T.sink tree.old).stage ≡ InFile }
    requires some { IsPiece piece }
    ensures wrote { WroteIn (put plain (piece_of piece.entry)) T.sink T.account tree.old tree.new result }
    ensures stage { (T.sink tree.new).stage ≡ InFile }
    ensures depth { (T.sink tree.new).depth ≡ (T.sink tree.old).depth }
{
    match piece {
        Piece::Gap(count) => match tree.gap(count) {
            Ok(()) => Ok(plain),
            Err(error) => Err(sink_stop(error)),
        },
        Piece::Bytes {
            bytes,
            verified,
            ..
        } => match tree.put(bytes) {
            Ok(()) => Ok(is_plain(plain, verified)),
            Err(error) => Err(sink_stop(error)),
        },
    }
}

// Gives the next piece of a file, and puts it: whether some piece was read without a checksum, or `None` exactly after the last.
fn put_next<R: Rack, T: TreeSink>(
    file: &mut FileBytes,
    plain: bool,
    rack: &mut R,
    vol: &mut Volume,
    tree: &mut T,
) -> Result<Option<bool>, Stop>
    requires ready { IsReading (R.seen rack.old) vol.old.store file.old }
    requires room { 5 ≤ free_count (without_file vol.old.store file.old) }
    requires begun { (T.sink tree.old).stage ≡ InFile }
    ensures writes { WritesNext put plain file.old file.new
        (beside R.seen T.sink T.account rack.old vol.old tree.old)
        (beside R.seen T.sink T.account rack.new vol.new tree.new) result }
    ensures ready { IsReading (R.seen rack.new) vol.new.store file.new }
    ensures room { SameLoans (without_file vol.old.store file.old) (without_file vol.new.store file.new) }
    ensures rank_falls { IfOk result (λ on. IfSome on (λ after. bytes_left file.new < bytes_left file.old)) }
    ensures stage { (T.sink tree.new).stage ≡ InFile }
    ensures depth { (T.sink tree.new).depth ≡ (T.sink tree.old).depth }
{
    match next_piece(vol, file, rack) {
        Err(fault) => Err(Stop::Tree(fault)),
        Ok(None) => Ok(None),
        Ok(Some(piece)) => Ok(Some(put_piece(piece, plain, tree)?)),
    }
}

// Writes the pieces of a file that are still to come. Answers whether some piece was read without a checksum.
fn put_pieces<R: Rack, T: TreeSink>(
    file: &mut FileBytes,
    rack: &mut R,
    vol: &mut Volume,
    tree: &mut T,
) -> Result<bool, Stop>
    requires ready { IsReading (R.seen rack.old) vol.old.store file.old }
    requires room { 5 ≤ free_count (without_file vol.old.store file.old) }
    requires begun { (T.sink tree.old).stage ≡ InFile }
    ensures writes { WritesRest put false file.old file.new
        (beside R.seen T.sink T.account rack.old vol.old tree.old)
        (beside R.seen T.sink T.account rack.new vol.new tree.new) result }
    ensures ready { IsReading (R.seen rack.new) vol.new.store file.new }
    ensures stage { (T.sink tree.new).stage ≡ InFile }
    ensures depth { (T.sink tree.new).depth ≡ (T.sink tree.old).depth }
{
    let mut plain = false;
    while let Some(after) = put_next(file, plain, rack, vol, tree)? {
        plain = after;
    }
    Ok(plain)
}

/// Whether the sectors of a file have no checksums.
pub fn has_no_sums(inode: &Inode) -> bool
    ensures { result ≡ has_no_sums inode.now }
{
    inode.flags().intersects(InodeFlags::NODATASUM)
}

/// Writes the bytes of a file, unless the run is dry. Answers whether some piece was read without a checksum.
pub(crate) fn write_bytes<R: Rack, T: TreeSink>(
    job: &Job,
    entry: &Entry<'_>,
    inode: &Inode,
    rack: &mut R,
    vol: &mut Volume,
    tree: &mut T,
) -> Result<bool, Stop>
    requires ready { CanRead 6 (R.seen rack.old) vol.old }
    requires begun { job.now.plan.dry ≡ false → (T.sink tree.old).stage ≡ InFile }
    ensures ran { RanBeside vol.old.sup (λ s. pieces job.now.plan s job.now.sums entry.now.tree entry.now.row.location.objectid inode.now)
        (beside R.seen T.sink T.account rack.old vol.old tree.old)
        (beside R.seen T.sink T.account rack.new vol.new tree.new) result }
    ensures stage { job.now.plan.dry ≡ false → (T.sink tree.new).stage ≡ InFile }
    ensures depth { job.now.plan.dry ≡ false → (T.sink tree.new).depth ≡ (T.sink tree.old).depth }
    ensures dry { KeepsSink job.now.plan.dry tree.old tree.new }
{
    if job.plan.dry {
        return Ok(false);
    }
    let nosum = has_no_sums(inode);
    let ino = entry.row.location.objectid;
    let mut file = FileBytes::new(entry.tree, ino, inode.size, nosum, job.sums);
    let plain = put_pieces(&mut file, rack, vol, tree);
    file.finish(vol);
    plain
}
