// The first reading of a file, which puts nothing.
ghost use Rattle.std.specs.Prelude.{◌≤◌};
ghost use Rattle.btr_read.specs.Store.{SameLoans, free_count};
ghost use Rattle.btr_files.specs.Streaming.{bytes_left, IsReading, without_file};
ghost use Rattle.btr_volume.specs.Readable.{CanRead};
ghost use Rattle.btr_salvage.specs.Reading.{PassesNext, PassesRest, PassRankFalls};
ghost use Rattle.btr_salvage.specs.Running.{ReadFor};
ghost use Rattle.btr_salvage.specs.Treating.{reading_for};

use btr_files::{FileBytes, next_piece};
use btr_items::Inode;
use btr_rack::Rack;
use btr_restore::{Job, has_no_sums};
use btr_volume::{TreeRoot, Volume};
use btr_walk::TreeFault;

// Passes the next piece of a file; `false` exactly after the last.
fn pass_next<R: Rack>(
    file: &mut FileBytes,
    rack: &mut R,
    vol: &mut Volume,
) -> Result<bool, TreeFault>
    requires ready { IsReading (R.seen rack.old) vol.old.store file.old }
    requires room { 5 ≤ free_count (without_file vol.old.store file.old) }
    ensures passes { PassesNext file.old file.new (R.seen rack.old) vol.old (R.seen rack.new) vol.new result }
    ensures ready { IsReading (R.seen rack.new) vol.new.store file.new }
    ensures room { SameLoans (without_file vol.old.store file.old) (without_file vol.new.store file.new) }
    ensures rank_falls { PassRankFalls (bytes_left file.old) (bytes_left file.new) result }
{
    match next_piece(vol, file, rack)? {
        None => Ok(false),
        Some(_) => Ok(true),
    }
}

// Passes all pieces of a file that are still to come.
fn pass_pieces<R: Rack>(
    file: &mut FileBytes,
    rack: &mut R,
    vol: &mut Volume,
) -> Result<(), TreeFault>
    requires ready { IsReading (R.seen rack.old) vol.old.store file.old }
    requires room { 5 ≤ free_count (without_file vol.old.store file.old) }
    ensures passes { PassesRest file.old file.new (R.seen rack.old) vol.old (R.seen rack.new) vol.new result }
    ensures ready { IsReading (R.seen rack.new) vol.new.store file.new }
{
    while pass_next(file, rack, vol)? {}
    Ok(())
}

/// Reads all bytes of a file, and puts none: so it is known that they can be had.
pub(crate) fn read_through<R: Rack>(
    job: &Job,
    root: &TreeRoot,
    ino: u64,
    inode: &Inode,
    rack: &mut R,
    vol: &mut Volume,
) -> Result<(), TreeFault>
    requires { CanRead 6 (R.seen rack.old) vol.old }
    ensures { ReadFor (reading_for job.now root.now ino inode.now) (R.seen rack.old) vol.old (R.seen rack.new) vol.new result }
{
    let nosum = has_no_sums(inode);
    let mut file = FileBytes::new(*root, ino, inode.size, nosum, job.sums);
    let read = pass_pieces(&mut file, rack, vol);
    file.finish(vol);
    read
}
