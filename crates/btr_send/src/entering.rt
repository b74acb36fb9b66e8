// What is sent for an entry.
ghost use Rattle.std.specs.Prelude.{◌≡◌, ◌≤◌, length};
ghost use Rattle.btr_rack.specs.Sink.{InFile};
ghost use Rattle.btr_volume.specs.Readable.{CanRead};
ghost use Rattle.btr_restore.specs.Ends.{SameEnds, world_of};
ghost use Rattle.btr_restore.specs.Running.{RanFor, Wrote, WroteIn, outside_of};
ghost use Rattle.btr_restore.specs.Treating.{IsOver, came};
ghost use Rattle.btr_send.specs.Sending.{closed, empty, entered};
ghost use Rattle.btr_send.specs.Treating.{written_for};

use crate::buffer::Buffer;
use crate::commands::{put_mkdir, put_mkfile, put_truncate};
use crate::progress::SentFile;
use crate::writing::{FileToSend, write_bytes};
use btr_files::Counts;
use btr_items::Inode;
use btr_listing::Entry;
use btr_rack::{Out, Rack, TreeSink};
use btr_restore::{Endpoints, Treated, more, tell_unverified};
use btr_volume::{Stop, TreeRoot};

/// Enters a directory of a tree.
pub(crate) fn enter<T: TreeSink>(
    path: &[u8],
    inner: TreeRoot,
    dirid: u64,
    buffer: &mut Buffer,
    counts: &mut Counts,
    tree: &mut T,
) -> Result<Treated, Stop>
    requires begun { (T.sink tree.old).stage ≡ InFile }
    requires short { length path.now ≤ 4096 }
    ensures wrote { WroteIn (entered path.now inner dirid counts.old)
        T.sink T.account tree.old tree.new (came counts.new result) }
    ensures stage { (T.sink tree.new).stage ≡ InFile }
{
    put_mkdir(path, buffer, tree)?;
    counts.dirs = more(counts.dirs);
    Ok(Treated::Within { tree: inner, dirid })
}

/// Makes a directory that stays empty.
pub(crate) fn enter_empty<T: TreeSink>(
    path: &[u8],
    buffer: &mut Buffer,
    counts: &mut Counts,
    tree: &mut T,
) -> Result<Treated, Stop>
    requires begun { (T.sink tree.old).stage ≡ InFile }
    requires short { length path.now ≤ 4096 }
    ensures wrote { WroteIn (empty path.now counts.old)
        T.sink T.account tree.old tree.new (came counts.new result) }
    ensures over { IsOver result }
    ensures stage { (T.sink tree.new).stage ≡ InFile }
{
    put_mkdir(path, buffer, tree)?;
    counts.dirs = more(counts.dirs);
    Ok(Treated::Over)
}

// Ends a file, and names it where some sector of it was read without a checksum.
fn close_file<T: TreeSink, O: Out>(
    file: &SentFile<'_>,
    size: u64,
    buffer: &mut Buffer,
    counts: &mut Counts,
    tree: &mut T,
    out: &mut O,
) -> Result<Treated, Stop>
    requires begun { (T.sink tree.old).stage ≡ InFile }
    requires short { length file.now.path.now ≤ 4096 }
    ensures wrote { Wrote (closed file.now.path.now size counts.old file.now.sent)
        (outside_of T.sink T.account O.text O.account tree.old out.old)
        (outside_of T.sink T.account O.text O.account tree.new out.new)
        (came counts.new result) }
    ensures over { IsOver result }
    ensures stage { (T.sink tree.new).stage ≡ InFile }
{
    put_truncate(file.path, size, buffer, tree)?;
    tell_unverified(file.sent.plain, file.path, out)?;
    counts.files = more(counts.files);
    Ok(Treated::Over)
}

/// Writes a file, by its inode.
pub(crate) fn write_file<R: Rack, T: TreeSink, O: Out>(
    sums: Option<TreeRoot>,
    entry: &Entry<'_>,
    inode: &Inode,
    buffer: &mut Buffer,
    counts: &mut Counts,
    ends: &mut Endpoints<'_, '_, R, T, O>,
) -> Result<Treated, Stop>
    requires ready { CanRead 6 (R.seen ends.old.rack.now) ends.old.vol.now }
    requires begun { (T.sink ends.old.tree.now).stage ≡ InFile }
    requires short { length entry.now.path.now ≤ 4096 }
    ensures ran { RanFor (written_for sums entry.now inode.now counts.old)
        (world_of R.seen T.sink T.account O.text O.account ends.old)
        (world_of R.seen T.sink T.account O.text O.account ends.new)
        (came counts.new result) }
    ensures over { IsOver result }
    ensures stage { (T.sink ends.new.tree.now).stage ≡ InFile }
    ensures same { SameEnds ends.old ends.new }
{
    put_mkfile(entry.path, buffer, ends.tree)?;
    let which = FileToSend {
        path: entry.path,
        tree: entry.tree,
        ino: entry.row.location.objectid,
        inode,
        sums,
    };
    let sent = write_bytes(&which, buffer, ends.rack, ends.vol, ends.tree)?;
    let file = SentFile {
        path: entry.path,
        sent,
    };
    close_file(&file, inode.size, buffer, counts, ends.tree, ends.out)
}
