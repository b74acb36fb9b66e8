// What becomes of an entry.
ghost use Rattle.std.specs.Prelude.{◌≡◌, ◌≤◌, length, true};
ghost use Rattle.btr_rack.specs.Sink.{InFile};
ghost use Rattle.btr_listing.specs.Deciding.{Fits};
ghost use Rattle.btr_listing.specs.Looked.{met_by};
ghost use Rattle.btr_volume.specs.Readable.{CanRead};
ghost use Rattle.btr_restore.specs.Ends.{SameEnds, world_of};
ghost use Rattle.btr_restore.specs.Running.{RanFor};
ghost use Rattle.btr_restore.specs.Treating.{IsOver, came};
ghost use Rattle.btr_send.specs.Sending.{rules};
ghost use Rattle.btr_send.specs.Treating.{done_for, overlong, treated_for};

use crate::buffer::Buffer;
use crate::entering::{enter, enter_empty, write_file};
use btr_files::Counts;
use btr_listing::{Cause, Decision, Entry, Rules, decide, good_name};
use btr_rack::{Out, Rack, TreeSink};
use btr_restore::{Endpoints, Treated, leave_out};
use btr_volume::{Stop, TreeRoot};

// A path of 4095 bytes, behind a `/`.
const LONGEST: usize = 4096;

// What isn't sent: subvolumes, and what has a longer path than the stream may hold.
fn rules() -> Rules
    ensures { result ≡ rules }
{
    Rules {
        snapshots: false,
        subvolumes: false,
        longest: Some(LONGEST),
    }
}

// Why an entry with too long a path is left out.
fn overlong(name: &[u8]) -> Cause
    ensures { result ≡ overlong name.now }
{
    match good_name(name) {
        None => Cause::Name,
        Some(_) => Cause::Path,
    }
}

// What is done about an entry, by what it comes to.
fn carry_out<R: Rack, T: TreeSink, O: Out>(
    sums: Option<TreeRoot>,
    entry: &Entry<'_>,
    decision: Decision,
    buffer: &mut Buffer,
    counts: &mut Counts,
    ends: &mut Endpoints<'_, '_, R, T, O>,
) -> Result<Treated, Stop>
    requires ready { CanRead 6 (R.seen ends.old.rack.now) ends.old.vol.now }
    requires begun { (T.sink ends.old.tree.now).stage ≡ InFile }
    requires short { length entry.now.path.now ≤ 4096 }
    requires fits { Fits rules (met_by entry.now) decision }
    ensures ran { RanFor (done_for sums entry.now decision counts.old)
        (world_of R.seen T.sink T.account O.text O.account ends.old)
        (world_of R.seen T.sink T.account O.text O.account ends.new)
        (came counts.new result) }
    ensures flat { entry.now.deep ≡ true → IsOver result }
    ensures stage { (T.sink ends.new.tree.now).stage ≡ InFile }
    ensures same { SameEnds ends.old ends.new }
{
    match decision {
        Decision::Skip(cause) => leave_out(cause, entry.path, counts, ends.out),
        Decision::File(inode) => { write_file(sums, entry, &inode, buffer, counts, ends) }
        Decision::Empty => enter_empty(entry.path, buffer, counts, ends.tree),
        Decision::Folder { tree: inner, dirid } => {
            enter(entry.path, inner, dirid, buffer, counts, ends.tree)
        }
    }
}

/// Treats an entry. Where a directory is entered, what is in it is still to be listed.
pub(crate) fn treat<R: Rack, T: TreeSink, O: Out>(
    sums: Option<TreeRoot>,
    entry: &Entry<'_>,
    buffer: &mut Buffer,
    counts: &mut Counts,
    ends: &mut Endpoints<'_, '_, R, T, O>,
) -> Result<Treated, Stop>
    requires ready { CanRead 6 (R.seen ends.old.rack.now) ends.old.vol.now }
    requires begun { (T.sink ends.old.tree.now).stage ≡ InFile }
    ensures ran { RanFor (treated_for sums entry.now counts.old)
        (world_of R.seen T.sink T.account O.text O.account ends.old)
        (world_of R.seen T.sink T.account O.text O.account ends.new)
        (came counts.new result) }
    ensures flat { entry.now.deep ≡ true → IsOver result }
    ensures stage { (T.sink ends.new.tree.now).stage ≡ InFile }
    ensures same { SameEnds ends.old ends.new }
{
    if entry.path.len() > LONGEST {
        return leave_out(
            overlong(entry.name.as_bytes()),
            entry.path,
            counts,
            ends.out,
        );
    }
    match decide(&rules(), entry, ends.rack, ends.vol) {
        Err(fault) => Err(Stop::Tree(fault)),
        Ok(decision) => { carry_out(sums, entry, decision, buffer, counts, ends) }
    }
}
