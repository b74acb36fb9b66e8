// The call send.
ghost use Rattle.std.specs.Prelude.{◌≡◌, ◌≢◌, IfErr, OnOk, [], false, length};
ghost use Rattle.btr_rack.specs.Sink.{NotStarted, InFile};
ghost use Rattle.btr_restore.specs.Restoring.{Settles};
ghost use Rattle.btr_volume.specs.Readable.{CanRead};
ghost use Rattle.btr_restore.specs.Ends.{SameEnds, world_of};
ghost use Rattle.btr_restore.specs.Running.{Ran, RanFor, Wrote, WroteIn, outside_of, world};
ghost use Rattle.btr_volume.specs.Lookup.{looks};
ghost use Rattle.btr_volume.specs.Tree.{tree_of};
ghost use Rattle.btr_send.specs.Names.{IsStreamName};
ghost use Rattle.btr_send.specs.Sending.{ended, opened, sending, sent, sent_below};

use crate::buffer::Buffer;
use crate::commands::{begin_file, finish_file, put_end, put_header, put_subvol, start_in};
use crate::listing::{Scratch, SentDir, list};
use crate::plan::{SendPlan, StreamFile};
use crate::source::{Source, find_source};
use btr_files::Counts;
use btr_listing::Path;
use btr_rack::{Out, Rack, TreeSink};
use btr_restore::{Endpoints, OpenDir, find_tree, free_dirs, store_waiting, tell_counts};
use btr_volume::{Stop, TreeRoot, Volume};
use std::alloc::Global;

// The tree of the checksums of data.
const SUM_TREE: u64 = 7;

// Ends the stream and its file, and tells how much was sent.
fn finish<T: TreeSink, O: Out>(
    counts: &Counts,
    buffer: &mut Buffer,
    tree: &mut T,
    out: &mut O,
) -> Result<Counts, Stop>
    requires begun { (T.sink tree.old).stage ≡ InFile }
    ensures { Wrote (ended counts.now)
        (outside_of T.sink T.account O.text O.account tree.old out.old)
        (outside_of T.sink T.account O.text O.account tree.new out.new) result }
{
    put_end(buffer, tree)?;
    finish_file(tree)?;
    tell_counts(counts, out)
}

// Begins the file of the stream, with its header and its subvolume.
fn begin<T: TreeSink>(
    dest: &str,
    name: &str,
    source: &Source,
    buffer: &mut Buffer,
    tree: &mut T,
) -> Result<(), Stop>
    requires fresh { (T.sink tree.old).stage ≡ NotStarted }
    requires good { IsStreamName name.now }
    ensures wrote { WroteIn (opened dest.now name.now source.now) T.sink T.account tree.old tree.new result }
    ensures stage { OnOk result ((T.sink tree.new).stage ≡ InFile) }
{
    start_in(dest, tree)?;
    begin_file(name, tree)?;
    put_header(tree)?;
    put_subvol(name, source, buffer, tree)
}

// The entries of a subvolume, and the end of the stream.
fn send_below<R: Rack, T: TreeSink, O: Out>(
    source: &Source,
    sums: Option<TreeRoot>,
    dirs: &mut [OpenDir],
    scratch: &mut Scratch,
    ends: &mut Endpoints<'_, '_, R, T, O>,
) -> Result<Counts, Stop>
    requires ready { CanRead 6 (R.seen ends.old.rack.now) ends.old.vol.now }
    requires begun { (T.sink ends.old.tree.now).stage ≡ InFile }
    requires dirs { length dirs.old ≡ 513 }
    requires path { scratch.old.path ≡ [] }
    ensures ran { RanFor (λ s. sent_below s source.now sums)
        (world_of R.seen T.sink T.account O.text O.account ends.old)
        (world_of R.seen T.sink T.account O.text O.account ends.new)
        result }
    ensures same { SameEnds ends.old ends.new }
{
    let mut counts = Counts {
        dirs: 0,
        files: 0,
        skipped: 0,
    };
    let Some((here, below)) = dirs.split_first_mut() else {
        unreachable!();
    };
    let top = SentDir {
        sums,
        tree: source.root,
        dirid: source.root.dirid,
    };
    list(&top, here, below, scratch, &mut counts, ends)?;
    finish(&counts, &mut scratch.buffer, ends.tree, ends.out)
}

// A subvolume as one file of the destination.
fn send_source<R: Rack, T: TreeSink, O: Out>(
    file: &StreamFile<'_>,
    source: &Source,
    sums: Option<TreeRoot>,
    dirs: &mut [OpenDir],
    scratch: &mut Scratch,
    ends: &mut Endpoints<'_, '_, R, T, O>,
) -> Result<Counts, Stop>
    requires ready { CanRead 6 (R.seen ends.old.rack.now) ends.old.vol.now }
    requires fresh { (T.sink ends.old.tree.now).stage ≡ NotStarted }
    requires good { IsStreamName file.now.name.now }
    requires dirs { length dirs.old ≡ 513 }
    requires path { scratch.old.path ≡ [] }
    ensures ran { RanFor (λ s. sent file.now.dest.now file.now.name.now s source.now sums)
        (world_of R.seen T.sink T.account O.text O.account ends.old)
        (world_of R.seen T.sink T.account O.text O.account ends.new)
        result }
    ensures same { SameEnds ends.old ends.new }
{
    begin(file.dest, file.name, source, &mut scratch.buffer, ends.tree)?;
    send_below(source, sums, dirs, scratch, ends)
}

// A subvolume, once its checksums are found.
fn send_found<R: Rack, T: TreeSink, O: Out>(
    file: &StreamFile<'_>,
    source: &Source,
    dirs: &mut [OpenDir],
    scratch: &mut Scratch,
    ends: &mut Endpoints<'_, '_, R, T, O>,
) -> Result<Counts, Stop>
    requires ready { CanRead 6 (R.seen ends.old.rack.now) ends.old.vol.now }
    requires fresh { (T.sink ends.old.tree.now).stage ≡ NotStarted }
    requires good { IsStreamName file.now.name.now }
    requires dirs { length dirs.old ≡ 513 }
    requires path { scratch.old.path ≡ [] }
    ensures ran { RanFor (λ s. looks (tree_of s 7) (sent file.now.dest.now file.now.name.now s source.now))
        (world_of R.seen T.sink T.account O.text O.account ends.old)
        (world_of R.seen T.sink T.account O.text O.account ends.new)
        result }
    ensures same { SameEnds ends.old ends.new }
{
    let sums = find_tree(SUM_TREE, ends.rack, ends.vol)?;
    send_source(file, source, sums, dirs, scratch, ends)
}

// Sends the subvolume of a plan. What waits in the sink then isn't stored yet.
fn send_unsettled<R: Rack, T: TreeSink, O: Out>(
    alloc: Global,
    plan: &SendPlan,
    file: &StreamFile<'_>,
    ends: &mut Endpoints<'_, '_, R, T, O>,
) -> Result<Counts, Stop>
    requires ready { CanRead 6 (R.seen ends.old.rack.now) ends.old.vol.now }
    requires fresh { (T.sink ends.old.tree.now).stage ≡ NotStarted }
    requires good { IsStreamName file.now.name.now }
    ensures ran { Ran (sending file.now.dest.now file.now.name.now ends.old.vol.now.sup plan.now)
        (world_of R.seen T.sink T.account O.text O.account ends.old)
        (world_of R.seen T.sink T.account O.text O.account ends.new)
        result }
    ensures same { SameEnds ends.old ends.new }
{
    let path = match Path::new(alloc) {
        Ok(path) => path,
        Err(_) => return Err(Stop::Memory),
    };
    let buffer = match Buffer::new(alloc) {
        Ok(buffer) => buffer,
        Err(_) => return Err(Stop::Memory),
    };
    let mut dirs = match free_dirs(alloc) {
        Ok(dirs) => dirs,
        Err(_) => return Err(Stop::Memory),
    };
    match find_source(plan.root, ends.rack, ends.vol)? {
        None => Err(Stop::NoTree(plan.root)),
        Some(source) => {
            let mut scratch = Scratch { path, buffer };
            let dirs = dirs.as_mut_slice();
            send_found(file, &source, dirs, &mut scratch, ends)
        }
    }
}

// Sends the subvolume of a plan, and stores what waits in the sink before another stop than the sink's own.
fn send_settled<R: Rack, T: TreeSink, O: Out>(
    alloc: Global,
    plan: &SendPlan,
    file: &StreamFile<'_>,
    ends: &mut Endpoints<'_, '_, R, T, O>,
) -> Result<Counts, Stop>
    requires ready { CanRead 6 (R.seen ends.old.rack.now) ends.old.vol.now }
    requires fresh { (T.sink ends.old.tree.now).stage ≡ NotStarted }
    requires good { IsStreamName file.now.name.now }
    ensures ran { Ran (sending file.now.dest.now file.now.name.now ends.old.vol.now.sup plan.now)
        (world_of R.seen T.sink T.account O.text O.account ends.old)
        (world_of R.seen T.sink T.account O.text O.account ends.new)
        result }
    ensures stored { IfErr result (λ stop. stop ≢ Stop.Sink → T.waits ends.new.tree.now ≡ false) }
    ensures same { SameEnds ends.old ends.new }
{
    match send_unsettled(alloc, plan, file, ends) {
        Ok(counts) => Ok(counts),
        Err(stop) => Err(store_waiting(stop, ends.tree)),
    }
}

/// Sends the subvolume of a plan: its directories and the bytes of its files go as one stream of commands into a file of the destination, and a line
/// of what was sent to the output. Entries that can't be sent are left out, and named.
///
/// The memory of a path of 131328 bytes, of a command of 8221 bytes and of 513 directories in one another is taken first, and nothing else takes any.
/// Six slots of the volume are free. Each checksum of data is verified; a file with a sector that has none is named.
///
/// `NoTree` comes exactly where there is no such subvolume, `Tree` where a block of a tree or of a file's data can't be had or is malformed, `Sink` and
/// `Out` where the destination or the output failed, and `Memory` for want of memory. The file is finished only with the whole stream; else it stays
/// unfinished, with the commands before the fault. What waits in the destination is stored before another error than `Sink` is answered, and where that
/// fails the answer is `Sink`.
pub fn send<R: Rack, T: TreeSink, O: Out>(
    alloc: Global,
    plan: &SendPlan,
    file: &StreamFile<'_>,
    rack: &mut R,
    vol: &mut Volume,
    tree: &mut T,
    out: &mut O,
) -> Result<Counts, Stop>
    requires ready { CanRead 6 (R.seen rack.old) vol.old }
    requires fresh { (T.sink tree.old).stage ≡ NotStarted }
    requires good { IsStreamName file.now.name.now }
    ensures ran { Ran (sending file.now.dest.now file.now.name.now vol.old.sup plan.now)
        (world (R.seen rack.old) vol.old (outside_of T.sink T.account O.text O.account tree.old out.old))
        (world (R.seen rack.new) vol.new (outside_of T.sink T.account O.text O.account tree.new out.new))
        result }
    ensures stored { IfErr result (λ stop. stop ≢ Stop.Sink → T.waits tree.new ≡ false) }
{
    let mut ends = Endpoints {
        rack,
        vol,
        tree,
        out,
    };
    send_settled(alloc, plan, file, &mut ends)
}
