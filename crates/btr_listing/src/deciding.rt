// What an entry of a directory comes to.
ghost use Rattle.std.specs.Prelude.{◌≡◌, ◌&&◌, ◌==◌, not, false, Some};
ghost use Rattle.btr_files.specs.Entries.{name_in};
ghost use Rattle.btr_rack.specs.Name.{IsGoodName};
ghost use Rattle.btr_listing.specs.Deciding.{is_long, root_found, surveyed};
ghost use Rattle.btr_listing.specs.Deciding.{decided, directory_decided, file_decided, file_found};
ghost use Rattle.btr_listing.specs.Deciding.{folder_decided, named_decided, root_decided, subvolume_decided};
ghost use Rattle.btr_listing.specs.Looked.{FitsAll, FitsEntry, Looked, met_by};
ghost use Rattle.btr_volume.specs.Readable.{CanRead};

use crate::cause::Cause;
use crate::decision::Decision;
use crate::entry::Entry;
use crate::name::good_name;
use crate::rules::Rules;
use btr_files::{Survey, inode, linked, mounted, survey};
use btr_items::{Inode, item};
use btr_rack::Rack;
use btr_volume::{TreeRoot, Volume};
use btr_walk::TreeFault;

// The greatest file: 2^60 bytes.
const MOST_BYTES: u64 = 1 << 60;

// A file by what its extents come to.
fn by_survey(inode: Inode, found: Survey) -> Decision
    ensures { result ≡ surveyed inode found }
{
    match found {
        Survey::Clear => Decision::File(inode),
        Survey::Compressed => Decision::Skip(Cause::Compressed),
        Survey::Encoded => Decision::Skip(Cause::Encoded),
    }
}

// A file by its inode: its size and its extents decide.
fn by_inode<R: Rack>(
    entry: &Entry<'_>,
    inode: Inode,
    rack: &mut R,
    vol: &mut Volume,
) -> Result<Decision, TreeFault>
    requires ready { CanRead 4 (R.seen rack.old) vol.old }
    requires good { IsGoodName (name_in entry.now.name.now) }
    ensures looked { Looked (file_found (met_by entry.now) (Some inode))
        (R.seen rack.old) vol.old (R.seen rack.new) vol.new result }
    ensures fits { FitsAll (met_by entry.now) result }
{
    if inode.size > MOST_BYTES {
        return Ok(Decision::Skip(Cause::Size));
    }
    let found = survey(&entry.tree, entry.row.location.objectid, rack, vol)?;
    Ok(by_survey(inode, found))
}

// A file, by what is found of it.
fn file<R: Rack>(entry: &Entry<'_>, rack: &mut R, vol: &mut Volume) -> Result<Decision, TreeFault>
    requires ready { CanRead 4 (R.seen rack.old) vol.old }
    requires good { IsGoodName (name_in entry.now.name.now) }
    ensures looked { Looked (file_decided (met_by entry.now))
        (R.seen rack.old) vol.old (R.seen rack.new) vol.new result }
    ensures fits { FitsAll (met_by entry.now) result }
{
    match inode(&entry.tree, entry.row.location.objectid, rack, vol)? {
        None => Ok(Decision::Skip(Cause::Missing)),
        Some(found) => by_inode(entry, found, rack, vol),
    }
}

// A directory of the tree, where this entry is its one name.
fn directory<R: Rack>(
    entry: &Entry<'_>,
    rack: &mut R,
    vol: &mut Volume,
) -> Result<Decision, TreeFault>
    requires ready { CanRead 4 (R.seen rack.old) vol.old }
    requires good { IsGoodName (name_in entry.now.name.now) }
    requires shallow { entry.now.deep ≡ false }
    ensures looked { Looked (directory_decided (met_by entry.now))
        (R.seen rack.old) vol.old (R.seen rack.new) vol.new result }
    ensures fits { FitsAll (met_by entry.now) result }
{
    let ino = entry.row.location.objectid;
    let index = entry.row.index;
    if !linked(&entry.tree, ino, entry.dirid, index, entry.name, rack, vol)? {
        return Ok(Decision::Skip(Cause::Link));
    }
    Ok(Decision::Folder {
        tree: entry.tree,
        dirid: ino,
    })
}

// Whether a subvolume is a snapshot that isn't wanted.
fn is_left_out(rules: &Rules, inner: &TreeRoot) -> bool
    ensures { result ≡ (not (inner.now.offset == 0) && not rules.now.snapshots) }
{
    inner.offset != 0 && !rules.snapshots
}

// A subvolume by its root, if that is there.
fn by_root(rules: &Rules, found: Option<TreeRoot>) -> Decision
    ensures { result ≡ root_found rules.now found }
{
    match found {
        None => Decision::Skip(Cause::Missing),
        Some(inner) => {
            if is_left_out(rules, &inner) {
                return Decision::Skip(Cause::Snapshot);
            }
            Decision::Folder {
                tree: inner,
                dirid: inner.dirid,
            }
        }
    }
}

// A subvolume whose one name this entry is.
fn root<R: Rack>(
    rules: &Rules,
    entry: &Entry<'_>,
    rack: &mut R,
    vol: &mut Volume,
) -> Result<Decision, TreeFault>
    requires ready { CanRead 4 (R.seen rack.old) vol.old }
    requires good { IsGoodName (name_in entry.now.name.now) }
    requires shallow { entry.now.deep ≡ false }
    ensures looked { Looked (root_decided rules.now vol.old.sup (met_by entry.now))
        (R.seen rack.old) vol.old (R.seen rack.new) vol.new result }
    ensures fits { FitsEntry rules.now (met_by entry.now) result }
{
    let found = vol.tree(entry.row.location.objectid, rack)?;
    Ok(by_root(rules, found))
}

// A subvolume, where this entry is its one name; else a directory that stays empty.
fn subvolume<R: Rack>(
    rules: &Rules,
    entry: &Entry<'_>,
    rack: &mut R,
    vol: &mut Volume,
) -> Result<Decision, TreeFault>
    requires ready { CanRead 4 (R.seen rack.old) vol.old }
    requires good { IsGoodName (name_in entry.now.name.now) }
    requires shallow { entry.now.deep ≡ false }
    ensures looked { Looked (subvolume_decided rules.now vol.old.sup (met_by entry.now))
        (R.seen rack.old) vol.old (R.seen rack.new) vol.new result }
    ensures fits { FitsEntry rules.now (met_by entry.now) result }
{
    if !rules.subvolumes {
        return Ok(Decision::Skip(Cause::Subvolume));
    }
    let id = entry.row.location.objectid;
    let index = entry.row.index;
    if !mounted(id, entry.tree.id, entry.dirid, index, entry.name, rack, vol)? {
        return Ok(Decision::Empty);
    }
    root(rules, entry, rack, vol)
}

// A directory or a subvolume, in a directory that may be too deep for it.
fn folder<R: Rack>(
    rules: &Rules,
    entry: &Entry<'_>,
    rack: &mut R,
    vol: &mut Volume,
) -> Result<Decision, TreeFault>
    requires ready { CanRead 4 (R.seen rack.old) vol.old }
    requires good { IsGoodName (name_in entry.now.name.now) }
    ensures looked { Looked (folder_decided rules.now vol.old.sup (met_by entry.now))
        (R.seen rack.old) vol.old (R.seen rack.new) vol.new result }
    ensures fits { FitsEntry rules.now (met_by entry.now) result }
{
    if entry.deep {
        return Ok(Decision::Skip(Cause::Depth));
    }
    if entry.row.location.kind == item::INODE_ITEM {
        return directory(entry, rack, vol);
    }
    subvolume(rules, entry, rack, vol)
}

// Whether a path is longer than one may be.
fn is_long(longest: Option<usize>, path: &[u8]) -> bool
    ensures { result ≡ is_long longest path.now }
{
    match longest {
        None => false,
        Some(most) => path.len() > most,
    }
}

// An entry of a good name, by its path and its kind.
fn named<R: Rack>(
    rules: &Rules,
    entry: &Entry<'_>,
    rack: &mut R,
    vol: &mut Volume,
) -> Result<Decision, TreeFault>
    requires ready { CanRead 4 (R.seen rack.old) vol.old }
    requires good { IsGoodName (name_in entry.now.name.now) }
    ensures looked { Looked (named_decided rules.now vol.old.sup (met_by entry.now))
        (R.seen rack.old) vol.old (R.seen rack.new) vol.new result }
    ensures fits { FitsEntry rules.now (met_by entry.now) result }
{
    if is_long(rules.longest, entry.path) {
        return Ok(Decision::Skip(Cause::Path));
    }
    if entry.row.kind == 7 {
        return Ok(Decision::Skip(Cause::Symlink));
    }
    if entry.row.kind >= 3 {
        return Ok(Decision::Skip(Cause::Special));
    }
    if entry.row.kind == 1 {
        return file(entry, rack, vol);
    }
    folder(rules, entry, rack, vol)
}

/// Answers what an entry of a directory comes to: the first rule that fits decides. It takes no memory, and four slots of the volume are free.
///
/// The faults are those of the blocks that are read, in their order: `Lost`, `Unread`, `Unmapped` and `Crosses` of a block, and `Malformed` where one
/// breaks a rule, doesn't fit its place, or has an item that breaks its form.
pub fn decide<R: Rack>(
    rules: &Rules,
    entry: &Entry<'_>,
    rack: &mut R,
    vol: &mut Volume,
) -> Result<Decision, TreeFault>
    requires ready { CanRead 4 (R.seen rack.old) vol.old }
    ensures looked { Looked (decided rules.now vol.old.sup (met_by entry.now))
        (R.seen rack.old) vol.old (R.seen rack.new) vol.new result }
    ensures fits { FitsEntry rules.now (met_by entry.now) result }
{
    match good_name(entry.name.as_bytes()) {
        None => Ok(Decision::Skip(Cause::Name)),
        Some(_) => named(rules, entry, rack, vol),
    }
}
