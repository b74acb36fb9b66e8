// What is wrong with trees of files.
ghost use Rattle.std.specs.Prelude.{◌≡◌, ◌∷◌, ◌++◌, [], List, true, OnOk, IfOk, filter};
ghost use Rattle.btr_check_names.specs.Names.{names_findings};
ghost use Rattle.btr_check_names.specs.Subvolumes.{subvolumes_in};
ghost use Rattle.btr_check_names.specs.Subvolumes as names;
ghost use Rattle.btr_check_names.specs.Unpaired.{are_paired};
ghost use Rattle.btr_findings.specs.declared.finding.Finding.{Finding};
ghost use Rattle.btr_findings.specs.Findings.{Adds, HasJust};
ghost use Rattle.btr_check.specs.Counting.{Unless};
ghost use Rattle.btr_check.specs.Filesystem.{is_file_tree, root_items};
ghost use Rattle.btr_check.specs.Families.{AreSumRanges, found_on_files};
ghost use Rattle.btr_check.specs.FileTrees.{AddsMissing, AreSummed, KeepsEntries, PutsMissing, TreatsNames};
ghost use Rattle.btr_check.specs.Passes.{Lists, AddsFindings};
ghost use Rattle.btr_check.specs.Running.{world, CanCheck, Ran};
ghost use Rattle.btr_check.specs.SoundTrees.{AreBelow, AreKept, KeepsSound, TreatsAll};
ghost use Rattle.btr_check.specs.Wanted.{IfKnown, OfAllTrees, OfTree, OfTrees};

use crate::collecting::{collect, or_memory};
use crate::differing::is_sound_by;
use crate::file_tree::FileTree;
use crate::refusing::is_file_tree;
use crate::sound_tree::{RootedTree, SoundTree, keep_sound, pass_like, read_rooted};
use crate::trees::{ROOT_TREE, push_tree};
use btr_base::Memory;
use btr_check_names::{
    SubvolumeNames, TreeNames, names_law, put_name_findings, put_subvolume_findings,
    subvolumes_law, unpaired_law,
};
use btr_check_space::AddressRanges;
use btr_check_sums::{SumPlaces, Uses, keeps_law, put_missing_sums};
use btr_findings::{Found, push};
use btr_rack::Rack;
use btr_volume::{Stop, TreeRoot, Volume, named_root, root_root};
use std::alloc::Global;

// What is kept of the trees of files: the names of subvolumes, and trees that are sound.
#[derive(Drop)]
struct KeptTrees {
    subvolumes: SubvolumeNames,
    sound: Vec<SoundTree>,
}

// The trees of files among some trees.
fn file_trees(alloc: Global, trees: &[TreeRoot]) -> Result<Vec<TreeRoot>, Memory>
    ensures { IfOk result (λ files. files.items ≡ filter (λ tree. is_file_tree tree.id) trees.now) }
{
    let mut files = Vec::new(alloc);
    for tree in trees {
        if is_file_tree(tree.id) {
            push_tree(&mut files, *tree)?;
        }
    }
    Ok(files)
}

// Whether nothing was found.
fn is_nothing(alloc: Global, found: Found) -> Result<bool, Memory>
    ensures { (all : List Finding) → HasJust all found → IfOk result (λ nothing. nothing ≡ true → all ≡ []) }
{
    let mut list = found.list(alloc)?;
    Ok(list.next().is_none())
}

// Whether nothing is missing of the checksums of the sectors that a tree's files use.
pub(crate) fn are_summed(
    alloc: Global,
    tree: u64,
    uses: &Uses,
    places: &SumPlaces<'_>,
) -> Result<bool, Memory>
    ensures { AreSummed tree uses.now places.now.chunks.now places.now.sums.now result }
{
    let mut missing = Found::new(alloc);
    put_missing_sums(alloc, &mut missing, tree, uses.loose(), uses.used(), places)?;
    is_nothing(alloc, missing)
}

// Puts what is missing of the checksums of the sectors that a tree's files use. The answer is whether nothing is.
fn put_missing(
    alloc: Global,
    found: &mut Found,
    tree: u64,
    uses: &Uses,
    places: &SumPlaces<'_>,
) -> Result<bool, Memory>
    ensures { AddsMissing tree uses.now places.now.chunks.now places.now.sums.now found.old found.new result }
{
    if are_summed(alloc, tree, uses, places)? {
        return Ok(true);
    }
    put_missing_sums(alloc, found, tree, uses.loose(), uses.used(), places)?;
    Ok(false)
}

// Puts what is missing of the checksums of what was met of a tree of files, and keeps its names of subvolumes where all names are paired, and
// the tree where it is sound. The answer is whether its names are paired.
fn put_met(
    alloc: Global,
    found: &mut Found,
    kept: &mut KeptTrees,
    rooted: RootedTree,
    met: FileTree,
    places: &SumPlaces<'_>,
) -> Result<bool, Memory>
    ensures found { PutsMissing rooted.tree.id met places.now.chunks.now places.now.sums.now found.old found.new result }
    ensures paired { IfOk result (λ paired. paired ≡ are_paired met.names) }
    ensures entries { KeepsEntries rooted.tree.id met kept.old.subvolumes kept.new.subvolumes result }
    ensures sound { KeepsSound rooted met places.now.chunks.now places.now.sums.now kept.old.sound.items kept.new.sound.items result }
{
    let tree = rooted.tree.id;
    let FileTree {
        names,
        uses,
        is_plain,
    } = met;
    let summed = put_missing(alloc, found, tree, &uses, places)?;
    if !names.are_paired() {
        return Ok(false);
    }
    kept.subvolumes.take_kept(tree, &names)?;
    if summed {
        let one = SoundTree {
            rooted,
            names,
            is_plain,
        };
        keep_sound(&mut kept.sound, one)?;
    }
    Ok(true)
}

// Puts what is wrong with the names in a tree of files, and keeps its names of subvolumes.
fn put_all_names(
    alloc: Global,
    found: &mut Found,
    subvolumes: &mut SubvolumeNames,
    all: &TreeNames,
) -> Result<(), Memory>
    ensures found { OnOk result (Adds (names_findings all.now) found.old found.new) }
    ensures entries { OnOk result (subvolumes.new ≡ names.subvolumes_at subvolumes.old all.now.tree all.now.indexed) }
{
    put_name_findings(alloc, found, all)?;
    subvolumes.take_entries(all)
}

// Visits a tree of files once more where something is wrong with its names: all of them are kept, and what is wrong is put.
fn put_names<R: Rack>(
    alloc: Global,
    found: &mut Found,
    subvolumes: &mut SubvolumeNames,
    tree: &TreeRoot,
    rack: &mut R,
    vol: &mut Volume,
) -> Result<(), Stop>
    requires ready { CanCheck (world (R.seen rack.old) vol.old) }
    ensures ran { Ran (OfTree tree.now.place)
        (λ fs. Unless
        (λ u. TreatsNames fs.blocks tree.now found.old found.new subvolumes.old subvolumes.new) result)
        (world (R.seen rack.old) vol.old) (world (R.seen rack.new) vol.new) result }
{
    names_law();
    let nothing = TreeNames::new(alloc, tree.id, tree.dirid);
    let all = collect(Some(*tree), nothing, rack, vol)?;
    or_memory(put_all_names(alloc, found, subvolumes, &all))
}

// Visits a tree of files, puts what is wrong with it, and keeps its names of subvolumes, and the tree where it is sound.
fn put_visited<R: Rack>(
    alloc: Global,
    found: &mut Found,
    kept: &mut KeptTrees,
    rooted: RootedTree,
    sums: &AddressRanges,
    rack: &mut R,
    vol: &mut Volume,
) -> Result<(), Stop>
    requires ready { CanCheck (world (R.seen rack.old) vol.old) }
    ensures ran { Ran (OfTree rooted.tree.place)
        (λ fs. AreSumRanges fs sums.now → AreKept fs kept.old.sound.items
        → AreBelow fs rooted.tree rooted.children.items
        → Unless (λ u. TreatsAll fs (rooted.tree ∷ []) found.old found.new kept.old.subvolumes kept.new.subvolumes kept.new.sound.items) result)
        (world (R.seen rack.old) vol.old) (world (R.seen rack.new) vol.new) result }
{
    unpaired_law();
    keeps_law();
    let tree = rooted.tree;
    let met = collect(Some(tree), FileTree::new(alloc, &tree), rack, vol)?;
    let chunks = vol.store.chunks();
    let places = SumPlaces { chunks, sums };
    let paired = match put_met(alloc, found, kept, rooted, met, &places) {
        Ok(paired) => paired,
        Err(Memory) => return Err(Stop::Memory),
    };
    if paired {
        Ok(())
    } else {
        put_names(alloc, found, &mut kept.subvolumes, &tree, rack, vol)
    }
}

// Keeps a tree that is sound by another one in its place, and its names of subvolumes, which are the same.
fn keep_passed(kept: &mut KeptTrees, before: SoundTree, rooted: RootedTree) -> Result<(), Memory>
    ensures entries { OnOk result (kept.new.subvolumes
        ≡ names.subvolumes_at kept.old.subvolumes rooted.tree.id before.names.subvolumes) }
    ensures sound { OnOk result (kept.new.sound.items
        ≡ kept.old.sound.items ++ record { rooted = rooted; names = before.names; is_plain = true } ∷ []) }
{
    let names = before.names;
    kept.subvolumes.take_kept(rooted.tree.id, &names)?;
    let one = SoundTree {
        rooted,
        names,
        is_plain: true,
    };
    push(&mut kept.sound, one)
}

// Passes a tree of files that is sound by the last sound one, or visits it.
fn put_unlike<R: Rack>(
    alloc: Global,
    found: &mut Found,
    kept: &mut KeptTrees,
    rooted: RootedTree,
    sums: &AddressRanges,
    rack: &mut R,
    vol: &mut Volume,
) -> Result<(), Stop>
    requires ready { CanCheck (world (R.seen rack.old) vol.old) }
    ensures ran { Ran (OfTree rooted.tree.place)
        (λ fs. AreSumRanges fs sums.now → AreKept fs kept.old.sound.items
        → AreBelow fs rooted.tree rooted.children.items
        → Unless (λ u. TreatsAll fs (rooted.tree ∷ []) found.old found.new kept.old.subvolumes kept.new.subvolumes kept.new.sound.items) result)
        (world (R.seen rack.old) vol.old) (world (R.seen rack.new) vol.new) result }
{
    let Some(before) = kept.sound.pop() else {
        return put_visited(alloc, found, kept, rooted, sums, rack, vol);
    };
    if is_sound_by(alloc, &before, &rooted, sums, rack, vol) {
        return or_memory(keep_passed(kept, before, rooted));
    }
    match push(&mut kept.sound, before) {
        Ok(()) => put_visited(alloc, found, kept, rooted, sums, rack, vol),
        Err(Memory) => Err(Stop::Memory),
    }
}

// Passes a tree of files that has the same blocks below its root as a sound one, or visits it.
fn put_file_tree<R: Rack>(
    alloc: Global,
    found: &mut Found,
    kept: &mut KeptTrees,
    tree: &TreeRoot,
    sums: &AddressRanges,
    rack: &mut R,
    vol: &mut Volume,
) -> Result<(), Stop>
    requires ready { CanCheck (world (R.seen rack.old) vol.old) }
    ensures ran { Ran (OfTree tree.now.place)
        (λ fs. AreSumRanges fs sums.now → AreKept fs kept.old.sound.items → Unless (λ u. TreatsAll fs
        (tree.now ∷ []) found.old found.new kept.old.subvolumes kept.new.subvolumes kept.new.sound.items) result)
        (world (R.seen rack.old) vol.old) (world (R.seen rack.new) vol.new) result }
{
    let rooted = read_rooted(alloc, tree, rack, vol)?;
    match pass_like(kept.sound.as_slice(), &rooted, &mut kept.subvolumes) {
        Ok(true) => Ok(()),
        Ok(false) => put_unlike(alloc, found, kept, rooted, sums, rack, vol),
        Err(Memory) => Err(Stop::Memory),
    }
}

// The same for some trees, one after another.
fn put_file_trees<R: Rack>(
    alloc: Global,
    found: &mut Found,
    kept: &mut KeptTrees,
    files: &[TreeRoot],
    sums: &AddressRanges,
    rack: &mut R,
    vol: &mut Volume,
) -> Result<(), Stop>
    requires ready { CanCheck (world (R.seen rack.old) vol.old) }
    ensures ran { Ran (OfTrees files.now)
        (λ fs. AreSumRanges fs sums.now → AreKept fs kept.old.sound.items → Unless (λ u. TreatsAll fs
        files.now found.old found.new kept.old.subvolumes kept.new.subvolumes kept.new.sound.items) result)
        (world (R.seen rack.old) vol.old) (world (R.seen rack.new) vol.new) result }
{
    for tree in files {
        put_file_tree(alloc, found, kept, tree, sums, rack, vol)?;
    }
    Ok(())
}

// The names of subvolumes in the root tree.
fn read_subvolumes<R: Rack>(
    alloc: Global,
    rack: &mut R,
    vol: &mut Volume,
) -> Result<SubvolumeNames, Stop>
    requires ready { CanCheck (world (R.seen rack.old) vol.old) }
    ensures ran { Ran OfAllTrees
        (λ fs. Unless (λ met. met ≡ subvolumes_in (root_items fs) []) result)
        (world (R.seen rack.old) vol.old) (world (R.seen rack.new) vol.new) result }
{
    subvolumes_law();
    let tree = named_root(ROOT_TREE, root_root(&vol.sup));
    collect(Some(tree), SubvolumeNames::new(alloc), rack, vol)
}

/// Puts what is wrong with the trees of files among those that are listed: each is visited once, and once more where
/// something is wrong with its names; and the root tree for the names of subvolumes. The addresses that have checksums are `sums`.
///
/// `Tree`: a block could not be read, which is `Unread`. `Memory`: there is no memory for what is kept.
pub(crate) fn put_files<R: Rack>(
    alloc: Global,
    found: &mut Found,
    listed: &[TreeRoot],
    sums: &AddressRanges,
    rack: &mut R,
    vol: &mut Volume,
) -> Result<(), Stop>
    requires ready { CanCheck (world (R.seen rack.old) vol.old) }
    ensures ran { Ran (IfKnown (Lists listed.now) OfAllTrees)
        (AddsFindings (λ fs. Lists listed.now fs
        × AreSumRanges fs sums.now) found_on_files found.old found.new result)
        (world (R.seen rack.old) vol.old) (world (R.seen rack.new) vol.new) result }
{
    let files = match file_trees(alloc, listed) {
        Ok(files) => files,
        Err(Memory) => return Err(Stop::Memory),
    };
    let subvolumes = read_subvolumes(alloc, rack, vol)?;
    let mut kept = KeptTrees {
        subvolumes,
        sound: Vec::new(alloc),
    };
    put_file_trees(alloc, found, &mut kept, &files, sums, rack, vol)?;
    or_memory(put_subvolume_findings(alloc, found, &kept.subvolumes))
}
