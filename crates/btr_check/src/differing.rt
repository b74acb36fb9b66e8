// Trees of files that differ little from sound ones.
ghost use Rattle.std.specs.Prelude.{◌≡◌, fold, true, IfSome, IsTrue, Ok};
ghost use Rattle.btr_check_differences.specs.Ranges.{are_apart};
ghost use Rattle.btr_check_names.specs.Unpaired.{compared, unpaired_step};
ghost use Rattle.btr_check.specs.Differing.{CanCompare, Differ, IsSoundBy, OfNone, AddUp, own_marks};
ghost use Rattle.btr_check.specs.Families.{AreSumRanges};
ghost use Rattle.btr_check.specs.FileTrees.{ArePairedHere, IsSoundAlone, file_step, nothing_met};
ghost use Rattle.btr_check.specs.Running.{world, CanCheck, Ran};

use crate::file_tree::FileTree;
use crate::file_trees::are_summed;
use crate::form::kind_of;
use crate::sound_tree::{RootedTree, SoundTree, share_one};
use btr_check_differences::{InodeRange, alike_law, find_differences, missing_law, visit_ranges};
use btr_check_names::{Unpaired, difference_law, settled_law};
use btr_check_space::AddressRanges;
use btr_check_sums::{SumPlaces, keeps_law};
use btr_rack::Rack;
use btr_volume::Volume;
use std::alloc::Global;

// Whether a tree can be compared with a sound one, with which it has a block in common.
fn can_compare(before: &SoundTree, after: &RootedTree) -> bool
    ensures { IsTrue result → CanCompare before.now after.now }
{
    before.is_plain
        && before.rooted.tree.place.level == after.tree.place.level
        && before.rooted.tree.dirid == after.tree.dirid
        && !before.rooted.children.is_empty()
        && !after.children.is_empty()
        && share_one(before.rooted.children.as_slice(), after.children.as_slice())
}

// The inodes by which a tree may differ from a sound one. `None`: it is to be visited whole.
fn find_ranges<R: Rack>(
    alloc: Global,
    before: &SoundTree,
    after: &RootedTree,
    rack: &mut R,
    vol: &mut Volume,
) -> Option<Vec<InodeRange>>
    requires ready { CanCheck (world (R.seen rack.old) vol.old) }
    ensures alike { IfSome result (λ ranges. CanCompare before.now after.now) }
    ensures apart { IfSome result (λ ranges. are_apart ranges.items ≡ true) }
    ensures ran { Ran OfNone
        (λ fs. IfSome result (λ ranges. Differ fs before.now.rooted after.now ranges.items))
        (world (R.seen rack.old) vol.old) (world (R.seen rack.new) vol.new) (Ok result) }
{
    if !can_compare(before, after) {
        return None;
    }
    match after.tree.place.level.checked_sub(1) {
        None => None,
        Some(level) => {
            let old = before.rooted.children.as_slice();
            let new = after.children.as_slice();
            find_differences(alloc, level, old, new, rack, &mut vol.store)
        }
    }
}

// What a tree has of the inodes in some ranges. `None`: it is to be visited whole.
fn meet_own<R: Rack>(
    alloc: Global,
    rooted: &RootedTree,
    ranges: &[InodeRange],
    rack: &mut R,
    vol: &mut Volume,
) -> Option<FileTree>
    requires ready { CanCheck (world (R.seen rack.old) vol.old) }
    ensures ran { Ran OfNone
        (λ fs. IfSome result (λ met. met
        ≡ fold file_step (nothing_met rooted.now.tree.dirid) (own_marks fs rooted.now ranges.now)))
        (world (R.seen rack.old) vol.old) (world (R.seen rack.new) vol.new) (Ok result) }
{
    let mut met = FileTree::new(alloc, &rooted.tree);
    let kind = kind_of(&vol.sup);
    match visit_ranges(
        &rooted.tree.place,
        ranges,
        kind,
        rack,
        &mut vol.store,
        &mut met,
    ) {
        None => None,
        Some(()) => Some(met),
    }
}

// What is left of some names where those that a tree has of the inodes in some ranges come to them. `None`: the tree is to be visited whole.
fn meet_others<R: Rack>(
    alloc: Global,
    names: Unpaired,
    rooted: &RootedTree,
    ranges: &[InodeRange],
    rack: &mut R,
    vol: &mut Volume,
) -> Option<Unpaired>
    requires ready { CanCheck (world (R.seen rack.old) vol.old) }
    ensures ran { Ran OfNone
        (λ fs. IfSome result (λ met. met ≡ fold unpaired_step (compared names) (own_marks fs rooted.now ranges.now)))
        (world (R.seen rack.old) vol.old) (world (R.seen rack.new) vol.new) (Ok result) }
{
    let mut met = names.compared(alloc);
    let kind = kind_of(&vol.sup);
    match visit_ranges(
        &rooted.tree.place,
        ranges,
        kind,
        rack,
        &mut vol.store,
        &mut met,
    ) {
        None => None,
        Some(()) => Some(met),
    }
}

// Whether nothing is wrong with what was met of a tree, but for names that wait for their counterparts.
fn is_sound_alone(alloc: Global, tree: u64, met: &FileTree, places: &SumPlaces<'_>) -> bool
    ensures { result ≡ true → IsSoundAlone tree met.now places.now.chunks.now places.now.sums.now }
{
    if !met.is_plain || !met.names.are_whole() {
        return false;
    }
    match are_summed(alloc, tree, &met.uses, places) {
        Ok(summed) => summed,
        Err(_) => false,
    }
}

// Whether no names wait, and none of them leads to a subvolume.
fn are_paired_here(names: &Unpaired) -> bool
    ensures { result ≡ true → ArePairedHere names.now }
{
    names.are_paired() && names.names_no_subvolume()
}

// Whether what a tree has of the inodes in some ranges, and what another one has of them, add up: then it is sound where the other one is.
fn add_up<R: Rack>(
    alloc: Global,
    before: &RootedTree,
    after: &RootedTree,
    ranges: &[InodeRange],
    sums: &AddressRanges,
    rack: &mut R,
    vol: &mut Volume,
) -> bool
    requires ready { CanCheck (world (R.seen rack.old) vol.old) }
    ensures ran { Ran OfNone
        (λ fs. result ≡ true → AddUp fs sums.now before.now after.now ranges.now)
        (world (R.seen rack.old) vol.old) (world (R.seen rack.new) vol.new) (Ok result) }
{
    keeps_law();
    let own = match meet_own(alloc, after, ranges, rack, vol) {
        None => return false,
        Some(own) => own,
    };
    let chunks = vol.store.chunks();
    if !is_sound_alone(alloc, after.tree.id, &own, &SumPlaces { chunks, sums }) {
        return false;
    }
    match meet_others(alloc, own.names, before, ranges, rack, vol) {
        None => false,
        Some(names) => are_paired_here(&names),
    }
}

/// Whether a tree is sound by a sound one: they differ by a few inodes, and nothing is wrong with these. Where the answer is no it is to be
/// visited whole. Four slots are free, and no loan is kept.
pub(crate) fn is_sound_by<R: Rack>(
    alloc: Global,
    before: &SoundTree,
    after: &RootedTree,
    sums: &AddressRanges,
    rack: &mut R,
    vol: &mut Volume,
) -> bool
    requires ready { CanCheck (world (R.seen rack.old) vol.old) }
    ensures ran { Ran OfNone
        (λ fs. AreSumRanges fs sums.now → result ≡ true → IsSoundBy fs before.now after.now)
        (world (R.seen rack.old) vol.old) (world (R.seen rack.new) vol.new) (Ok result) }
{
    alike_law();
    difference_law();
    missing_law();
    settled_law();
    match find_ranges(alloc, before, after, rack, vol) {
        None => false,
        Some(ranges) => {
            let old = &before.rooted;
            add_up(alloc, old, after, ranges.as_slice(), sums, rack, vol)
        }
    }
}
