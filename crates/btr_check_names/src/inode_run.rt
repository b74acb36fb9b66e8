// The inodes of a tree, one after another.
ghost use Rattle.std.specs.Prelude.{◌≡◌, OnOk};
ghost use Rattle.btr_check_names.specs.Inodes.{no_inodes, begun, hashed, linked, named, released, may_follow, is_last, are_settled};
ghost use Rattle.btr_check_names.specs.Inodes as words;

use crate::InodeAt;
use crate::current::{Current, add};
use crate::mode_at::format_of;
use btr_base::Memory;
use std::alloc::Global;
use std::collections::BTreeSet;
use std::marker::Model;

/// The inodes of a tree, one after another, of which the last one is kept: whether each states what was counted of its own items, which follow it
/// at once, and which inodes without links no orphan item has named yet.
#[derive(Drop)]
pub(crate) struct InodeRun {
    last: Option<Current>,
    is_wrong: bool,
    unlinked: BTreeSet<u64>,
}

impl Model for InodeRun {
    ghost use Rattle.btr_check_names.specs.Inodes.{Inodes};

    ghost Value = { Inodes };

    ghost view = { λ run. record { last = run.last; is_wrong = run.is_wrong; unlinked = run.unlinked.keys } };
}

impl InodeRun {
    /// No inode came yet.
    pub(crate) fn new(alloc: Global) -> InodeRun
        ensures { result ≡ no_inodes }
    {
        InodeRun {
            last: None,
            is_wrong: false,
            unlinked: BTreeSet::new(alloc),
        }
    }

    /// The kind in the mode of the inode whose items come, or 0 before the first one.
    pub(crate) fn format(&self) -> u32
        ensures { result ≡ words.last_format self.now.last }
    {
        match &self.last {
            None => 0,
            Some(current) => format_of(&current.at.inode),
        }
    }

    /// Whether the inode whose items come is a directory of this number, without links.
    pub(crate) fn is_gone(&self, dir: u64) -> bool
        ensures { result ≡ words.is_gone dir self.now.last }
    {
        match &self.last {
            None => false,
            Some(current) => current.at.number == dir && current.at.is_unlinked(),
        }
    }

    /// The next inode begins. `Memory`: there is no memory for it; then nothing is said of the inodes.
    pub(crate) fn begin(&mut self, at: InodeAt) -> Result<(), Memory>
        ensures { OnOk result (self.new ≡ begun self.old at) }
    {
        if !may_follow(&self.last, at.number) {
            self.is_wrong = true;
        }
        self.last = Some(Current::new(at));
        keep_unlinked(&mut self.unlinked, &at)
    }

    /// The inode of a number has one more reference. `Memory`: they are too many; then nothing is said of the inodes.
    pub(crate) fn link(&mut self, number: u64) -> Result<(), Memory>
        ensures { OnOk result (self.new ≡ linked self.old number) }
    {
        if !is_last(&self.last, number) {
            self.is_wrong = true;
        }
        add_link(&mut self.last)
    }

    /// The directory of a number has one more name. `Memory`: they are too long; then nothing is said of the inodes.
    pub(crate) fn name(&mut self, number: u64, name: &[u8]) -> Result<(), Memory>
        ensures { OnOk result (self.new ≡ named self.old number name.now) }
    {
        if !is_last(&self.last, number) {
            self.is_wrong = true;
        }
        add_name(&mut self.last, name)
    }

    /// The directory of a number has one more name under its hash.
    pub(crate) fn hash(&mut self, number: u64)
        ensures { self.new ≡ hashed self.old number }
    {
        if !is_last(&self.last, number) {
            self.is_wrong = true;
        }
    }

    /// An orphan item names an inode.
    pub(crate) fn release(&mut self, number: u64)
        ensures { self.new ≡ released self.old number }
    {
        let _ = self.unlinked.remove(&number);
    }

    /// Whether each inode states what was counted, and all without links were named by orphan items.
    pub(crate) fn are_settled(&self) -> bool
        ensures { result ≡ are_settled self.now }
    {
        !self.is_wrong && self.unlinked.is_empty() && is_counted(&self.last)
    }
}

// Whether the inode of a number may come behind the last one.
fn may_follow(last: &Option<Current>, number: u64) -> bool
    ensures { result ≡ may_follow last.now number }
{
    match last {
        None => true,
        Some(current) => current.at.number < number && current.is_counted(),
    }
}

// Whether the last inode has a number.
fn is_last(last: &Option<Current>, number: u64) -> bool
    ensures { result ≡ is_last number last.now }
{
    match last {
        None => false,
        Some(current) => current.at.number == number,
    }
}

// Whether the last inode states what was counted.
fn is_counted(last: &Option<Current>) -> bool
    ensures { result ≡ words.last_counted last.now }
{
    match last {
        None => true,
        Some(current) => current.is_counted(),
    }
}

// Counts a reference of the last inode.
fn add_link(last: &mut Option<Current>) -> Result<(), Memory>
    ensures { OnOk result (last.new ≡ words.last_linked last.old) }
{
    match last {
        None => Ok(()),
        Some(current) => add(&mut current.links, 1),
    }
}

// Counts a name in the last inode.
fn add_name(last: &mut Option<Current>, name: &[u8]) -> Result<(), Memory>
    ensures { OnOk result (last.new ≡ words.last_named last.old name.now) }
{
    match last {
        None => Ok(()),
        Some(current) => add(&mut current.names, 2 * name.len() as u128),
    }
}

// Keeps an inode that has no links.
fn keep_unlinked(unlinked: &mut BTreeSet<u64>, at: &InodeAt) -> Result<(), Memory>
    ensures { OnOk result (unlinked.new.keys ≡ words.with_unlinked at.now unlinked.old.keys) }
{
    if at.inode.nlink != 0 {
        return Ok(());
    }
    match unlinked.insert(at.number) {
        Ok(_) => Ok(()),
        Err(_) => Err(Memory),
    }
}
