// What of the names in a tree of files has not met its counterpart yet.
ghost use Rattle.std.specs.Prelude.{◌≡◌, ◌∷◌, ◌++◌, [], filter, OnOk};
ghost use Rattle.btr_check_names.specs.Differences.{DifferenceLaw};
ghost use Rattle.btr_check_names.specs.Entry.{entry_of, ref_of};
ghost use Rattle.btr_check_names.specs.Halves.{asked_half, hash_half, index_half, meets, ref_half, sided};
ghost use Rattle.btr_check_names.specs.Names as words;
ghost use Rattle.btr_check_names.specs.Pairs.{entry_claim};
ghost use Rattle.btr_check_names.specs.Settled.{SettledLaw};
ghost use Rattle.btr_check_names.specs.Subvolumes.{leads_to_root};
ghost use Rattle.btr_check_names.specs.Unpaired.{UnpairedLaw};

use crate::claim::Claim;
use crate::inode_run::InodeRun;
use crate::pairs::Pairs;
use crate::parts::{entry_in, ext_ref_in, ref_in};
use crate::put_entries::is_free;
use crate::sets::under_hash;
use crate::{DirEntry, EntryList, InodeAt, LinkName};
use btr_base::{Key, Memory};
use btr_items::{Entry, Inode, entries, ext_refs, inode_refs, item};
use btr_tour::{Met, Visitor};
use std::alloc::Global;

/// What of the names in a tree of files has not met its counterpart yet: each entry at an index is to meet one under its name's hash, and
/// a reference of the inode that it leads to, but for those of directories without links, which are to be orphans. It is a visitor of the tree
/// that keeps little where the names are sound: what has met is let go, of the inodes only the last one is kept, and the numbers of those
/// that wait for an orphan item, and of the entries those that lead to subvolumes.
#[derive(Drop)]
pub struct Unpaired {
    pub(crate) dirid: u64,
    pub(crate) is_turned: bool,
    pub(crate) inodes: InodeRun,
    pub(crate) entries: Pairs,
    pub(crate) links: Pairs,
    pub(crate) subvolumes: EntryList,
}

impl Unpaired {
    ghost use Rattle.std.specs.Prelude.{◌≡◌, ◌==◌, ◌||◌, ◌∷◌, [], fold, length, OnOk};
    ghost use Rattle.btr_items.specs.Entry.{entries_of};
    ghost use Rattle.btr_items.specs.ExtRef.{ext_refs_of};
    ghost use Rattle.btr_items.specs.InodeRef.{inode_refs_of};
    ghost use Rattle.btr_check_names.specs.Entry.{entry_of, ref_of};
    ghost use Rattle.btr_check_names.specs.Inodes.{is_gone};
    ghost use Rattle.btr_check_names.specs.Items.{entries_read, refs_read, ext_refs_read, inodes_in, indexed_in, hashed_in, refs_in, orphans_in};
    ghost use Rattle.btr_check_names.specs.Unpaired.{nothing_unpaired, unpaired_with, with_inode, with_indexed, with_hashed, with_ref, with_orphan};
    ghost use Rattle.btr_check_names.specs.Unpaired.{are_paired, are_whole, compared};

    /// No item of the tree came yet, whose first directory has the inode `dirid`.
    pub fn new(alloc: Global, dirid: u64) -> Unpaired
        ensures { result ≡ nothing_unpaired dirid }
    {
        Unpaired {
            dirid,
            is_turned: false,
            inodes: InodeRun::new(alloc),
            entries: Pairs::new(alloc),
            links: Pairs::new(alloc),
            subvolumes: EntryList::new(alloc),
        }
    }

    /// Takes what one more item says. `Memory`: there is no memory for it; then nothing is said of what was kept.
    pub fn take(&mut self, key: Key, body: &[u8]) -> Result<(), Memory>
        ensures { OnOk result (self.new ≡ unpaired_with self.old key body.now) }
    {
        self.take_inodes(key, body)?;
        self.take_indexed(key, body)?;
        self.take_hashed(key, body)?;
        self.take_refs(key, body)?;
        self.take_orphans(key);
        Ok(())
    }

    /// Whether the inodes state what was counted, and their entries have met their counterparts.
    pub fn are_whole(&self) -> bool
        ensures { result ≡ are_whole self.now }
    {
        self.inodes.are_settled() && self.entries.are_met()
    }

    /// Whether all names have met their counterparts. Then nothing is wrong with them, kinds 15 to 22.
    pub fn are_paired(&self) -> bool
        ensures { result ≡ are_paired self.now }
    {
        self.are_whole() && self.links.are_met()
    }

    /// Whether no entry led to a subvolume.
    pub fn names_no_subvolume(&self) -> bool
        ensures { result ≡ (length self.now.subvolumes == 0) }
    {
        self.subvolumes.is_empty()
    }

    /// The items that come now are those of a tree that this one is compared with: their links count on the other side.
    pub fn compared(self, alloc: Global) -> Unpaired
        ensures { result ≡ compared self }
    {
        Unpaired {
            dirid: self.dirid,
            is_turned: true,
            inodes: InodeRun::new(alloc),
            entries: Pairs::new(alloc),
            links: self.links,
            subvolumes: self.subvolumes,
        }
    }

    // Whether the entries of a directory needn't meet one another: it has no links, or another tree is compared.
    fn is_aside(&self, dir: u64) -> bool
        ensures { result ≡ (self.now.is_turned || is_gone dir self.now.inodes.last) }
    {
        self.is_turned || self.inodes.is_gone(dir)
    }

    // Takes an inode.
    fn put_inode(&mut self, at: InodeAt) -> Result<(), Memory>
        ensures { OnOk result (self.new ≡ with_inode self.old at) }
    {
        self.inodes.begin(at)
    }

    // Takes an entry at an index.
    fn put_indexed(&mut self, entry: &DirEntry<'_>) -> Result<(), Memory>
        ensures { OnOk result (self.new ≡ with_indexed self.old (entry_of entry.now)) }
    {
        let is_gone = self.inodes.is_gone(entry.dir);
        let is_aside = self.is_aside(entry.dir);
        self.inodes.name(entry.dir, entry.name)?;
        meet_index(&mut self.entries, is_aside, entry)?;
        ask_link(&mut self.links, self.is_turned, is_gone, entry)?;
        keep_root(&mut self.subvolumes, entry)
    }

    // Takes an entry under a hash.
    fn put_hashed(&mut self, entry: &DirEntry<'_>) -> Result<(), Memory>
        ensures { OnOk result (self.new ≡ with_hashed self.old (entry_of entry.now)) }
    {
        let is_aside = self.is_aside(entry.dir);
        self.inodes.hash(entry.dir);
        meet_hash(&mut self.entries, is_aside, entry)
    }

    // Takes a reference.
    fn put_ref(&mut self, link: &LinkName<'_>) -> Result<(), Memory>
        ensures { OnOk result (self.new ≡ with_ref self.old (ref_of link.now)) }
    {
        let format = self.inodes.format();
        self.inodes.link(link.inode)?;
        meet_link(&mut self.links, self.is_turned, self.dirid, format, link)
    }

    // Takes the inode of an item, if it is an INODE_ITEM.
    fn take_inodes(&mut self, key: Key, body: &[u8]) -> Result<(), Memory>
        ensures { OnOk result (self.new ≡ fold with_inode self.old (inodes_in key body.now)) }
    {
        if key.kind != item::INODE_ITEM {
            return Ok(());
        }
        match Inode::read(body) {
            Err(_) => Ok(()),
            Ok(inode) => self.put_inode(InodeAt {
                number: key.objectid,
                inode,
            }),
        }
    }

    // Takes the entry of an item, if it is a DIR_INDEX.
    fn take_indexed(&mut self, key: Key, body: &[u8]) -> Result<(), Memory>
        ensures { OnOk result (self.new ≡ fold with_indexed self.old (indexed_in key body.now)) }
    {
        if key.kind != item::DIR_INDEX {
            return Ok(());
        }
        match Entry::index(body) {
            Err(_) => Ok(()),
            Ok(entry) => self.put_indexed(&entry_in(key, body, &entry)),
        }
    }

    // Takes the entries of an item, if it is a DIR_ITEM.
    fn take_hashed(&mut self, key: Key, body: &[u8]) -> Result<(), Memory>
        ensures { OnOk result (self.new ≡ fold with_hashed self.old (hashed_in key body.now)) }
    {
        if key.kind != item::DIR_ITEM {
            return Ok(());
        }
        self.put_entries(key, body)
    }

    // Takes the entries in the body of a DIR_ITEM.
    fn put_entries(&mut self, key: Key, body: &[u8]) -> Result<(), Memory>
        ensures { OnOk result (self.new ≡ fold with_hashed self.old (entries_read key body.now (entries_of body.now))) }
    {
        for entry in entries(body) {
            match entry {
                Ok(entry) => self.put_hashed(&entry_in(key, body, &entry))?,
                Err(_) => {}
            }
        }
        Ok(())
    }

    // Takes the references in the body of an INODE_REF.
    fn put_inode_refs(&mut self, key: Key, body: &[u8]) -> Result<(), Memory>
        ensures { OnOk result (self.new ≡ fold with_ref self.old (refs_read key body.now (inode_refs_of body.now))) }
    {
        for part in inode_refs(body) {
            match part {
                Ok(part) => self.put_ref(&ref_in(key, body, &part))?,
                Err(_) => {}
            }
        }
        Ok(())
    }

    // Takes the references in the body of an INODE_EXTREF.
    fn put_ext_refs(&mut self, key: Key, body: &[u8]) -> Result<(), Memory>
        ensures { OnOk result (self.new ≡ fold with_ref self.old (ext_refs_read key body.now (ext_refs_of body.now))) }
    {
        for part in ext_refs(body) {
            match part {
                Ok(part) => self.put_ref(&ext_ref_in(key, body, &part))?,
                Err(_) => {}
            }
        }
        Ok(())
    }

    // Takes the references of an item, if it is an INODE_REF or an INODE_EXTREF.
    fn take_refs(&mut self, key: Key, body: &[u8]) -> Result<(), Memory>
        ensures { OnOk result (self.new ≡ fold with_ref self.old (refs_in key body.now)) }
    {
        match key.kind {
            item::INODE_REF => self.put_inode_refs(key, body),
            item::INODE_EXTREF => self.put_ext_refs(key, body),
            _ => Ok(()),
        }
    }

    // Takes the number of an orphan, if an item is an ORPHAN_ITEM.
    fn take_orphans(&mut self, key: Key)
        ensures { self.new ≡ fold with_orphan self.old (orphans_in key) }
    {
        if key.kind == item::ORPHAN_ITEM {
            self.inodes.release(key.offset);
        }
    }
}

// What an entry at an index says of the one under its name's hash.
fn claim_under_hash(entry: &DirEntry<'_>) -> Claim
    ensures { result ≡ entry_claim (words.under_hash (entry_of entry.now)) }
{
    Claim::of_entry(&under_hash(entry))
}

// An entry at an index meets the one under its name's hash, unless it is set aside.
fn meet_index(entries: &mut Pairs, is_aside: bool, entry: &DirEntry<'_>) -> Result<(), Memory>
    ensures { OnOk result (entries.new ≡ meets entries.old (index_half is_aside (entry_of entry.now))) }
{
    if is_aside {
        return Ok(());
    }
    entries.meet(claim_under_hash(entry), true, entry.name)
}

// An entry under a hash meets the one at an index, unless it is set aside.
fn meet_hash(entries: &mut Pairs, is_aside: bool, entry: &DirEntry<'_>) -> Result<(), Memory>
    ensures { OnOk result (entries.new ≡ meets entries.old (hash_half is_aside (entry_of entry.now))) }
{
    if is_aside {
        return Ok(());
    }
    entries.meet(Claim::of_entry(entry), false, entry.name)
}

// An entry asks for the reference of the inode that it leads to, if it leads to one and its directory has links.
fn ask_link(
    links: &mut Pairs,
    is_turned: bool,
    is_gone: bool,
    entry: &DirEntry<'_>,
) -> Result<(), Memory>
    ensures { OnOk result (links.new ≡ meets links.old (sided is_turned (asked_half is_gone (entry_of entry.now)))) }
{
    if is_gone || entry.target.kind != item::INODE_ITEM {
        return Ok(());
    }
    links.meet(Claim::of_link(entry), !is_turned, entry.name)
}

// Keeps an entry that leads to a subvolume.
fn keep_root(list: &mut EntryList, entry: &DirEntry<'_>) -> Result<(), Memory>
    ensures { OnOk result (list.new ≡ list.old ++ filter leads_to_root (entry_of entry.now ∷ [])) }
{
    if entry.target.kind != item::ROOT_ITEM {
        return Ok(());
    }
    list.push(entry)
}

// A reference of an inode whose mode has this kind of a file meets its entry, if it is to have one.
fn meet_link(
    links: &mut Pairs,
    is_turned: bool,
    dirid: u64,
    format: u32,
    link: &LinkName<'_>,
) -> Result<(), Memory>
    ensures { OnOk result (links.new ≡ meets links.old (sided is_turned (ref_half dirid format (ref_of link.now)))) }
{
    if is_free(dirid, link) {
        return Ok(());
    }
    links.meet(Claim::of_ref(link, format), is_turned, link.name)
}

impl Visitor<Memory> for Unpaired {
    ghost use Rattle.btr_check_names.specs.Unpaired.{unpaired_step};

    ghost step = { unpaired_step };

    fn meet(&mut self, met: &Met<'_>) -> Result<(), Memory> {
        match met {
            Met::Item(found) => self.take(found.key, found.body),
            Met::Block { .. } | Met::Child { .. } | Met::Fault(_) => Ok(()),
        }
    }
}

/// Where a visit of a tree leaves all names paired, nothing is wrong with them; and the entries that lead to subvolumes are kept. This
/// function is the law: its contract says it, and its body is empty.
pub fn unpaired_law()
    ensures { UnpairedLaw }
{}

/// Nothing is wrong with names that are settled, kinds 15 to 22. This function is the law: its contract says it,
/// and its body is empty.
pub fn settled_law()
    ensures { SettledLaw }
{}

/// A tree costs its differences: one that has most of its items from a tree whose names are settled is settled
/// too where a visit of its other items, and then one of those of that tree that it hasn't, leave all names
/// paired. This function is the law: its contract says it, and its body is empty.
pub fn difference_law()
    ensures { DifferenceLaw }
{}
