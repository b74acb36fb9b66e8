// Entries of directories, whose names lie in one buffer.
ghost use Rattle.std.specs.Prelude.{◌≡◌, ◌∷◌, ◌++◌, [], OnOk};
ghost use Rattle.btr_check_names.specs.Entry.{entry_of};
ghost use Rattle.btr_check_names.specs.Shown.{HasEntryNames, AddsEntry};

use crate::name_place::{NamePlace, push_name};
use crate::{DirEntry, Target};
use btr_base::Memory;
use std::alloc::Global;
use std::marker::Model;

// An entry without its name.
#[derive(Clone, Copy)]
pub(crate) struct EntryRow {
    pub(crate) dir: u64,
    pub(crate) offset: u64,
    pub(crate) target: Target,
    pub(crate) kind: u8,
    pub(crate) name: NamePlace,
}

/// Entries of directories, whose names lie in one buffer. Contracts see it as their list.
#[derive(Drop)]
pub(crate) struct EntryList {
    rows: Vec<EntryRow>,
    names: Vec<u8>,
}

impl Model for EntryList {
    ghost use Rattle.std.specs.Prelude.{List};
    ghost use Rattle.btr_check_names.specs.Entry.{Entry};

    ghost Value = { List Entry };

    ghost use Rattle.btr_check_names.specs.Shown.{row_entries, HasEntryNames};

    ghost view = { λ list. row_entries list.names.items list.rows.items };

    ghost invariant = { λ list. HasEntryNames list.names.items list.rows.items };
}

/// The entries of a list that are left, which contracts see as their list.
#[derive(Drop)]
pub(crate) struct EntryIter<'a> {
    rows: &'a [EntryRow],
    names: &'a [u8],
}

impl<'a> Model for EntryIter<'a> {
    ghost use Rattle.std.specs.Prelude.{List};
    ghost use Rattle.btr_check_names.specs.Entry.{Entry};

    ghost Value = { List Entry };

    ghost use Rattle.btr_check_names.specs.Shown.{row_entries, HasEntryNames};

    ghost view = { λ left. row_entries left.names.now left.rows.now };

    ghost invariant = { λ left. HasEntryNames left.names.now left.rows.now };
}

impl EntryList {
    ghost use Rattle.std.specs.Prelude.{◌≡◌, ◌==◌, ◌∷◌, ◌++◌, [], length, OnOk};
    ghost use Rattle.btr_check_names.specs.Entry.{entry_of};

    /// No entries yet.
    pub(crate) fn new(alloc: Global) -> EntryList
        ensures { result ≡ [] }
    {
        EntryList {
            rows: Vec::new(alloc),
            names: Vec::new(alloc),
        }
    }

    /// Puts an entry behind the others. `Memory`: there is no memory for it; then nothing is said of the list.
    pub(crate) fn push(&mut self, entry: &DirEntry<'_>) -> Result<(), Memory>
        ensures { OnOk result (self.new ≡ self.old ++ entry_of entry.now ∷ []) }
    {
        push_row(&mut self.rows, &mut self.names, entry)
    }

    /// Whether there are none.
    pub(crate) fn is_empty(&self) -> bool
        ensures { result ≡ (length self.now == 0) }
    {
        self.rows.is_empty()
    }

    /// The entries, in the order in which they were put.
    pub(crate) fn iter(&self) -> EntryIter<'_>
        ensures { result ≡ self.now }
    {
        EntryIter {
            rows: self.rows.as_slice(),
            names: self.names.as_slice(),
        }
    }
}

// Puts an entry behind the others.
fn push_row(
    rows: &mut Vec<EntryRow>,
    names: &mut Vec<u8>,
    entry: &DirEntry<'_>,
) -> Result<(), Memory>
    requires { HasEntryNames names.old.items rows.old.items }
    ensures names { HasEntryNames names.new.items rows.new.items }
    ensures ok { OnOk result (AddsEntry names.old rows.old names.new rows.new (entry_of entry.now)) }
{
    let row = EntryRow {
        dir: entry.dir,
        offset: entry.offset,
        target: entry.target,
        kind: entry.kind,
        name: push_name(names, entry.name)?,
    };
    match rows.push(row) {
        Ok(()) => Ok(()),
        Err(_) => Err(Memory),
    }
}

impl<'a> Iterator for EntryIter<'a> {
    ghost use Rattle.std.specs.Iterator.{YieldsFirstBy, item_count};
    ghost use Rattle.btr_check_names.specs.Entry.{entry_of};

    type Item = DirEntry<'a>;

    ghost next_gives = { YieldsFirstBy entry_of (λ left. left) };

    ghost remaining = { item_count (λ left. left) };

    fn next(&mut self) -> Option<DirEntry<'a>> {
        let (row, rows) = self.rows.split_first()?;
        self.rows = rows;
        Some(DirEntry {
            dir: row.dir,
            offset: row.offset,
            target: row.target,
            kind: row.kind,
            name: row.name.name(self.names),
        })
    }
}
