// Names of inodes, in one buffer.
ghost use Rattle.std.specs.Prelude.{◌≡◌, ◌∷◌, ◌++◌, [], OnOk};
ghost use Rattle.btr_check_names.specs.Entry.{ref_of};
ghost use Rattle.btr_check_names.specs.Shown.{HasRefNames, AddsRef};

use crate::LinkName;
use crate::name_place::{NamePlace, push_name};
use btr_base::Memory;
use std::alloc::Global;
use std::marker::Model;

// A reference without its name.
#[derive(Clone, Copy)]
pub(crate) struct LinkRow {
    pub(crate) inode: u64,
    pub(crate) parent: u64,
    pub(crate) index: u64,
    pub(crate) name: NamePlace,
}

/// Names of inodes, in one buffer. Contracts see it as their list.
#[derive(Drop)]
pub(crate) struct LinkList {
    rows: Vec<LinkRow>,
    names: Vec<u8>,
}

impl Model for LinkList {
    ghost use Rattle.std.specs.Prelude.{List};
    ghost use Rattle.btr_check_names.specs.Entry.{NameRef};

    ghost Value = { List NameRef };

    ghost use Rattle.btr_check_names.specs.Shown.{row_refs, HasRefNames};

    ghost view = { λ list. row_refs list.names.items list.rows.items };

    ghost invariant = { λ list. HasRefNames list.names.items list.rows.items };
}

/// The references of a list that are left, which contracts see as their list.
#[derive(Drop)]
pub(crate) struct LinkIter<'a> {
    rows: &'a [LinkRow],
    names: &'a [u8],
}

impl<'a> Model for LinkIter<'a> {
    ghost use Rattle.std.specs.Prelude.{List};
    ghost use Rattle.btr_check_names.specs.Entry.{NameRef};

    ghost Value = { List NameRef };

    ghost use Rattle.btr_check_names.specs.Shown.{row_refs, HasRefNames};

    ghost view = { λ left. row_refs left.names.now left.rows.now };

    ghost invariant = { λ left. HasRefNames left.names.now left.rows.now };
}

impl LinkList {
    ghost use Rattle.std.specs.Prelude.{◌≡◌, ◌∷◌, ◌++◌, [], OnOk};
    ghost use Rattle.btr_check_names.specs.Entry.{ref_of};

    /// No references yet.
    pub(crate) fn new(alloc: Global) -> LinkList
        ensures { result ≡ [] }
    {
        LinkList {
            rows: Vec::new(alloc),
            names: Vec::new(alloc),
        }
    }

    /// Puts a reference behind the others. `Memory`: there is no memory for it; then nothing is said of the list.
    pub(crate) fn push(&mut self, link: &LinkName<'_>) -> Result<(), Memory>
        ensures { OnOk result (self.new ≡ self.old ++ ref_of link.now ∷ []) }
    {
        push_row(&mut self.rows, &mut self.names, link)
    }

    /// The references, in the order in which they were put.
    pub(crate) fn iter(&self) -> LinkIter<'_>
        ensures { result ≡ self.now }
    {
        LinkIter {
            rows: self.rows.as_slice(),
            names: self.names.as_slice(),
        }
    }
}

// Puts a reference behind the others.
fn push_row(rows: &mut Vec<LinkRow>, names: &mut Vec<u8>, link: &LinkName<'_>) -> Result<(), Memory>
    requires { HasRefNames names.old.items rows.old.items }
    ensures names { HasRefNames names.new.items rows.new.items }
    ensures ok { OnOk result (AddsRef names.old rows.old names.new rows.new (ref_of link.now)) }
{
    let row = LinkRow {
        inode: link.inode,
        parent: link.parent,
        index: link.index,
        name: push_name(names, link.name)?,
    };
    match rows.push(row) {
        Ok(()) => Ok(()),
        Err(_) => Err(Memory),
    }
}

impl<'a> Iterator for LinkIter<'a> {
    ghost use Rattle.std.specs.Iterator.{YieldsFirstBy, item_count};
    ghost use Rattle.btr_check_names.specs.Entry.{ref_of};

    type Item = LinkName<'a>;

    ghost next_gives = { YieldsFirstBy ref_of (λ left. left) };

    ghost remaining = { item_count (λ left. left) };

    fn next(&mut self) -> Option<LinkName<'a>> {
        let (row, rows) = self.rows.split_first()?;
        self.rows = rows;
        Some(LinkName {
            inode: row.inode,
            parent: row.parent,
            index: row.index,
            name: row.name.name(self.names),
        })
    }
}
