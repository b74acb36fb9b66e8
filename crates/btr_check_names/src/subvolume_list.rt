// Names of subvolumes, in one buffer.
ghost use Rattle.std.specs.Prelude.{◌≡◌, ◌∷◌, ◌++◌, [], OnOk};
ghost use Rattle.btr_check_names.specs.Subvolume.{name_of};
ghost use Rattle.btr_check_names.specs.ShownNames.{HasSubvolumeNames, AddsName};

use crate::SubvolumeName;
use crate::name_place::{NamePlace, push_name};
use btr_base::Memory;
use std::alloc::Global;
use std::marker::Model;

// What a name leads from and to.
#[derive(Clone, Copy)]
pub(crate) struct SubvolumeRow {
    pub(crate) parent: u64,
    pub(crate) dirid: u64,
    pub(crate) index: u64,
    pub(crate) child: u64,
    pub(crate) name: NamePlace,
}

/// Names of subvolumes, in one buffer. Contracts see it as their list.
#[derive(Drop)]
pub(crate) struct SubvolumeList {
    rows: Vec<SubvolumeRow>,
    names: Vec<u8>,
}

impl Model for SubvolumeList {
    ghost use Rattle.std.specs.Prelude.{List};
    ghost use Rattle.btr_check_names.specs.Subvolume.{NamedSubvolume};

    ghost Value = { List NamedSubvolume };

    ghost use Rattle.btr_check_names.specs.ShownNames.{row_names, HasSubvolumeNames};

    ghost view = { λ list. row_names list.names.items list.rows.items };

    ghost invariant = { λ list. HasSubvolumeNames list.names.items list.rows.items };
}

/// The names of a list that are left, which contracts see as their list.
#[derive(Drop)]
pub(crate) struct SubvolumeIter<'a> {
    rows: &'a [SubvolumeRow],
    names: &'a [u8],
}

impl<'a> Model for SubvolumeIter<'a> {
    ghost use Rattle.std.specs.Prelude.{List};
    ghost use Rattle.btr_check_names.specs.Subvolume.{NamedSubvolume};

    ghost Value = { List NamedSubvolume };

    ghost use Rattle.btr_check_names.specs.ShownNames.{row_names, HasSubvolumeNames};

    ghost view = { λ left. row_names left.names.now left.rows.now };

    ghost invariant = { λ left. HasSubvolumeNames left.names.now left.rows.now };
}

impl SubvolumeList {
    ghost use Rattle.std.specs.Prelude.{◌≡◌, ◌∷◌, ◌++◌, [], OnOk};
    ghost use Rattle.btr_check_names.specs.Subvolume.{name_of};

    /// No names yet.
    pub(crate) fn new(alloc: Global) -> SubvolumeList
        ensures { result ≡ [] }
    {
        SubvolumeList {
            rows: Vec::new(alloc),
            names: Vec::new(alloc),
        }
    }

    /// Puts a name behind the others. `Memory`: there is no memory for it; then nothing is said of the list.
    pub(crate) fn push(&mut self, name: &SubvolumeName<'_>) -> Result<(), Memory>
        ensures { OnOk result (self.new ≡ self.old ++ name_of name.now ∷ []) }
    {
        push_row(&mut self.rows, &mut self.names, name)
    }

    /// The names, in the order in which they were put.
    pub(crate) fn iter(&self) -> SubvolumeIter<'_>
        ensures { result ≡ self.now }
    {
        SubvolumeIter {
            rows: self.rows.as_slice(),
            names: self.names.as_slice(),
        }
    }
}

// Puts a name behind the others.
fn push_row(
    rows: &mut Vec<SubvolumeRow>,
    names: &mut Vec<u8>,
    name: &SubvolumeName<'_>,
) -> Result<(), Memory>
    requires { HasSubvolumeNames names.old.items rows.old.items }
    ensures names { HasSubvolumeNames names.new.items rows.new.items }
    ensures ok { OnOk result (AddsName names.old rows.old names.new rows.new (name_of name.now)) }
{
    let row = SubvolumeRow {
        parent: name.parent,
        dirid: name.dirid,
        index: name.index,
        child: name.child,
        name: push_name(names, name.name)?,
    };
    match rows.push(row) {
        Ok(()) => Ok(()),
        Err(_) => Err(Memory),
    }
}

impl<'a> Iterator for SubvolumeIter<'a> {
    ghost use Rattle.std.specs.Iterator.{YieldsFirstBy, item_count};
    ghost use Rattle.btr_check_names.specs.Subvolume.{name_of};

    type Item = SubvolumeName<'a>;

    ghost next_gives = { YieldsFirstBy name_of (λ left. left) };

    ghost remaining = { item_count (λ left. left) };

    fn next(&mut self) -> Option<SubvolumeName<'a>> {
        let (row, rows) = self.rows.split_first()?;
        self.rows = rows;
        Some(SubvolumeName {
            parent: row.parent,
            dirid: row.dirid,
            index: row.index,
            child: row.child,
            name: row.name.name(self.names),
        })
    }
}
