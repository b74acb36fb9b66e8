// Names that are met, and the one that is wanted.
ghost use Rattle.std.specs.Prelude.{◌≡◌};
ghost use Rattle.btr_files.specs.Names.{link, same_link};
ghost use Rattle.btr_files.specs.Steps.{is_one, link_in, met_more};

use crate::NameBuf;

/// A name that is wanted: the inode of its directory, its index there, and its bytes.
#[derive(Clone, Copy, Debug)]
pub(crate) struct Wanted {
    pub(crate) parent: u64,
    pub(crate) index: u64,
    pub(crate) name: NameBuf,
}

impl Wanted {
    // Whether this name is the one.
    pub(crate) fn is(&self, parent: u64, index: u64, name: &[u8]) -> bool
        ensures { result ≡ same_link (link parent index name.now) (link_in self.now) }
    {
        parent == self.parent && index == self.index && name == self.name.as_bytes()
    }
}

/// How many names were met, and whether the one is the wanted one.
#[derive(Clone, Copy, Debug, PartialEq, Eq)]
pub(crate) enum Met {
    None,
    One(bool),
    Several,
}

impl Met {
    // With one name more.
    pub(crate) fn with(self, is_wanted: bool) -> Met
        ensures { result ≡ met_more self is_wanted }
    {
        match self {
            Met::None => Met::One(is_wanted),
            Met::One(_) => Met::Several,
            Met::Several => Met::Several,
        }
    }

    // Whether one name was met, and it is the wanted one.
    pub(crate) fn is_one(self) -> bool
        ensures { result ≡ is_one self }
    {
        match self {
            Met::None => false,
            Met::One(is_wanted) => is_wanted,
            Met::Several => false,
        }
    }
}
