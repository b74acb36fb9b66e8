// The inode whose items come.
ghost use Rattle.std.specs.Prelude.{◌≡◌, ◌+◌, ◌*◌, OnOk};
ghost use Rattle.btr_check_names.specs.Inodes.{begun_with, is_counted};

use crate::InodeAt;
use btr_base::Memory;

/// The inode whose items come, and what was counted of them.
#[derive(Clone, Copy)]
pub(crate) struct Current {
    pub(crate) at: InodeAt,
    /// How many references it has so far.
    pub(crate) links: u128,
    /// How long the names in it are so far, each counted twice.
    pub(crate) names: u128,
}

impl Current {
    /// Nothing is counted of the inode yet.
    pub(crate) fn new(at: InodeAt) -> Current
        ensures { result ≡ begun_with at }
    {
        Current {
            at,
            links: 0,
            names: 0,
        }
    }

    /// Whether the inode states what was counted.
    pub(crate) fn is_counted(&self) -> bool
        ensures { result ≡ is_counted self.now }
    {
        self.at.has_links(self.links) && (self.at.is_unlinked() || self.at.has_size(self.names))
    }
}

/// Adds to a sum. `Memory`: the sum would pass the greatest number there is.
pub(crate) fn add(sum: &mut u128, more: u128) -> Result<(), Memory>
    ensures { OnOk result (sum.new ≡ sum.old + more) }
{
    match sum.checked_add(more) {
        None => Err(Memory),
        Some(all) => {
            *sum = all;
            Ok(())
        }
    }
}
