ghost use Rattle.btr_check.specs.FileTrees.{mark_plain};
ghost use Rattle.btr_tour.specs.Tour.{Mark};
ghost use Rattle.btr_tour.specs.Visits.{ShowsMark};
ghost use Rattle.std.specs.Prelude.{◌≡◌};

use btr_base::Memory;
use btr_check_names::Unpaired;
use btr_check_sums::Uses;
use btr_items::item;
use btr_tour::{Met, Visitor};
use btr_volume::TreeRoot;
use std::alloc::Global;

/// What a visit of a tree of files meets: what of its names has not met its counterpart yet, the sectors that its files use, and whether none
/// of its items is an orphan's.
#[derive(Drop)]
pub(crate) struct FileTree {
    pub(crate) names: Unpaired,
    pub(crate) uses: Uses,
    pub(crate) is_plain: bool,
}

impl FileTree {
    ghost use Rattle.std.specs.Prelude.{◌≡◌};
    ghost use Rattle.btr_check.specs.FileTrees.{nothing_met};

    /// Nothing of the tree is met yet.
    pub(crate) fn new(alloc: Global, tree: &TreeRoot) -> FileTree
        ensures { result ≡ nothing_met tree.now.dirid }
    {
        FileTree {
            names: Unpaired::new(alloc, tree.dirid),
            uses: Uses::new(alloc),
            is_plain: true,
        }
    }
}

// Whether what was met is no orphan item.
fn is_plain(met: &Met<'_>) -> bool
    ensures { (mark : Mark) → ShowsMark met.now mark → result ≡ mark_plain mark }
{
    match met {
        Met::Item(found) => found.key.kind != item::ORPHAN_ITEM,
        Met::Block { .. } | Met::Child { .. } | Met::Fault(_) => true,
    }
}

impl Visitor<Memory> for FileTree {
    ghost use Rattle.btr_check.specs.FileTrees.{file_step};

    ghost step = { file_step };

    fn meet(&mut self, met: &Met<'_>) -> Result<(), Memory> {
        self.is_plain = self.is_plain && is_plain(met);
        self.names.meet(met)?;
        self.uses.meet(met)
    }
}
