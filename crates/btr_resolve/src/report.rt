ghost use Rattle.std.specs.Prelude.{◌≡◌, []};

use crate::path::Path;
use btr_files::NameList;
use std::alloc::Global;

/// How many lines were put, and the memory that is used for each owner again: its names, those of a directory above it, and a path.
#[derive(Drop)]
pub(crate) struct Report {
    pub(crate) count: u64,
    pub(crate) names: NameList,
    pub(crate) above: NameList,
    pub(crate) path: Path,
}

impl Report {
    /// Nothing was put yet.
    pub(crate) fn new(alloc: Global) -> Report
        ensures { result.count ≡ 0 }
    {
        Report {
            count: 0,
            names: NameList::new(alloc),
            above: NameList::new(alloc),
            path: Path::new(alloc),
        }
    }
}
