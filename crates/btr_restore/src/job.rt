use btr_files::RestorePlan;
use btr_volume::TreeRoot;

/// What is restored, and where the checksums of its data stand.
#[derive(Clone, Copy)]
pub struct Job {
    /// The subvolume that is restored, and the options.
    pub plan: RestorePlan,
    /// The root of the checksum tree, where there is one.
    pub sums: Option<TreeRoot>,
}

/// A directory of a tree that is restored.
#[derive(Clone, Copy)]
pub struct DirJob<'a> {
    /// What is restored.
    pub job: &'a Job,
    /// The root of the tree that the directory is in.
    pub tree: TreeRoot,
    /// The directory's inode number.
    pub dirid: u64,
}
