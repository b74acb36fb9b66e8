use btr_volume::TreeRoot;

/// What an entry came to.
#[derive(Clone, Copy, Debug, PartialEq, Eq)]
pub enum Treated {
    /// It was treated wholly.
    Over,
    /// A directory of a tree was entered, which is to be listed.
    Within { tree: TreeRoot, dirid: u64 },
}
