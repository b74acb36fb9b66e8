use btr_walk::TreeFault;

/// Why a command over an opened filesystem ends before its end.
#[derive(Clone, Copy, Debug, PartialEq, Eq)]
pub enum Stop {
    /// There is no tree of this id.
    NoTree(u64),
    /// A tree can't be read on.
    Tree(TreeFault),
    /// The deletion of the tree of this id has begun.
    Deletion(u64),
    /// A balance has begun.
    Balance,
    /// The device of this id isn't given, or its image is too short.
    Missing(u64),
    /// A call on the image in this slot failed.
    Image(usize),
    /// The destination failed.
    Sink,
    /// The output failed.
    Out,
    /// There is no memory.
    Memory,
}
