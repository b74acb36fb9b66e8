/// What a listing leaves out beside what can't be had.
#[derive(Clone, Copy, Debug, PartialEq, Eq)]
pub struct Rules {
    /// Snapshots are entered.
    pub snapshots: bool,
    /// Subvolumes are entered.
    pub subvolumes: bool,
    /// The most bytes that a path may have, its first `/` included.
    pub longest: Option<usize>,
}
