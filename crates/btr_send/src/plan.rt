/// What is sent.
#[derive(Clone, Copy, Debug, PartialEq, Eq)]
pub struct SendPlan {
    /// The id of the subvolume.
    pub root: u64,
}

/// Where the stream goes.
#[derive(Clone, Copy)]
pub struct StreamFile<'a> {
    /// The destination.
    pub dest: &'a str,
    /// The name of the file in it.
    pub name: &'a str,
}
