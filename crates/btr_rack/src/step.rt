/// What was done in a folder that is a sink.
#[derive(Clone, Copy, Debug, PartialEq, Eq)]
pub(crate) enum Step {
    /// The destination was entered.
    Started,
    /// A folder was entered.
    Entered,
    /// A folder was left.
    Left,
    /// An empty file was made.
    Begun,
    /// A file was closed.
    Closed,
}
