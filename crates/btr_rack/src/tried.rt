/// How a call of the system that reads or stores bytes went.
#[derive(Clone, Copy, Debug, PartialEq, Eq)]
pub(crate) enum Tried {
    /// So many bytes were read or stored, at least one.
    Done(usize),
    /// The system interrupted it: it may be made again.
    Interrupted,
    /// It failed, or no byte was read or stored.
    Refused,
}
