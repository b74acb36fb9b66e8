/// How much of a file was sent.
#[derive(Clone, Copy, Debug, PartialEq, Eq)]
pub(crate) struct SentPart {
    /// The position in bytes, up to which it was given.
    pub(crate) offset: u64,
    /// Some sector was read without a checksum.
    pub(crate) plain: bool,
}

/// A file of a path, and how much of it was sent.
#[derive(Clone, Copy)]
pub(crate) struct SentFile<'a> {
    pub(crate) path: &'a [u8],
    pub(crate) sent: SentPart,
}
