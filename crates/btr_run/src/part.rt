// What stands at the places of a sentence.

/// What stands at one place of a sentence.
#[derive(Clone, Copy)]
pub(crate) enum Part {
    /// This word.
    Word(&'static str),
    /// A number of 64 bits.
    Number,
    /// Options, each at most once and in any order, and after them the destination's name.
    Destination,
    /// The name of a file in the destination.
    File,
    /// The number of directories of a made volume, from 1 to 1000; it stands last, and no image is named.
    Volume,
}
