use btr_volume::Volume;

/// What a listing reads from, and where it goes.
#[derive(Drop)]
pub struct Endpoints<'read, 'written, R, T, O> {
    /// The images.
    pub rack: &'read mut R,
    /// The filesystem on them.
    pub vol: &'read mut Volume,
    /// Where directories and files are made.
    pub tree: &'written mut T,
    /// Where lines are told.
    pub out: &'written mut O,
}
