use btr_base::Sum;

/// What one look-up tells of the checksums of sectors that follow each other.
#[derive(Clone, Copy, Debug, PartialEq, Eq)]
pub enum Summed {
    /// The first one has this checksum.
    Sum(Sum),
    /// So many from the first one on have none.
    Gap(u64),
}
