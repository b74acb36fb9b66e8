use btr_check_space::AddressRanges;
use btr_chunk::ChunkTable;

/// Where sectors may lie that are to have a checksum, and where there are checksums.
#[derive(Drop)]
pub struct SumPlaces<'a> {
    /// The chunks of the filesystem.
    pub chunks: &'a ChunkTable,
    /// The addresses that have checksums.
    pub sums: &'a AddressRanges,
}
