// Superblocks by which nothing is opened: an edit has the fault of the one behind it too, so the first decides.
use super::volume::edited;
use btr_super::Super;
use btr_volume::OpenFault;
use btr_walk::TreeFault;
use std::process::Abort;
use std::test::Fail;

/// What is changed in a superblock.
#[derive(Clone, Copy, Debug)]
pub(super) enum Edit {
    Kind,
    Feature,
    Sector,
    Node,
    RootLevel,
    ChunkRootLevel,
    LongArray,
    LogRoot,
    ShortArray,
    ManyStripes,
    OtherChunk,
    UnmappedRoot,
    LostRoot,
}

impl Edit {
    /// Changes a superblock.
    pub(super) fn apply(self, s: &mut Super) {
        match self {
            Edit::Kind => {
                s.csum_type = 3;
                s.incompat = 0x1361;
            }
            Edit::Feature => {
                s.incompat = 0x1361;
                s.sectorsize = 8192;
            }
            Edit::Sector => {
                s.sectorsize = 8192;
                s.log_root = 2097152;
            }
            Edit::Node => s.nodesize = 12288,
            Edit::RootLevel => s.root_level = 8,
            Edit::ChunkRootLevel => s.chunk_root_level = 8,
            Edit::LongArray => s.sys_chunk_array_size = 2049,
            Edit::LogRoot => {
                s.log_root = 2097152;
                s.sys_chunk_array_size = 1;
            }
            Edit::ShortArray => {
                s.sys_chunk_array_size = 1;
                s.chunk_root = 16777216;
            }
            // The number of the stripes of the array's chunk.
            Edit::ManyStripes => s.array[61] = 61,
            // The length of the array's chunk isn't that of the tree's.
            Edit::OtherChunk => s.array[18] = 0x20,
            Edit::UnmappedRoot => s.chunk_root = 16777216,
            Edit::LostRoot => s.chunk_root_generation = 6,
        }
    }
}

#[test]
fn first_refusals(rt: HostRuntime) -> Result<(), Fail> {
    for (edit, refusal) in [
        (Edit::Kind, OpenFault::SumKind(3)),
        (Edit::Feature, OpenFault::Unsupported(0x1000)),
        (Edit::Sector, OpenFault::Geometry),
        (Edit::Node, OpenFault::Geometry),
        (Edit::RootLevel, OpenFault::Geometry),
        (Edit::ChunkRootLevel, OpenFault::Geometry),
        (Edit::LongArray, OpenFault::Geometry),
        (Edit::LogRoot, OpenFault::LogPending),
        (Edit::ShortArray, OpenFault::BadArray),
        (Edit::ManyStripes, OpenFault::BadArray),
        (Edit::OtherChunk, OpenFault::BadChunk(1048576)),
        (
            Edit::UnmappedRoot,
            OpenFault::Tree(TreeFault::Unmapped(16777216)),
        ),
        (Edit::LostRoot, OpenFault::Tree(TreeFault::Lost(1048576))),
    ] {
        assert_eq!(rt; edited(rt.alloc(), edit)?, Some(refusal));
    }
    Ok(())
}
