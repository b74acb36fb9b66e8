use btr_chunk::Part;

/// One way to get the bytes at a position of a chunk.
#[derive(Clone, Copy, Debug, PartialEq, Eq)]
pub enum Candidate {
    /// As they stand in a part.
    Read(Part),
    /// The slice that P and all other slices leave.
    ByP,
    /// The slice that Q and all other slices leave.
    ByQ,
    /// The slice that P, Q and all other slices but this one leave.
    ByBoth(u32),
}

impl Candidate {
    ghost use Rattle.std.specs.Prelude.{◌≡◌};
    ghost use Rattle.btr_read.specs.Candidates.{reads_slice};

    // Whether it reads a slice, where slice `index` is sought by parities.
    pub(crate) fn reads_slice(self, index: u32, slice: u32) -> bool
        ensures { result ≡ reads_slice index self slice }
    {
        match self {
            Candidate::Read(_) => false,
            Candidate::ByP => slice != index,
            Candidate::ByQ => slice != index,
            Candidate::ByBoth(other) => slice != index && slice != other,
        }
    }
}
