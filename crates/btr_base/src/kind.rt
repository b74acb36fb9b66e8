/// The kinds of checksum that are read.
#[derive(Clone, Copy, Debug, PartialEq, Eq)]
pub enum SumKind {
    Crc32c,
    Sha256,
    Xxh64,
}

impl SumKind {
    ghost use Rattle.std.specs.Prelude.{◌≡◌};
    ghost use Rattle.btr_base.specs.Sum.{kind_of_type, sum_size};

    /// The kind that a superblock's checksum type names, or `None` for a type that isn't read.
    pub fn from_type(n: u16) -> Option<SumKind>
        ensures { result ≡ kind_of_type n }
    {
        match n {
            0 => Some(SumKind::Crc32c),
            1 => Some(SumKind::Xxh64),
            2 => Some(SumKind::Sha256),
            _ => None,
        }
    }

    /// How many bytes a checksum of this kind has.
    pub fn size(self) -> usize
        ensures { result ≡ sum_size self }
    {
        match self {
            SumKind::Crc32c => 4,
            SumKind::Sha256 => 32,
            SumKind::Xxh64 => 8,
        }
    }
}
