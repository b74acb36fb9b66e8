// The type of a chunk, which is a set of bits.
ghost use Rattle.std.specs.Prelude.{⊤, ◌≡◌, [], ◌∷◌, codes};
ghost use Rattle.btr_chunk.specs.Kind.{profile_of_kind, profile_named};

use crate::Profile;
use bitflags::{Flag, Flags, bitflag_items};

#[derive(Clone, Copy, Debug, PartialEq, Eq)]
pub(crate) struct ChunkKind(u64);

bitflag_items! {
    impl ChunkKind: u64 {
        const DATA = 0x1;
        const SYSTEM = 0x2;
        const METADATA = 0x4;
        const RAID0 = 0x8;
        const RAID1 = 0x10;
        const DUP = 0x20;
        const RAID10 = 0x40;
        const RAID5 = 0x80;
        const RAID6 = 0x100;
        const RAID1C3 = 0x200;
        const RAID1C4 = 0x400;
    }
}

impl Flags for ChunkKind {
    type Bits = u64;

    ghost exact = { ⊤ };

    ghost table = { (codes "DATA", 0x1) ∷ (codes "SYSTEM", 0x2) ∷ (codes "METADATA", 0x4) ∷ (codes "RAID0", 0x8) ∷ (codes "RAID1", 0x10) ∷ (codes "DUP", 0x20) ∷ (codes "RAID10", 0x40) ∷ (codes "RAID5", 0x80) ∷ (codes "RAID6", 0x100) ∷ (codes "RAID1C3", 0x200) ∷ (codes "RAID1C4", 0x400) ∷ [] };

    ghost set_of = { λ kind. kind.0 };

    fn flags<'a>() -> &'a [Flag<ChunkKind>] {
        ChunkKind::FLAGS
    }

    fn bits(&self) -> u64 {
        self.0
    }

    fn from_bits_retain(bits: u64) -> ChunkKind {
        ChunkKind(bits)
    }
}

// What a chunk holds.
const USES: ChunkKind = ChunkKind(0x7);

// How it lies on its devices; none of these bits for `Single`.
const PROFILES: ChunkKind = ChunkKind(0x7F8);

// The profile of a type: `None` where it has no use, more than one profile, or an unknown bit.
pub(crate) fn profile_of(kind: u64) -> Option<Profile>
    ensures { result ≡ profile_of_kind kind }
{
    let kind = ChunkKind::from_bits(kind)?;
    if !kind.intersects(USES) {
        return None;
    }
    named(kind.intersection(PROFILES))
}

fn named(profile: ChunkKind) -> Option<Profile>
    ensures { result ≡ profile_named profile.0 }
{
    if profile.is_empty() {
        return Some(Profile::Single);
    }
    match profile {
        ChunkKind::RAID0 => Some(Profile::Raid0),
        ChunkKind::RAID1 => Some(Profile::Raid1),
        ChunkKind::DUP => Some(Profile::Dup),
        ChunkKind::RAID10 => Some(Profile::Raid10),
        ChunkKind::RAID5 => Some(Profile::Raid5),
        ChunkKind::RAID6 => Some(Profile::Raid6),
        ChunkKind::RAID1C3 => Some(Profile::Raid1c3),
        ChunkKind::RAID1C4 => Some(Profile::Raid1c4),
        _ => None,
    }
}
