// The images and chunks of the row volumes.
ghost use Rattle.std.specs.Prelude.{◌≡◌};

use super::RowVolume;
use crate::plan::{
    ChunkPlan, DATA, DUP, METADATA, NODE, Plan, RAID1, RAID1C3, RAID5, RAID6, SYSTEM,
};
use btr_base::SumKind;

/// What a row volume is made of, but for its files.
pub(super) fn plan_of(which: RowVolume) -> Plan
    ensures { result.image_len ≡ 16777216 }
{
    match which {
        RowVolume::V1d => DUPLICATED,
        RowVolume::V2 => MODERN,
        RowVolume::Raid5 => RAID5_DATA,
        RowVolume::Raid6 => RAID6_DATA,
        RowVolume::M1 => MIRRORED,
        RowVolume::M3 => THREE_COPIES,
        RowVolume::Rows5 => RAID5_ROWS,
        RowVolume::Rows6 => RAID6_ROWS,
        RowVolume::Differing | RowVolume::DifferingNames => BRANCHED,
        _ => PLAIN,
    }
}

const PLAIN_SYSTEM: ChunkPlan = ChunkPlan {
    start: 1048576,
    length: 1048576,
    kind: SYSTEM,
    stripes: &[(1, 1048576)],
};

const PLAIN_METADATA: ChunkPlan = ChunkPlan {
    start: 2097152,
    length: 4194304,
    kind: METADATA,
    stripes: &[(1, 2097152)],
};

const PLAIN_DATA: ChunkPlan = ChunkPlan {
    start: 16777216,
    length: 4194304,
    kind: DATA,
    stripes: &[(1, 10485760)],
};

const PLAIN: Plan = Plan {
    sums: SumKind::Crc32c,
    incompat: 0x361,
    compat_ro: 0,
    images: 1,
    image_len: 16777216,
    supers: &[65536],
    system: PLAIN_SYSTEM,
    metadata: PLAIN_METADATA,
    data: PLAIN_DATA,
    room: NODE,
    pointers: usize::MAX,
    items: usize::MAX,
};

// Trees of several levels: each leaf of files has ten items.
const BRANCHED: Plan = Plan {
    metadata: ChunkPlan {
        length: 8388608,
        ..PLAIN_METADATA
    },
    room: 524288,
    pointers: 4,
    items: 10,
    ..PLAIN
};

const DUPLICATED: Plan = Plan {
    metadata: ChunkPlan {
        kind: METADATA | DUP,
        stripes: &[(1, 2097152), (1, 6291456)],
        ..PLAIN_METADATA
    },
    ..PLAIN
};

const MODERN: Plan = Plan {
    incompat: 0x371,
    compat_ro: 3,
    ..DUPLICATED
};

const MIRRORED: Plan = Plan {
    images: 2,
    system: ChunkPlan {
        kind: SYSTEM | RAID1,
        stripes: &[(1, 1048576), (2, 1048576)],
        ..PLAIN_SYSTEM
    },
    metadata: ChunkPlan {
        kind: METADATA | RAID1,
        stripes: &[(1, 2097152), (2, 2097152)],
        ..PLAIN_METADATA
    },
    ..PLAIN
};

const RAID5_DATA: Plan = Plan {
    incompat: 0x3e1,
    images: 3,
    data: ChunkPlan {
        length: 8388608,
        kind: DATA | RAID5,
        stripes: &[(1, 10485760), (2, 10485760), (3, 10485760)],
        ..PLAIN_DATA
    },
    ..MIRRORED
};

const RAID6_DATA: Plan = Plan {
    images: 4,
    data: ChunkPlan {
        length: 8388608,
        kind: DATA | RAID6,
        stripes: &[(1, 10485760), (2, 10485760), (3, 10485760), (4, 10485760)],
        ..PLAIN_DATA
    },
    ..RAID5_DATA
};

const THREE_COPIES: Plan = Plan {
    sums: SumKind::Xxh64,
    incompat: 0xb61,
    images: 3,
    system: ChunkPlan {
        kind: SYSTEM | RAID1C3,
        stripes: &[(1, 1048576), (2, 1048576), (3, 1048576)],
        ..PLAIN_SYSTEM
    },
    metadata: ChunkPlan {
        kind: METADATA | RAID1C3,
        stripes: &[(1, 2097152), (2, 2097152), (3, 2097152)],
        ..PLAIN_METADATA
    },
    ..PLAIN
};

const RAID5_ROWS: Plan = Plan {
    incompat: 0x3e1,
    images: 3,
    system: ChunkPlan {
        length: 2097152,
        kind: SYSTEM | RAID5,
        stripes: &[(1, 1048576), (2, 1048576), (3, 1048576)],
        ..PLAIN_SYSTEM
    },
    metadata: ChunkPlan {
        start: 4194304,
        length: 8388608,
        kind: METADATA | RAID5,
        stripes: &[(1, 2097152), (2, 2097152), (3, 2097152)],
    },
    data: ChunkPlan {
        start: 16777216,
        length: 8388608,
        kind: DATA | RAID5,
        stripes: &[(1, 10485760), (2, 10485760), (3, 10485760)],
    },
    ..PLAIN
};

const RAID6_ROWS: Plan = Plan {
    images: 5,
    system: ChunkPlan {
        length: 3145728,
        kind: SYSTEM | RAID6,
        stripes: &[
            (1, 1048576),
            (2, 1048576),
            (3, 1048576),
            (4, 1048576),
            (5, 1048576),
        ],
        ..PLAIN_SYSTEM
    },
    metadata: ChunkPlan {
        start: 4194304,
        length: 12582912,
        kind: METADATA | RAID6,
        stripes: &[
            (1, 2097152),
            (2, 2097152),
            (3, 2097152),
            (4, 2097152),
            (5, 2097152),
        ],
    },
    data: ChunkPlan {
        start: 33554432,
        length: 12582912,
        kind: DATA | RAID6,
        stripes: &[
            (1, 10485760),
            (2, 10485760),
            (3, 10485760),
            (4, 10485760),
            (5, 10485760),
        ],
    },
    ..RAID5_ROWS
};
