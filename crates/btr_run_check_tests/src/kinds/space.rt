// Faults of block groups, chunks, devices and used bytes, kinds 24 to 30; and filesystems that are not checked.
use super::{CHUNKS, Case, DEVICES, EXTENTS, Poke, ROOTS, SUPER};

pub(super) const FOUND: &[Case] = &[
    // 24: a block group of another type
    Case {
        block: EXTENTS,
        is_sealed: true,
        pokes: &[Poke {
            at: 16077,
            bytes: &[0x41, 0, 0, 0, 0, 0, 0, 0],
        }],
        text: b"chunk-group 16777216\nfindings 1\n",
    },
    // 25: a block group of no chunk
    Case {
        block: EXTENTS,
        is_sealed: true,
        pokes: &[
            Poke {
                at: 96,
                bytes: &[0x0c, 0, 0, 0],
            },
            Poke {
                at: 376,
                bytes: &[
                    0, 0x20, 0, 1, 0, 0, 0, 0, 0xc0, 0, 0x10, 0, 0, 0, 0, 0, 0, 0x0b, 0x3e, 0, 0,
                    0x18, 0, 0, 0,
                ],
            },
            Poke {
                at: 15984,
                bytes: &[
                    0, 0, 0, 0, 0, 0, 0, 0, 0, 1, 0, 0, 0, 0, 0, 0, 1, 0, 0, 0, 0, 0, 0, 0,
                ],
            },
        ],
        text: b"group-chunk 16785408\nfindings 1\n",
    },
    // 26: a device extent of another chunk
    Case {
        block: DEVICES,
        is_sealed: true,
        pokes: &[Poke {
            at: 16256,
            bytes: &[0, 0x10, 0, 1, 0, 0, 0, 0],
        }],
        text: b"chunk-device 16777216 1 10485760\nfindings 1\n",
    },
    // 27: a device extent of no stripe and no bytes
    Case {
        block: DEVICES,
        is_sealed: true,
        pokes: &[
            Poke {
                at: 96,
                bytes: &[4, 0, 0, 0],
            },
            Poke {
                at: 176,
                bytes: &[
                    1, 0, 0, 0, 0, 0, 0, 0, 0xcc, 0, 0, 0xe0, 0, 0, 0, 0, 0, 0xdb, 0x3e, 0, 0,
                    0x30, 0, 0, 0,
                ],
            },
            Poke {
                at: 16192,
                bytes: &[
                    3, 0, 0, 0, 0, 0, 0, 0, 0, 1, 0, 0, 0, 0, 0, 0, 0, 0, 0, 1, 0, 0, 0, 0, 0, 0,
                    0, 0, 0, 0, 0, 0, 0x33, 0x33, 0x33, 0x33, 0x33, 0x33, 0x33, 0x33, 0x33, 0x33,
                    0x33, 0x33, 0x33, 0x33, 0x33, 0x33,
                ],
            },
        ],
        text: b"device-chunk 1 14680064\nfindings 1\n",
    },
    // 27, 29: a device extent of no stripe
    Case {
        block: DEVICES,
        is_sealed: true,
        pokes: &[
            Poke {
                at: 96,
                bytes: &[4, 0, 0, 0],
            },
            Poke {
                at: 176,
                bytes: &[
                    1, 0, 0, 0, 0, 0, 0, 0, 0xcc, 0, 0, 0xe0, 0, 0, 0, 0, 0, 0xdb, 0x3e, 0, 0,
                    0x30, 0, 0, 0,
                ],
            },
            Poke {
                at: 16192,
                bytes: &[
                    3, 0, 0, 0, 0, 0, 0, 0, 0, 1, 0, 0, 0, 0, 0, 0, 0, 0, 0, 1, 0, 0, 0, 0, 0,
                    0x10, 0, 0, 0, 0, 0, 0, 0x33, 0x33, 0x33, 0x33, 0x33, 0x33, 0x33, 0x33, 0x33,
                    0x33, 0x33, 0x33, 0x33, 0x33, 0x33, 0x33,
                ],
            },
        ],
        text: b"device-chunk 1 14680064\ndevice-used 1 9437184 9441280\nfindings 2\n",
    },
    // 28: an extent that nothing refers to
    Case {
        block: EXTENTS,
        is_sealed: true,
        pokes: &[
            Poke {
                at: 96,
                bytes: &[0x0c, 0, 0, 0],
            },
            Poke {
                at: 376,
                bytes: &[
                    0, 0x20, 0, 1, 0, 0, 0, 0, 0xa8, 0, 0x10, 0, 0, 0, 0, 0, 0, 0x0b, 0x3e, 0, 0,
                    0x18, 0, 0, 0,
                ],
            },
            Poke {
                at: 15984,
                bytes: &[
                    0, 0, 0, 0, 0, 0, 0, 0, 7, 0, 0, 0, 0, 0, 0, 0, 1, 0, 0, 0, 0, 0, 0, 0,
                ],
            },
        ],
        text: b"group-used 16777216 8192 12288\nfindings 1\n",
    },
    // 28, 30: a block group that states a byte more
    Case {
        block: EXTENTS,
        is_sealed: true,
        pokes: &[Poke {
            at: 16061,
            bytes: &[1, 0x20, 0, 0, 0, 0, 0, 0],
        }],
        text: b"group-used 16777216 8193 8192\ntotal-used 106496 106497\nfindings 2\n",
    },
    // 29: a device that states five bytes
    Case {
        block: CHUNKS,
        is_sealed: true,
        pokes: &[Poke {
            at: 16302,
            bytes: &[5, 0, 0, 0, 0, 0, 0, 0],
        }],
        text: b"device-used 1 5 9437184\nfindings 1\n",
    },
    MORE_USED,
    // 30: a superblock that states no bytes
    Case {
        block: SUPER,
        is_sealed: true,
        pokes: &[Poke {
            at: 120,
            bytes: &[0, 0, 0, 0, 0, 0, 0, 0],
        }],
        text: b"total-used 0 106496\nfindings 1\n",
    },
];

// 30: a superblock that states a byte more
pub(super) const MORE_USED: Case = Case {
    block: SUPER,
    is_sealed: true,
    pokes: &[Poke {
        at: 120,
        bytes: &[1, 0xa0, 1, 0, 0, 0, 0, 0],
    }],
    text: b"total-used 106497 106496\nfindings 1\n",
};

pub(super) const REFUSED: &[Case] = &[
    Case {
        block: ROOTS,
        is_sealed: true,
        pokes: &[Poke {
            at: 176,
            bytes: &[
                0xf8, 0xff, 0xff, 0xff, 0xff, 0xff, 0xff, 0xff, 0x84, 0, 0, 0, 0, 0, 0, 0, 0,
            ],
        }],
        text: b"error: a balance is pending\n",
    },
    Case {
        block: ROOTS,
        is_sealed: true,
        pokes: &[Poke {
            at: 15283,
            bytes: &[0, 0, 0, 0],
        }],
        text: b"error: tree 5 is being deleted\n",
    },
    Case {
        block: ROOTS,
        is_sealed: true,
        pokes: &[Poke {
            at: 101,
            bytes: &[2, 0, 0, 0, 0, 0, 0, 0, 0x83, 0, 0, 0, 0, 0, 0, 0, 0],
        }],
        text: b"error: no tree 2\n",
    },
    Case {
        block: ROOTS,
        is_sealed: true,
        pokes: &[Poke {
            at: 126,
            bytes: &[4, 0, 0, 0, 0, 0, 0, 0, 0x83, 0, 0, 0, 0, 0, 0, 0, 0],
        }],
        text: b"error: no tree 4\n",
    },
];
