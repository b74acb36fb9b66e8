// Faults of blocks, extents and checksums, kinds 1 to 14.
use super::{Case, DEVICES, EXTENTS, FILES, Poke, ROOTS, SUMS};

// 1: blocks whose bytes changed
pub(super) const LOST_DEVICES: Case = Case {
    block: DEVICES,
    is_sealed: false,
    pokes: &[Poke {
        at: 200,
        bytes: &[1],
    }],
    text: b"lost 2129920\nfindings 1\n",
};

pub(super) const LOST_FILES: Case = Case {
    block: FILES,
    is_sealed: false,
    pokes: &[Poke {
        at: 100,
        bytes: &[1],
    }],
    text: b"lost 2146304\nfindings 1\n",
};

pub(super) const LOST_SUMS: Case = Case {
    block: SUMS,
    is_sealed: false,
    pokes: &[Poke {
        at: 200,
        bytes: &[1],
    }],
    text: b"lost 2162688\nfindings 1\n",
};

// 2: an entry whose name is longer than its item
pub(super) const MALFORMED_FILES: Case = Case {
    block: FILES,
    is_sealed: true,
    pokes: &[Poke {
        at: 16051,
        bytes: &[2, 0],
    }],
    text: b"malformed 2146304\nfindings 1\n",
};

// 6: in a volume without data, an extent of no bytes in the midst of the last tree block
pub(super) const OVERLAP: Case = Case {
    block: EXTENTS,
    is_sealed: true,
    pokes: &[
        Poke {
            at: 96,
            bytes: &[0x0c, 0, 0, 0],
        },
        Poke {
            at: 351,
            bytes: &[
                0, 0x90, 0x21, 0, 0, 0, 0, 0, 0xa8, 0, 0, 0, 0, 0, 0, 0, 0, 0x4b, 0x3e, 0, 0, 0x18,
                0, 0, 0,
            ],
        },
        Poke {
            at: 376,
            bytes: &[
                0, 0, 0, 1, 0, 0, 0, 0, 0xc0, 0, 0, 0x40, 0, 0, 0, 0, 0, 0x33, 0x3e, 0, 0, 0x18, 0,
                0, 0,
            ],
        },
        Poke {
            at: 16024,
            bytes: &[
                0, 0, 0, 0, 0, 0, 0, 0, 0, 1, 0, 0, 0, 0, 0, 0, 1, 0, 0, 0, 0, 0, 0, 0,
            ],
        },
        Poke {
            at: 16048,
            bytes: &[
                0, 0, 0, 0, 0, 0, 0, 0, 7, 0, 0, 0, 0, 0, 0, 0, 1, 0, 0, 0, 0, 0, 0, 0,
            ],
        },
    ],
    text: b"overlap 2199552 2195456\nfindings 1\n",
};

pub(super) const FOUND: &[Case] = &[
    LOST_SUMS,
    LOST_FILES,
    MALFORMED_FILES,
    // 3: a tree at an address of no chunk
    Case {
        block: ROOTS,
        is_sealed: true,
        pokes: &[Poke {
            at: 14804,
            bytes: &[0, 0, 0, 2, 0, 0, 0, 0],
        }],
        text: b"unmapped 33554432\nfindings 1\n",
    },
    // 4: a tree that passes the end of its chunk
    Case {
        block: ROOTS,
        is_sealed: true,
        pokes: &[Poke {
            at: 14804,
            bytes: &[0, 0xf0, 0x5f, 0, 0, 0, 0, 0],
        }],
        text: b"crosses 6287360\nfindings 1\n",
    },
    // 5: an extent behind all block groups
    Case {
        block: EXTENTS,
        is_sealed: true,
        pokes: &[
            Poke {
                at: 96,
                bytes: &[0x0c, 0, 0, 0],
            },
            Poke {
                at: 376,
                bytes: &[
                    0, 0, 0x40, 1, 0, 0, 0, 0, 0xa8, 0, 0x10, 0, 0, 0, 0, 0, 0, 0x0b, 0x3e, 0, 0,
                    0x18, 0, 0, 0,
                ],
            },
            Poke {
                at: 15984,
                bytes: &[
                    0, 0, 0, 0, 0, 0, 0, 0, 7, 0, 0, 0, 0, 0, 0, 0, 1, 0, 0, 0, 0, 0, 0, 0,
                ],
            },
        ],
        text: b"outside-group 20971520 4096\nfindings 1\n",
    },
    // 6, 10, 28: an extent that is too long
    Case {
        block: EXTENTS,
        is_sealed: true,
        pokes: &[Poke {
            at: 301,
            bytes: &[0, 0, 0, 1, 0, 0, 0, 0, 0xa8, 0, 0x20, 0, 0, 0, 0, 0, 0],
        }],
        text: b"overlap 16781312 16777216\nextent-length 16777216 8192 4096\ngroup-used 16777216 8192 12288\nfindings 3\n",
    },
    // 7: a reference that counts twice, of an extent that states two
    Case {
        block: EXTENTS,
        is_sealed: true,
        pokes: &[
            Poke {
                at: 16085,
                bytes: &[2, 0, 0, 0, 0, 0, 0, 0],
            },
            Poke {
                at: 16134,
                bytes: &[2, 0, 0, 0],
            },
        ],
        text: b"ref-count 16777216 178 5 260 0 1 2\nfindings 1\n",
    },
    // 7, 8: a reference that counts twice
    Case {
        block: EXTENTS,
        is_sealed: true,
        pokes: &[Poke {
            at: 16134,
            bytes: &[2, 0, 0, 0],
        }],
        text: b"ref-count 16777216 178 5 260 0 1 2\nref-total 16777216 1 2\nfindings 2\n",
    },
    // 8: an extent that states two references
    Case {
        block: EXTENTS,
        is_sealed: true,
        pokes: &[Poke {
            at: 16085,
            bytes: &[2, 0, 0, 0, 0, 0, 0, 0],
        }],
        text: b"ref-total 16777216 2 1\nfindings 1\n",
    },
    // 9: a tree block as an extent of data
    Case {
        block: EXTENTS,
        is_sealed: true,
        pokes: &[
            Poke {
                at: 276,
                bytes: &[0, 0, 0x21, 0, 0, 0, 0, 0, 0xa8, 0, 0x40, 0, 0, 0, 0, 0, 0],
            },
            Poke {
                at: 16154,
                bytes: &[1, 0, 0, 0, 0, 0, 0, 0],
            },
        ],
        text: b"extent-kind 2162688 1\nfindings 1\n",
    },
    // 10: an extent of a file that is too long
    Case {
        block: FILES,
        is_sealed: true,
        pokes: &[Poke {
            at: 15129,
            bytes: &[0, 0x20, 0, 0, 0, 0, 0, 0],
        }],
        text: b"extent-length 16777216 4096 8192\nfindings 1\n",
    },
    // 11: a tree block of level 3
    Case {
        block: EXTENTS,
        is_sealed: true,
        pokes: &[Poke {
            at: 276,
            bytes: &[0, 0, 0x21, 0, 0, 0, 0, 0, 0xa9, 3, 0, 0, 0, 0, 0, 0, 0],
        }],
        text: b"extent-level 2162688 3 0\nfindings 1\n",
    },
    // 12: one checksum in place of two
    Case {
        block: SUMS,
        is_sealed: true,
        pokes: &[Poke {
            at: 118,
            bytes: &[0x97, 0x3f, 0, 0, 4, 0, 0, 0],
        }],
        text: b"sum-missing 5 260 16781312\nfindings 1\n",
    },
    // 12: checksums of another type
    Case {
        block: SUMS,
        is_sealed: true,
        pokes: &[Poke {
            at: 101,
            bytes: &[
                0xf6, 0xff, 0xff, 0xff, 0xff, 0xff, 0xff, 0xff, 0x81, 0, 0, 0, 1, 0, 0, 0, 0,
            ],
        }],
        text: b"sum-missing 5 260 16777216\nsum-missing 5 260 16781312\nfindings 2\n",
    },
    // 13: a second checksum of a sector
    Case {
        block: SUMS,
        is_sealed: true,
        pokes: &[
            Poke {
                at: 96,
                bytes: &[2, 0, 0, 0],
            },
            Poke {
                at: 126,
                bytes: &[
                    0xf6, 0xff, 0xff, 0xff, 0xff, 0xff, 0xff, 0xff, 0x80, 0, 0x10, 0, 1, 0, 0, 0,
                    0, 0x8f, 0x3f, 0, 0, 4, 0, 0, 0,
                ],
            },
            Poke {
                at: 16372,
                bytes: &[0x61, 0x62, 0x63, 0x64],
            },
        ],
        text: b"sum-overlap 16781312\nfindings 1\n",
    },
    // 14: a checksum of a sector in no extent
    Case {
        block: SUMS,
        is_sealed: true,
        pokes: &[
            Poke {
                at: 96,
                bytes: &[2, 0, 0, 0],
            },
            Poke {
                at: 126,
                bytes: &[
                    0xf6, 0xff, 0xff, 0xff, 0xff, 0xff, 0xff, 0xff, 0x80, 0, 0x20, 0, 1, 0, 0, 0,
                    0, 0x8f, 0x3f, 0, 0, 4, 0, 0, 0,
                ],
            },
            Poke {
                at: 16372,
                bytes: &[0x61, 0x62, 0x63, 0x64],
            },
        ],
        text: b"sum-stray 16785408\nfindings 1\n",
    },
];
