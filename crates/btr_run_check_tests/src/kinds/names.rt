// Faults of names, kinds 15 to 23.
use super::{Case, FILES, Poke, ROOTS};

pub(super) const FOUND: &[Case] = &[
    // 15: no entry by hash
    Case {
        block: FILES,
        is_sealed: true,
        pokes: &[Poke {
            at: 151,
            bytes: &[
                0, 1, 0, 0, 0, 0, 0, 0, 0x53, 0xd3, 0xa8, 0xde, 0x0b, 0, 0, 0, 0,
            ],
        }],
        text: b"entry-item 5 256 2\nfindings 1\n",
    },
    // 16: an entry by hash alone, of a directory that isn't there
    Case {
        block: FILES,
        is_sealed: true,
        pokes: &[
            Poke {
                at: 96,
                bytes: &[0x19, 0, 0, 0],
            },
            Poke {
                at: 701,
                bytes: &[
                    0x2c, 1, 0, 0, 0, 0, 0, 0, 0x54, 5, 0, 0, 0, 0, 0, 0, 0, 0x43, 0x3a, 0, 0,
                    0x1f, 0, 0, 0,
                ],
            },
            Poke {
                at: 15016,
                bytes: &[
                    1, 1, 0, 0, 0, 0, 0, 0, 1, 0, 0, 0, 0, 0, 0, 0, 0, 7, 0, 0, 0, 0, 0, 0, 0, 0,
                    0, 1, 0, 1, b'q',
                ],
            },
        ],
        text: b"entry-index 5 300 5\nfindings 1\n",
    },
    // 16, 18, 21: no entry by index
    Case {
        block: FILES,
        is_sealed: true,
        pokes: &[Poke {
            at: 276,
            bytes: &[0, 1, 0, 0, 0, 0, 0, 0, 0x5f, 2, 0, 0, 0, 0, 0, 0, 0],
        }],
        text: b"entry-index 5 256 199141587\nref-entry 5 257 256 2\ndir-size 5 256 14 12\nfindings 3\n",
    },
    // 17: no reference of an inode that is an orphan
    Case {
        block: FILES,
        is_sealed: true,
        pokes: &[
            Poke {
                at: 96,
                bytes: &[0x19, 0, 0, 0],
            },
            Poke {
                at: 434,
                bytes: &[0x0e],
            },
            Poke {
                at: 15778,
                bytes: &[0, 0, 0, 0],
            },
            Poke {
                at: 701,
                bytes: &[
                    0xfb, 0xff, 0xff, 0xff, 0xff, 0xff, 0xff, 0xff, 0x30, 1, 1, 0, 0, 0, 0, 0, 0,
                    0x62, 0x3a, 0, 0, 0, 0, 0, 0,
                ],
            },
        ],
        text: b"entry-ref 5 256 2\nfindings 1\n",
    },
    // 17, 20: no reference
    Case {
        block: FILES,
        is_sealed: true,
        pokes: &[Poke {
            at: 426,
            bytes: &[1, 1, 0, 0, 0, 0, 0, 0, 0x0e, 0, 1, 0, 0, 0, 0, 0, 0],
        }],
        text: b"entry-ref 5 256 2\nlink-count 5 257 1 0\nfindings 2\n",
    },
    // 17, 18: a reference of another index
    Case {
        block: FILES,
        is_sealed: true,
        pokes: &[Poke {
            at: 15727,
            bytes: &[9, 0, 0, 0, 0, 0, 0, 0],
        }],
        text: b"entry-ref 5 256 2\nref-entry 5 257 256 9\nfindings 2\n",
    },
    // 18: the reference of the first directory to itself by another name
    Case {
        block: FILES,
        is_sealed: true,
        pokes: &[Poke {
            at: 16223,
            bytes: b"x",
        }],
        text: b"ref-entry 5 256 256 0\nfindings 1\n",
    },
    // 19: a file as a symbolic link
    Case {
        block: FILES,
        is_sealed: true,
        pokes: &[Poke {
            at: 15790,
            bytes: &[0xa4, 0xa1, 0, 0],
        }],
        text: b"entry-mode 5 256 2\nfindings 1\n",
    },
    // 20: a file that states two links
    Case {
        block: FILES,
        is_sealed: true,
        pokes: &[Poke {
            at: 15778,
            bytes: &[2, 0, 0, 0],
        }],
        text: b"link-count 5 257 2 1\nfindings 1\n",
    },
    // 21: a directory that states another size
    Case {
        block: FILES,
        is_sealed: true,
        pokes: &[Poke {
            at: 16240,
            bytes: &[0x0f, 0, 0, 0, 0, 0, 0, 0],
        }],
        text: b"dir-size 5 256 15 14\nfindings 1\n",
    },
    // 20, 22: a file that states no link
    Case {
        block: FILES,
        is_sealed: true,
        pokes: &[Poke {
            at: 15778,
            bytes: &[0, 0, 0, 0],
        }],
        text: b"link-count 5 257 0 1\norphan 5 257\nfindings 2\n",
    },
    // 22: an inode without links
    Case {
        block: FILES,
        is_sealed: true,
        pokes: &[
            Poke {
                at: 96,
                bytes: &[0x19, 0, 0, 0],
            },
            NO_LINKS,
        ],
        text: b"orphan 5 300\nfindings 1\n",
    },
];

// the item of inode 300, which is zeros
const NO_LINKS: Poke = Poke {
    at: 701,
    bytes: &[
        0x2c, 1, 0, 0, 0, 0, 0, 0, 1, 0, 0, 0, 0, 0, 0, 0, 0, 0xc2, 0x39, 0, 0, 0xa0, 0, 0, 0,
    ],
};

// the same, and its orphan item
pub(super) const ORPHAN: Case = Case {
    block: FILES,
    is_sealed: true,
    pokes: &[
        Poke {
            at: 96,
            bytes: &[0x1a, 0, 0, 0],
        },
        NO_LINKS,
        Poke {
            at: 726,
            bytes: &[
                0xfb, 0xff, 0xff, 0xff, 0xff, 0xff, 0xff, 0xff, 0x30, 0x2c, 1, 0, 0, 0, 0, 0, 0,
                0xc2, 0x39, 0, 0, 0, 0, 0, 0,
            ],
        },
    ],
    text: b"no findings\n",
};

// the mode of inode 300: a directory
const DIRECTORY: Poke = Poke {
    at: 14939,
    bytes: &[0xed, 0x41, 0, 0],
};

// directory 300 has an entry `q` under a hash and an entry `r` at index 2, and no inode has a reference for them
const ENTRY_ITEMS: Poke = Poke {
    at: 726,
    bytes: &[
        0x2c, 1, 0, 0, 0, 0, 0, 0, 0x54, 5, 0, 0, 0, 0, 0, 0, 0, 0xa3, 0x39, 0, 0, 0x1f, 0, 0, 0,
        0x2c, 1, 0, 0, 0, 0, 0, 0, 0x60, 2, 0, 0, 0, 0, 0, 0, 0, 0x84, 0x39, 0, 0, 0x1f, 0, 0, 0,
    ],
};

const ENTRIES: Poke = Poke {
    at: 14825,
    bytes: &[
        1, 1, 0, 0, 0, 0, 0, 0, 1, 0, 0, 0, 0, 0, 0, 0, 0, 7, 0, 0, 0, 0, 0, 0, 0, 0, 0, 1, 0, 2,
        b'r', 1, 1, 0, 0, 0, 0, 0, 0, 1, 0, 0, 0, 0, 0, 0, 0, 0, 7, 0, 0, 0, 0, 0, 0, 0, 0, 0, 1,
        0, 1, b'q',
    ],
};

// a directory without links and without an orphan item, whose entries and size are wrong
pub(super) const LEFT_OVER: Case = Case {
    block: FILES,
    is_sealed: true,
    pokes: &[
        Poke {
            at: 96,
            bytes: &[0x1b, 0, 0, 0],
        },
        NO_LINKS,
        DIRECTORY,
        ENTRY_ITEMS,
        ENTRIES,
    ],
    text: b"entry-item 5 300 2\nentry-index 5 300 5\nentry-ref 5 300 2\nentry-mode 5 300 2\ndir-size 5 300 0 2\norphan 5 300\nfindings 6\n",
};

// the same directory, which its orphan item says is being removed
pub(super) const REMOVED: Case = Case {
    block: FILES,
    is_sealed: true,
    pokes: &[
        Poke {
            at: 96,
            bytes: &[0x1c, 0, 0, 0],
        },
        NO_LINKS,
        DIRECTORY,
        ENTRY_ITEMS,
        ENTRIES,
        Poke {
            at: 776,
            bytes: &[
                0xfb, 0xff, 0xff, 0xff, 0xff, 0xff, 0xff, 0xff, 0x30, 0x2c, 1, 0, 0, 0, 0, 0, 0,
                0x84, 0x39, 0, 0, 0, 0, 0, 0,
            ],
        },
    ],
    text: b"no findings\n",
};

// the item of the old inode cache, which states one link and has no name
pub(super) const INODE_CACHE: Case = Case {
    block: FILES,
    is_sealed: true,
    pokes: &[
        Poke {
            at: 96,
            bytes: &[0x19, 0, 0, 0],
        },
        NO_LINKS,
        Poke {
            at: 701,
            bytes: &[0xf4, 0xff, 0xff, 0xff, 0xff, 0xff, 0xff, 0xff],
        },
        Poke {
            at: 14927,
            bytes: &[1, 0, 0, 0],
        },
        Poke {
            at: 14939,
            bytes: &[0x80, 0x81, 0, 0],
        },
    ],
    text: b"no findings\n",
};

// 23: no ROOT_BACKREF
pub(super) const SUBVOLUME: Case = Case {
    block: ROOTS,
    is_sealed: true,
    pokes: &[Poke {
        at: 276,
        bytes: &[0, 1, 0, 0, 0, 0, 0, 0, 0x91, 5, 0, 0, 0, 0, 0, 0, 0],
    }],
    text: b"root-ref 5 256\nfindings 1\n",
};
