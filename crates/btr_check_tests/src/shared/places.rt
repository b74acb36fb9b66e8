// Where the volume of subvolumes that share blocks has its leaves, and what stands in them.

/// How many bytes a tree block has.
pub(super) const NODE: u64 = 16384;

/// The subvolume and its snapshots: all three, those that are the same, and the one that differs.
pub(super) const ALL: &[u64] = &[256, 257, 258];

const SAME: &[u64] = &[256, 257];

const SNAP: &[u64] = &[258];

// The first blocks of the first subvolume and of the snapshot that differs. Sixteen leaves, four nodes and the root stand
// there one after another; of the snapshot the two leaves that it alone has, their nodes, and the root.
const FIRST: u64 = 4718592;

const OWN: u64 = 5767168;

/// The leaf of the checksum tree.
pub(super) const SUMS: u64 = 4194304;

/// A leaf that has a directory, its file and the first extent of that.
#[derive(Clone, Copy, Debug)]
pub(super) struct Place {
    pub(super) leaf: u64,
    /// The leaves behind it, in each of the trees: they begin with the second extent of the file.
    pub(super) behind: &'static [u64],
    /// The trees that have the leaf.
    pub(super) trees: &'static [u64],
    /// The number of the directory.
    pub(super) directory: u64,
    /// The name of the file.
    pub(super) name: &'static [u8],
    /// How many names the file has.
    pub(super) links: u64,
    /// The subvolume that the directory names.
    pub(super) child: Option<u64>,
}

/// The leaves that all three trees have: amid such leaves, at the end of a node that they share, and before and behind
/// leaves that differ.
pub(super) const SHARED: [Place; 6] = [
    Place {
        leaf: FIRST + 5 * NODE,
        behind: &[FIRST + 6 * NODE],
        trees: ALL,
        directory: 2,
        name: b"f",
        links: 1,
        child: Some(259),
    },
    Place {
        leaf: FIRST + 7 * NODE,
        behind: &[FIRST + 8 * NODE],
        trees: ALL,
        directory: 4,
        name: b"f",
        links: 2,
        child: None,
    },
    Place {
        leaf: FIRST + 9 * NODE,
        behind: &[FIRST + 10 * NODE, OWN],
        trees: ALL,
        directory: 6,
        name: b"f",
        links: 1,
        child: Some(260),
    },
    Place {
        leaf: FIRST + 11 * NODE,
        behind: &[FIRST + 12 * NODE],
        trees: ALL,
        directory: 8,
        name: b"f",
        links: 1,
        child: Some(261),
    },
    Place {
        leaf: FIRST + 12 * NODE,
        behind: &[FIRST + 13 * NODE, OWN + NODE],
        trees: ALL,
        directory: 9,
        name: b"f",
        links: 2,
        child: None,
    },
    Place {
        leaf: FIRST + 14 * NODE,
        behind: &[FIRST + 15 * NODE],
        trees: ALL,
        directory: 11,
        name: b"f",
        links: 2,
        child: None,
    },
];

/// The leaves by which the trees differ: one where a file has other bytes, and one where it has another name.
pub(super) const DIFFERING: [Place; 4] = [
    Place {
        leaf: FIRST + 10 * NODE,
        behind: &[FIRST + 11 * NODE],
        trees: SAME,
        directory: 7,
        name: b"f",
        links: 2,
        child: None,
    },
    Place {
        leaf: OWN,
        behind: &[FIRST + 11 * NODE],
        trees: SNAP,
        directory: 7,
        name: b"f",
        links: 2,
        child: None,
    },
    Place {
        leaf: FIRST + 13 * NODE,
        behind: &[FIRST + 14 * NODE],
        trees: SAME,
        directory: 10,
        name: b"f",
        links: 2,
        child: None,
    },
    Place {
        leaf: OWN + NODE,
        behind: &[FIRST + 14 * NODE],
        trees: SNAP,
        directory: 10,
        name: b"g",
        links: 2,
        child: None,
    },
];

/// The first two of these where the directory names a subvolume.
pub(super) const DIFFERING_NAMES: [Place; 2] = [
    Place {
        leaf: FIRST + 10 * NODE,
        behind: &[FIRST + 11 * NODE],
        trees: SAME,
        directory: 7,
        name: b"f",
        links: 1,
        child: Some(262),
    },
    Place {
        leaf: OWN,
        behind: &[FIRST + 11 * NODE],
        trees: SNAP,
        directory: 7,
        name: b"f",
        links: 1,
        child: Some(262),
    },
];

/// A pointer to a child: the address of its node, and which of the pointers it is.
#[derive(Clone, Copy, Debug)]
pub(super) struct Pointer {
    pub(super) node: u64,
    pub(super) number: u64,
}

/// Pointers in a node that all three trees have, to a leaf amid it and to the last one; in the nodes of leaves that differ,
/// to a leaf that is shared and to one that isn't; and in the roots.
pub(super) const POINTERS: [Pointer; 8] = [
    Pointer {
        node: FIRST + 17 * NODE,
        number: 1,
    },
    Pointer {
        node: FIRST + 17 * NODE,
        number: 3,
    },
    Pointer {
        node: FIRST + 18 * NODE,
        number: 1,
    },
    Pointer {
        node: FIRST + 18 * NODE,
        number: 2,
    },
    Pointer {
        node: OWN + 2 * NODE,
        number: 1,
    },
    Pointer {
        node: OWN + 2 * NODE,
        number: 2,
    },
    Pointer {
        node: FIRST + 20 * NODE,
        number: 1,
    },
    Pointer {
        node: OWN + 4 * NODE,
        number: 1,
    },
];

/// An extent of a file, by its number in the data, and the trees that have it.
#[derive(Clone, Copy, Debug)]
pub(super) struct Extent {
    pub(super) number: u64,
    pub(super) file: u64,
    pub(super) trees: &'static [u64],
}

/// Extents of files in leaves that are shared: amid such leaves, and before and behind leaves that differ; and in leaves that differ: one
/// that is in both of these, and the one that each has alone.
pub(super) const EXTENTS: [Extent; 9] = [
    Extent {
        number: 4,
        file: 321,
        trees: ALL,
    },
    Extent {
        number: 8,
        file: 341,
        trees: ALL,
    },
    Extent {
        number: 12,
        file: 361,
        trees: ALL,
    },
    Extent {
        number: 13,
        file: 361,
        trees: ALL,
    },
    Extent {
        number: 15,
        file: 371,
        trees: ALL,
    },
    Extent {
        number: 16,
        file: 381,
        trees: ALL,
    },
    Extent {
        number: 20,
        file: 401,
        trees: ALL,
    },
    Extent {
        number: 14,
        file: 371,
        trees: SAME,
    },
    Extent {
        number: 24,
        file: 371,
        trees: SNAP,
    },
];
