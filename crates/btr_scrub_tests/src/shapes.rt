// Small volumes, and some whose chunks or checksums are other ones than those that were made.
use btr_make::{RowVolume, make, row, seal};
use btr_rack::MemRack;
use std::alloc::Global;
use std::test::Fail;

const PAGE: u64 = 4096;

const NODE: u64 = 16384;

// Where the superblock stands, and the lowest byte of its generation, which is 7.
const SUPER: u64 = 65536;

const GENERATION: u64 = SUPER + 72;

// Where the leaf of the chunk tree stands.
const CHUNKS: u64 = 1048576;

// Where the leaf of the extent tree stands.
const EXTENTS: u64 = 2113536;

// Where the leaf of the checksum tree stands.
const SUMS: u64 = 2162688;

// The page of the first of two sectors of data.
const DATA_PAGE: u64 = 2560;

// A number in a leaf, by its place in the image and its size.
#[derive(Clone, Copy)]
struct Field {
    at: u64,
    size: usize,
    value: u64,
}

// Pages that are copied, from the first image to some.
#[derive(Clone, Copy)]
struct Pages {
    from: u64,
    to: u64,
    count: u64,
    images: &'static [&'static str],
}

// A small volume, in which fields of a leaf are changed in some images, and then pages are copied.
#[derive(Clone, Copy)]
struct Shape {
    volume: RowVolume,
    changed: &'static [&'static str],
    leaf: u64,
    fields: &'static [Field],
    pages: &'static [Pages],
}

fn as_made(volume: RowVolume) -> Shape {
    Shape {
        volume,
        changed: &[],
        leaf: CHUNKS,
        fields: &[],
        pages: &[],
    }
}

/// Which of them.
#[derive(Clone, Copy, Debug)]
pub(super) enum Made {
    /// As it was made.
    Row(RowVolume),
    /// `Raid6`, in which the chunk of data is of another type. Its two sectors stand at the beginning of each stripe.
    Raid0,
    Raid10,
    Raid1c4,
    /// `Raid5`, in which the first of the two sectors of data has no checksum.
    HalfSummed,
    /// `Raid5`, whose second extent of data goes on without checksums: to the end of the first slice, and over the first sector of the other one. The
    /// image of this name, if there is one, is older.
    Unsummed5(&'static str),
    /// The same in `Raid6`.
    Unsummed6(&'static str),
    /// `Raid5`, whose second extent of data goes on without checksums to the end of its full stripe. The images of these names are older.
    Filled5(&'static [&'static str]),
    /// The same in `Raid6`.
    Filled6(&'static [&'static str]),
    /// `Raid10`, whose second extent of data goes on without checksums, over the end of the first stripe's element. The image of this name, if there
    /// is one, is older.
    UnsummedRaid10(&'static str),
    /// The same in `Raid1c4`.
    UnsummedRaid1c4(&'static str),
    /// `Raid5`, in which the third page of the first slice of data is the superblock.
    BesideSuper,
    /// `V1d`, in which the second copy of the leaf of the checksum tree begins at the superblock.
    OverSuper,
    /// The volume of ten directories.
    Directories,
}

impl Made {
    /// The names of its images.
    pub(super) fn names(self) -> &'static [&'static str] {
        match self {
            Made::Row(RowVolume::M1) => &["a", "b"],
            Made::Row(RowVolume::Raid6)
            | Made::Raid0
            | Made::Raid10
            | Made::Raid1c4
            | Made::Unsummed6(_)
            | Made::Filled6(_)
            | Made::UnsummedRaid10(_)
            | Made::UnsummedRaid1c4(_) => &["a", "b", "c", "d"],
            Made::OverSuper => &["a"],
            Made::Row(RowVolume::V1 | RowVolume::V1d | RowVolume::N) => &["a"],
            _ => &["a", "b", "c"],
        }
    }

    /// How many pages each of them has.
    pub(super) fn pages(self) -> u64 {
        match self {
            Made::Directories => 32768,
            _ => 4096,
        }
    }
}

// The length, the type and the number of substripes in the item of the data chunk of `Raid6`.
const LENGTH_OF_FOUR: Field = Field {
    at: CHUNKS + 15592,
    size: 8,
    value: 4194304,
};

const KIND_OF_FOUR: Field = Field {
    at: CHUNKS + 15616,
    size: 8,
    value: 0x9,
};

const PAIRS_OF_FOUR: Field = Field {
    at: CHUNKS + 15638,
    size: 2,
    value: 2,
};

const RAID0: Shape = Shape {
    volume: RowVolume::Raid6,
    changed: &["a", "b"],
    leaf: CHUNKS,
    fields: &[LENGTH_OF_FOUR, KIND_OF_FOUR, PAIRS_OF_FOUR],
    pages: &[Pages {
        from: DATA_PAGE,
        to: DATA_PAGE,
        count: 2,
        images: &["b", "c", "d"],
    }],
};

const RAID10: Shape = Shape {
    fields: &[
        LENGTH_OF_FOUR,
        Field {
            value: 0x41,
            ..KIND_OF_FOUR
        },
        PAIRS_OF_FOUR,
    ],
    ..RAID0
};

const RAID1C4: Shape = Shape {
    fields: &[
        LENGTH_OF_FOUR,
        Field {
            value: 0x401,
            ..KIND_OF_FOUR
        },
        PAIRS_OF_FOUR,
    ],
    ..RAID0
};

// The key's offset, the place and the length of the item of checksums: those of the second sector.
const HALF_SUMMED: Shape = Shape {
    volume: RowVolume::Raid5,
    changed: &["a", "b"],
    leaf: SUMS,
    fields: &[
        Field {
            at: SUMS + 110,
            size: 8,
            value: 16781312,
        },
        Field {
            at: SUMS + 118,
            size: 4,
            value: 16279,
        },
        Field {
            at: SUMS + 122,
            size: 4,
            value: 4,
        },
    ],
    pages: &[],
};

// Zeros behind the two sectors of data, and in the other slice beside the first of them.
const BEHIND_DATA: Pages = Pages {
    from: DATA_PAGE + 2,
    to: DATA_PAGE + 2,
    count: 2,
    images: &["a", "b", "c", "d"],
};

const OTHER_SLICE: Pages = Pages {
    from: DATA_PAGE + 2,
    to: DATA_PAGE,
    count: 1,
    images: &["b"],
};

// The length of the second extent of data. The pages of some sectors behind it are kept.
const UNSUMMED5: Shape = Shape {
    volume: RowVolume::Raid5,
    changed: &["a", "b"],
    leaf: EXTENTS,
    fields: &[Field {
        at: EXTENTS + 360,
        size: 8,
        value: 65536,
    }],
    pages: &[
        OTHER_SLICE,
        Pages {
            images: &["a", "b", "c"],
            ..BEHIND_DATA
        },
    ],
};

const UNSUMMED6: Shape = Shape {
    volume: RowVolume::Raid6,
    pages: &[OTHER_SLICE, BEHIND_DATA],
    ..UNSUMMED5
};

// The same over the whole full stripe.
const TO_THE_END: Field = Field {
    at: EXTENTS + 360,
    size: 8,
    value: 126976,
};

const FILLED5: Shape = Shape {
    fields: &[TO_THE_END],
    ..UNSUMMED5
};

const FILLED6: Shape = Shape {
    fields: &[TO_THE_END],
    ..UNSUMMED6
};

// The length of the data chunk of `Raid5`, and where its first stripe begins.
const BESIDE_SUPER: Shape = Shape {
    volume: RowVolume::Raid5,
    changed: &["a", "b"],
    leaf: CHUNKS,
    fields: &[
        Field {
            at: CHUNKS + 15722,
            size: 8,
            value: 1966080,
        },
        Field {
            at: CHUNKS + 15778,
            size: 8,
            value: 57344,
        },
    ],
    pages: &[Pages {
        from: DATA_PAGE,
        to: 14,
        count: 2,
        images: &["a"],
    }],
};

// The length of the metadata chunk of `V1d`, and where its second stripe begins. The page of the superblock stays.
const OVER_SUPER: Shape = Shape {
    volume: RowVolume::V1d,
    changed: &["a"],
    leaf: CHUNKS,
    fields: &[
        Field {
            at: CHUNKS + 16094,
            size: 8,
            value: 1048576,
        },
        Field {
            at: CHUNKS + 16182,
            size: 8,
            value: 0,
        },
    ],
    pages: &[
        Pages {
            from: 512,
            to: 0,
            count: 16,
            images: &["a"],
        },
        Pages {
            from: 529,
            to: 17,
            count: 11,
            images: &["a"],
        },
    ],
};

// The page of a sector without a checksum, which is then one of each image.
const UNSUMMED_PAGE: Pages = Pages {
    from: DATA_PAGE + 2,
    to: DATA_PAGE + 2,
    count: 1,
    images: &["a", "b", "c", "d"],
};

// Changes fields of the leaf in an image, and writes its checksum anew.
fn change(rack: &mut MemRack, name: &str, shape: &Shape) -> Result<(), Fail> {
    for field in shape.fields {
        let bytes = field.value.to_le_bytes();
        rack.poke(name, field.at, &bytes[..field.size.min(8)])?;
    }
    Ok(seal(rack, name, shape.leaf, NODE)?)
}

// Copies a page of the first image to a page of another, or none where no byte of it was written.
fn copy_page(rack: &mut MemRack, from: u64, name: &str, to: u64) -> Result<(), Fail> {
    let mut copy = [0; 4096];
    if let Some(page) = rack.page("a", from) {
        for (to, from) in copy.iter_mut().zip(page) {
            *to = *from;
        }
    }
    Ok(rack.poke(name, to.wrapping_mul(PAGE), &copy)?)
}

fn copy_pages(rack: &mut MemRack, pages: &Pages) -> Result<(), Fail> {
    for name in pages.images {
        for i in 0..pages.count {
            let (from, to) = (pages.from.wrapping_add(i), pages.to.wrapping_add(i));
            copy_page(rack, from, name, to)?;
        }
    }
    Ok(())
}

fn build_row(alloc: Global, shape: &Shape) -> Result<MemRack, Fail> {
    let mut rack = row(alloc, shape.volume)?;
    for name in shape.changed {
        change(&mut rack, name, shape)?;
    }
    for pages in shape.pages {
        copy_pages(&mut rack, pages)?;
    }
    Ok(rack)
}

// Makes an image older than the others, if there is one of this name: its superblock has a smaller generation.
fn make_older(rack: &mut MemRack, older: &str) -> Result<(), Fail> {
    if !older.is_empty() {
        rack.poke(older, GENERATION, &[6])?;
        seal(rack, older, SUPER, PAGE)?;
    }
    Ok(())
}

// The same, where an image is older than the others.
fn build_with_older(alloc: Global, shape: &Shape, older: &str) -> Result<MemRack, Fail> {
    let mut rack = build_row(alloc, shape)?;
    make_older(&mut rack, older)?;
    Ok(rack)
}

// The same, where some images are.
fn build_with_some_older(alloc: Global, shape: &Shape, older: &[&str]) -> Result<MemRack, Fail> {
    let mut rack = build_row(alloc, shape)?;
    for name in older {
        make_older(&mut rack, name)?;
    }
    Ok(rack)
}

// A volume made of `Raid6`, whose second extent of data goes on without checksums too.
fn build_unsummed(alloc: Global, shape: &Shape, older: &str) -> Result<MemRack, Fail> {
    let mut rack = build_row(alloc, shape)?;
    for name in UNSUMMED6.changed {
        change(&mut rack, name, &UNSUMMED6)?;
    }
    copy_pages(&mut rack, &UNSUMMED_PAGE)?;
    make_older(&mut rack, older)?;
    Ok(rack)
}

/// The images of a volume, on the shelf.
pub(super) fn build(alloc: Global, which: Made) -> Result<MemRack, Fail> {
    let shape = match which {
        Made::Row(volume) => as_made(volume),
        Made::Raid0 => RAID0,
        Made::Raid10 => RAID10,
        Made::Raid1c4 => RAID1C4,
        Made::HalfSummed => HALF_SUMMED,
        Made::Unsummed5(older) => return build_with_older(alloc, &UNSUMMED5, older),
        Made::Unsummed6(older) => return build_with_older(alloc, &UNSUMMED6, older),
        Made::Filled5(older) => return build_with_some_older(alloc, &FILLED5, older),
        Made::Filled6(older) => return build_with_some_older(alloc, &FILLED6, older),
        Made::UnsummedRaid10(older) => return build_unsummed(alloc, &RAID10, older),
        Made::UnsummedRaid1c4(older) => return build_unsummed(alloc, &RAID1C4, older),
        Made::BesideSuper => BESIDE_SUPER,
        Made::OverSuper => OVER_SUPER,
        Made::Directories => return Ok(make(alloc, 10)?),
    };
    build_row(alloc, &shape)
}
