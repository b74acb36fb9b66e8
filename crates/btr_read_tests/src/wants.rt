// What passes for a want. The checksums of the constants were computed by a program in Python: CRC-32C bit by bit,
// xxhash64 by its description, and SHA-256 by `hashlib`.
use crate::blocks::{BLOCK, Form, GOOD, block, put, seal, summed, tree};
use crate::given::{Given, empty_store, fetches, store_without, with_device};
use crate::shape::{ELEMENT, RAID1, RAID6_ON_FOUR, SINGLE, START, doubled, survives};
use crate::volume::{devid_of, images, open, open_images};
use Taken::{First, Second};
use btr_base::{Sum, SumKind};
use btr_rack::MemRack;
use btr_read::{ReadFault, Want};
use std::alloc::Global;
use std::process::Abort;
use std::test::Fail;

// The volume's own id, where the headers have its metadata_uuid.
const VOLUME_ID: [u8; 16] = *b"the volume's id.";

const LOST: Result<bool, ReadFault> = Err(ReadFault::Lost(BLOCK));

// A kind of checksum, its size, and the checksums of the first slice of `SINGLE` and of `GOOD`.
const SUMS: [(SumKind, u8, [u8; 32], [u8; 32]); 3] = [
    (
        SumKind::Crc32c,
        4,
        *b"\xed\x7d\x3c\x47\0\0\0\0\0\0\0\0\0\0\0\0\0\0\0\0\0\0\0\0\0\0\0\0\0\0\0\0",
        *b"\xd9\x4c\x50\x7a\0\0\0\0\0\0\0\0\0\0\0\0\0\0\0\0\0\0\0\0\0\0\0\0\0\0\0\0",
    ),
    (
        SumKind::Xxh64,
        8,
        *b"\xe9\x44\xc0\x65\x6c\x60\x20\xd1\0\0\0\0\0\0\0\0\0\0\0\0\0\0\0\0\0\0\0\0\0\0\0\0",
        *b"\x4c\x35\xc1\xa0\xa0\xba\x8f\xe7\0\0\0\0\0\0\0\0\0\0\0\0\0\0\0\0\0\0\0\0\0\0\0\0",
    ),
    (
        SumKind::Sha256,
        32,
        *b"\x57\xe4\x69\x50\x5b\x60\xe5\x90\x52\x71\x2d\x74\x26\x66\x98\xc7\x04\x0d\x65\x5d\xcc\xd1\x08\xa0\x9e\x72\xea\x9f\xff\xde\xee\xc7",
        *b"\xed\x32\xcf\xf5\x58\xdd\x1a\x0c\x70\x85\xcd\x6a\x76\xdf\x3d\xf6\x95\x01\xf7\xfd\xa4\x87\x5f\xe2\xdf\x64\x5f\x8f\x71\x02\xb3\xb0",
    ),
];

// A store of the one device of `SINGLE`, whose checksums are of a kind.
fn store_of(rt: &impl Abort, alloc: Global, rack: &MemRack, kind: SumKind) -> Result<Given, Fail> {
    let given = empty_store(alloc, &SINGLE, kind)?;
    with_device(rt, given, rack, devid_of(0), 0, false)
}

// The open image of `SINGLE`, in which a block stands.
fn image_of(alloc: Global, block: &[u8; 16384]) -> Result<MemRack, Fail> {
    let mut rack = images(alloc, &SINGLE)?;
    put(&mut rack, 0, block)?;
    open(&mut rack, &SINGLE)?;
    Ok(rack)
}

// Fetches `GOOD`, as it stands in the image: as a block of any generation and level, of its own, and of another one.
fn ask_good(
    rt: &impl Abort,
    rack: &mut MemRack,
    given: &mut Given,
    block: &[u8; 16384],
    kind: SumKind,
) {
    let any = Want::Block { addr: BLOCK };
    assert_eq!(rt; fetches(rt, &any, rack, given, block), Ok(true), "{kind:?}");
    for (generation, level, answer) in [
        (9, 1, Ok(true)),
        (8, 1, LOST),
        (10, 1, LOST),
        (9, 0, LOST),
        (9, 2, LOST),
    ] {
        let found = fetches(rt, &tree(generation, level), rack, given, block);
        assert_eq!(rt;
            found,
            answer,
            "{kind:?}, generation {generation}, level {level}"
        );
    }
}

// Fetches `GOOD` by its checksum of a kind.
fn fetch_block(rt: &impl Abort, alloc: Global, kind: SumKind, sum: &Sum) -> Result<(), Fail> {
    let mut block = block(&GOOD, 99);
    seal(&mut block, sum);
    let mut rack = image_of(alloc, &block)?;
    let mut given = store_of(rt, alloc, &rack, kind)?;
    ask_good(rt, &mut rack, &mut given, &block, kind);
    Ok(())
}

// Fetches the first slice of `SINGLE` by a checksum.
fn fetch_by(
    rt: &impl Abort,
    rack: &mut MemRack,
    given: &mut Given,
    sum: Sum,
) -> Result<bool, ReadFault> {
    let want = Want::Sector { addr: START, sum };
    fetches(rt, &want, rack, given, &SINGLE.slice(0, 0))
}

// Fetches the first slice of `SINGLE` by its checksum of a kind, and not by one that is right in no byte, or in its bytes
// alone.
fn ask_sector(rt: &impl Abort, rack: &mut MemRack, given: &mut Given, kind: SumKind, right: &Sum) {
    let zeros = Sum {
        bytes: [0; 32],
        ..*right
    };
    let longer = Sum { size: 33, ..*right };
    let lost = Err(ReadFault::Lost(START));
    assert_eq!(rt; fetch_by(rt, rack, given, *right), Ok(true), "{kind:?}");
    assert_eq!(rt; fetch_by(rt, rack, given, zeros), lost, "{kind:?}");
    assert_eq!(rt; fetch_by(rt, rack, given, longer), lost, "{kind:?}");
}

fn fetch_sector(rt: &impl Abort, alloc: Global, kind: SumKind, right: &Sum) -> Result<(), Fail> {
    let mut rack = open_images(alloc, &SINGLE)?;
    let mut given = store_of(rt, alloc, &rack, kind)?;
    ask_sector(rt, &mut rack, &mut given, kind, right);
    let plain = Want::Plain { addr: START };
    let found = fetches(rt, &plain, &mut rack, &mut given, &SINGLE.slice(0, 0));
    assert_eq!(rt; found, Ok(true));
    Ok(())
}

#[test]
fn checksums_of_each_kind(rt: HostRuntime) -> Result<(), Fail> {
    for (kind, size, of_sector, of_block) in SUMS {
        let bytes = of_sector;
        fetch_sector(&rt, rt.alloc(), kind, &Sum { bytes, size })?;
        let bytes = of_block;
        fetch_block(&rt, rt.alloc(), kind, &Sum { bytes, size })?;
    }
    Ok(())
}

// Which of two mirrors is taken.
#[derive(Clone, Copy)]
enum Taken {
    First,
    Second,
}

// A block in the first mirror, whether its checksum is right, and which mirror is taken for a tree block of generation 9
// and level 1, and which for a tree block of any, where `GOOD` stands in the second mirror.
const MIRRORS: [(Form, bool, Taken, Taken); 6] = [
    (GOOD, true, First, First),
    (GOOD, false, Second, Second),
    (
        Form {
            generation: 8,
            ..GOOD
        },
        true,
        Second,
        First,
    ),
    (Form { level: 0, ..GOOD }, true, Second, First),
    (
        Form {
            id: VOLUME_ID,
            ..GOOD
        },
        true,
        Second,
        Second,
    ),
    (
        Form {
            addr: START,
            ..GOOD
        },
        true,
        Second,
        Second,
    ),
];

// The open images of RAID1 with a block in each mirror.
fn mirrored(alloc: Global, first: &[u8; 16384], second: &[u8; 16384]) -> Result<MemRack, Fail> {
    let mut rack = images(alloc, &RAID1)?;
    put(&mut rack, 0, first)?;
    put(&mut rack, 1, second)?;
    open(&mut rack, &RAID1)?;
    Ok(rack)
}

fn mirror_of<'a>(taken: Taken, first: &'a [u8; 16384], second: &'a [u8; 16384]) -> &'a [u8; 16384] {
    match taken {
        First => first,
        Second => second,
    }
}

// Fetches a tree block of generation 9 and level 1, one of any, and one of generation 7, which neither mirror has.
fn fetch_mirrored(
    rt: &impl Abort,
    alloc: Global,
    first: &[u8; 16384],
    of_tree: Taken,
    of_block: Taken,
) -> Result<(), Fail> {
    let second = summed(&GOOD, 2);
    let mut rack = mirrored(alloc, first, &second)?;
    let mut given = store_without(rt, alloc, &rack, &RAID1, 0)?;
    let any = Want::Block { addr: BLOCK };
    for (want, which) in [(tree(9, 1), of_tree), (any, of_block)] {
        let bytes = mirror_of(which, first, &second);
        let found = fetches(rt, &want, &mut rack, &mut given, bytes);
        assert_eq!(rt; found, Ok(true), "{want:?}");
    }
    assert_eq!(rt;
        fetches(rt, &tree(7, 1), &mut rack, &mut given, first),
        LOST
    );
    Ok(())
}

#[test]
fn mirrors_are_passed_over(rt: HostRuntime) -> Result<(), Fail> {
    for (form, is_right, of_tree, of_block) in MIRRORS {
        let first = if is_right {
            summed(&form, 1)
        } else {
            block(&form, 1)
        };
        fetch_mirrored(&rt, rt.alloc(), &first, of_tree, of_block)?;
    }
    Ok(())
}

// P and Q of two blocks.
fn parities(first: &[u8; 16384], second: &[u8; 16384]) -> ([u8; 16384], [u8; 16384]) {
    let mut p = [0; 16384];
    let mut q = [0; 16384];
    for i in 0..16384usize {
        p[i] = first[i] ^ second[i];
        q[i] = first[i] ^ doubled(second[i]);
    }
    (p, q)
}

// The open images of RAID6 on four stripes where row 1, which is Q, slice 0, slice 1 and P, begins with two blocks.
fn rebuildable(alloc: Global, first: &[u8; 16384], second: &[u8; 16384]) -> Result<MemRack, Fail> {
    let (p, q) = parities(first, second);
    let mut rack = images(alloc, &RAID6_ON_FOUR)?;
    put(&mut rack, 0, &q)?;
    put(&mut rack, 1, first)?;
    put(&mut rack, 2, second)?;
    put(&mut rack, 3, &p)?;
    open(&mut rack, &RAID6_ON_FOUR)?;
    Ok(rack)
}

// Fetches slice 0 of row 1 without some devices.
fn rebuilt(
    rt: &impl Abort,
    alloc: Global,
    rack: &mut MemRack,
    addr: u64,
    missing: u32,
    bytes: &[u8; 16384],
) -> Result<Result<bool, ReadFault>, Fail> {
    let mut given = store_without(rt, alloc, rack, &RAID6_ON_FOUR, missing)?;
    Ok(fetches(rt, &Want::Block { addr }, rack, &mut given, bytes))
}

#[test]
fn a_block_is_rebuilt(rt: HostRuntime) -> Result<(), Fail> {
    let addr = BLOCK.wrapping_add(ELEMENT);
    let first = summed(&Form { addr, ..GOOD }, 1);
    let mut rack = rebuildable(rt.alloc(), &first, &block(&GOOD, 2))?;
    for missing in 0..16u32 {
        let answer = if survives(b"Q01P", 0, missing) {
            Ok(true)
        } else {
            Err(ReadFault::Lost(addr))
        };
        let found = rebuilt(&rt, rt.alloc(), &mut rack, addr, missing, &first)?;
        assert_eq!(rt; found, answer, "{missing:b}");
    }
    Ok(())
}
