// The pieces of files.
ghost use Rattle.std.specs.Prelude.{◌≡◌, IfOk};
ghost use Rattle.btr_rack.specs.Memory.{seen_of};
ghost use Rattle.btr_read.specs.Serves.{Serves};
ghost use Rattle.btr_read.specs.Store.{free_count};
ghost use Rattle.btr_files.specs.Streaming.{without_file, IsPiece, IsReading};

use super::files::{DATA_LEN, Run, SECTORS, data, files, sums};
use super::volume::{DATA, START, Scene, rack_of, root_of, scene_of};
use btr_base::SumKind;
use btr_files::{FileBytes, Piece, next_piece};
use btr_rack::MemRack;
use btr_volume::{TreeRoot, Volume};
use btr_walk::TreeFault;
use std::alloc::{AllocError, Global};
use std::test::Fail;

/// A piece: so many zeros; or bytes by their count, the first and the last of them, with their CRC-32C, or else covered by a checksum or not; or a fault
/// in its place.
#[derive(Clone, Copy, Debug, PartialEq, Eq)]
enum Part {
    Gap(u64),
    Summed(usize, u8, u8),
    Verified(usize, u8, u8),
    Plain(usize, u8, u8),
    Fault(TreeFault),
}

/// A file by its inode and its size; whether it has no checksums, and whether there is a checksum tree.
#[derive(Clone, Copy)]
struct Named {
    ino: u64,
    size: u64,
    nosum: bool,
    summed: bool,
}

fn file(ino: u64, size: u64) -> Named {
    Named {
        ino,
        size,
        nosum: false,
        summed: true,
    }
}

fn part_of(piece: Piece<'_>) -> Part
    requires { IsPiece piece }
{
    match piece {
        Piece::Gap(count) => Part::Gap(count),
        Piece::Bytes {
            bytes,
            verified,
            crc,
        } => {
            let (first, last) = (bytes[0], bytes[bytes.len() - 1]);
            match (verified, crc) {
                (true, Some(_)) => Part::Summed(bytes.len(), first, last),
                (true, None) => Part::Verified(bytes.len(), first, last),
                (false, _) => Part::Plain(bytes.len(), first, last),
            }
        }
    }
}

fn step(
    vol: &mut Volume,
    file: &mut FileBytes,
    rack: &mut MemRack,
) -> Result<Option<Part>, TreeFault>
    requires reading { IsReading (seen_of rack.old) vol.old.store file.old }
    requires free { free_count (without_file vol.old.store file.old) ≡ 24 }
    ensures reading { IsReading (seen_of rack.new) vol.new.store file.new }
    ensures free { free_count (without_file vol.new.store file.new) ≡ 24 }
{
    match next_piece(vol, file, rack) {
        Err(fault) => Err(fault),
        Ok(None) => Ok(None),
        Ok(Some(piece)) => Ok(Some(part_of(piece))),
    }
}

fn collect(
    vol: &mut Volume,
    file: &mut FileBytes,
    rack: &mut MemRack,
    parts: &mut Vec<Part>,
) -> Result<(), AllocError>
    requires reading { IsReading (seen_of rack.old) vol.old.store file.old }
    requires free { free_count (without_file vol.old.store file.old) ≡ 24 }
    ensures reading { IsReading (seen_of rack.new) vol.new.store file.new }
    ensures free { free_count (without_file vol.new.store file.new) ≡ 24 }
{
    for _ in 0..1000 {
        match step(vol, file, rack) {
            Ok(Some(part)) => parts.push(part)?,
            Ok(None) => return Ok(()),
            Err(fault) => {
                parts.push(Part::Fault(fault))?;
                if !matches!(fault, TreeFault::Unread(_, _)) {
                    return Ok(());
                }
            }
        }
    }
    Ok(())
}

/// A filesystem with these files: the kind of its checksums, the runs of them, and the number of the call that fails; 0 is none.
#[derive(Clone, Copy)]
struct Setting<'a> {
    kind: SumKind,
    runs: &'a [Run<'a>],
    failing: u64,
}

/// A scene with the roots of the tree of the files and of that of their checksums.
#[derive(Drop)]
struct Filled {
    scene: Scene,
    files: TreeRoot,
    sums: TreeRoot,
}

fn fill(alloc: Global, setting: &Setting<'_>) -> Result<Filled, Fail>
    ensures serves { IfOk result (λ filled. Serves (seen_of filled.scene.rack) filled.scene.vol.store) }
    ensures free { IfOk result (λ filled. free_count filled.scene.vol.store ≡ 24) }
{
    let files = files(alloc, setting.kind)?;
    let sums = sums(alloc, setting.kind, setting.runs)?;
    let root = root_of(&files);
    let rack = rack_of(alloc, &[&files, &sums], data(alloc)?.as_slice())?;
    Ok(Filled {
        scene: scene_of(alloc, setting.kind, rack, &root, setting.failing)?,
        files: root,
        sums: root_of(&sums),
    })
}

// The pieces of a file in such a filesystem, up to its end or to a fault; behind a read that failed it goes on.
fn parts(alloc: Global, setting: &Setting<'_>, named: Named) -> Result<Vec<Part>, Fail> {
    let filled = fill(alloc, setting)?;
    let sums = if named.summed {
        Some(filled.sums)
    } else {
        None
    };
    let mut scene = filled.scene;
    let mut parts = Vec::new(alloc);
    let mut file = FileBytes::new(filled.files, named.ino, named.size, named.nosum, sums);
    let collected = collect(&mut scene.vol, &mut file, &mut scene.rack, &mut parts);
    file.finish(&mut scene.vol);
    collected?;
    Ok(parts)
}

/// The first three sectors have checksums, and that of the third is wrong.
const THREE: Setting<'static> = Setting {
    kind: SumKind::Crc32c,
    runs: &[Run {
        sector: 0,
        bytes: &[1, 2, 7],
    }],
    failing: 0,
};

const PIECES: [(u64, u64, &[Part]); 9] = [
    (
        257,
        30000,
        &[
            Part::Gap(4096),
            Part::Summed(4096, 1, 1),
            Part::Summed(4096, 2, 2),
            Part::Gap(17712),
        ],
    ),
    (258, 100, &[Part::Verified(5, b'h', b'o'), Part::Gap(95)]),
    (258, 1, &[Part::Verified(1, b'h', b'h')]),
    (259, 5000, &[Part::Gap(4096), Part::Verified(904, 2, 2)]),
    (259, 0, &[]),
    (256, 1 << 60, &[Part::Gap(1 << 60)]),
    (
        260,
        16384,
        &[
            Part::Summed(4096, 1, 1),
            Part::Summed(4096, 2, 2),
            Part::Fault(TreeFault::Lost(DATA + 8192)),
        ],
    ),
    (
        261,
        12288,
        &[
            Part::Summed(4096, 1, 1),
            Part::Summed(4096, 2, 2),
            Part::Fault(TreeFault::Malformed(START + 16384)),
        ],
    ),
    (
        262,
        8192,
        &[
            Part::Verified(5, b'h', b'o'),
            Part::Gap(4091),
            Part::Plain(4096, 4, 4),
        ],
    ),
];

#[test]
fn pieces_of_files(rt: HostRuntime) -> Result<(), Fail> {
    for (ino, size, wanted) in &PIECES {
        let found = parts(rt.alloc(), &THREE, file(*ino, *size))?;
        assert_eq!(rt; found.as_slice(), *wanted, "of {ino}");
    }
    Ok(())
}

const UNSUMMED: [Part; 4] = [
    Part::Plain(4096, 1, 1),
    Part::Plain(4096, 2, 2),
    Part::Plain(4096, 3, 3),
    Part::Plain(4096, 4, 4),
];

#[test]
fn sectors_without_checksums(rt: HostRuntime) -> Result<(), Fail> {
    for (nosum, summed) in [(true, true), (false, false)] {
        let named = Named {
            ino: 260,
            size: 16384,
            nosum,
            summed,
        };
        let found = parts(rt.alloc(), &THREE, named)?;
        assert_eq!(rt; found.as_slice(), UNSUMMED.as_slice());
    }
    Ok(())
}

// One item begins two sectors before the file's extent, and the other ends one sector before its end.
const TWO_RUNS: [Run<'static>; 2] = [
    Run {
        sector: 0,
        bytes: &[1, 2, 3, 4],
    },
    Run {
        sector: 5,
        bytes: &[6, 7],
    },
];

// A sector that was tested by a checksum of a kind.
fn tested(kind: SumKind, byte: u8) -> Part {
    match kind {
        SumKind::Crc32c => Part::Summed(4096, byte, byte),
        SumKind::Xxh64 | SumKind::Sha256 => Part::Verified(4096, byte, byte),
    }
}

#[test]
fn checksums_of_each_kind(rt: HostRuntime) -> Result<(), Fail> {
    for kind in [SumKind::Crc32c, SumKind::Xxh64, SumKind::Sha256] {
        let setting = Setting {
            kind,
            runs: &TWO_RUNS,
            failing: 0,
        };
        let wanted = [
            tested(kind, 3),
            tested(kind, 4),
            Part::Plain(4096, 5, 5),
            tested(kind, 6),
            tested(kind, 7),
            Part::Plain(4096, 8, 8),
        ];
        let found = parts(rt.alloc(), &setting, file(263, 24576))?;
        assert_eq!(rt; found.as_slice(), wanted.as_slice());
    }
    Ok(())
}

#[test]
fn more_checksums_than_are_kept(rt: HostRuntime) -> Result<(), Fail> {
    // One item has those of all sectors; of 32 bytes each 32 are kept.
    let mut bytes = [0; SECTORS as usize];
    for i in 0..SECTORS {
        bytes[i as usize] = i + 1;
    }
    let setting = Setting {
        kind: SumKind::Sha256,
        runs: &[Run {
            sector: 0,
            bytes: &bytes,
        }],
        failing: 0,
    };
    let found = parts(rt.alloc(), &setting, file(264, DATA_LEN))?;
    assert_eq!(rt; found.len(), bytes.len());
    for (part, byte) in found.iter().zip(bytes) {
        assert_eq!(rt; *part, Part::Verified(4096, byte, byte));
    }
    Ok(())
}

// How many pieces of the file 257 come before the block that can't be read where the call of this number fails, and how many behind it.
fn pieces_around(alloc: Global, failing: u64) -> Result<(usize, usize), Fail> {
    let setting = Setting { failing, ..THREE };
    let found = parts(alloc, &setting, file(257, 30000))?;
    for i in 0..found.len() {
        if matches!(found[i], Part::Fault(TreeFault::Unread(_, 0))) {
            return Ok((i, found.len() - i - 1));
        }
    }
    Ok((found.len(), 0))
}

#[test]
fn files_that_cannot_be_read(rt: HostRuntime) -> Result<(), Fail> {
    // The calls from the second on read the three levels to the file's extents, the checksums, and two sectors.
    for (failing, around) in [
        (2, (0, 4)),
        (3, (0, 4)),
        (4, (0, 4)),
        (5, (1, 3)),
        (6, (1, 3)),
        (7, (2, 2)),
        (8, (4, 0)),
    ] {
        assert_eq!(rt; pieces_around(rt.alloc(), failing)?, around, "at {failing}");
    }
    Ok(())
}
