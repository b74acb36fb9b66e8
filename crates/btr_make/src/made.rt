// The made volumes.
ghost use Rattle.std.specs.Prelude.{◌≡◌, ◌≤◌, IfOk};
ghost use Rattle.btr_make.specs.Shelf.{standing, IsShelved};

use crate::draft::{Draft, TOP_TREE};
use crate::fault::MakeFault;
use crate::files::{Files, TOP};
use crate::pattern::pattern;
use crate::plan::{ChunkPlan, DATA, METADATA, Plan, RAID1, RAID5, SYSTEM};
use btr_base::{Memory, SumKind};
use btr_rack::MemRack;
use std::alloc::Global;

const MADE: Plan = Plan {
    sums: SumKind::Crc32c,
    incompat: 0x3e1,
    compat_ro: 0,
    images: 3,
    image_len: 134217728,
    supers: &[65536, 67108864],
    system: ChunkPlan {
        start: 1048576,
        length: 4194304,
        kind: SYSTEM | RAID1,
        stripes: &[(1, 1048576), (2, 1048576)],
    },
    metadata: ChunkPlan {
        start: 8388608,
        length: 33554432,
        kind: METADATA | RAID1,
        stripes: &[(1, 8388608), (2, 8388608)],
    },
    data: ChunkPlan {
        start: 67108864,
        length: 67108864,
        kind: DATA | RAID5,
        stripes: &[(1, 75497472), (2, 75497472), (3, 75497472)],
    },
    room: 4194304,
    pointers: 16,
    items: usize::MAX,
};

// How many files each directory has.
const FILES: u64 = 4;

/// The volume of `number` directories, from 1 to 1000, on the shelf of a rack in which nothing is to fail: the images `a`,
/// `b` and `c` of 134217728 bytes, with superblocks at 65536 and 67108864.
///
/// The top directory has the directories `d0000`, `d0001` and so on, each with the files `f0` to `f3`. File j of directory
/// i has 4096j + i bytes, of which byte p is (i + 7j + p) mod 251. The trees have nodes of at most 16 pointers.
pub fn make(alloc: Global, number: u64) -> Result<MemRack, Memory>
    requires least { 1 ≤ number }
    requires most { number ≤ 1000 }
    ensures { IfOk result IsShelved }
{
    Ok(made(alloc, number)?)
}

fn made(alloc: Global, number: u64) -> Result<MemRack, MakeFault>
    ensures { IfOk result IsShelved }
{
    let mut rack = shelf(alloc)?;
    let mut draft = Draft::new(alloc, MADE)?;
    let mut files = Files::new(alloc, TOP_TREE)?;
    let mut addr = MADE.data.start;
    for i in 0..number {
        addr = put_directory(&mut draft, &mut rack, &mut files, i, addr)?;
    }
    draft.plant_top(&mut rack, files)?;
    draft.finish(&mut rack)?;
    Ok(rack)
}

// The three images, all zeros.
fn shelf(alloc: Global) -> Result<MemRack, MakeFault>
    ensures { IfOk result IsShelved }
{
    let mut rack = MemRack::new(alloc);
    rack.add("a", MADE.image_len)?;
    rack.add("b", MADE.image_len)?;
    rack.add("c", MADE.image_len)?;
    Ok(rack)
}

// Directory i with its files, whose extents stand from an address on. It answers the address behind them.
fn put_directory(
    draft: &mut Draft,
    rack: &mut MemRack,
    files: &mut Files,
    i: u64,
    addr: u64,
) -> Result<u64, MakeFault>
    ensures { standing rack.new ≡ standing rack.old }
{
    let dir = i.wrapping_mul(FILES + 1).wrapping_add(TOP + 1);
    files.directory(TOP, &directory_name(i), dir)?;
    let mut next = addr;
    for j in 0..FILES {
        let ino = dir.wrapping_add(j + 1);
        let bytes = pattern(
            draft.alloc,
            i.wrapping_add(7 * j),
            (4096 * j).wrapping_add(i),
        )?;
        files.file(dir, &[b'f', digit(j)], ino)?;
        if j > 0 {
            draft.write_extent(rack, files, ino, 0, next, bytes.as_slice())?;
            next = next.wrapping_add(bytes.len().next_multiple_of(4096) as u64);
        } else if i > 0 {
            files.inline(ino, bytes.as_slice())?;
        }
    }
    Ok(next)
}

// `d` and four digits.
fn directory_name(i: u64) -> [u8; 5] {
    [
        b'd',
        digit(i / 1000),
        digit(i / 100),
        digit(i / 10),
        digit(i),
    ]
}

// The last digit of a number.
fn digit(n: u64) -> u8 {
    b'0' + (n % 10) as u8
}
