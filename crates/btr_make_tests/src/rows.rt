// The rows of stripes with parities.
use btr_make::{RowVolume, row};
use btr_parity::{fold_p, fold_q};
use btr_rack::MemRack;
use std::process::Abort;
use std::test::Fail;

// A page of each device at the same place: the sum of the slices and P, and that of the slices' multiples and Q.
#[derive(Clone, Copy)]
struct Sums {
    p: [u8; 4096],
    q: [u8; 4096],
}

// What a device has in a row: slice i, or P or Q, which follow the slices.
fn part_of(device: usize, row: usize, devices: usize) -> usize {
    let devices = devices.max(1);
    device.wrapping_add(devices).wrapping_sub(row % devices) % devices
}

// Adds a device's page of a row to the sums, where it is part i of the row and there are so many slices.
fn add_page(page: &[u8], part: usize, slices: usize, sums: &mut Sums) -> Result<(), Fail> {
    if page.len() != 4096 {
        return Err("a part of a page")?;
    }
    if part <= slices {
        fold_p(&mut sums.p, page);
    }
    if part > slices {
        fold_p(&mut sums.q, page);
    } else if part < slices && part <= 62 {
        fold_q(&mut sums.q, page, part as u8);
    }
    Ok(())
}

// A page of a row on each device solves the equations of the stripe. Answers whether some byte was written there.
fn solves(
    rt: &impl Abort,
    rack: &MemRack,
    names: &[&str],
    parities: usize,
    row: usize,
    index: u64,
) -> Result<bool, Fail> {
    let mut sums = Sums {
        p: [0; 4096],
        q: [0; 4096],
    };
    let mut written = false;
    for (device, name) in names.iter().enumerate() {
        if let Some(page) = rack.page(name, index) {
            let part = part_of(device, row, names.len());
            add_page(page, part, names.len().saturating_sub(parities), &mut sums)?;
            written = true;
        }
    }
    assert!(rt; sums.p == [0; 4096]);
    assert!(rt; parities == 1 || sums.q == [0; 4096]);
    Ok(written)
}

// The first rows of a chunk that begins at this page of each device; answers how many pages were written.
fn rows_solve(
    rt: &impl Abort,
    rack: &MemRack,
    names: &[&str],
    parities: usize,
    first: u64,
) -> Result<u64, Fail> {
    let mut written = 0u64;
    for row in 0..16 {
        for page in 0..16 {
            let index = first
                .wrapping_add((row as u64).wrapping_mul(16))
                .wrapping_add(page);
            if solves(rt, rack, names, parities, row, index)? {
                written = written.wrapping_add(1);
            }
        }
    }
    Ok(written)
}

// A volume, its images, how many parities a row has, and the first page of a chunk in each image.
type Chunk = (RowVolume, &'static [&'static str], usize, u64);

const CHUNKS: [Chunk; 8] = [
    (RowVolume::Raid5, &["a", "b", "c"], 1, 2560),
    (RowVolume::Rows5, &["a", "b", "c"], 1, 2560),
    (RowVolume::Raid6, &["a", "b", "c", "d"], 2, 2560),
    (RowVolume::Rows6, &["a", "b", "c", "d", "e"], 2, 2560),
    (RowVolume::Rows5, &["a", "b", "c"], 1, 256),
    (RowVolume::Rows5, &["a", "b", "c"], 1, 512),
    (RowVolume::Rows6, &["a", "b", "c", "d", "e"], 2, 256),
    (RowVolume::Rows6, &["a", "b", "c", "d", "e"], 2, 512),
];

#[test]
fn rows_of_stripes(rt: HostRuntime) -> Result<(), Fail> {
    for (which, names, parities, first) in &CHUNKS {
        let rack = row(rt.alloc(), *which)?;
        let written = rows_solve(&rt, &rack, names, *parities, *first)?;
        assert!(rt; written > 0, "{which:?} {first}");
    }
    Ok(())
}
