// The items of the checksum tree.
use crate::draft::SECTOR;
use btr_base::{Sum, SumKind};
use btr_items::item::EXTENT_CSUM;
use btr_make_blocks::{Body, Items, bodies};
use std::alloc::{AllocError, Global};
use std::collections::BTreeMap;

// The objectid of all checksums: minus 10.
const CHECKSUMS: u64 = 0xffff_ffff_ffff_fff6;

// An item has at most about this many bytes.
const MAX_SIZE: usize = 8192;

/// The items of these checksums: one for each run of consecutive sectors, unless it is long.
pub(crate) fn sum_items(
    alloc: Global,
    kind: SumKind,
    sums: &BTreeMap<u64, Sum>,
) -> Result<Items, AllocError> {
    let mut items = Items::new(alloc);
    let mut start = 0;
    let mut end = 0;
    let mut body = Body::new(alloc);
    for (addr, sum) in sums {
        if *addr != end || body.len() >= MAX_SIZE {
            put_run(&mut items, start, body)?;
            start = *addr;
            body = Body::new(alloc);
        }
        body = bodies::with_sum(body, kind, sum)?;
        end = addr.wrapping_add(SECTOR as u64);
    }
    put_run(&mut items, start, body)?;
    Ok(items)
}

// Puts the item of a run, unless it is empty.
fn put_run(items: &mut Items, start: u64, body: Body) -> Result<(), AllocError> {
    if body.is_empty() {
        return Ok(());
    }
    items.put(CHECKSUMS, EXTENT_CSUM, start, body)
}
