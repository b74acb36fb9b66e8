// Each item of whole leaves, with its key.
use super::leaves::{
    CHUNKS_BODIES, CHUNKS_ROWS, CHUNKS_TABLE, FILES_BODIES, FILES_ROWS, FILES_TABLE, ROOTS_BODIES,
    ROOTS_ROWS, ROOTS_TABLE, Row,
};
use btr_base::{Key, SumKind, u32_at};
use btr_items::{Form, item_fits};
use std::process::Abort;
use std::test::Fail;

// The size of a leaf, of its header and of an item's entry.
const LEAF: usize = 4096;

const HEADER: usize = 101;

const ENTRY: usize = 25;

fn check(rt: &impl Abort, table: &[u8], bodies: &[u8], rows: &[Row]) -> Result<(), Fail> {
    assert!(rt; bodies.len() <= LEAF);
    let front = LEAF - bodies.len();
    let mut seen = 0usize;
    for (entry, row) in table.chunks_exact(ENTRY).zip(rows) {
        assert_eq!(rt; entry.len(), ENTRY);
        let key = Key::read(entry);
        let (offset, size) = (u32_at(entry, 17) as usize, u32_at(entry, 21) as usize);
        assert_eq!(rt; (key.objectid, key.kind, key.offset), (row.0, row.1, row.2));
        assert_eq!(rt; (offset, size), (row.3, row.4));
        let at = (HEADER + offset).checked_sub(front).ok_or("offset")?;
        let body = bodies.get(at..at + size).ok_or("body")?;
        assert_eq!(rt; Form::of_type(key.kind), row.5, "{key:?}");
        assert!(rt; item_fits(SumKind::Crc32c, key, body), "{key:?}");
        seen = seen.saturating_add(1);
    }
    assert_eq!(rt; seen, rows.len());
    Ok(())
}

#[test]
fn whole_leaves(rt: HostRuntime) -> Result<(), Fail> {
    check(&rt, ROOTS_TABLE, ROOTS_BODIES, &ROOTS_ROWS)?;
    check(&rt, FILES_TABLE, FILES_BODIES, &FILES_ROWS)?;
    check(&rt, CHUNKS_TABLE, CHUNKS_BODIES, &CHUNKS_ROWS)
}
