// Items and what is shown of them.
use crate::items::write_item;
use btr_base::{Key, SumKind};
use btr_node::LeafItem;
use btr_rack::MemOut;
use btr_text::TextBuffer;
use std::alloc::{AllocError, Global};
use std::process::Abort;
use std::test::Fail;

/// An item, and the lines of its body.
pub(crate) struct Item {
    pub sums: SumKind,
    pub key: (u64, u8, u64),
    pub body: &'static [u8],
    pub text: &'static [u8],
}

// The text of an item behind its first line.
fn show(rt: &impl Abort, alloc: Global, item: &Item) -> Result<(), Fail> {
    let (objectid, kind, offset) = item.key;
    let key = Key {
        objectid,
        kind,
        offset,
    };
    let leaf_item = LeafItem {
        key,
        offset: 1000,
        body: item.body,
    };
    let mut out = MemOut::new(alloc);
    let mut text = TextBuffer::new();
    write_item(item.sums, 3, &leaf_item, &mut text, &mut out).map_err(|_| AllocError)?;
    text.flush(&mut out).map_err(|_| AllocError)?;
    let mut lines = out.text().splitn(2, |b| *b == b'\n');
    let first = lines.next().ok_or("no line")?;
    assert!(rt; first.starts_with(b"\titem 3 key ("));
    assert!(rt; first.contains(&b')'));
    assert_eq!(rt; lines.next().ok_or("no second line")?, item.text);
    Ok(())
}

pub(crate) fn show_all(rt: &impl Abort, alloc: Global, items: &[Item]) -> Result<(), Fail> {
    for item in items {
        show(rt, alloc, item)?;
    }
    Ok(())
}
