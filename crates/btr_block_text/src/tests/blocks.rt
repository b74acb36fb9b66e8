// The text of whole blocks.
use crate::write_block;
use btr_base::SumKind;
use btr_node::Node;
use btr_rack::{MemOut, SinkError};
use btr_text::TextBuffer;
use std::alloc::{AllocError, Global};
use std::process::Abort;
use std::test::Fail;

// A leaf of 256 bytes: checksums of two sectors, and an item of another type.
const LEAF: &[u8; 256] =
    b"\0\0\0\0\0\0\0\0\0\0\0\0\0\0\0\0\0\0\0\0\0\0\0\0\0\0\0\0\0\0\0\0\0\0\0\0\0\0\0\0\0\0\0\0\0\0\0\0\0\0!\0\0\0\0\0\0\0\0\0\0\0\0\0\0\0\0\0\0\0\0\0\0\0\0\0\0\0\0\0\x07\0\0\0\0\0\0\0\x07\0\0\0\0\0\0\0\x02\0\0\0\0\xf6\xff\xff\xff\xff\xff\xff\xff\x80\0\0\0\x01\0\0\0\0\x93\0\0\0\x08\0\0\0\xf7\xff\xff\xff\xff\xff\xff\xffM\x01\0\0\0\0\0\0\0\x91\0\0\0\x02\0\0\0\0\0\0\0\0\0\0\0\0\0\0\0\0\0\0\0\0\0\0\0\0\0\0\0\0\0\0\0\0\0\0\0\0\0\0\0\0\0\0\0\0\0\0\0\0\0\0\0\0\0\0\0\0\0\0\0\0\0\0\0\0\0\0\0\0\0\0\0\0\0\0\0\0\0\0\0\0\0\0\0\0\0\0\0\0\0\0\0\0\0\0\0\0\0\0\xab\0\x01\x01\x01\x01\x01\x01\x01\x01";

const LEAF_TEXT: &[u8] =
    b"leaf 2162688 items 2 generation 7 owner 7\n\titem 0 key (18446744073709551606 EXTENT_CSUM 16777216) itemoff 147 itemsize 8\n\t\trange start 16777216 end 16785408 length 8192\n\titem 1 key (18446744073709551607 UNKNOWN.77 1) itemoff 145 itemsize 2\n\t\traw ab00\n";

// A node of 256 bytes with two pointers.
const NODE: &[u8; 256] =
    b"\0\0\0\0\0\0\0\0\0\0\0\0\0\0\0\0\0\0\0\0\0\0\0\0\0\0\0\0\0\0\0\0\0\0\0\0\0\0\0\0\0\0\0\0\0\0\0\0\0\0 \0\0\0\0\0\0\0\0\0\0\0\0\0\0\0\0\0\0\0\0\0\0\0\0\0\0\0\0\0\t\0\0\0\0\0\0\0\x05\0\0\0\0\0\0\0\x02\0\0\0\x01\0\x01\0\0\0\0\0\0\x01\0\0\0\0\0\0\0\0\0@ \0\0\0\0\0\x08\0\0\0\0\0\0\0\x01\x01\0\0\0\0\0\0`\x02\0\0\0\0\0\0\0\0\x80 \0\0\0\0\0\t\0\0\0\0\0\0\0\0\0\0\0\0\0\0\0\0\0\0\0\0\0\0\0\0\0\0\0\0\0\0\0\0\0\0\0\0\0\0\0\0\0\0\0\0\0\0\0\0\0\0\0\0\0\0\0\0\0\0\0\0\0\0\0\0\0\0\0\0\0\0\0\0\0\0\0\0\0\0\0\0\0\0\0\0\0\0\0\0\0\0\0\0\0\0\0\0";

const NODE_TEXT: &[u8] =
    b"node 2097152 level 1 items 2 generation 9 owner 5\n\tkey (256 INODE_ITEM 0) block 2113536 gen 8\n\tkey (257 DIR_INDEX 2) block 2129920 gen 9\n";

fn shows(
    rt: &impl Abort,
    alloc: Global,
    addr: u64,
    block: &[u8; 256],
    expected: &[u8],
) -> Result<(), Fail> {
    let mut out = MemOut::new(alloc);
    let mut text = TextBuffer::new();
    assert!(rt; Node::view(block).is_ok());
    write_block(SumKind::Crc32c, addr, block, &mut text, &mut out).map_err(|_| AllocError)?;
    text.flush(&mut out).map_err(|_| AllocError)?;
    assert_eq!(rt; out.text(), expected);
    Ok(())
}

#[test]
fn leaf_and_node(rt: HostRuntime) -> Result<(), Fail> {
    shows(&rt, rt.alloc(), 2162688, LEAF, LEAF_TEXT)?;
    shows(&rt, rt.alloc(), 2097152, NODE, NODE_TEXT)
}

// An output that fails where the buffer is full: what waited is gone, and the text stops there.
#[test]
fn output_fails(rt: HostRuntime) -> Result<(), Fail> {
    let mut out = MemOut::new(rt.alloc());
    out.fail_call(2).map_err(|_| AllocError)?;
    let mut text = TextBuffer::new();
    assert!(rt; Node::view(LEAF).is_ok());
    let mut end = Ok(());
    for _ in 0..100 {
        end = write_block(SumKind::Crc32c, 2162688, LEAF, &mut text, &mut out);
        if end.is_err() {
            break;
        }
    }
    assert_eq!(rt; end, Err(SinkError::Failed));
    assert!(rt; out.text().len() > 4000);
    assert!(rt; out.text().len() <= 4096);
    assert!(rt; out.text().starts_with(LEAF_TEXT));
    text.flush(&mut out).map_err(|_| AllocError)?;
    assert!(rt; out.text().len() <= 4096);
    Ok(())
}
