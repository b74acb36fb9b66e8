// The validation of a tree block.
ghost use Rattle.std.specs.Prelude.{◌≡◌, ◌<◌, ◌≤◌, ◌+◌, ◌*◌, ◌++◌, length, IfOk, OnOk};
ghost use Rattle.btr_bench.specs.Node.{item_count, entry, leaf, place, objectid_in_turn};

use btr_node::Node;
use std::alloc::{AllocError, Global};

/// The size of a leaf of one item.
pub const SMALLEST: usize = HEADER + ENTRY + BODY;

/// The greatest size of a node.
pub const LARGEST: usize = 65536;

const HEADER: usize = 101;

const COUNT: usize = 96;

const ENTRY: usize = 25;

const BODY: usize = 56;

// How many items fit into a leaf.
fn item_count(size: usize) -> usize
    requires { HEADER ≤ size }
    ensures value { result ≡ item_count size }
    ensures fits { HEADER + 81 * result ≤ size }
{
    (size - HEADER) / (ENTRY + BODY)
}

fn append(block: &mut Vec<u8>, bytes: &[u8]) -> Result<(), AllocError>
    ensures { OnOk result (block.new.items ≡ block.old.items ++ bytes.now) }
{
    block.extend_from_slice(bytes)
}

// Appends entry `i` of the table.
fn push_entry(block: &mut Vec<u8>, size: usize, i: usize) -> Result<(), AllocError>
    requires small { size ≤ LARGEST }
    requires fits { HEADER + 81 * (i + 1) ≤ size }
    ensures { OnOk result (block.new.items ≡ block.old.items ++ entry size i) }
{
    let objectid = 256 + i as u64 / 3;
    let kind = 1 + 12 * (i % 3) as u8;
    let offset = size - HEADER - BODY * (i + 1);
    append(block, &objectid.to_le_bytes())?;
    append(block, &[kind])?;
    append(block, &[0; 8])?;
    append(block, &(offset as u32).to_le_bytes())?;
    append(block, &(BODY as u32).to_le_bytes())
}

/// Makes a leaf of `size` bytes with as many items as fit, whose bodies are zeros. `AllocError`: want of memory.
pub fn leaf(alloc: Global, size: usize) -> Result<Vec<u8>, AllocError>
    requires header { HEADER ≤ size }
    requires small { size ≤ LARGEST }
    ensures value { IfOk result (λ block. block.items ≡ leaf size) }
    ensures len { IfOk result (λ block. length block.items ≡ size) }
{
    let count = item_count(size);
    let mut block = vec![in alloc; 0u8; COUNT]?;
    append(&mut block, &(count as u32).to_le_bytes())?;
    append(&mut block, &[0])?;
    for i in 0..count {
        push_entry(&mut block, size, i)?;
    }
    block.resize(size, 0)?;
    Ok(block)
}

/// Where the leaf changes in a turn: in the offset of the key of an item.
pub fn place(turn: u64, size: usize) -> usize
    requires { SMALLEST ≤ size }
    ensures inside { result < size }
    ensures value { result ≡ place turn size }
{
    let item = (turn % item_count(size) as u64) as usize;
    HEADER + ENTRY * item + 9
}

/// The objectid of an item of a leaf, which is another one in each turn; 0 of a block that is no good leaf or is empty.
pub fn objectid_in_turn(turn: u64, block: &[u8]) -> u64
    requires { HEADER ≤ length block.now }
    ensures { result ≡ objectid_in_turn turn block.now }
{
    let Ok(Node::Leaf(leaf)) = Node::view(block) else {
        return 0;
    };
    let count = leaf.count();
    if count == 0 {
        return 0;
    }
    leaf.key((turn % count as u64) as usize).objectid
}
