// The text of a block.
ghost use Rattle.std.specs.Prelude.{◌≡◌, ◌≤◌, length, IsTrue, IsSome};
ghost use Rattle.btr_node.specs.Block.{is_leaf, is_inner};
ghost use Rattle.btr_node.specs.Node.{node_of};
ghost use Rattle.btr_rack.specs.Out.{Counts};
ghost use Rattle.btr_text.specs.Pieces.{text_of};
ghost use Rattle.btr_block_text.specs.Read.{WritesTo};
ghost use Rattle.btr_block_text.specs.Block as spec;

use crate::items::write_item;
use btr_base::{Header, Key, SumKind};
use btr_node::{Inner, Leaf, Pointer, level};
use btr_rack::{Out, SinkError};
use btr_text::{Piece, TextBuffer};

fn leaf_line(addr: u64, header: &Header) -> [Piece<'static>; 9]
    ensures { text_of result ≡ spec.leaf_line addr header.now }
{
    [
        Piece::Plain(b"leaf "),
        Piece::Decimal(addr),
        Piece::Plain(b" items "),
        Piece::Decimal(header.items as u64),
        Piece::Plain(b" generation "),
        Piece::Decimal(header.generation),
        Piece::Plain(b" owner "),
        Piece::Decimal(header.owner),
        Piece::Plain(b"\n"),
    ]
}

fn node_line(addr: u64, header: &Header) -> [Piece<'static>; 11]
    ensures { text_of result ≡ spec.node_line addr header.now }
{
    [
        Piece::Plain(b"node "),
        Piece::Decimal(addr),
        Piece::Plain(b" level "),
        Piece::Decimal(header.level as u64),
        Piece::Plain(b" items "),
        Piece::Decimal(header.items as u64),
        Piece::Plain(b" generation "),
        Piece::Decimal(header.generation),
        Piece::Plain(b" owner "),
        Piece::Decimal(header.owner),
        Piece::Plain(b"\n"),
    ]
}

#[tactic(auto, unfolding(crate::specs::Block::pointer_line))]
fn pointer_line(key: Key, child: &Pointer) -> [Piece<'static>; 7]
    ensures { text_of result ≡ spec.pointer_line (spec.pointer_to key child.now) }
{
    [
        Piece::Plain(b"\tkey "),
        Piece::Key(key),
        Piece::Plain(b" block "),
        Piece::Decimal(child.addr),
        Piece::Plain(b" gen "),
        Piece::Decimal(child.generation),
        Piece::Plain(b"\n"),
    ]
}

fn write_leaf<O: Out>(
    sums: SumKind,
    addr: u64,
    block: &[u8],
    text: &mut TextBuffer,
    out: &mut O,
) -> Result<(), SinkError>
    requires header { 101 ≤ length block.now }
    requires good { IsTrue (is_leaf block.now) }
    ensures text { WritesTo O.text out.old out.new text.old text.new (spec.leaf_text sums addr block.now) result }
    ensures account { Counts (O.account out.old) (O.account out.new) result }
{
    text.push_all(&leaf_line(addr, &Header::read(sums, block)), out)?;
    let leaf = Leaf::of(block);
    for i in 0..leaf.count() {
        write_item(sums, i, &leaf.item(i), text, out)?;
    }
    Ok(())
}

fn write_inner<O: Out>(
    sums: SumKind,
    addr: u64,
    block: &[u8],
    text: &mut TextBuffer,
    out: &mut O,
) -> Result<(), SinkError>
    requires header { 101 ≤ length block.now }
    requires good { IsTrue (is_inner block.now) }
    ensures text { WritesTo O.text out.old out.new text.old text.new (spec.node_text sums addr block.now) result }
    ensures account { Counts (O.account out.old) (O.account out.new) result }
{
    text.push_all(&node_line(addr, &Header::read(sums, block)), out)?;
    let inner = Inner::of(block);
    for i in 0..inner.count() {
        text.push_all(&pointer_line(inner.key(i), &inner.child(i)), out)?;
    }
    Ok(())
}

/// Writes the text of a block at a logical address, where checksums are of this kind: a line of its header, and then its items or
/// its pointers. The block is as long as a node and keeps the rules of one block. What doesn't fit into the buffer is put
/// on the way; the rest waits in it. The error is the output's: then a first part of what waited and of the text was put, and
/// nothing waits.
pub fn write_block<O: Out>(
    sums: SumKind,
    addr: u64,
    block: &[u8],
    text: &mut TextBuffer,
    out: &mut O,
) -> Result<(), SinkError>
    requires header { 101 ≤ length block.now }
    requires good { IsSome (node_of block.now) }
    ensures text { WritesTo O.text out.old out.new text.old text.new (spec.block_text sums addr block.now) result }
    ensures account { Counts (O.account out.old) (O.account out.new) result }
{
    if level(block) == 0 {
        write_leaf(sums, addr, block, text, out)
    } else {
        write_inner(sums, addr, block, text, out)
    }
}
