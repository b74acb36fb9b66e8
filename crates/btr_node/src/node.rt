ghost use Rattle.std.specs.Prelude.{◌≡◌, ◌≤◌, length, IfOk, IsSome, Some};
ghost use Rattle.std.specs.Result.{result_ok};
ghost use Rattle.btr_node.specs.Node.{node_of, IsViewOf};

use crate::inner::is_inner;
use crate::leaf::is_leaf;
use crate::table::level;
use crate::{Inner, Leaf, Malformed};

/// A block that keeps the rules of one block.
#[derive(Drop)]
pub enum Node<'a> {
    Leaf(Leaf<'a>),
    Inner(Inner<'a>),
}

impl<'a> Node<'a> {
    /// What a block holds; `Malformed` exactly where it breaks a rule of one block. The block is as long as a node: what
    /// is needed of that is that it has a header's 101 bytes.
    pub fn view(block: &'a [u8]) -> Result<Node<'a>, Malformed>
        requires { 101 ≤ length block.now }
        ensures answer { result_ok result ≡ node_of block.now }
        ensures good { IfOk result (IsViewOf block.now) }
    {
        if is_leaf(block) {
            Ok(Node::Leaf(Leaf::of(block)))
        } else if is_inner(block) {
            Ok(Node::Inner(Inner::of(block)))
        } else {
            Err(Malformed)
        }
    }

    /// What a block holds that is known to be a good one, without testing it again.
    pub fn of(block: &'a [u8]) -> Node<'a>
        requires header { 101 ≤ length block.now }
        requires good { IsSome (node_of block.now) }
        ensures answer { node_of block.now ≡ Some result }
        ensures good { IsViewOf block.now result }
    {
        if level(block) == 0 {
            Node::Leaf(Leaf::of(block))
        } else {
            Node::Inner(Inner::of(block))
        }
    }
}
