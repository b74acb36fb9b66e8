// A node that is read again.
ghost use Rattle.std.specs.Prelude.{◌<◌, ◌≤◌, length, IsTrue, IfOk};
ghost use Rattle.btr_node.specs.Block.{pointers, is_inner};
ghost use Rattle.btr_read.specs.Serves.{Serves};
ghost use Rattle.btr_rack.specs.Rack.{OnlyReads};
ghost use Rattle.btr_read.specs.Store.{SameLoans, free_count};
ghost use Rattle.btr_walk.specs.Le.{want_of};
ghost use Rattle.btr_walk.specs.Reading.{TellsOf, HasCause, HasCauseOf};
ghost use Rattle.btr_walk.specs.Again.{IsFirstBelow, IsNext, Rereads};
ghost use Rattle.btr_walk.specs.Ranks.{FitsNext};

use crate::TreeFault;
use crate::choice::{Part, frame_of};
use crate::finding::child_at;
use crate::frame::{Below, Frame, Todo};
use crate::reading::read_block;
use btr_node::Inner;
use btr_rack::Rack;
use btr_read::Store;

// The next child of a frame, and the frame where more are to come; `None` where the node isn't the one that it was.
fn next_of(block: &[u8], level: u8, frame: &Frame) -> Option<Below>
    requires header { 101 ≤ length block.now }
    requires good { IsTrue (is_inner block.now) }
    requires some { 0 < level }
    ensures { IsNext (pointers block.now) level frame.now result }
{
    let inner = Inner::of(block);
    let count = inner.count();
    if frame.next >= count {
        return None;
    }
    let child = child_at(&inner, frame.next, frame.pointer.up);
    let todo = Todo {
        level: level - 1,
        pointer: child,
    };
    let next = frame.next + 1;
    if next >= frame.end {
        return Some(Below {
            frame: None,
            todo: Some(todo),
        });
    }
    let later = Frame {
        pointer: frame.pointer,
        next,
        end: frame.end,
    };
    Some(Below {
        frame: Some(later),
        todo: Some(todo),
    })
}

// The first child of a part of a node, and the node where more are to come; nothing where the part is empty.
pub(crate) fn first_of(block: &[u8], todo: &Todo, part: Part) -> Below
    requires header { 101 ≤ length block.now }
    requires good { IsTrue (is_inner block.now) }
    requires some { 0 < todo.now.level }
    requires within { part.end ≤ length (pointers block.now) }
    ensures { IsFirstBelow (pointers block.now) todo.now part result }
{
    match frame_of(&todo.pointer, part) {
        None => Below {
            frame: None,
            todo: None,
        },
        Some(frame) => match next_of(block, todo.level, &frame) {
            Some(below) => below,
            None => unreachable!(),
        },
    }
}

/// Reads a node again, and takes its next child. It takes no memory, and four slots are free.
///
/// The faults are those of that one block. Where no read failed since it was read, it is there again.
pub fn read_again<R: Rack>(
    level: u8,
    frame: &Frame,
    rack: &mut R,
    store: &mut Store,
) -> Result<Below, TreeFault>
    requires some { 0 < level }
    requires serves { Serves (R.seen rack.old) store.old }
    requires room { 4 ≤ free_count store.old }
    ensures serves { Serves (R.seen rack.new) store.new }
    ensures reads { OnlyReads (R.seen rack.old) (R.seen rack.new) }
    ensures store { SameLoans store.old store.new }
    ensures next { IfOk result (λ b. FitsNext level frame.now b.frame b.todo) }
    ensures cause { HasCause store.old.layout (R.seen rack.old) (R.seen rack.new) result }
    ensures of_want { HasCauseOf store.old.layout (want_of level frame.now.pointer) (R.seen rack.old) (R.seen rack.new) result }
    ensures content { TellsOf store.old (R.seen rack.old) (R.seen rack.new)
        (λ Is B. Rereads Is B level frame.now result) }
{
    let loan = read_block(level, &frame.pointer, rack, store)?;
    let below = next_of(store.bytes(&loan), level, frame);
    store.give(loan);
    match below {
        Some(below) => Ok(below),
        None => Err(TreeFault::Malformed(frame.pointer.addr)),
    }
}
