// The children of blocks.
ghost use Rattle.std.specs.Prelude.{◌≡◌, ◌≤◌, ◌++◌, ◌∷◌, [], filter, length, ◌-◌, IfSome, IsTrue};
ghost use Rattle.std.specs.Prelude.{OnOk, OnSome};
ghost use Rattle.btr_base.specs.Key.{last_key};
ghost use Rattle.btr_node.specs.Block.{pointers, is_inner};
ghost use Rattle.btr_tour.specs.Tour.{first_key, child_pointers, meets_keys};
ghost use Rattle.btr_check_differences.specs.Differing.{AreBelow, items_at, items_below};
ghost use Rattle.btr_check_differences.specs.Reading.{IsReady, Read, world};

use crate::found::Found;
use btr_base::{FIRST_KEY, Key, LAST_KEY, Memory};
use btr_findings::push;
use btr_node::Inner;
use btr_rack::Rack;
use btr_read::Store;
use btr_walk::{BlockPointer, child_at, read_block};

// Whether a block at a pointer may have keys.
fn may_have_keys(pointer: &BlockPointer) -> bool
    ensures { result ≡ meets_keys first_key last_key pointer.now }
{
    let ends_behind = match pointer.up {
        None => true,
        Some(up) => FIRST_KEY.is_before(up),
    };
    let begins_by = match pointer.first {
        None => true,
        Some(first) => !LAST_KEY.is_before(first),
    };
    ends_behind && begins_by
}

// Puts a child behind others, if it may have keys.
fn push_child(children: &mut Vec<BlockPointer>, child: BlockPointer) -> Result<(), Memory>
    ensures { OnOk result (children.new.items
        ≡ children.old.items ++ filter (meets_keys first_key last_key) (child ∷ [])) }
{
    if !may_have_keys(&child) {
        return Ok(());
    }
    push(children, child)
}

// Puts the children of an inner node, of which `up` is the bound, behind others.
fn push_children(
    children: &mut Vec<BlockPointer>,
    block: &[u8],
    up: Option<Key>,
) -> Result<(), Memory>
    requires header { 101 ≤ length block.now }
    requires good { IsTrue (is_inner block.now) }
    ensures { OnOk result (children.new.items
        ≡ children.old.items
        ++ filter (meets_keys first_key last_key) (child_pointers (pointers block.now) up)) }
{
    let inner = Inner::of(block);
    for at in 0..inner.count() {
        push_child(children, child_at(&inner, at, up))?;
    }
    Ok(())
}

// Reads the node of a level at a pointer, and puts its children behind others. `None`: it can't be
// had, or there is no memory.
fn read_children<R: Rack>(
    level: u8,
    pointer: &BlockPointer,
    children: &mut Vec<BlockPointer>,
    rack: &mut R,
    store: &mut Store,
) -> Option<()>
    requires ready { IsReady (world (R.seen rack.old) store.old) }
    requires inner { level ≡ 0 → ⊥ }
    ensures read { Read (λ B. OnSome result (items_below B (level - 1) children.new.items
        ≡ items_below B (level - 1) children.old.items ++ items_at B level pointer.now))
        (world (R.seen rack.old) store.old) (world (R.seen rack.new) store.new) }
{
    match read_block(level, pointer, rack, store) {
        Err(_) => None,
        Ok(loan) => {
            let pushed = push_children(children, store.bytes(&loan), pointer.up);
            store.give(loan);
            match pushed {
                Ok(()) => Some(()),
                Err(Memory) => None,
            }
        }
    }
}

/// The children of some nodes of a level, one after another. `None`: there are too many, one
/// can't be had, or there is no memory.
pub(crate) fn children_of<R: Rack>(
    level: u8,
    block_pointers: &[BlockPointer],
    found: &mut Found,
    rack: &mut R,
    store: &mut Store,
) -> Option<Vec<BlockPointer>>
    requires ready { IsReady (world (R.seen rack.old) store.old) }
    requires inner { level ≡ 0 → ⊥ }
    ensures ranges { found.new.ranges ≡ found.old.ranges }
    ensures read { Read (λ B. IfSome result (λ children. AreBelow B level block_pointers.now children.items))
        (world (R.seen rack.old) store.old) (world (R.seen rack.new) store.new) }
{
    let mut children = Vec::new(found.alloc);
    for pointer in block_pointers {
        match found.spend() {
            None => return None,
            Some(()) => {}
        }
        match read_children(level, pointer, &mut children, rack, store) {
            None => return None,
            Some(()) => {}
        }
    }
    Some(children)
}
