// The greatest item at or below a key.
ghost use Rattle.std.specs.Prelude.{◌≡◌, ◌+◌, ◌<◌, ◌≤◌, length, drop, IsTrue, IfNone, IfSome};
ghost use Rattle.std.specs.List.{HoldsAt};
ghost use Rattle.btr_node.specs.Block.{items, pointers, is_leaf, is_inner};
ghost use Rattle.btr_read.specs.Serves.{Serves};
ghost use Rattle.btr_rack.specs.Rack.{OnlyReads};
ghost use Rattle.btr_read.specs.Store.{free_count};
ghost use Rattle.btr_walk.specs.Le.{below, up_of, le_item, le_child};
ghost use Rattle.btr_walk.specs.Reach.{next_key, sighted_of, FindsAndReaches, Reaches};
ghost use Rattle.btr_walk.specs.Reading.{Tells, TellsOf, HasCause};
ghost use Rattle.std.specs.Borrow.{sem};
ghost use Rattle.std.specs.Prelude.{None, Some};
ghost use Rattle.btr_walk.specs.Le.{tree_item};
ghost use Rattle.btr_walk.specs.Finding.{IsLeAt, LendsItem};
ghost use Rattle.btr_walk.specs.Lending.{EndsWith};
ghost use Rattle.btr_walk.specs.Showing.{item_of, FindsItem, LendsReach, LendsWhere, ReachesItem};

use crate::block_pointer::BlockPointer;
use crate::reading::read_block;
use crate::{Found, Reach, RootPlace, TreeFault};
use btr_base::Key;
use btr_node::{Inner, Leaf};
use btr_rack::Rack;
use btr_read::{Loan, Store};

/// Where the child of pointer `i` stands, `up` being the bound of the node itself: the child's bound is the next pointer's key.
pub fn child_at(inner: &Inner<'_>, i: usize, up: Option<Key>) -> BlockPointer
    requires { i < length inner.now }
    ensures { HoldsAt (λ key_pointer. result ≡ below key_pointer (up_of (drop (i + 1) inner.now) up)) inner.now i }
{
    let key_pointer = inner.child(i);
    let count = inner.count();
    let next = i + 1;
    let up = if next < count {
        Some(inner.key(next))
    } else {
        up
    };
    BlockPointer {
        addr: key_pointer.addr,
        generation: key_pointer.generation,
        first: Some(inner.key(i)),
        up,
    }
}

// The child that leads to the greatest item at or below a key.
fn child_le(block: &[u8], up: Option<Key>, key: Key) -> Option<BlockPointer>
    requires header { 101 ≤ length block.now }
    requires good { IsTrue (is_inner block.now) }
    ensures { result ≡ le_child key (pointers block.now) up }
{
    let inner = Inner::of(block);
    match inner.seek_le(key) {
        None => None,
        Some(last) => Some(child_at(&inner, last, up)),
    }
}

// The place of the greatest item at or below a key.
fn place_le(block: &[u8], key: Key) -> Option<usize>
    requires header { 101 ≤ length block.now }
    requires good { IsTrue (is_leaf block.now) }
    ensures none { IfNone result (le_item key (items block.now) ≡ None) }
    ensures within { IfSome result (λ i. i < length (items block.now)) }
    ensures some { IfSome result (IsLeAt key (items block.now)) }
{
    Leaf::of(block).seek_le(key)
}

// The key of a node's first pointer, or the node's bound.
fn first_pointer_key(block: &[u8], up: Option<Key>) -> Option<Key>
    requires header { 101 ≤ length block.now }
    requires good { IsTrue (is_inner block.now) }
    ensures { result ≡ up_of (pointers block.now) up }
{
    let inner = Inner::of(block);
    if inner.count() == 0 {
        return up;
    }
    Some(inner.key(0))
}

// The key of a leaf's first item, or the leaf's bound.
fn first_item_key(block: &[u8], up: Option<Key>) -> Option<Key>
    requires header { 101 ≤ length block.now }
    requires good { IsTrue (is_leaf block.now) }
    ensures { result ≡ next_key (items block.now) up }
{
    let leaf = Leaf::of(block);
    if leaf.count() == 0 {
        return up;
    }
    Some(leaf.key(0))
}

// The key of the item behind a place, or the leaf's bound.
fn key_behind(block: &[u8], at: usize, up: Option<Key>) -> Option<Key>
    requires header { 101 ≤ length block.now }
    requires good { IsTrue (is_leaf block.now) }
    requires there { at < length (items block.now) }
    ensures { result ≡ next_key (drop (at + 1) (items block.now)) up }
{
    let leaf = Leaf::of(block);
    let count = leaf.count();
    let next = at + 1;
    if next < count {
        Some(leaf.key(next))
    } else {
        up
    }
}

/// Where an item stands: its leaf's address and loan, and its place there.
pub(crate) struct Sighted {
    pub(crate) leaf: u64,
    pub(crate) at: usize,
    pub(crate) loan: Loan,
}

/// Where a lookup ended, and the bound below which lookups end there too.
pub(crate) struct Sought {
    pub(crate) sighted: Option<Sighted>,
    pub(crate) until: Option<Key>,
}

// Goes down to the greatest item at or below a key.
pub(crate) fn seek_le<R: Rack>(
    root: &RootPlace,
    key: Key,
    rack: &mut R,
    store: &mut Store,
) -> Result<Sought, TreeFault>
    requires serves { Serves (R.seen rack.old) store.old }
    requires room { 4 ≤ free_count store.old }
    ensures serves { Serves (R.seen rack.new) store.new }
    ensures reads { OnlyReads (R.seen rack.old) (R.seen rack.new) }
    ensures lent { LendsItem store.old store.new (sighted_of result) }
    ensures cause { HasCause store.old.layout (R.seen rack.old) (R.seen rack.new) result }
    ensures content { TellsOf store.old (R.seen rack.old) (R.seen rack.new)
        (λ Is B. FindsAndReaches Is B root.now key store.new result) }
{
    let mut level = root.level;
    let mut pointer = BlockPointer {
        addr: root.addr,
        generation: root.generation,
        first: None,
        up: None,
    };
    loop {
        let loan = read_block(level, &pointer, rack, store)?;
        if level == 0 {
            let block = store.bytes(&loan);
            return match place_le(block, key) {
                Some(at) => Ok(Sought {
                    until: key_behind(block, at, pointer.up),
                    sighted: Some(Sighted {
                        leaf: pointer.addr,
                        at,
                        loan,
                    }),
                }),
                None => {
                    let until = first_item_key(block, pointer.up);
                    store.give(loan);
                    Ok(Sought {
                        sighted: None,
                        until,
                    })
                }
            };
        }
        let block = store.bytes(&loan);
        match child_le(block, pointer.up, key) {
            None => {
                let until = first_pointer_key(block, pointer.up);
                store.give(loan);
                return Ok(Sought {
                    sighted: None,
                    until,
                });
            }
            Some(below) => {
                store.give(loan);
                pointer = below;
                level -= 1;
            }
        }
    }
}

/// The item at a place of a good leaf, whose address is `leaf`.
pub fn found_at(block: &[u8], leaf: u64, at: usize) -> Found<'_>
    requires header { 101 ≤ length block.now }
    requires good { IsTrue (is_leaf block.now) }
    requires there { at < length (items block.now) }
    ensures { HoldsAt (λ item. tree_item leaf item ≡ item_of result) (items block.now) at }
{
    let items = Leaf::of(block);
    Found {
        key: items.key(at),
        block: leaf,
        body: items.body(at),
    }
}

// Puts a loan into an empty place.
pub(crate) fn keep(place: &mut Option<Loan>, loan: Loan)
    requires { place.old ≡ None }
    ensures { place.new ≡ Some loan }
{
    match place.replace(loan) {
        None => {}
        Some(_) => unreachable!(),
    }
}

/// Finds the greatest item at or below a key, and how far that answer reaches: up to which key the
/// same way leads to the same item, or to none. The loan of the item's leaf is put into `loan`,
/// which stays `None` where there is no item and after a fault. Four slots are free.
///
/// The faults are those of `find_le`.
pub fn find_reach<'e, R: Rack>(
    store: &'e mut Store,
    root: &RootPlace,
    key: Key,
    rack: &mut R,
    loan: &mut Option<Loan>,
) -> Result<Reach<'e>, TreeFault>
    requires serves { Serves (R.seen rack.old) store.old }
    requires room { 4 ≤ free_count store.old }
    requires empty { loan.old ≡ None }
    ensures* after { sem 𝓛 (EndsWith (R.seen rack.new) store.entry loan.new) }
    ensures reads { OnlyReads (R.seen rack.old) (R.seen rack.new) }
    ensures lent { LendsReach result loan.new }
    ensures cause { HasCause store.old.layout (R.seen rack.old) (R.seen rack.new) result }
    ensures reach { Tells store.old.layout (R.seen rack.old) (R.seen rack.new) (λ B. Reaches B root.now key result) }
    ensures content { TellsOf store.old (R.seen rack.old) (R.seen rack.new)
        (λ Is B. ReachesItem Is B root.now key result) }
{
    let Sought { sighted, until } = seek_le(root, key, rack, store)?;
    match sighted {
        None => Ok(Reach { found: None, until }),
        Some(sighted) => {
            let Sighted {
                leaf,
                at,
                loan: taken,
            } = sighted;
            keep(loan, taken);
            let Some(held) = &*loan else {
                unreachable!();
            };
            Ok(Reach {
                found: Some(found_at(store.bytes(held), leaf, at)),
                until,
            })
        }
    }
}

/// Finds the greatest item at or below a key. The loan of its leaf is put into `loan`, which stays `None` where there is
/// no item and after a fault. Four slots are free.
///
/// The faults are those of the one way down the tree: `Lost`, `Unread`, `Unmapped` and `Crosses` of a block of it, and
/// `Malformed` where one breaks a rule or doesn't fit its place.
pub fn find_le<'e, R: Rack>(
    store: &'e mut Store,
    root: &RootPlace,
    key: Key,
    rack: &mut R,
    loan: &mut Option<Loan>,
) -> Result<Option<Found<'e>>, TreeFault>
    requires serves { Serves (R.seen rack.old) store.old }
    requires room { 4 ≤ free_count store.old }
    requires empty { loan.old ≡ None }
    ensures* after { sem 𝓛 (EndsWith (R.seen rack.new) store.entry loan.new) }
    ensures reads { OnlyReads (R.seen rack.old) (R.seen rack.new) }
    ensures lent { LendsWhere result loan.new }
    ensures cause { HasCause store.old.layout (R.seen rack.old) (R.seen rack.new) result }
    ensures content { TellsOf store.old (R.seen rack.old) (R.seen rack.new)
        (λ Is B. FindsItem Is B root.now key result) }
{
    Ok(find_reach(store, root, key, rack, loan)?.found)
}
