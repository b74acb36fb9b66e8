// A list that grows in pages.
ghost use Rattle.std.specs.Prelude.{◌≡◌, ◌≤◌, OnErr, OnOk, [], ◌∷◌, ◌++◌, slice_get};
ghost use Rattle.btr_scrub.specs.Pages.{AreFull, count_in, items_in};

use btr_base::Memory;
use std::alloc::Global;
use std::marker::Model;
use std::mem;

// How many items a page has.
const PAGE: usize = 4096;

// More items than any memory holds.
const LIMIT: usize = 0x7FFF_FFFF_FFFF_FFFF;

/// A list that is seen as its items. It grows by pages of 4096 items, which stay where they are, so that its items never stand in memory twice.
#[derive(Drop)]
pub(crate) struct Pages<T: Copy + Drop> {
    alloc: Global,
    // The pages that are full.
    full: Vec<Vec<T>>,
    // The items behind them.
    last: Vec<T>,
    // At least as many as there are items.
    len: usize,
}

impl<T: Copy + Drop> Model for Pages<T> {
    ghost use Rattle.std.specs.Prelude.{◌<◌, ◌≤◌, ◌^◌, List};
    ghost use Rattle.btr_scrub.specs.Pages.{AreFull, count_in, items_in};

    ghost Value = { List T };

    ghost view = { λ p. items_in p.full.items p.last.items };

    ghost invariant = { λ p. AreFull p.full.items × (count_in p.full.items p.last.items ≤ p.len) × (p.len < 2 ^ 63) };
}

// The item at a place, if there is one.
fn item_at<T: Copy>(items: &[T], i: usize) -> Option<T>
    ensures { result ≡ slice_get items.now i }
{
    if i < items.len() {
        Some(items[i])
    } else {
        None
    }
}

// Puts an item behind the others. After `Memory` they are as before.
fn grow<T: Drop>(items: &mut Vec<T>, item: T) -> Result<(), Memory>
    ensures grown { OnOk result (items.new.items ≡ items.old.items ++ item ∷ []) }
    ensures refused { OnErr result (items.new.items ≡ items.old.items) }
{
    match items.push(item) {
        Ok(()) => Ok(()),
        Err(_) => Err(Memory),
    }
}

// Where the last page is full, puts it to the others, and begins a new one.
fn make_room<T: Copy + Drop>(
    alloc: Global,
    full: &mut Vec<Vec<T>>,
    last: &mut Vec<T>,
) -> Result<(), Memory>
    requires { AreFull full.old.items }
    ensures full { AreFull full.new.items }
    ensures same { OnOk result (items_in full.new.items last.new.items ≡ items_in full.old.items last.old.items) }
    ensures fewer { OnErr result (count_in full.new.items last.new.items ≤ count_in full.old.items last.old.items) }
{
    if last.len() != PAGE {
        return Ok(());
    }
    let Ok(next) = Vec::with_capacity(alloc, PAGE) else {
        return Err(Memory);
    };
    let page = mem::replace(last, next);
    grow(full, page)
}

impl<T: Copy + Drop> Pages<T> {
    ghost use Rattle.std.specs.Prelude.{◌≡◌, ◌+◌, ◌<◌, ◌≤◌, ◌^◌, [], ◌∷◌, ◌++◌, drop, length, take, slice_get, OnOk};

    /// A list without items.
    pub(crate) fn new(alloc: Global) -> Pages<T>
        ensures { result ≡ [] }
    {
        Pages {
            alloc,
            full: Vec::new(alloc),
            last: Vec::new(alloc),
            len: 0,
        }
    }

    /// Where its memory comes from.
    pub(crate) fn alloc(&self) -> Global {
        self.alloc
    }

    /// Puts an item behind the others. After `Memory` nothing is said of the list.
    pub(crate) fn push(&mut self, item: T) -> Result<(), Memory>
        ensures { OnOk result (self.new ≡ self.old ++ item ∷ []) }
    {
        if self.len >= LIMIT {
            return Err(Memory);
        }
        make_room(self.alloc, &mut self.full, &mut self.last)?;
        self.len += 1;
        grow(&mut self.last, item)
    }

    /// The item at a place, counted from 0, if there is one.
    pub(crate) fn get(&self, i: usize) -> Option<T>
        ensures item { result ≡ slice_get self.now i }
        ensures few { length self.now < 2 ^ 63 }
    {
        let page = i / PAGE;
        if page < self.full.len() {
            item_at(&self.full[page], i % PAGE)
        } else {
            item_at(&self.last, i - self.full.len() * PAGE)
        }
    }

    /// Copies the items from a place on.
    pub(crate) fn copy_out(&self, at: usize, out: &mut [T])
        requires { at + length out.old ≤ length self.now }
        ensures copied { out.new ≡ take (length out.old) (drop at self.now) }
        ensures few { length self.now < 2 ^ 63 }
    {
        let behind = self.len() - at;
        for i in 0..out.len().min(behind) {
            let Some(item) = self.get(at + i) else {
                unreachable!();
            };
            out[i] = item;
        }
    }

    /// How many items there are.
    pub(crate) fn len(&self) -> usize
        ensures len { result ≡ length self.now }
        ensures few { result < 2 ^ 63 }
    {
        self.full.len() * PAGE + self.last.len()
    }
}
