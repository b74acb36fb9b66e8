// Names that wait, and whose claims came ascending.
ghost use Rattle.std.specs.Prelude.{◌≡◌, ◌+◌, ◌^◌, ◌<◌, ◌≤◌, ◌==◌, [], ◌∷◌, ◌++◌, All, filter, length, take, drop, true};
ghost use Rattle.std.specs.Prelude.{IfOk, IfSome, IfNone, OnOk, OnErr, if◌then◌else◌, option_map};
ghost use Rattle.std.specs.FinMap as map;
ghost use Rattle.std.specs.FinMap.{find};
ghost use Rattle.std.specs.List.{list_any};
ghost use Rattle.btr_check_names.specs.Pairs.{claim_cmp, fits};
ghost use Rattle.btr_check_names.specs.Slots.{AllBelow, Ascends, HasClaim, HasNone, IsInside, IsLaid, IsNext, listed, waits};

use crate::claim::Claim;
use crate::slot::Slot;
use btr_base::Memory;
use std::alloc::Global;
use std::marker::Model;

// So many names wait in a list at most: each place among their bytes is then below 2 ^ 32.
const MOST: usize = 16_777_216;

// So many names that wait no more are left in a list where others wait.
const ROOM: usize = 1024;

/// Names that wait for the other item that is to give them, whose claims came ascending: a list of slots of 32 bytes, and the bytes of all
/// names one behind another. What waits no more is marked, and let go with others at once.
#[derive(Drop)]
pub(crate) struct Ascending {
    alloc: Global,
    slots: Vec<Slot>,
    names: Vec<u8>,
    // How many slots are marked. Only when what waits moves together depends on it.
    gone: usize,
}

impl Model for Ascending {
    ghost use Rattle.std.specs.FinMap.{FinMap, from_entries};
    ghost use Rattle.btr_check_names.specs.Pairs.{Half, claim_cmp, coded_waiting};

    ghost Value = { FinMap claim_cmp Half };

    ghost coded = { coded_waiting };

    ghost use Rattle.btr_check_names.specs.Slots.{IsLaid, listed};

    ghost view = { λ a. from_entries (listed a.names.items a.slots.items) };

    ghost invariant = { λ a. IsLaid a.names.items a.slots.items };
}

impl Ascending {
    /// No name waits.
    pub(crate) fn new(alloc: Global) -> Ascending
        ensures { result ≡ map.empty }
    {
        Ascending {
            alloc,
            slots: Vec::new(alloc),
            names: Vec::new(alloc),
            gone: 0,
        }
    }

    /// Whether no name waits.
    pub(crate) fn is_empty(&self) -> bool
        ensures { result ≡ (map.len self.now == 0) }
    {
        !any_waits(&self.slots)
    }

    /// An item gives a name: where one waits at its claim, that is let go, and the answer is whether it is the other item with the same name.
    /// `Memory`: there was no memory to let it go; then nothing waits.
    pub(crate) fn meet(
        &mut self,
        claim: &Claim,
        is_first: bool,
        name: &[u8],
    ) -> Result<Option<bool>, Memory>
        ensures found { IfOk result (λ fit. fit ≡ option_map (λ half. fits half is_first name.now) (map.get self.old claim.now)) }
        ensures left { OnOk result (self.new ≡ map.remove self.old claim.now) }
        ensures err { OnErr result (self.new ≡ map.empty) }
    {
        let fit = let_go(&mut self.slots, &self.names, claim, is_first, name);
        if fit.is_some() {
            self.gone = self.gone.saturating_add(1);
            self.tidy()?;
        }
        Ok(fit)
    }

    /// A name waits, if its claim is above all others and a slot can say so; the answer is whether it does. `Memory`: there is no memory for
    /// it; then all is as it was.
    pub(crate) fn push(
        &mut self,
        claim: &Claim,
        is_first: bool,
        name: &[u8],
    ) -> Result<bool, Memory>
        ensures taken { IfOk result (λ taken. self.new
            ≡ (if taken then map.insert self.old claim.now (record { is_first = is_first; name = name.now }) else self.old)) }
        ensures err { OnErr result (self.new ≡ self.old) }
    {
        let Some(slot) = next_slot(&self.slots, self.names.len(), claim, is_first, name.len())
        else {
            return Ok(false);
        };
        put(&mut self.slots, &mut self.names, slot, name)?;
        Ok(true)
    }

    // What waits no more makes room, if it is all or much of the list. `Memory`: there was no memory for that; then nothing waits.
    fn tidy(&mut self) -> Result<(), Memory>
        ensures ok { OnOk result (self.new ≡ self.old) }
        ensures err { OnErr result (self.new ≡ map.empty) }
    {
        let count = self.slots.len();
        if self.gone < count && (self.gone < ROOM || self.gone < count / 4) {
            return Ok(());
        }
        self.gone = 0;
        if gather(self.alloc, &mut self.slots, &mut self.names).is_err() {
            self.slots.clear();
            self.names.clear();
            return Err(Memory);
        }
        Ok(())
    }
}

// Whether a name waits.
fn any_waits(slots: &[Slot]) -> bool
    ensures { result ≡ list_any waits slots.now }
{
    slots.iter().any(|slot| slot.waits())
}

// Where the slot of a claim is.
fn place(slots: &[Slot], claim: &Claim) -> Option<usize>
    requires { Ascends slots.now }
    ensures found { IfSome result (HasClaim slots.now claim.now) }
    ensures absent { IfNone result (HasNone slots.now claim.now) }
{
    if is_above(claim, slots) {
        return None;
    }
    match slots.binary_search_by_key(claim, |slot| slot.claim()) {
        Ok(at) => Some(at),
        Err(_) => None,
    }
}

// Where a name waits at a claim, it does no more, and the answer is whether it is the same name of the other item.
fn let_go(
    slots: &mut [Slot],
    names: &[u8],
    claim: &Claim,
    is_first: bool,
    name: &[u8],
) -> Option<bool>
    requires laid { IsLaid names.now slots.old }
    ensures laid { IsLaid names.now slots.new }
    ensures found { result ≡ option_map (λ half. fits half is_first name.now) (find claim_cmp claim.now (listed names.now slots.old)) }
    ensures left { map.from_entries {R = claim_cmp} (listed names.now slots.new) ≡ map.remove (map.from_entries (listed names.now slots.old)) claim.now }
{
    let Some(at) = place(slots, claim) else {
        return None;
    };
    if !slots[at].waits() {
        return None;
    }
    let fit = slots[at].fits(names, is_first, name);
    slots[at].let_go();
    Some(fit)
}

// Whether a claim is above those of all slots.
fn is_above(claim: &Claim, slots: &[Slot]) -> bool
    requires { Ascends slots.now }
    ensures { result ≡ true → AllBelow slots.now claim.now }
{
    match slots.last() {
        None => true,
        Some(last) => last.claim().cmp(claim).is_lt(),
    }
}

// The slot of a name that comes behind all others, whose bytes are to lie from `end` on; `None` where it can't be kept in a list.
fn next_slot(slots: &[Slot], end: usize, claim: &Claim, is_first: bool, len: usize) -> Option<Slot>
    requires { Ascends slots.now }
    ensures slot { IfSome result (λ slot. slot ≡ record { claim = claim.now; is_first = is_first; at = end; len = len }) }
    ensures fits { IfSome result (λ _. IsNext slots.now claim.now len) }
{
    if slots.len() >= MOST || !is_above(claim, slots) {
        return None;
    }
    let Ok(at) = u32::try_from(end) else {
        return None;
    };
    Slot::new(claim, is_first, at, len)
}

// A slot and its name come behind all others. `Memory`: there is no memory for them; then all is as it was.
fn put(slots: &mut Vec<Slot>, names: &mut Vec<u8>, slot: Slot, name: &[u8]) -> Result<(), Memory>
    ensures ok { OnOk result ((slots.new.items ≡ slots.old.items ++ slot ∷ []) × (names.new.items ≡ names.old.items ++ name.now)) }
    ensures err { OnErr result ((slots.new.items ≡ slots.old.items) × (names.new.items ≡ names.old.items)) }
{
    if slots.reserve(1).is_err() || names.extend_from_slice(name).is_err() {
        return Err(Memory);
    }
    match slots.push(slot) {
        Ok(()) => Ok(()),
        Err(_) => unreachable!(),
    }
}

// Lets go of what waits no more, and moves together what waits. `Memory`: there is no memory for its names; then nothing is said of it.
fn gather(alloc: Global, slots: &mut Vec<Slot>, names: &mut Vec<u8>) -> Result<(), Memory>
    requires { IsLaid names.old.items slots.old.items }
    ensures laid { OnOk result (IsLaid names.new.items slots.new.items) }
    ensures same { OnOk result (listed names.new.items slots.new.items ≡ listed names.old.items slots.old.items) }
{
    drop_gone(slots);
    if slots.is_empty() {
        names.clear();
        return Ok(());
    }
    slots.shrink_to_fit();
    *names = moved(alloc, slots, names)?;
    Ok(())
}

// Lets go of the slots whose names wait no more.
fn drop_gone(slots: &mut Vec<Slot>)
    ensures { slots.new.items ≡ filter waits slots.old.items }
{
    slots.retain(|slot| slot.waits());
}

// The names of some slots, one behind another, where the slots then say that they are. `Memory`: there is no memory for them.
fn moved(alloc: Global, slots: &mut [Slot], names: &[u8]) -> Result<Vec<u8>, Memory>
    requires ascends { Ascends slots.old }
    requires inside { All (IsInside names.now) slots.old }
    requires few { length slots.old ≤ 16777216 }
    ensures laid { IfOk result (λ kept. IsLaid kept.items slots.new) }
    ensures same { IfOk result (λ kept. listed kept.items slots.new ≡ listed names.now slots.old) }
{
    let mut kept = Vec::new(alloc);
    let mut next = 0;
    while next < slots.len() {
        move_name(&mut slots[next], names, &mut kept)?;
        next += 1;
    }
    Ok(kept)
}

// The name of a slot comes behind some that are kept, and the slot says so. `Memory`: there is no memory for it.
fn move_name(slot: &mut Slot, names: &[u8], kept: &mut Vec<u8>) -> Result<(), Memory>
    requires inside { IsInside names.now slot.old }
    requires few { length kept.old.items < 2 ^ 32 }
    ensures slot { OnOk result (slot.new ≡ record { claim = slot.old.claim; is_first = slot.old.is_first; at = length kept.old.items; len = slot.old.len }) }
    ensures kept { OnOk result (kept.new.items ≡ kept.old.items ++ take slot.old.len (drop slot.old.at names.now)) }
    ensures short { slot.old.len ≤ 255 }
{
    let at = kept.len() as u32;
    let name = slot.name(names);
    if kept.extend_from_slice(name).is_err() {
        return Err(Memory);
    }
    slot.move_to(at);
    Ok(())
}
