ghost use Rattle.std.specs.Prelude.{◌≡◌, ◌-◌, ◌%◌, ◌<◌, ◌≤◌, [], ◌∷◌, ◌++◌};
ghost use Rattle.btr_pool.specs.Slots.{IsLive, IsFree, with_lent, with_byte};

use crate::{Full, Loan, Pool};
use std::alloc::Global;
use std::process::Abort;
use std::test::Fail;

/// Takes a loan where a slot has to be free.
fn take(rt: &impl Abort, pool: &mut Pool) -> Loan
    ensures was_free { IsFree pool.old result }
    ensures lent { pool.new ≡ with_lent pool.old result }
{
    match pool.take() {
        Ok(loan) => loan,
        Err(Full) => panic!(rt; "no slot is free"),
    }
}

/// Tries to take where no slot may be free.
fn refused(rt: &impl Abort, pool: &mut Pool)
    ensures { pool.new ≡ pool.old }
{
    match pool.take() {
        Ok(loan) => panic!(rt; "lent {loan:?}"),
        Err(Full) => {}
    }
}

/// Tries to take a slot that isn't there or is lent.
fn refused_slot(rt: &impl Abort, pool: &mut Pool, slot: usize)
    ensures { pool.new ≡ pool.old }
{
    match pool.take_slot(slot) {
        Some(loan) => panic!(rt; "lent {loan:?}"),
        None => {}
    }
}

#[test]
fn third_loan_of_two_is_refused(rt: HostRuntime) -> Result<(), Fail> {
    let mut pool = Pool::new(rt.alloc(), 4096, 2)?;
    let first = take(&rt, &mut pool);
    let second = take(&rt, &mut pool);
    refused(&rt, &mut pool);
    pool.give(first);
    let third = take(&rt, &mut pool);
    pool.give(second);
    pool.give(third);
    assert_eq!(rt; pool.free(), 2);
    assert_eq!(rt; pool.size(), 4096);
    Ok(())
}

#[test]
fn slot_keeps_what_was_left(rt: HostRuntime) -> Result<(), Fail> {
    let mut pool = Pool::new(rt.alloc(), 4096, 2)?;
    let loan = take(&rt, &mut pool);
    let slot = loan.slot();
    assert_eq!(rt; pool.bytes(&loan)[7], 0);
    pool.bytes_mut(&loan)[7] = 9;
    pool.give(loan);

    let other = take(&rt, &mut pool);
    assert_ne!(rt; other.slot(), slot, "slots are taken in turn");
    let Some(again) = pool.take_slot(slot) else {
        panic!(rt; "the slot is free");
    };
    let mut buf = [1; 2];
    pool.copy_out(&again, 6, &mut buf);
    assert_eq!(rt; buf, [0, 9]);
    refused_slot(&rt, &mut pool, slot);
    refused_slot(&rt, &mut pool, 2);
    refused_slot(&rt, &mut pool, 64);
    pool.give(again);
    pool.give(other);
    Ok(())
}

/// Which of the loans in hand is given back next.
#[derive(Clone, Copy, Debug)]
enum Order {
    First,
    Middle,
    Last,
}

impl Order {
    fn place(self, len: usize) -> usize
        requires { 0 < len }
        ensures { result < len }
    {
        match self {
            Order::First => 0,
            Order::Middle => len / 2,
            Order::Last => len - 1,
        }
    }
}

/// Writes the number of the slot into its last byte.
fn mark(pool: &mut Pool, loan: &Loan)
    requires live { IsLive pool.old loan.now }
    requires some { 0 < pool.old.size }
    ensures { pool.new ≡ with_byte pool.old loan.now (pool.old.size - 1) (loan.now % 64) }
{
    let last = pool.size() - 1;
    pool.bytes_mut(loan)[last] = (loan.slot() % 64) as u8;
}

fn keep(rt: &impl Abort, loans: &mut Vec<Loan>, loan: Loan)
    ensures { loans.new.items ≡ loans.old.items ++ loan ∷ [] }
{
    if let Err(failed) = loans.push(loan) {
        panic!(rt; "{failed:?}");
    }
}

/// Takes all slots, marks each, and gives them back in this order.
fn lend_all(
    rt: &impl Abort,
    alloc: Global,
    size: usize,
    count: usize,
    order: Order,
) -> Result<(), Fail>
    requires some_bytes { 0 < size }
    requires small { size ≤ 65536 }
    requires some_slots { 0 < count }
    requires few { count ≤ 64 }
{
    let mut pool = Pool::new(alloc, size, count)?;
    let mut loans = Vec::new(alloc);
    'lending: for _ in 0..count {
        let loan = take(rt, &mut pool);
        mark(&mut pool, &loan);
        keep(rt, &mut loans, loan);
    }
    refused(rt, &mut pool);

    'giving: while !loans.is_empty() {
        let place = order.place(loans.len());
        let loan = loans.remove(place);
        let marked = pool.bytes(&loan)[size - 1];
        assert_eq!(rt; usize::from(marked), loan.slot());
        pool.give(loan);
    }
    loans.destroy_empty();
    assert_eq!(rt; pool.free(), count);
    Ok(())
}

#[test]
fn all_slots_are_lent_and_given_back(rt: HostRuntime) -> Result<(), Fail> {
    for size in [1, 65536] {
        for count in [1, 64] {
            for order in [Order::First, Order::Middle, Order::Last] {
                lend_all(&rt, rt.alloc(), size, count, order)?;
            }
        }
    }
    Ok(())
}
