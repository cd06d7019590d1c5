//! Messages that leave the store.
ghost use Rattle.std.specs.Prelude.{◌≡◌, ◌+◌, ◌≤◌, ◌<◌, ◌==◌, cond, [], length, OnOk};
ghost use Rattle.std.specs.List.{All};
ghost use Rattle.rds_msgs.specs.Messages.{messages_from};

use rds_model::{NO_SLOT, Target};
use rds_msgs::{MAX_MESSAGES, Msg, Steps, Store};
use rds_wire::Memory;
use std::alloc::Global;
use std::marker::Brand;
use std::process::Abort;
use std::sync::ledger::{Blank, Ledger};
use std::test::Fail;

/// Appends a message of as many bytes as its port has hundreds.
fn accept(store: &mut Store, num: u64, slot: u16, dport: u16) -> Result<(), Memory>
    requires { All (λ (k : Msg). k.num < num) store.old.messages }
    ensures above { OnOk result (All (λ (k : Msg). k.num < num + 1) store.new.messages) }
    ensures from { OnOk result (length (messages_from 1 store.new.messages) ≤ length (messages_from 1 store.old.messages) + cond (slot == 1) 1 0) }
{
    store.reserve(1)?;
    if store.len() < MAX_MESSAGES && (slot < store.slots() || slot == NO_SLOT) {
        let len = u32::from(dport / 100);
        store.append(Msg {
            num,
            place: 7,
            slot,
            dport,
            len,
        });
    }
    Ok(())
}

/// Appends messages 1 to 5: of slot 0 to ports 400, 500 and 400, of slot 1 to port 400, and a pong.
fn fill(store: &mut Store) -> Result<(), Memory>
    requires { All (λ (k : Msg). k.num < 1) store.old.messages }
{
    accept(store, 1, 0, 400)?;
    accept(store, 2, 0, 500)?;
    accept(store, 3, 1, 400)?;
    accept(store, 4, 0, 400)?;
    accept(store, 5, NO_SLOT, 900)
}

/// A store of these messages, two of which are pulled.
fn five(alloc: Global) -> Result<Store, Memory> {
    let mut store = Store::new(alloc, 2)?;
    fill(&mut store)?;
    pull(&mut store);
    pull(&mut store);
    Ok(store)
}

/// Pulls the next message, and gives its number, or 0 where all are pulled.
fn pull(store: &mut Store) -> u64 {
    let Some(m) = store.next_to_pull() else {
        return 0;
    };
    let num = m.num;
    store.mark_pulled();
    num
}

/// Whether these are the messages of slot 0 to port 400.
fn covers(alloc: Global, store: &Store, numbers: &[u64]) -> bool {
    let mut out = Vec::new(alloc);
    store.covered(0, &Target::Port(400), &mut out).is_ok() && out.as_slice() == numbers
}

/// Cancels these messages and then those of slot 1: how many bytes each time, and which message is pulled next.
fn cancels<L: Ledger>(store: &mut Store, steps: &mut Steps<L>) -> [u64; 4] {
    let port = store.cancel(0, 400, steps);
    let third = pull(store);
    let slot = store.cancel_all(1, steps);
    [port, third, slot, pull(store)]
}

fn cancelling<L: Ledger>(rt: &impl Abort, alloc: Global, store: &mut Store, blank: Blank)
    requires name { blank.name ≡ L.name }
    requires parts { blank.parts ≡ L.parts }
    requires whole { 0 < L.parts }
{
    let mut steps = Steps::<L>::new(blank);
    assert!(rt; covers(alloc, store, &[1, 4]));
    assert!(rt;
        cancels(store, &mut steps) == [8, 3, 4, 5],
        "2 stays pulled"
    );
    assert!(rt; store.len() == 2);
}

/// Takes out the first message where it is acknowledged, and gives its number, or 0 where it stays.
fn pop<L: Ledger>(store: &mut Store, upto: u64, steps: &mut Steps<L>) -> u64
    ensures { steps.new ≡ steps.old + 1 }
{
    let Some(m) = store.pop_acked(upto, steps) else {
        return 0;
    };
    m.num
}

/// What leaves where 0 messages and then 2 are acknowledged, and what is pulled next, before and after a reset.
fn acknowledges<L: Ledger>(store: &mut Store, steps: &mut Steps<L>) -> [u64; 4] {
    let none = pop(store, 0, steps);
    let first = pop(store, 2, steps);
    let third = pull(store);
    store.reset();
    [none, first, third, pull(store)]
}

fn acknowledging<L: Ledger>(rt: &impl Abort, store: &mut Store, blank: Blank)
    requires name { blank.name ≡ L.name }
    requires parts { blank.parts ≡ L.parts }
    requires whole { 0 < L.parts }
{
    let mut steps = Steps::<L>::new(blank);
    assert!(rt;
        acknowledges(store, &mut steps) == [0, 1, 3, 2],
        "2 stays pulled"
    );
}

/// Appends 100,000 messages of slot 0, and three of slot 1.
fn fill_many(store: &mut Store) -> Result<(), Memory>
    requires { store.old.messages ≡ [] }
    ensures { OnOk result (length (messages_from 1 store.new.messages) ≤ 3) }
{
    for num in 1..100_001 {
        accept(store, num, 0, 400)?;
    }
    accept(store, 100_001, 1, 400)?;
    accept(store, 100_002, 1, 400)?;
    accept(store, 100_003, 1, 400)
}

/// Cancels those of slot 1, by four steps at most.
fn cancel_three<L: Ledger>(store: &mut Store, steps: &mut Steps<L>) -> u64
    requires three { length (messages_from 1 store.old.messages) ≤ 3 }
    ensures cost { steps.new ≤ steps.old + 4 }
{
    store.cancel(1, 400, steps)
}

/// What leaves where 2 messages are acknowledged three times, by three steps.
fn pop_three<L: Ledger>(store: &mut Store, steps: &mut Steps<L>) -> [u64; 3]
    ensures cost { steps.new ≡ steps.old + 3 }
{
    [
        pop(store, 2, steps),
        pop(store, 2, steps),
        pop(store, 2, steps),
    ]
}

fn counting<L: Ledger>(rt: &impl Abort, store: &mut Store, blank: Blank)
    requires three { length (messages_from 1 store.old.messages) ≤ 3 }
    requires name { blank.name ≡ L.name }
    requires parts { blank.parts ≡ L.parts }
    requires whole { 0 < L.parts }
{
    let mut steps = Steps::<L>::new(blank);
    assert!(rt; cancel_three(store, &mut steps) == 12);
    assert!(rt; store.len() == 100_000);
    assert!(rt; pop_three(store, &mut steps) == [1, 2, 0]);
}

#[test]
fn cancelled_messages_leave(rt: HostRuntime) -> Result<(), Fail> {
    let mut store = five(rt.alloc())?;
    cancelling::<Brand>(&rt, rt.alloc(), &mut store, Blank::new(1));
    Ok(())
}

#[test]
fn acknowledged_messages_leave(rt: HostRuntime) -> Result<(), Fail> {
    let mut store = five(rt.alloc())?;
    acknowledging::<Brand>(&rt, &mut store, Blank::new(1));
    Ok(())
}

#[test]
fn a_cancellation_visits_the_messages_of_its_slot(rt: HostRuntime) -> Result<(), Fail> {
    let mut store = Store::new(rt.alloc(), 2)?;
    fill_many(&mut store)?;
    counting::<Brand>(&rt, &mut store, Blank::new(1));
    Ok(())
}
