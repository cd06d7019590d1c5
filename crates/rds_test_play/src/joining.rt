use rds_cong::PortMap;
use rds_model::{Entry, Order, Outcome};
use rds_play_pair::{Joint, PairEnd, PairError};
use rds_wire::{Memory, Payload};
use std::alloc::Global;
use std::process::Abort;
use std::test::Fail;

// Two ends, the map of both hosts, and a datagram that the first one sends.
struct Table {
    joint: Joint,
    map: PortMap,
    order: Order,
}

impl Drop for Table {
    fn drop(self) {
        let Self {
            joint: _joint,
            map: _map,
            order: _order,
        } = self;
    }
}

// A socket of the first end sends `hello` to a port of the second.
fn hello(alloc: Global, dport: u16) -> Result<Order, Memory> {
    let payload = Payload::copy_of(alloc, b"hello")?;
    Ok(Order::Send {
        slot: 0,
        sport: 4000,
        dport,
        payload,
    })
}

fn new_table(alloc: Global, dport: u16) -> Result<Table, Memory> {
    let order = hello(alloc, dport)?;
    let map = PortMap::new(alloc)?;
    let joint = Joint::new(alloc, 1, 2, 4, 100)?;
    Ok(Table { joint, map, order })
}

// What is played on a table.
enum Game {
    Delivery,
    Cut,
}

// Plays a game.
fn play(table: &mut Table, game: &Game) -> Result<(), PairError> {
    begin(table)?;
    match game {
        Game::Delivery => deliver(table),
        Game::Cut => deliver_over_a_cut(table),
    }
}

// A frame goes from one end to the other, which passes it.
fn carry(table: &mut Table, from: PairEnd, to: PairEnd) -> Result<(), PairError> {
    table.joint.pull(from, &table.map)?;
    table.joint.feed(to, 10_000)?;
    table.joint.pass(to, Some(3))
}

// The datagram is sent, a stream is opened, and the congestion map goes ahead.
fn begin(table: &mut Table) -> Result<(), PairError> {
    table.joint.order(PairEnd::First, &table.order)?;
    table.joint.open()?;
    carry(table, PairEnd::First, PairEnd::Second)
}

// The datagram goes over, and a map comes back.
fn deliver(table: &mut Table) -> Result<(), PairError> {
    carry(table, PairEnd::First, PairEnd::Second)?;
    carry(table, PairEnd::Second, PairEnd::First)
}

// The stream is cut in the middle of the payload, and the next one carries the datagram again.
fn deliver_over_a_cut(table: &mut Table) -> Result<(), PairError> {
    table.joint.pull(PairEnd::First, &table.map)?;
    table.joint.feed(PairEnd::Second, 50)?;
    table.joint.cut()?;
    table.joint.open()?;
    carry(table, PairEnd::First, PairEnd::Second)?;
    carry(table, PairEnd::First, PairEnd::Second)
}

// The entry at this place of the second end's journal is the delivery to slot 3.
fn assert_delivered(rt: &impl Abort, table: &Table, at: u32) {
    assert!(rt;
        matches!(
            table.joint.journal(PairEnd::Second).at(at),
            Some(Entry::Read {
                outcome: Outcome::Slot(3),
                ..
            })
        )
    );
}

#[test]
fn hello_is_delivered(rt: HostRuntime) -> Result<(), Fail> {
    let mut table = new_table(rt.alloc(), 4001)?;
    assert_eq!(rt; play(&mut table, &Game::Delivery), Ok(()));
    assert_eq!(rt; table.joint.journal(PairEnd::First).len(), 5);
    assert_delivered(&rt, &table, 2);
    Ok(())
}

#[test]
fn hello_is_delivered_once_over_a_cut_in_its_payload(rt: HostRuntime) -> Result<(), Fail> {
    let mut table = new_table(rt.alloc(), 4001)?;
    assert_eq!(rt; play(&mut table, &Game::Cut), Ok(()));
    assert_eq!(rt; table.joint.journal(PairEnd::Second).len(), 6);
    assert_delivered(&rt, &table, 5);
    Ok(())
}

#[test]
fn a_ping_is_answered(rt: HostRuntime) -> Result<(), Fail> {
    let mut table = new_table(rt.alloc(), 0)?;
    assert_eq!(rt; play(&mut table, &Game::Delivery), Ok(()));
    assert_eq!(rt; table.joint.accepted(PairEnd::Second), 1);
    Ok(())
}
