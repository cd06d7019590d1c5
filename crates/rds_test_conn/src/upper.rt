//! What a caller sees of a connection: its counts, its frames and what waits.
ghost use Rattle.std.specs.Prelude.{◌≤◌};
ghost use Rattle.rds_wire.specs.declared.kind.TheConstants.{MAX_LENGTH};

use crate::steps::{feed, header, opened, pass, send, unused};
use rds_cong::PortMap;
use rds_conn::{Conn, ConnError, Freed, Out, Pulled};
use rds_model::Order;
use rds_wire::encode;
use std::alloc::Global;

fn close(conn: &mut Conn) -> Result<(), ConnError> {
    conn.reserve()?;
    if conn.slots() > 0 {
        conn.order_uncounted(Order::CloseSocket { slot: 0 });
    }
    Ok(())
}

// What the socket of slot 0 has unacknowledged.
fn unacked(conn: &Conn) -> u64 {
    if conn.slots() > 0 {
        conn.unacked_bytes(0)
    } else {
        0
    }
}

// How many datagrams were accepted, with what is unacknowledged then, after the socket was closed, and after its bytes were freed.
type Counted = ((u64, u64), u64, Option<Freed>, u64);

fn counted_on(conn: &mut Conn, alloc: Global) -> Result<Counted, ConnError> {
    send(conn, alloc)?;
    send(conn, alloc)?;
    let sent = (conn.accepted(), unacked(conn));
    close(conn)?;
    let closed = unacked(conn);
    let freed = conn.take_freed();
    Ok((sent, closed, freed, unacked(conn)))
}

fn counted(alloc: Global) -> Result<Counted, ConnError> {
    let mut kept = unused(alloc)?;
    counted_on(&mut kept.conn, alloc)
}

#[test]
fn bytes_that_were_taken_back_are_not_unacked(rt: HostRuntime) {
    let freed = Some(Freed { slot: 0, bytes: 10 });
    assert!(rt; counted(rt.alloc()) == Ok(((2, 10), 0, freed, 0)));
}

// Pulls the map, and the datagram behind it.
fn pull_two(
    conn: &mut Conn,
    map: &PortMap,
    out: &mut Out,
) -> Result<Option<(Pulled, Pulled)>, ConnError> {
    conn.reserve()?;
    if conn.stream().is_none() {
        return Ok(None);
    }
    let first = conn.pull(map, out)?;
    conn.reserve()?;
    Ok(Some((first, conn.pull_behind(out)?)))
}

// What comes of pulling the map and a datagram twice.
type Pulls = [Option<(Pulled, Pulled)>; 2];

fn pull_twice(conn: &mut Conn, map: &PortMap, out: &mut Out) -> Result<Pulls, ConnError> {
    Ok([pull_two(conn, map, out)?, pull_two(conn, map, out)?])
}

// Sends a datagram, and pulls.
fn pulled_on(conn: &mut Conn, alloc: Global) -> Result<Pulls, ConnError> {
    send(conn, alloc)?;
    let map = PortMap::new(alloc)?;
    let mut out = Out::new(alloc)?;
    pull_twice(conn, &map, &mut out)
}

fn pulled(alloc: Global) -> Result<(u32, Pulls), ConnError> {
    let mut kept = opened(alloc, 7)?;
    let newest = kept.conn.newest_stream();
    Ok((newest, pulled_on(&mut kept.conn, alloc)?))
}

#[test]
fn a_datagram_is_pulled_behind_the_map(rt: HostRuntime) {
    let first = Some((Pulled::Map, Pulled::Data));
    let second = Some((Pulled::Nothing, Pulled::Nothing));
    assert!(rt; pulled(rt.alloc()) == Ok((7, [first, second])));
}

// How many bytes the payload of the frame that waits has, or 0.
fn waiting_len(conn: &Conn) -> u32
    ensures { result ≤ MAX_LENGTH }
{
    conn.known();
    match conn.waiting() {
        Some(frame) => frame.payload.len(),
        None => 0,
    }
}

// The length of the frame that waits before and after it is passed, and the number of the last passed one.
fn passed_on(conn: &mut Conn) -> Result<(u32, u32, u64), ConnError> {
    feed(conn, &encode(&header(3, 0, 5, 4001, 0)))?;
    feed(conn, b"hello")?;
    let before = waiting_len(conn);
    pass(conn)?;
    Ok((before, waiting_len(conn), conn.last_passed()))
}

fn passed(alloc: Global) -> Result<(u32, u32, u64), ConnError> {
    let mut kept = opened(alloc, 1)?;
    passed_on(&mut kept.conn)
}

#[test]
fn a_frame_is_passed_without_a_count(rt: HostRuntime) {
    assert!(rt; passed(rt.alloc()) == Ok((5, 0, 3)));
}
