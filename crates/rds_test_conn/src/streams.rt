//! Frames and orders on one stream and the next.
use crate::steps::{GREATEST, fault_at, feed, header, open, opened, pass, send};
use rds_cong::PortMap;
use rds_conn::{Conn, ConnError, Fed, Freed, Out, Verdict};
use rds_model::{Order, Target};
use rds_wire::{ACK_REQUIRED, CONG_BITMAP, Malformed, RETRANSMITTED, decode, encode};
use std::alloc::Global;

// The verdict on a datagram, and the number of the last passed one once it was passed.
type Passed = (Option<Verdict>, u64);

fn passed(conn: &mut Conn, sequence: u64, flags: u8) -> Result<Passed, ConnError> {
    feed(conn, &encode(&header(sequence, 0, 0, 4001, flags)))?;
    let verdict = conn.verdict();
    pass(conn)?;
    Ok((verdict, conn.last_passed()))
}

// Datagrams in the order in which they come.
fn all_passed_on(conn: &mut Conn) -> Result<[Passed; 5], ConnError> {
    Ok([
        passed(conn, 1, 0)?,
        passed(conn, 5, 0)?,
        passed(conn, 3, RETRANSMITTED)?,
        passed(conn, 3, 0)?,
        passed(conn, GREATEST, 0)?,
    ])
}

fn all_passed(alloc: Global) -> Result<[Passed; 5], ConnError> {
    let mut kept = opened(alloc, 1)?;
    all_passed_on(&mut kept.conn)
}

#[test]
fn a_number_is_old_where_it_is_marked(rt: HostRuntime) {
    let to_socket = Some(Verdict::Deliver { dport: 4001 });
    let expected = [
        (to_socket, 1),
        (to_socket, 5),
        (Some(Verdict::Old), 5),
        (to_socket, 3),
        (to_socket, GREATEST),
    ];
    assert!(rt; all_passed(rt.alloc()) == Ok(expected));
}

// The number and the flags of a frame, if one is owed.
type Owed = Option<(u64, u8)>;

fn pull(conn: &mut Conn, map: &PortMap, out: &mut Out) -> Result<Owed, ConnError> {
    conn.reserve()?;
    out.wipe();
    conn.pull(map, out)?;
    let Some(bytes) = out.rest().first_chunk::<48>() else {
        return Ok(None);
    };
    let header = decode(bytes);
    Ok(Some((header.sequence, header.flags)))
}

fn pull_four(conn: &mut Conn, map: &PortMap, out: &mut Out) -> Result<[Owed; 4], ConnError> {
    Ok([
        pull(conn, map, out)?,
        pull(conn, map, out)?,
        pull(conn, map, out)?,
        pull(conn, map, out)?,
    ])
}

// The frames that are owed: a map, two datagrams and nothing.
fn owed(conn: &mut Conn, alloc: Global) -> Result<[Owed; 4], ConnError> {
    let map = PortMap::new(alloc)?;
    let mut out = Out::new(alloc)?;
    pull_four(conn, &map, &mut out)
}

// What a header is answered, the fault in its entry of the journal, the datagrams that are unacknowledged, and the open stream.
type Refused = (Result<Fed, ConnError>, Option<Malformed>, u32, Option<u32>);

// Takes an acknowledgement of what was never pulled, which ends the stream.
fn refused(conn: &mut Conn) -> Refused {
    let answer = feed(conn, &encode(&header(0, 9, 0, 0, 0)));
    let fault = fault_at(conn.journal(), 6);
    (answer, fault, conn.unacked(), conn.stream())
}

// What the first stream owes, the refusal, and what the next stream owes.
type Repeated = ([Owed; 4], Refused, [Owed; 4]);

fn repeated_on(conn: &mut Conn, alloc: Global) -> Result<Repeated, ConnError> {
    send(conn, alloc)?;
    send(conn, alloc)?;
    let first = owed(conn, alloc)?;
    let refused = refused(conn);
    open(conn, 2)?;
    Ok((first, refused, owed(conn, alloc)?))
}

fn repeated(alloc: Global) -> Result<Repeated, ConnError> {
    let mut kept = opened(alloc, 1)?;
    repeated_on(&mut kept.conn, alloc)
}

// What both streams owe: the map, and two datagrams with these flags.
fn frames(first: u8, second: u8) -> [Owed; 4] {
    [
        Some((0, CONG_BITMAP)),
        Some((1, first)),
        Some((2, second)),
        None,
    ]
}

#[test]
fn a_refused_acknowledgement_acknowledges_nothing(rt: HostRuntime) {
    let fault = Malformed::Ack { ack: 9, highest: 2 };
    let refusal = (Err(ConnError::Malformed(fault)), Some(fault), 2, None);
    let again = RETRANSMITTED + ACK_REQUIRED;
    let expected = (frames(0, ACK_REQUIRED), refusal, frames(again, again));
    assert!(rt; repeated(rt.alloc()) == Ok(expected));
}

// A cancellation covers both datagrams.
fn covers_both(conn: &Conn, alloc: Global) -> Result<bool, ConnError> {
    let mut numbers = Vec::new(alloc);
    conn.covered(0, &Target::Port(4001), &mut numbers)?;
    Ok(numbers.as_slice() == [1, 2].as_slice())
}

// Takes back what a socket sent to a port.
fn cancel(conn: &mut Conn) -> Result<(), ConnError> {
    conn.reserve()?;
    if conn.slots() > 0 {
        conn.order_uncounted(Order::Cancel {
            slot: 0,
            dport: 4001,
        });
    }
    Ok(())
}

// Whether a cancellation covers both datagrams that were sent, and what is unacknowledged and freed after it.
type Cancelled = (bool, u32, [Option<Freed>; 2]);

fn cancelled_on(conn: &mut Conn, alloc: Global) -> Result<Cancelled, ConnError> {
    send(conn, alloc)?;
    send(conn, alloc)?;
    let covers = covers_both(conn, alloc)?;
    cancel(conn)?;
    Ok((
        covers,
        conn.unacked(),
        [conn.take_freed(), conn.take_freed()],
    ))
}

fn cancelled(alloc: Global) -> Result<Cancelled, ConnError> {
    let mut kept = opened(alloc, 1)?;
    cancelled_on(&mut kept.conn, alloc)
}

#[test]
fn a_cancellation_frees_what_it_covers(rt: HostRuntime) {
    let freed = Some(Freed { slot: 0, bytes: 10 });
    assert!(rt; cancelled(rt.alloc()) == Ok((true, 0, [freed, None])));
}
