//! A connection, and what it pulls into.
use super::payloads::datagram;
use super::tried::Tried;
use rds_cong::PortMap;
use rds_conn::{Conn, ConnError, Fed, Out};
use rds_model::{Order, Target};
use rds_wire::{Memory, Payload};
use std::alloc::Global;

/// How many datagrams are sent before a call.
const SENT: u32 = 100;

/// A connection of a host with one socket.
struct Kept {
    conn: Conn,
}

impl Drop for Kept {
    fn drop(self) {
        let Self { conn: _conn } = self;
    }
}

pub fn out(alloc: Global) -> Option<Tried> {
    let mut again = false;
    let out = match Out::new(alloc) {
        Ok(out) => out,
        Err(_) => {
            again = true;
            Out::new(alloc).ok()?
        }
    };
    Some(Tried::of(again, out.rest().len()))
}

fn unused(alloc: Global) -> Result<Kept, Memory> {
    let conn = Conn::new(alloc, 1, 2, 1, 10_000)?;
    Ok(Kept { conn })
}

pub fn connection(alloc: Global) -> Option<Tried> {
    let mut again = false;
    let kept = match unused(alloc) {
        Ok(kept) => kept,
        Err(_) => {
            again = true;
            unused(alloc).ok()?
        }
    };
    Some(Tried::of(again, usize::from(kept.conn.slots())))
}

pub fn reserve(alloc: Global) -> Option<Tried> {
    let mut kept = unused(alloc).ok()?;
    reserved(&mut kept.conn)
}

fn reserved(conn: &mut Conn) -> Option<Tried> {
    let again = conn.reserve().is_err();
    open(conn).ok()?;
    Some(Tried::of(again, if conn.stream().is_some() { 1 } else { 0 }))
}

// Opens the first stream.
fn open(conn: &mut Conn) -> Result<(), ConnError> {
    conn.reserve()?;
    if conn.stream().is_none() && conn.newest_stream() < 1 {
        conn.open(1);
    }
    Ok(())
}

// Sends a datagram of 1,000 bytes.
fn send(conn: &mut Conn, alloc: Global) -> Result<(), ConnError> {
    conn.reserve()?;
    if conn.slots() == 0 {
        return Ok(());
    }
    let payload = Payload::copy_of(alloc, &[7; 1_000])?;
    conn.order_uncounted(Order::Send {
        slot: 0,
        sport: 4000,
        dport: 4001,
        payload,
    });
    Ok(())
}

// A connection with an open stream, on which some datagrams were sent.
fn ready(alloc: Global) -> Result<Kept, ConnError> {
    let mut kept = unused(alloc)?;
    prepare(&mut kept.conn, alloc)?;
    Ok(kept)
}

fn prepare(conn: &mut Conn, alloc: Global) -> Result<(), ConnError> {
    open(conn)?;
    for _ in 0..SENT {
        send(conn, alloc)?;
    }
    conn.reserve()
}

pub fn pull(alloc: Global) -> Option<Tried> {
    let mut kept = ready(alloc).ok()?;
    let map = PortMap::new(alloc).ok()?;
    let mut out = Out::new(alloc).ok()?;
    let first = pulled(&mut kept.conn, &map, &mut out)?;
    let second = pulled(&mut kept.conn, &map, &mut out)?;
    Some(Tried::of(first.again || second.again, out.rest().len()))
}

// Pulls a frame behind those that the bytes hold already.
fn pulled(conn: &mut Conn, map: &PortMap, out: &mut Out) -> Option<Tried> {
    conn.reserve().ok()?;
    let again = conn.pull(map, out).is_err();
    if again {
        conn.pull(map, out).ok()?;
    }
    Some(Tried::of(again, out.rest().len()))
}

pub fn feed(alloc: Global) -> Option<Tried> {
    let bytes = datagram(alloc, 10_000)?;
    let mut kept = ready(alloc).ok()?;
    fed(&mut kept.conn, bytes.as_slice())
}

// Takes all the bytes, and makes the call once more where it answered that memory ran out.
fn fed(conn: &mut Conn, bytes: &[u8]) -> Option<Tried> {
    let mut again = false;
    let fed = match feed_once(conn, bytes) {
        Ok(fed) => fed,
        Err(_) => {
            again = true;
            feed_once(conn, bytes).ok()?
        }
    };
    Some(Tried::of(again, fed.used))
}

fn feed_once(conn: &mut Conn, bytes: &[u8]) -> Result<Fed, ConnError> {
    conn.reserve()?;
    conn.feed(bytes)
}

pub fn covered(alloc: Global) -> Option<Tried> {
    let kept = ready(alloc).ok()?;
    let mut numbers = Vec::new(alloc);
    let again = kept
        .conn
        .covered(0, &Target::Port(4001), &mut numbers)
        .is_err();
    if again {
        numbers = Vec::new(alloc);
        kept.conn
            .covered(0, &Target::Port(4001), &mut numbers)
            .ok()?;
    }
    Some(Tried::of(again, numbers.len()))
}
