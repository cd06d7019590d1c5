//! What is done with a connection.
ghost use Rattle.std.specs.Prelude.{◌<◌};
ghost use Rattle.rds_conn.specs.Passing.{Matches};

use super::making::HELD;
use rds_cong::PortMap;
use rds_conn::{Conn, ConnError, Fed, Found, Out, Verdict};
use rds_model::{Entry, Journal, Order, Outcome};
use rds_wire::{Malformed, Memory, Payload};
use std::alloc::Global;

/// A connection of a host with one socket.
pub struct Kept {
    pub conn: Conn,
}

impl Drop for Kept {
    fn drop(self) {
        let Self { conn: _conn } = self;
    }
}

/// A connection with an open stream, on which so many datagrams were sent and pulled.
pub fn ready(alloc: Global, sent: u64) -> Result<Kept, ConnError> {
    let mut kept = unused(alloc)?;
    prepare(&mut kept.conn, alloc, sent)?;
    Ok(kept)
}

fn unused(alloc: Global) -> Result<Kept, Memory> {
    let conn = Conn::new(alloc, 1, 2, 1, 1_000)?;
    Ok(Kept { conn })
}

fn prepare(conn: &mut Conn, alloc: Global, sent: u64) -> Result<(), ConnError> {
    open(conn)?;
    for _ in 0..sent {
        send(conn, alloc)?;
    }
    pull(conn, alloc, sent)
}

fn open(conn: &mut Conn) -> Result<(), ConnError> {
    conn.reserve()?;
    if conn.stream().is_none() && conn.newest_stream() < 1 {
        conn.open(1);
    }
    Ok(())
}

fn send(conn: &mut Conn, alloc: Global) -> Result<(), ConnError> {
    conn.reserve()?;
    if conn.slots() == 0 {
        return Ok(());
    }
    let payload = Payload::copy_of(alloc, b"hello")?;
    conn.order_uncounted(Order::Send {
        slot: 0,
        sport: 4000,
        dport: 4001,
        payload,
    });
    Ok(())
}

// Pulls the map and so many datagrams.
fn pull(conn: &mut Conn, alloc: Global, sent: u64) -> Result<(), ConnError> {
    let map = PortMap::new(alloc)?;
    let mut out = Out::new(alloc)?;
    for _ in 0..=sent {
        conn.reserve()?;
        out.wipe();
        conn.pull(&map, &mut out)?;
    }
    Ok(())
}

pub fn feed(conn: &mut Conn, bytes: &[u8]) -> Result<Fed, ConnError> {
    conn.reserve()?;
    conn.feed(bytes)
}

/// Passes the frame that waits.
pub fn pass(conn: &mut Conn) -> Result<(), ConnError> {
    conn.reserve()?;
    if let Some(verdict) = conn.verdict() {
        let slots = conn.slots();
        conn.pass_uncounted(found(verdict, slots));
    }
    Ok(())
}

// The only socket holds the only port that one holds.
fn found(verdict: Verdict, slots: u16) -> Found
    ensures { Matches slots verdict result }
{
    match verdict {
        Verdict::Deliver { dport } if dport == HELD && slots > 0 => Found::Slot(0),
        Verdict::Deliver { .. } => Found::NoSocket,
        _ => Found::Unasked,
    }
}

/// The fault for which that entry of a journal refused a header, if it did.
pub fn fault_at(journal: &Journal, entry: u32) -> Option<Malformed> {
    match journal.at(entry) {
        Some(Entry::Bad { cause, .. }) => Some(*cause),
        _ => None,
    }
}

/// What became of the frame that was read by that entry of a journal, if one was.
pub fn outcome_at(journal: &Journal, entry: u32) -> Option<Outcome> {
    match journal.at(entry) {
        Some(Entry::Read { outcome, .. }) => Some(*outcome),
        _ => None,
    }
}
