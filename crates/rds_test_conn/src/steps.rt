//! What the tests do with a connection.
ghost use Rattle.std.specs.Prelude.{ℕ};
ghost use Rattle.rds_conn.specs.Passing.{Matches};

use rds_conn::{Conn, ConnError, Fed, Found, Verdict};
use rds_model::{Entry, Journal, Order};
use rds_wire::{Header, Malformed, Memory, Payload};
use std::alloc::Global;

pub const GREATEST: u64 = (1 << 63) - 1;

pub fn header(sequence: u64, ack: u64, len: u32, dport: u16, flags: u8) -> Header {
    Header {
        sequence,
        ack,
        len,
        sport: 0,
        dport,
        flags,
        credit: 0,
        padding: [0; 4],
        csum: 0,
        ext: [0; 16],
    }
}

/// A connection of a host with one socket. A test that owns one is proved the faster where one call drops it.
pub struct Kept {
    pub conn: Conn,
}

impl Drop for Kept {
    fn drop(self) {
        let Self { conn: _conn } = self;
    }
}

/// A connection of which nothing has happened.
pub fn unused(alloc: Global) -> Result<Kept, Memory> {
    let conn = Conn::new(alloc, 1, 2, 1, 20)?;
    Ok(Kept { conn })
}

/// Opens this stream, where none is open and the number is new.
pub fn open(conn: &mut Conn, stream: u32) -> Result<(), ConnError> {
    conn.reserve()?;
    if conn.stream().is_none() && conn.newest_stream() < stream {
        conn.open(stream);
    }
    Ok(())
}

/// A connection on which this stream is open.
pub fn opened(alloc: Global, stream: u32) -> Result<Kept, ConnError> {
    let mut kept = unused(alloc)?;
    open(&mut kept.conn, stream)?;
    Ok(kept)
}

/// Sends `hello` from port 4000 to port 4001.
pub fn send(conn: &mut Conn, alloc: Global) -> Result<(), ConnError> {
    conn.reserve()?;
    if conn.slots() == 0 {
        return Ok(());
    }
    let payload = Payload::copy_of(alloc, b"hello")?;
    conn.order_uncounted(Order::Send {
        slot: 0,
        sport: 4000,
        dport: 4001,
        payload,
    });
    Ok(())
}

pub fn feed(conn: &mut Conn, bytes: &[u8]) -> Result<Fed, ConnError> {
    conn.reserve()?;
    conn.feed(bytes)
}

/// Passes the frame that waits, where no socket holds its port.
pub fn pass(conn: &mut Conn) -> Result<(), ConnError> {
    conn.reserve()?;
    if let Some(verdict) = conn.verdict() {
        conn.pass_uncounted(found(verdict));
    }
    Ok(())
}

fn found(verdict: Verdict) -> Found
    ensures { (slots : ℕ) → Matches slots verdict result }
{
    match verdict {
        Verdict::Deliver { .. } => Found::NoSocket,
        _ => Found::Unasked,
    }
}

/// The fault for which that entry of a journal refused a header, if it did.
pub fn fault_at(journal: &Journal, entry: u32) -> Option<Malformed> {
    match journal.at(entry) {
        Some(Entry::Bad { cause, .. }) => Some(*cause),
        _ => None,
    }
}
