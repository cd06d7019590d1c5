ghost use Rattle.std.specs.Prelude.{◌≡◌, ◌≤◌, true, length, IsSome, IfSome, IfOk, OnOk};
ghost use Rattle.rds_wire.specs.declared.kind.TheConstants.{MAX_LENGTH};
ghost use Rattle.rds_model.specs.Reading.{verdict_of};
ghost use Rattle.rds_conn.specs.Connection.{IsReady};
ghost use Rattle.rds_conn.specs.Passing.{Matches};
ghost use Rattle.rds_bench_program.specs.Behind.{IsBehind};

use rds_cong::PortMap;
use rds_conn::{Conn, ConnError, Found, Out, Pulled, Verdict};
use rds_model::{MAX_ENTRIES, Order};
use rds_wire::Payload;
use std::alloc::Global;

/// How many sockets a host has.
const SLOTS: u16 = 1;

/// One end of a connection, the bytes that it has in flight, and what it has seen of datagrams.
pub struct BenchEnd {
    conn: Conn,
    map: PortMap,
    out: Out,
    // Whether the map was pulled on the open stream.
    mapped: bool,
    /// How many datagrams were delivered to its socket.
    pub delivered: u64,
    /// How many bytes of its socket's datagrams were acknowledged.
    pub freed: u64,
    ghost sockets: { conn.slots ≡ 1 },
    ghost behind: { mapped ≡ true → IsBehind conn },
}

// By hand, so that one call drops it wherever it is let go, and no function that owns one drops each field.
impl Drop for BenchEnd {
    fn drop(self) {
        let Self {
            conn: _conn,
            map: _map,
            out: _out,
            mapped: _,
            delivered: _,
            freed: _,
        } = self;
    }
}

impl BenchEnd {
    /// The end of the host `me`, of a connection to `peer`.
    pub fn new(alloc: Global, me: u32, peer: u32) -> Result<BenchEnd, ConnError> {
        let map = PortMap::new(alloc)?;
        let out = Out::new(alloc)?;
        let conn = Conn::new(alloc, me, peer, SLOTS, MAX_ENTRIES)?;
        Ok(BenchEnd {
            conn,
            map,
            out,
            mapped: false,
            delivered: 0,
            freed: 0,
        })
    }

    /// Opens the first stream. An end that had one stays as it is.
    pub fn open(&mut self) -> Result<(), ConnError> {
        self.conn.reserve()?;
        if self.conn.journal().is_empty() {
            self.mapped = false;
            self.conn.open(1);
        }
        Ok(())
    }

    /// Accepts a datagram of its socket.
    pub fn send(&mut self, payload: Payload) -> Result<(), ConnError>
        requires { length payload ≤ MAX_LENGTH }
    {
        self.conn.reserve()?;
        let order = Order::Send {
            slot: 0,
            sport: 4000,
            dport: 4001,
            payload,
        };
        self.conn.order_uncounted(order);
        Ok(())
    }

    /// Pulls every frame that is owed. Answers whether bytes are in flight.
    pub fn pull_all(&mut self) -> Result<bool, ConnError> {
        if !self.mapped {
            self.mapped = pull_map(&mut self.conn, &self.map, &mut self.out)?;
        }
        if self.mapped {
            pull_behind(&mut self.conn, &mut self.out)?;
        }
        Ok(!self.out.rest().is_empty())
    }

    /// Takes the bytes that the peer has in flight, and passes their frames.
    pub fn take_from(&mut self, peer: &mut BenchEnd) -> Result<(), ConnError> {
        for _ in 0..=peer.out.rest().len() {
            self.conn.reserve()?;
            let fed = feed(&mut self.conn, &mut peer.out);
            self.mapped = self.mapped && fed.is_ok();
            if !fed? {
                break;
            }
            self.pass()?;
        }
        Ok(())
    }

    // Passes the frame that waits: its socket holds every port.
    fn pass(&mut self) -> Result<(), ConnError> {
        self.conn.reserve()?;
        let Some(verdict) = self.conn.verdict() else {
            return Ok(());
        };
        let found = match verdict {
            Verdict::Deliver { .. } => Found::Slot(0),
            _ => Found::Unasked,
        };
        pass(&mut self.conn, found);
        self.delivered = self
            .delivered
            .wrapping_add(u64::from(found != Found::Unasked));
        Ok(())
    }

    /// Takes out the bytes that were acknowledged.
    pub fn take_freed(&mut self) {
        for _ in 0..u64::MAX {
            let Some(freed) = self.conn.take_freed() else {
                return;
            };
            self.freed = self.freed.wrapping_add(freed.bytes);
        }
    }
}

// Pulls the frame that is owed, the map first. Answers whether a stream is open.
fn pull_map(conn: &mut Conn, map: &PortMap, out: &mut Out) -> Result<bool, ConnError>
    ensures slots { conn.new.slots ≡ conn.old.slots }
    ensures behind { IfOk result (λ on. on ≡ true → IsBehind conn.new) }
{
    conn.reserve()?;
    Ok(conn.pull(map, out)? != Pulled::Down)
}

// Pulls every frame that is owed behind the map, which was pulled.
fn pull_behind(conn: &mut Conn, out: &mut Out) -> Result<(), ConnError>
    requires { IsBehind conn.old }
    ensures slots { conn.new.slots ≡ conn.old.slots }
    ensures behind { IsBehind conn.new }
{
    for _ in 0..u64::MAX {
        conn.reserve()?;
        match conn.pull_behind(out)? {
            Pulled::Nothing | Pulled::Down => break,
            Pulled::Data | Pulled::Ack | Pulled::Map => {}
        }
    }
    Ok(())
}

// Moves bytes in flight to a connection, until a frame is whole. Answers whether one is.
fn feed(conn: &mut Conn, flying: &mut Out) -> Result<bool, ConnError>
    requires { IsReady conn.old }
    ensures slots { conn.new.slots ≡ conn.old.slots }
    ensures behind { OnOk result (IsBehind conn.old → IsBehind conn.new) }
{
    let fed = conn.feed(flying.rest())?;
    flying.took(fed.used);
    Ok(fed.waiting)
}

// Passes the frame that waits at a connection.
fn pass(conn: &mut Conn, found: Found)
    requires ready { IsReady conn.old }
    requires waiting { IsSome conn.old.waiting }
    requires found { IfSome conn.old.waiting (λ f. Matches conn.old.slots (verdict_of conn.old.log.past f.header) found) }
    ensures slots { conn.new.slots ≡ conn.old.slots }
    ensures behind { IsBehind conn.old → IsBehind conn.new }
{
    conn.pass_uncounted(found);
}
