ghost use Rattle.std.specs.Prelude.{◌≡◌, ℕ, ◌<◌, ◌≤◌, nat_le, true, None, Err, IfOk, IfSome, OnOk, OnErr};
ghost use Rattle.rds_frame.specs.Splitting.{IsFrame};
ghost use Rattle.rds_model.specs.Alive.{is_alive};
ghost use Rattle.rds_model.specs.Past.{highest_pulled, open_stream, newest_stream};
ghost use Rattle.rds_model.specs.Streams.{was_pulled};
ghost use Rattle.rds_model.specs.declared.entry.TheConstants.{MAX_SLOTS};
ghost use Rattle.rds_model.specs.Legal.{IsWhole};
ghost use Rattle.rds_model.specs.declared.journal.TheConstants.{MIN_ENTRIES, MAX_ENTRIES};
ghost use Rattle.rds_conn.specs.Connection.{IsReady};
ghost use Rattle.rds_play_pair.specs.declared.error.PairError.TheVariants as errors;
ghost use Rattle.rds_play_pair.specs.Sides.{HasRoomForTwo, IsFull, TakesFrameByFrame, blank};
ghost use Rattle.rds_play_pair.specs.Half.{side_of};
ghost use Rattle.rds_play_pair.specs.Changes.{ordered, pulled, passed, opened, shut_one, without_flight};

use crate::error::PairError;
use crate::found::found_for;
use crate::order::{copied, is_allowed};
use rds_cong::PortMap;
use rds_conn::{Conn, ConnError, Out};
use rds_model::{Journal, Order};
use rds_wire::Memory;
use std::alloc::Global;

/// One end of a pair: its connection, and the bytes that it wrote and that are in flight to the other end.
#[derive(Drop)]
pub(crate) struct Half {
    pub conn: Conn,
    pub out: Out,
}

impl Half {
    /// The end of the host `me` to `peer`, of which nothing has happened.
    ///
    /// # Errors
    ///
    /// Where there is no memory for its tables.
    pub fn new(alloc: Global, me: u32, peer: u32, slots: u16, limit: u32) -> Result<Half, Memory>
        requires slots { slots ≤ MAX_SLOTS }
        requires least { MIN_ENTRIES ≤ limit }
        requires most { limit ≤ MAX_ENTRIES }
        ensures { IfOk result (λ half. side_of half ≡ blank slots limit) }
    {
        Ok(Half {
            conn: Conn::new(alloc, me, peer, slots, limit)?,
            out: Out::new(alloc)?,
        })
    }

    /// Makes the connection ready for its next entries.
    ///
    /// # Errors
    ///
    /// `Spent` exactly where the journal has no room for two more entries, and `Memory` where there is none. The end is
    /// as before.
    pub fn ready(&mut self) -> Result<(), PairError>
        ensures ready { OnOk result (IsReady self.new.conn) }
        ensures room { OnOk result (HasRoomForTwo (side_of self.old)) }
        ensures same { side_of self.new ≡ side_of self.old }
        ensures spent { (entries : ℕ) → result ≡ Err (errors.Spent entries) → IsFull entries (side_of self.old) }
        ensures full { (entries : ℕ) → IsFull entries (side_of self.old) → result ≡ Err (errors.Spent entries) }
        ensures whole { IsWhole self.new.conn.log.past }
    {
        self.conn.known();
        match self.conn.reserve() {
            Ok(()) => Ok(()),
            Err(ConnError::Spent { entries }) => Err(PairError::Spent { entries }),
            Err(_) => Err(PairError::Memory),
        }
    }

    /// What every end keeps of its reading.
    pub fn reading(&self)
        ensures taking { TakesFrameByFrame (side_of self.now) }
        ensures whole { IfSome self.now.conn.waiting IsFrame }
    {
        self.conn.known();
    }

    /// The highest number of a datagram that was ever pulled, or 0.
    pub fn highest(&self) -> u64
        ensures number { result ≡ highest_pulled self.now.conn.log.past }
        ensures pulled { (n : ℕ) → is_alive self.now.conn.log.past n ≡ true →
            was_pulled self.now.conn.log.past n ≡ nat_le n result }
    {
        self.conn.known();
        self.conn.highest()
    }

    /// Gives an order to the connection, if it takes such.
    ///
    /// # Errors
    ///
    /// `Spent` only where the journal has no room for two more entries, and `Memory` where there is none. The end is as
    /// before.
    pub fn order(&mut self, order: &Order) -> Result<(), PairError>
        ensures ok { OnOk result (side_of self.new ≡ ordered order.now (side_of self.old)) }
        ensures err { OnErr result (side_of self.new ≡ side_of self.old) }
        ensures spent { (entries : ℕ) → result ≡ Err (errors.Spent entries) → IsFull entries (side_of self.old) }
        ensures whole { IsWhole self.new.conn.log.past }
    {
        if !is_allowed(self.conn.slots(), order) {
            self.conn.known();
            return Ok(());
        }
        self.ready()?;
        let order = copied(order)?;
        self.conn.order_uncounted(order);
        self.conn.known();
        Ok(())
    }

    /// Pulls the frame that is owed to the open stream.
    ///
    /// # Errors
    ///
    /// `Spent` only where the journal has no room for two more entries, and `Memory` where there is none. The end is as
    /// before.
    pub fn pull(&mut self, map: &PortMap) -> Result<(), PairError>
        ensures ok { OnOk result (side_of self.new ≡ pulled map.now (side_of self.old)) }
        ensures err { OnErr result (side_of self.new ≡ side_of self.old) }
        ensures spent { (entries : ℕ) → result ≡ Err (errors.Spent entries) → IsFull entries (side_of self.old) }
        ensures whole { IsWhole self.new.conn.log.past }
    {
        self.ready()?;
        let pulled = self.conn.pull(map, &mut self.out);
        self.conn.known();
        match pulled {
            Ok(_) => Ok(()),
            Err(_) => Err(PairError::Memory),
        }
    }

    /// Passes the frame that waits, if one does.
    ///
    /// # Errors
    ///
    /// `Spent` only where the journal has no room for two more entries, and `Memory` where there is none. The end is as
    /// before.
    pub fn pass(&mut self, slot: Option<u16>) -> Result<(), PairError>
        ensures ok { OnOk result (side_of self.new ≡ passed slot (side_of self.old)) }
        ensures err { OnErr result (side_of self.new ≡ side_of self.old) }
        ensures spent { (entries : ℕ) → result ≡ Err (errors.Spent entries) → IsFull entries (side_of self.old) }
        ensures whole { IsWhole self.new.conn.log.past }
    {
        self.ready()?;
        self.conn.known();
        let Some(verdict) = self.conn.verdict() else {
            return Ok(());
        };
        self.conn
            .pass_uncounted(found_for(self.conn.slots(), verdict, slot));
        self.conn.known();
        Ok(())
    }

    /// Opens a stream, on which nothing is in flight.
    pub fn open(&mut self, stream: u32)
        requires ready { IsReady self.old.conn }
        requires closed { open_stream self.old.conn.log.past ≡ None }
        requires newer { newest_stream self.old.conn.log.past < stream }
        ensures opens { side_of self.new ≡ opened stream (side_of self.old) }
        ensures whole { IsWhole self.new.conn.log.past }
    {
        self.conn.open(stream);
        self.lose();
        self.conn.known();
    }

    /// Shuts the open stream, if one is.
    pub fn shut(&mut self)
        requires { IsReady self.old.conn }
        ensures shuts { side_of self.new ≡ shut_one (side_of self.old) }
        ensures whole { IsWhole self.new.conn.log.past }
    {
        if self.conn.stream().is_some() {
            self.conn.shut();
        }
        self.conn.known();
    }

    /// Loses what is in flight.
    pub fn lose(&mut self)
        ensures { side_of self.new ≡ without_flight (side_of self.old) }
    {
        self.out.wipe();
    }

    /// The journal.
    pub fn into_journal(self) -> Journal
        ensures { result.past ≡ self.conn.log.past }
    {
        self.conn.into_journal()
    }
}
