ghost use Rattle.std.specs.Prelude.{◌≡◌, ℕ, ◌+◌, ◌≤◌, nat_le, [], false, true, None, IfOk, IfSome, length, replicate};
ghost use Rattle.rds_conn.specs.declared.conn.ConnError.TheVariants as errors;

use crate::asking::Asking;
use crate::charges::Charges;
use crate::freed::FreedBytes;
use rds_cong::PortMap;
use rds_frame::Splitter;
use rds_model::Journal;
use rds_msgs::Store;
use rds_wire::{Malformed, Memory, Payload};
use std::alloc::Global;
use std::marker::Model;

mod counts;
mod feed;
mod order;
mod pull;
mod read;
mod ready;
mod slots;
mod streams;
mod uncounted;

/// Why a call on a connection did nothing, or ended its stream.
#[derive(Clone, Copy, Debug, PartialEq, Eq)]
pub enum ConnError {
    /// There is no memory for what the call needs. The connection is as before.
    Memory,
    /// A header came that is malformed for this cause. It went to the journal, and the stream is over.
    Malformed(Malformed),
    /// The journal has this many entries, and two more would pass its limit. The connection is as before, and can't be
    /// made ready any more.
    Spent { entries: u32 },
    /// No stream is open. The connection is as before.
    Closed,
}

impl From<Memory> for ConnError {
    ghost from_gives = { λ _ e. e ≡ errors.Memory };

    fn from(_error: Memory) -> ConnError {
        ConnError::Memory
    }
}

/// Which frame was pulled, or why none was.
#[derive(Clone, Copy, Debug, PartialEq, Eq)]
pub enum Pulled {
    /// The datagram of the least number that is alive and wasn't pulled on the open stream.
    Data,
    /// An acknowledgement without data, where the peer asks for one or this end has to.
    Ack,
    /// The congestion map of this host, which isn't the one pulled last on the open stream.
    Map,
    /// No frame is owed.
    Nothing,
    /// No stream is open.
    Down,
}

/// What a connection took of a piece of the open stream.
#[derive(Clone, Copy, Debug, PartialEq, Eq)]
pub struct Fed {
    /// How many bytes, from the front: all of them, or as many as made a frame whole, and 0 where one waited already.
    pub used: usize,
    /// Whether a whole frame waits, which has to be passed before more is taken.
    pub waiting: bool,
}

/// What the port table says of the destination port of the frame that waits. It was asked exactly where the verdict is
/// `Deliver`.
#[derive(Clone, Copy, Debug, PartialEq, Eq)]
pub enum Found {
    /// The socket of this slot holds it, which is below the slots of the connection.
    Slot(u16),
    /// No socket of this host holds it.
    NoSocket,
    /// The verdict isn't `Deliver`, so nothing was looked up.
    Unasked,
}

/// A connection with a peer, as one host sees it: the datagrams that its sockets sent to the peer, and one stream at a
/// time, over which frames go both ways. Each call appends its lawful entry to the journal, or does nothing. Contracts see
/// the journal, what is ready for the next call, what was taken of the open stream and isn't passed, and for each slot
/// the freed bytes that weren't handed out.
pub struct Conn {
    alloc: Global,
    me: u32,
    peer: u32,
    slots: u16,
    journal: Journal,
    store: Store,
    splitter: Splitter,
    freed: FreedBytes,
    charges: Charges,
    // What `reserve` has made ready: room for entries and messages, and the payload of a pong.
    spare: u32,
    store_spare: u32,
    pong: Option<Payload>,
    // The newest stream or 0, the open one, whether a map was pulled on it and which was the last, and what was asked
    // on it.
    newest: u32,
    stream: Option<u32>,
    mapped: bool,
    map: PortMap,
    asking: Asking,
    // How many datagrams were accepted, the highest number pulled, and the last passed.
    accepted: u64,
    highest: u64,
    last: u64,
}

// By hand, so that one call drops it wherever it is let go, and no function that owns one drops each field.
impl Drop for Conn {
    fn drop(self) {
        let Self {
            alloc: _,
            me: _,
            peer: _,
            slots: _,
            journal: _journal,
            store: _store,
            splitter: _splitter,
            freed: _freed,
            charges: _charges,
            spare: _,
            store_spare: _,
            pong: _pong,
            newest: _,
            stream: _,
            mapped: _,
            map: _map,
            asking: _,
            accepted: _,
            highest: _,
            last: _,
        } = self;
    }
}

impl Model for Conn {
    ghost use Rattle.rds_conn.specs.Connection.{Connection};

    ghost Value = { Connection };

    ghost use Rattle.rds_conn.specs.Invariant.{ConnectionInvariant, connection_view};

    ghost view = { connection_view };

    ghost invariant = { ConnectionInvariant };
}

impl Conn {
    ghost use Rattle.rds_model.specs.Alive.{is_alive};
    ghost use Rattle.rds_model.specs.Past.{highest_pulled};
    ghost use Rattle.rds_model.specs.Streams.{was_pulled};
    ghost use Rattle.rds_model.specs.Legal.{IsWhole};
    ghost use Rattle.rds_frame.specs.Splitting.{IsClear, IsPartial, IsSound};
    ghost use Rattle.rds_model.specs.declared.entry.TheConstants.{MAX_SLOTS};
    ghost use Rattle.rds_model.specs.Reading.{verdict_of};
    ghost use Rattle.rds_model.specs.declared.entry.Verdict.TheVariants as verdict;
    ghost use Rattle.rds_wire.specs.declared.kind.TheConstants.{MAX_LENGTH, MAP_LENGTH};
    ghost use Rattle.rds_model.specs.declared.journal.TheConstants.{MIN_ENTRIES, MAX_ENTRIES};
    ghost use Rattle.rds_conn.specs.Connection.{stream_of, taken_bytes};

    /// A connection of the host `me` with `peer`, both IPv4 addresses: an empty journal of at most `limit` entries, and
    /// no stream. The sockets of this host have slots below `slots`, at most `MAX_SLOTS`.
    ///
    /// # Errors
    ///
    /// Where there is no memory for its tables.
    pub fn new(alloc: Global, me: u32, peer: u32, slots: u16, limit: u32) -> Result<Conn, Memory>
        requires slots { slots ≤ MAX_SLOTS }
        requires least { MIN_ENTRIES ≤ limit }
        requires most { limit ≤ MAX_ENTRIES }
        ensures empty { IfOk result (λ c. c ≡ record {
          me = me;
          peer = peer;
          slots = slots;
          log = record { past = []; spare = 0; limit = limit };
          store_spare = 0;
          has_pong = false;
          waiting = None;
          rest = [];
          freed = replicate slots 0;
        }) }
    {
        Ok(Conn {
            alloc,
            me,
            peer,
            slots,
            journal: Journal::new(alloc, limit)?,
            store: Store::new(alloc, slots)?,
            splitter: Splitter::new(alloc)?,
            freed: FreedBytes::new(alloc, slots)?,
            charges: Charges::new(alloc, slots)?,
            spare: 0,
            store_spare: 0,
            pong: None,
            newest: 0,
            stream: None,
            mapped: false,
            map: PortMap::new(alloc)?,
            asking: Asking::new(),
            accepted: 0,
            highest: 0,
            last: 0,
        })
    }

    /// The IPv4 address of this host.
    pub fn me(&self) -> u32
        ensures { result ≡ self.now.me }
    {
        self.me
    }

    /// The IPv4 address of the other host.
    pub fn peer(&self) -> u32
        ensures { result ≡ self.now.peer }
    {
        self.peer
    }

    /// Below which number the slots of sockets are.
    pub fn slots(&self) -> u16
        ensures { result ≡ self.now.slots }
    {
        self.slots
    }

    /// What every connection keeps. It does nothing: a caller gets these facts from it.
    pub fn known(&self)
        ensures whole { IsWhole self.now.log.past }
        ensures room { length self.now.log.past + self.now.log.spare ≤ self.now.log.limit }
        ensures limit { self.now.log.limit ≤ MAX_ENTRIES }
        ensures slots { self.now.slots ≤ MAX_SLOTS }
        ensures freed { length self.now.freed ≡ self.now.slots }
        ensures idle { stream_of self.now ≡ None → (self.now.waiting ≡ None) × (self.now.rest ≡ []) }
        ensures sound { IfSome self.now.waiting (IsSound (highest_pulled self.now.log.past) 0) }
        ensures size { IfSome self.now.waiting (λ f. length f.payload ≤ MAX_LENGTH) }
        ensures map { IfSome self.now.waiting (λ f. verdict_of self.now.log.past f.header ≡ verdict.Map →
            length f.payload ≡ MAP_LENGTH) }
        ensures alone { IfSome self.now.waiting (λ f. self.now.rest ≡ []) }
        ensures partial { self.now.waiting ≡ None → IsPartial self.now.rest }
        ensures clear { IsClear (highest_pulled self.now.log.past) 0 (taken_bytes self.now) }
        // A number that is alive was pulled exactly where it is at most the highest one that was pulled.
        ensures pulled { (n : ℕ) → is_alive self.now.log.past n ≡ true →
            was_pulled self.now.log.past n ≡ nat_le n (highest_pulled self.now.log.past) }
    {
        let _ = &self.slots;
    }

    /// What has happened, as a list of entries.
    pub fn journal(&self) -> &Journal
        ensures past { result.now.past ≡ self.now.log.past }
        ensures limit { result.now.limit ≡ self.now.log.limit }
    {
        &self.journal
    }

    /// Gives up the connection, and keeps what has happened.
    pub fn into_journal(self) -> Journal
        ensures past { result.past ≡ self.log.past }
        ensures limit { result.limit ≡ self.log.limit }
    {
        let Self {
            alloc: _,
            me: _,
            peer: _,
            slots: _,
            journal,
            store: _store,
            splitter: _splitter,
            freed: _freed,
            charges: _charges,
            spare: _,
            store_spare: _,
            pong: _pong,
            newest: _,
            stream: _,
            mapped: _,
            map: _map,
            asking: _,
            accepted: _,
            highest: _,
            last: _,
        } = self;
        journal
    }
}
