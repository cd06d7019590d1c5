//! A connection and the streams that carry it.
ghost use Rattle.std.specs.Prelude.{◌≡◌, ◌≤◌, ◌<◌, ◌+◌, ◌↔◌, ℕ, All, IfOk, IfSome, IsSome, IsTrue, OnOk, OnErr, length, true, false, None, [], Err};
ghost use Rattle.std.specs.Option.{option_map, option_copied};
ghost use Rattle.rds_wire.specs.declared.frame.Frame.{Frame};
ghost use Rattle.rds_model.specs.declared.journal.JournalError.TheVariants as errors;
ghost use Rattle.rds_line_channel.specs.Changes.{EndsStream};

mod passing;
mod receiving;
mod sending;
mod steps;

use crate::Streams;
use crate::cuts::Cuts;
use crate::piece::Piece;
use rds_conn::{Conn, ConnError, Out};
use rds_link::End;
use rds_model::{Journal, JournalError, Verdict};
use rds_wire::{Frame, Memory};
use std::alloc::Global;
use std::marker::Model;
use std::sync::Wait;

/// What became of the bytes that came from the open stream.
#[derive(Clone, Copy, Debug, PartialEq, Eq)]
pub enum Taken {
    /// A whole frame waits, which has to be passed before more is taken.
    Frame,
    /// All of them were taken, and no whole frame waits.
    Part,
    /// A header was malformed: it went to the journal, and the stream is over.
    Refused,
}

/// A connection and the streams that carry it: all that one host's line has of the way to its peer. At most one stream is open
/// at a time, both in the journal and at the host's end of it. Contracts see the connection, the bytes on their way, the streams and the cuts.
pub struct Channel<E: End> {
    pub(crate) conn: Conn,
    // What was pulled and isn't written yet.
    pub(crate) out: Out,
    // What came and wasn't taken yet.
    pub(crate) piece: Piece,
    pub(crate) streams: Streams<E>,
    pub(crate) cuts: Cuts,
}

// By hand, so that one call drops it wherever it is let go, and no function that owns one drops each field.
impl<E: End> Drop for Channel<E> {
    fn drop(self) {
        let Self {
            conn: _conn,
            out: _out,
            piece: _piece,
            streams: _streams,
            cuts: _cuts,
        } = self;
    }
}

impl<E: End> Model for Channel<E> {
    ghost use Rattle.rds_conn.specs.Connection.{taken_bytes};
    ghost use Rattle.std.specs.Prelude.{◌++◌};
    ghost use Rattle.rds_line_channel.specs.Channel.{ChannelView};
    ghost use Rattle.rds_line_channel.specs.Carried.{IsCarriedBy};

    ghost Value = { ChannelView E };

    ghost view = { λ c. record { conn = c.conn; out = c.out; piece = c.piece; streams = c.streams; cuts = c.cuts } };

    ghost invariant = { λ c. IsCarriedBy E.means c.conn.log.past (taken_bytes c.conn ++ c.piece) c.out c.streams c.cuts.numbers };
}

impl<E: End> Channel<E> {
    ghost use Rattle.rds_model.specs.declared.entry.TheConstants.{MAX_SLOTS};
    ghost use Rattle.rds_model.specs.declared.journal.TheConstants.{MIN_ENTRIES, MAX_ENTRIES};
    ghost use Rattle.rds_model.specs.Alive.{alive_numbers};
    ghost use Rattle.rds_model.specs.Legal.{IsWhole};
    ghost use Rattle.rds_model.specs.Reading.{verdict_of};
    ghost use Rattle.rds_model.specs.declared.entry.Verdict.TheVariants as verdict;
    ghost use Rattle.rds_wire.specs.declared.kind.TheConstants.{MAP_LENGTH, MAX_LENGTH};
    ghost use Rattle.rds_frame.specs.Splitting.{IsPartial};
    ghost use Rattle.rds_conn.specs.Connection.{stream_of, with_room};
    ghost use Rattle.rds_line_channel.specs.Streams.{AreKept, AreNumbered, IsUnused, unopened};
    ghost use Rattle.rds_line_channel.specs.Carried.{StreamsCarry};
    ghost use Rattle.rds_line_channel.specs.Channel.{IsNewChannel, new_channel, with_conn};

    /// A channel of the host `me` to `peer`, both IPv4 addresses, over these streams, each with its number: an empty journal
    /// of at most `limit` entries, and no stream open. The numbers ascend from above 0, and the ends are unused. The sockets of
    /// this host have slots below `slots`.
    ///
    /// # Errors
    ///
    /// Where there is no memory for its tables. The streams are given up.
    pub fn new(
        alloc: Global,
        me: u32,
        peer: u32,
        slots: u16,
        limit: u32,
        streams: Vec<(u32, E)>,
    ) -> Result<Channel<E>, Memory>
        requires slots { slots ≤ MAX_SLOTS }
        requires least { MIN_ENTRIES ≤ limit }
        requires most { limit ≤ MAX_ENTRIES }
        requires numbered { AreNumbered streams.items }
        requires unused { All (λ stream. IsUnused E.means stream.1) streams.items }
        ensures { IfOk result (λ c. c ≡ new_channel me peer slots limit streams.items) }
    {
        Ok(Channel {
            conn: Conn::new(alloc, me, peer, slots, limit)?,
            out: Out::new(alloc)?,
            piece: Piece::new(alloc)?,
            streams: Streams::new(streams),
            cuts: Cuts::new(alloc),
        })
    }

    /// Gives a channel that has no streams, and on which nothing has happened, those that it is to open, each with its number. The
    /// numbers ascend from above 0, and the ends are unused. It takes no memory.
    pub fn give_streams(&mut self, streams: Vec<(u32, E)>)
        requires new { IsNewChannel self.old }
        requires numbered { AreNumbered streams.items }
        requires unused { All (λ stream. IsUnused E.means stream.1) streams.items }
        ensures { self.new ≡ record self.old { streams = unopened streams.items } }
    {
        self.streams = Streams::new(streams);
    }

    /// The journal, and every stream with its end.
    pub fn into_parts(self) -> (Journal, Vec<(u32, E)>)
        ensures past { result.0.past ≡ self.conn.log.past }
        ensures streams { result.1.items ≡ self.streams.list }
    {
        let Channel {
            conn,
            out: _out,
            piece: _piece,
            streams,
            cuts: _cuts,
        } = self;
        (conn.into_journal(), streams.into_streams())
    }

    /// Changes nothing: what every channel keeps.
    pub fn known(&self)
        ensures carried { StreamsCarry E.means self.now }
        ensures streams { AreKept E.means self.now.streams }
        ensures open { (self.now.streams.is_open ≡ true) ↔ IsSome (stream_of self.now.conn) }
        ensures whole { IsWhole self.now.conn.log.past }
        ensures room { length self.now.conn.log.past + self.now.conn.log.spare ≤ self.now.conn.log.limit }
        ensures limit { self.now.conn.log.limit ≤ MAX_ENTRIES }
        ensures slots { self.now.conn.slots ≤ MAX_SLOTS }
        ensures freed { length self.now.conn.freed ≡ self.now.conn.slots }
        ensures waiting { IfSome self.now.conn.waiting (λ f. IsSome (stream_of self.now.conn)) }
        ensures partial { self.now.conn.waiting ≡ None → IsPartial self.now.conn.rest }
        ensures size { IfSome self.now.conn.waiting (λ f. length f.payload ≤ MAX_LENGTH) }
        ensures map { IfSome self.now.conn.waiting (λ f. verdict_of self.now.conn.log.past f.header ≡ verdict.Map →
            length f.payload ≡ MAP_LENGTH) }
    {
        self.conn.known();
        self.streams.known();
    }

    /// The IPv4 address of this host.
    pub fn me(&self) -> u32
        ensures { result ≡ self.now.conn.me }
    {
        self.conn.me()
    }

    /// The IPv4 address of the peer.
    pub fn peer(&self) -> u32
        ensures { result ≡ self.now.conn.peer }
    {
        self.conn.peer()
    }

    /// What has happened, as a list of entries.
    pub fn journal(&self) -> &Journal
        ensures past { result.now.past ≡ self.now.conn.log.past }
        ensures limit { result.now.limit ≡ self.now.conn.log.limit }
    {
        self.conn.journal()
    }

    /// How many accepted datagrams are neither acknowledged nor taken back.
    pub fn unacked(&self) -> u32
        ensures { result ≡ length (alive_numbers self.now.conn.log.past) }
    {
        self.conn.unacked()
    }

    /// How many bytes were pulled and are still to be written.
    pub fn unwritten(&self) -> usize
        ensures { result ≡ length self.now.out }
    {
        self.out.rest().len()
    }

    /// How many bytes came and weren't taken.
    pub fn untaken(&self) -> usize
        ensures { result ≡ length self.now.piece }
    {
        self.piece.bytes().len()
    }

    /// Whether a stream is open.
    pub fn is_open(&self) -> bool
        ensures { result ≡ self.now.streams.is_open }
    {
        self.streams.is_open()
    }

    /// Whether there is a stream that wasn't opened.
    pub fn has_next(&self) -> bool
        ensures { IsTrue result ↔ (self.now.streams.opened < length self.now.streams.list) }
    {
        self.streams.has_next()
    }

    /// Waits a short while, where nothing can be read or written.
    pub fn rest<R: Wait>(&self, rt: &R) {
        self.streams.rest(rt);
    }

    /// The whole frame that came and wasn't passed, if there is one.
    pub fn waiting(&self) -> Option<&Frame>
        ensures { option_copied result ≡ self.now.conn.waiting }
    {
        self.conn.waiting()
    }

    /// What has to become of the whole frame that came and wasn't passed, if there is one.
    pub fn verdict(&self) -> Option<Verdict>
        ensures { result ≡ option_map (λ (f : Frame). verdict_of self.now.conn.log.past f.header) self.now.conn.waiting }
    {
        self.conn.verdict()
    }

    /// Makes the connection ready for one step: its journal has room for two more entries.
    ///
    /// # Errors
    ///
    /// `Spent` exactly where two more entries would pass the limit of the journal, and `Memory` where there is no memory for them.
    /// The channel is as before.
    pub fn reserve(&mut self) -> Result<(), JournalError>
        ensures ok { OnOk result (self.new ≡ with_conn self.old (with_room self.old.conn)) }
        ensures err { OnErr result (self.new ≡ self.old) }
        ensures spent { (entries : ℕ) → result ≡ Err (errors.Spent entries) →
            (entries ≡ length self.old.conn.log.past) × (self.old.conn.log.limit < length self.old.conn.log.past + 2) }
        ensures full { self.old.conn.log.limit < length self.old.conn.log.past + 2 → result ≡ Err (errors.Spent (length self.old.conn.log.past)) }
    {
        match self.conn.reserve() {
            Ok(()) => Ok(()),
            Err(ConnError::Spent { entries }) => Err(JournalError::Spent { entries }),
            Err(_) => Err(JournalError::Memory),
        }
    }

    /// Makes room for the note of one more cut.
    ///
    /// # Errors
    ///
    /// Where there is no memory for that note. The channel is as before.
    pub fn reserve_cut(&mut self) -> Result<(), Memory>
        ensures ok { OnOk result (self.new ≡ record self.old { cuts = record self.old.cuts { has_room = true } }) }
        ensures err { OnErr result (self.new ≡ self.old) }
    {
        self.cuts.reserve()
    }
}

// Ends the open stream: what is on its way is given up, and the end is shut.
fn give_up<E: End>(out: &mut Out, piece: &mut Piece, streams: &mut Streams<E>)
    requires { streams.old.is_open ≡ true }
    ensures out { out.new ≡ [] }
    ensures piece { piece.new ≡ [] }
    ensures streams { EndsStream E.means streams.old streams.new }
{
    out.wipe();
    piece.wipe();
    streams.end_current();
}
