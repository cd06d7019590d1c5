//! A line, what it is made of and what it gives back.
ghost use Rattle.std.specs.Prelude.{◌≡◌, ◌≤◌, ◌<◌, ℕ, All, IfOk, IfSome, IsSome, [], false, None, Some, length};
ghost use Rattle.rds_cong.specs.Map.{no_ports};
ghost use Rattle.rds_line_channel.specs.Channel.{new_channel};
ghost use Rattle.rds_line_channel.specs.Streams.{AreNumbered, IsUnused};
ghost use Rattle.rds_model.specs.declared.entry.TheConstants.{MAX_SLOTS};
ghost use Rattle.rds_model.specs.declared.journal.TheConstants.{MIN_ENTRIES, MAX_ENTRIES};

mod making;
mod opening;
mod receiving;
mod sending;
mod taking;
mod turn;

use crate::parts::LineParts;
use making::tables;
use rds_bindtab::BindNote;
use rds_cong::PortMap;
use rds_fmap::MapWriter;
use rds_line_channel::Channel;
use rds_line_parts::{Boxes, LineOrders, LinePorts, LineWords, OwnMap};
use rds_link::End;
use rds_mail::{Asked, Note};
use rds_model::{Datagram, Journal};
use rds_wire::Memory;
use std::alloc::Global;
use std::marker::Model;
use std::sync::Wait;

/// A line: all that a host has for one peer. It takes the orders that sockets gave, drives the connection over its streams, puts
/// what comes into mailboxes, and publishes the peer's congestion map. Contracts see each of these, and what the line keeps
/// between them.
pub struct Line<E: End, M: MapWriter> {
    pub(crate) channel: Channel<E>,
    orders: LineOrders,
    boxes: Boxes,
    ports: LinePorts,
    words: LineWords,
    // The host's own map as it was last read, and whether it is the one that was pulled last on the open stream.
    own: OwnMap,
    own_pulled: bool,
    // The peer's map that came last, and who publishes it.
    peer_map: PortMap,
    map: M,
}

// By hand, so that one call drops it wherever it is let go, and no function that owns one drops each field.
impl<E: End, M: MapWriter> Drop for Line<E, M> {
    fn drop(self) {
        let Self {
            channel: _channel,
            orders: _orders,
            boxes: _boxes,
            ports: _ports,
            words: _words,
            own: _own,
            own_pulled: _,
            peer_map: _peer_map,
            map: _map,
        } = self;
    }
}

impl<E: End, M: MapWriter> Model for Line<E, M> {
    ghost use Rattle.rds_line.specs.Line.{LineView};
    ghost use Rattle.rds_line.specs.Keeps.{IsKept};

    ghost Value = { LineView E M };

    ghost view = { λ l. record {
      channel = l.channel;
      orders = l.orders;
      boxes = l.boxes;
      ports = l.ports;
      words = l.words;
      own = l.own;
      map = l.map;
    } };

    ghost invariant = { λ l. IsKept M.published l.own_pulled (record {
      channel = l.channel;
      orders = l.orders;
      boxes = l.boxes;
      ports = l.ports;
      words = l.words;
      own = l.own;
      map = l.map;
    }) };
}

impl<E: End, M: MapWriter> Line<E, M> {
    ghost use Rattle.rds_cong.specs.Map.{no_ports};
    ghost use Rattle.rds_model.specs.Alive.{alive_numbers};
    ghost use Rattle.rds_frame.specs.Splitting.{IsPartial};
    ghost use Rattle.rds_model.specs.Legal.{IsWhole};
    ghost use Rattle.rds_model.specs.declared.entry.TheConstants.{MAX_SLOTS};
    ghost use Rattle.rds_model.specs.declared.journal.TheConstants.{MIN_ENTRIES, MAX_ENTRIES};
    ghost use Rattle.rds_mail.specs.Passes.{after_note};
    ghost use Rattle.rds_bindtab.specs.Seats as ports;
    ghost use Rattle.rds_line_parts.specs.Boxes.{IsBoxOf};
    ghost use Rattle.rds_line_channel.specs.Channel.{IsNewChannel, new_channel};
    ghost use Rattle.rds_line_channel.specs.Carried.{StreamsCarry};
    ghost use Rattle.rds_line_channel.specs.Streams.{AreKept, AreNumbered, IsUnused, unopened};
    ghost use Rattle.rds_line.specs.Keeps.{KeepsLine};

    /// A line of these parts, with an empty journal of at most `limit` entries and no stream open. Nothing was moved yet: the
    /// stream numbers ascend from above 0 and the ends are unused, there is a mailbox for each slot of the port table, the
    /// passes have put and got nothing, the seats have made no steps, and nothing was published.
    ///
    /// # Errors
    ///
    /// Where there is no memory for its tables. The parts are given up.
    pub fn new(alloc: Global, parts: LineParts<E, M>, limit: u32) -> Result<Line<E, M>, Memory>
        requires least { MIN_ENTRIES ≤ limit }
        requires most { limit ≤ MAX_ENTRIES }
        requires numbered { AreNumbered parts.streams.items }
        requires unused { All (λ stream. IsUnused E.means stream.1) parts.streams.items }
        requires got { parts.orders.got ≡ [] }
        requires boxes { length parts.inboxes ≡ parts.ports.table.slots }
        requires few { parts.ports.table.slots ≤ MAX_SLOTS }
        requires put { All (λ box. box.put ≡ []) parts.inboxes }
        requires looks { parts.ports.view.steps ≡ [] }
        requires steps { parts.words.view.steps ≡ [] }
        requires checks { parts.words.view.checks ≡ [] }
        requires published { M.published parts.map ≡ [] }
        ensures { IfOk result (λ line. line ≡ record {
          channel = new_channel parts.me parts.peer MAX_SLOTS limit parts.streams.items;
          orders = parts.orders;
          boxes = parts.inboxes;
          ports = parts.ports;
          words = parts.words;
          own = record { map = no_ports; change = None };
          map = parts.map;
        }) }
    {
        let LineParts {
            me,
            peer,
            streams,
            orders,
            inboxes,
            ports,
            words,
            map,
        } = parts;
        let (channel, own, peer_map) = tables(alloc, me, peer, streams, limit)?;
        Ok(Line {
            channel,
            orders,
            boxes: inboxes,
            ports,
            words,
            own,
            own_pulled: false,
            peer_map,
            map,
        })
    }

    /// Gives a line that has no streams, and on which nothing was moved, those that it is to open, each with its number. The numbers
    /// ascend from above 0, and the ends are unused. It takes no memory.
    pub fn give_streams(&mut self, streams: Vec<(u32, E)>)
        requires new { IsNewChannel self.old.channel }
        requires numbered { AreNumbered streams.items }
        requires unused { All (λ stream. IsUnused E.means stream.1) streams.items }
        ensures { self.new ≡ record self.old { channel = record self.old.channel { streams = unopened streams.items } } }
    {
        self.channel.give_streams(streams);
    }

    /// The journal, and all that the line was given. It takes no memory.
    pub fn into_parts(self) -> (Journal, LineParts<E, M>)
        ensures past { result.0.past ≡ self.channel.conn.log.past }
        ensures me { result.1.me ≡ self.channel.conn.me }
        ensures peer { result.1.peer ≡ self.channel.conn.peer }
        ensures streams { result.1.streams.items ≡ self.channel.streams.list }
        ensures orders { result.1.orders ≡ self.orders }
        ensures inboxes { result.1.inboxes ≡ self.boxes }
        ensures ports { result.1.ports ≡ self.ports }
        ensures words { result.1.words ≡ self.words }
        ensures map { result.1.map ≡ self.map }
    {
        let Line {
            channel,
            orders,
            boxes,
            ports,
            words,
            own: _,
            own_pulled: _,
            peer_map: _,
            map,
        } = self;
        let me = channel.me();
        let peer = channel.peer();
        let (journal, streams) = channel.into_parts();
        let parts = LineParts {
            me,
            peer,
            streams,
            orders,
            inboxes: boxes,
            ports,
            words,
            map,
        };
        (journal, parts)
    }

    /// Changes nothing: what every line keeps.
    pub fn known(&self)
        ensures keeps { KeepsLine M.published self.now }
        ensures carried { StreamsCarry E.means self.now.channel }
        ensures streams { AreKept E.means self.now.channel.streams }
        ensures whole { IsWhole self.now.channel.conn.log.past }
        ensures partial { self.now.channel.conn.waiting ≡ None → IsPartial self.now.channel.conn.rest }
    {
        self.channel.known();
    }

    /// The IPv4 address of this host.
    pub fn me(&self) -> u32
        ensures { result ≡ self.now.channel.conn.me }
    {
        self.channel.me()
    }

    /// The IPv4 address of the peer.
    pub fn peer(&self) -> u32
        ensures { result ≡ self.now.channel.conn.peer }
    {
        self.channel.peer()
    }

    /// What has happened, as a list of entries.
    pub fn journal(&self) -> &Journal
        ensures past { result.now.past ≡ self.now.channel.conn.log.past }
        ensures limit { result.now.limit ≡ self.now.channel.conn.log.limit }
    {
        self.channel.journal()
    }

    /// How many accepted datagrams are neither acknowledged nor taken back.
    pub fn unacked(&self) -> u32
        ensures { result ≡ length (alive_numbers self.now.channel.conn.log.past) }
    {
        self.channel.unacked()
    }

    /// How many bytes are to be written to the open stream. It is 0 where none is open.
    pub fn unwritten(&self) -> usize
        ensures { result ≡ length self.now.channel.out }
    {
        self.channel.unwritten()
    }

    /// Waits a short while, where nothing can be read or written.
    pub fn rest<R: Wait>(&self, rt: &R) {
        self.channel.rest(rt);
    }

    /// The getter of the orders is told of what a putter had put.
    pub fn hear_orders(&mut self, note: Note<Asked>)
        requires { note.mail ≡ self.old.orders.mail }
        ensures { self.new ≡ record self.old { orders = after_note self.old.orders note } }
    {
        self.orders.hear(note);
    }

    /// A note of what the line has put into the mailbox of a slot.
    pub fn inbox_note(&mut self, slot: u16) -> Note<Datagram>
        requires { slot < length self.old.boxes }
        ensures same { self.new ≡ self.old }
        ensures note { IsBoxOf self.old.boxes slot result }
    {
        self.boxes.note(slot)
    }

    /// The line's seat at the port table is told of a port that a socket holds, by a note of that alone.
    pub fn hear_port(&mut self, note: BindNote)
        requires table { note.table ≡ self.old.ports.table }
        requires steps { note.view.steps ≡ [] }
        ensures { self.new ≡ record self.old { ports = ports.knowing self.old.ports (ports.joined self.old.ports.view note.view) } }
    {
        self.ports.hear(note);
    }
}
