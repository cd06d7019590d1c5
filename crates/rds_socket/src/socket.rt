//! A socket, how it is closed, and its smaller calls.
ghost use Rattle.std.specs.Prelude.{◌≡◌, ◌<◌, length, is_some, None, IfOk, IfErr, OnOk, OnErr};
ghost use Rattle.rds_bindtab.specs.Seats.{knowing, note_of};
ghost use Rattle.rds_model.specs.declared.order.Order.TheVariants as order;
ghost use Rattle.rds_socket_parts.specs.Lanes.{IsLaneAt, Lane, NoneTo, IsPutTo, IsLookTo, RoutesStay};
ghost use Rattle.rds_socket_parts.specs.Refusals.{AskRefused};
ghost use Rattle.rds_socket.specs.Calls.{with_own, with_inbox, with_routes, after_hearing, FindsRoom, IsClosed, IsClosing};
ghost use Rattle.rds_socket.specs.Holding.{IsOpen};
ghost use Rattle.rds_socket.specs.Stays.{Stays};

use crate::closed::Closed;
use rds_bindtab::BindNote;
use rds_fmap::{MapReader, Seen};
use rds_mail::{Asked, Note};
use rds_model::{Datagram, Order};
use rds_socket_parts::{CancelError, Inbox, NoRoute, Ports, Routes, Words};
use rds_wire::Memory;
use std::marker::Model;
use std::sync::Wait;

/// A socket that is bound to a port of its host. Contracts see its port and buffers, how far its close came, its seats, its mailbox,
/// its routes with all that it has put on each, and how many bytes it has sent.
pub struct Socket<R: MapReader> {
    pub(crate) port: u16,
    pub(crate) sndbuf: u32,
    pub(crate) rcvbuf: u32,
    // How many peers were told that it closes, where it is closing.
    pub(crate) told: Option<usize>,
    pub(crate) ports: Ports,
    pub(crate) words: Words,
    pub(crate) inbox: Inbox,
    pub(crate) routes: Routes<R>,
    // How many bytes it has sent.
    pub(crate) total: u64,
}

// By hand, so that one call drops it wherever it is let go, and no function that owns one drops each field.
impl<R: MapReader> Drop for Socket<R> {
    fn drop(self) {
        let Self {
            port: _,
            sndbuf: _,
            rcvbuf: _,
            told: _,
            ports: _ports,
            words: _words,
            inbox: _inbox,
            routes: _routes,
            total: _,
        } = self;
    }
}

impl<R: MapReader> Model for Socket<R> {
    ghost use Rattle.rds_socket.specs.Holding.{Open, IsOpen, parts_held};

    ghost Value = { Open R };

    ghost view = { λ s. record {
      port = s.port;
      sndbuf = s.sndbuf;
      rcvbuf = s.rcvbuf;
      told = s.told;
      own = parts_held s.ports s.words s.inbox s.routes s.total;
    } };

    ghost invariant = { λ s. IsOpen (record {
      port = s.port;
      sndbuf = s.sndbuf;
      rcvbuf = s.rcvbuf;
      told = s.told;
      own = parts_held s.ports s.words s.inbox s.routes s.total;
    }) };
}

impl<R: MapReader> Socket<R> {
    /// The port that it holds.
    pub fn port(&self) -> u16
        ensures { result ≡ self.now.port }
    {
        self.port
    }

    /// The slot's number.
    pub fn slot(&self) -> u16
        ensures { result ≡ self.now.own.words.slot }
    {
        self.words.slot()
    }

    /// Whether a `close` ran out of memory. Then it only receives, and may be closed again.
    pub fn closing(&self) -> bool
        ensures { result ≡ is_some self.now.told }
    {
        self.told.is_some()
    }

    /// Changes nothing: what every socket is.
    pub fn known(&self)
        ensures { IsOpen self.now }
    {
        let _ = &self.ports;
    }

    /// Takes back what it has sent to a port of the peer and the peer hasn't acknowledged. What was on its way may still arrive.
    ///
    /// # Errors
    ///
    /// `NoRoute` where the peer isn't in the host's list, and `Memory` where there is none. Nothing was put.
    pub fn cancel<W: Wait>(&mut self, rt: &W, peer: u32, dport: u16) -> Result<(), CancelError>
        requires { self.old.told ≡ None }
        ensures put { OnOk result (IsPutTo peer (order.Cancel self.old.own.words.slot dport) self.old.own.routes self.new.own.routes) }
        ensures refused { IfErr result (AskRefused peer self.old.own.routes) }
        ensures same { OnErr result (self.new ≡ self.old) }
        ensures rest { self.new ≡ with_own self.old (with_routes self.old.own self.new.own.routes) }
        ensures stays { Stays R.pair R.has_seen self.old self.new }
    {
        let slot = self.words.slot();
        let item = Asked::new(Order::Cancel { slot, dport });
        self.routes.ask(rt, peer, item)
    }

    /// Asks the line to the peer to cut its stream.
    ///
    /// # Errors
    ///
    /// `NoRoute` where the peer isn't in the host's list, and `Memory` where there is none. Nothing was put.
    pub fn cut<W: Wait>(&mut self, rt: &W, peer: u32) -> Result<(), CancelError>
        ensures put { OnOk result (IsPutTo peer order.Cut self.old.own.routes self.new.own.routes) }
        ensures refused { IfErr result (AskRefused peer self.old.own.routes) }
        ensures same { OnErr result (self.new ≡ self.old) }
        ensures rest { self.new ≡ with_own self.old (with_routes self.old.own self.new.own.routes) }
        ensures stays { Stays R.pair R.has_seen self.old self.new }
    {
        self.routes.ask(rt, peer, Asked::new(Order::Cut))
    }

    /// Whether fewer bytes than the send buffer holds are sent and not yet freed.
    pub fn writable(&mut self) -> bool
        ensures answer { FindsRoom self.old result self.new }
        ensures stays { Stays R.pair R.has_seen self.old self.new }
    {
        let freed = self.words.freed();
        self.total.saturating_sub(freed) < u64::from(self.sndbuf)
    }

    /// What one look finds of a port of the peer.
    ///
    /// # Errors
    ///
    /// `NoRoute` where the peer isn't in the host's list.
    pub fn congested(&mut self, peer: u32, port: u16) -> Result<Seen, NoRoute>
        ensures look { IfOk result (λ seen. IsLookTo R.is_look peer port seen self.old.own.routes self.new.own.routes) }
        ensures none { IfErr result (λ e. (e.peer ≡ peer) × NoneTo self.old.own.routes peer) }
        ensures same { OnErr result (self.new ≡ self.old) }
        ensures rest { self.new ≡ with_own self.old (with_routes self.old.own self.new.own.routes) }
        ensures stays { Stays R.pair R.has_seen self.old self.new }
    {
        self.routes.look_up(peer, port)
    }

    /// Tells each peer in turn to give up what the socket has sent and isn't acknowledged, and then releases the port.
    ///
    /// # Errors
    ///
    /// The socket and `Memory`, where there is none. It is closing: it holds its port and still receives, and a further
    /// `close` goes on with the first peer that wasn't told.
    pub fn close<W: Wait>(self, rt: &W) -> Result<Closed<R>, (Socket<R>, Memory)>
        ensures closed { IfOk result (IsClosed self) }
        ensures stay { IfOk result (λ closed. RoutesStay R.pair R.has_seen self.own.routes closed.routes) }
        ensures closing { IfErr result (λ r. IsClosing self r.0) }
        ensures still { IfErr result (λ r. RoutesStay R.pair R.has_seen self.own.routes r.0.own.routes) }
    {
        let Socket {
            port,
            sndbuf,
            rcvbuf,
            told,
            mut ports,
            mut words,
            inbox,
            mut routes,
            total,
        } = self;
        let from = told.unwrap_or(0);
        if let Err(upto) = routes.tell(rt, from, words.slot()) {
            let socket = Socket {
                port,
                sndbuf,
                rcvbuf,
                told: Some(upto),
                ports,
                words,
                inbox,
                routes,
                total,
            };
            return Err((socket, Memory));
        }
        ports.release();
        words.clear(port);
        Ok(Closed {
            ports,
            words,
            inbox,
            routes,
            total,
        })
    }

    /// Ends the use of the slot without an order to any peer. The port stays held.
    pub fn finish(self) -> Closed<R>
        ensures { result ≡ self.own }
    {
        let Socket {
            port: _,
            sndbuf: _,
            rcvbuf: _,
            told: _,
            ports,
            words,
            inbox,
            routes,
            total,
        } = self;
        Closed {
            ports,
            words,
            inbox,
            routes,
            total,
        }
    }

    /// A note of what it has put on the order queue of a route, counted from 0.
    pub fn order_note(&mut self, place: usize) -> Note<Asked>
        requires { place < length self.old.own.routes }
        ensures same { self.new ≡ self.old }
        ensures note { (lane : Lane R) × IsLaneAt self.old.own.routes place lane × (result ≡ lane.pass) }
    {
        self.routes.note(place)
    }

    /// The mailbox is told of what one of its putters had put.
    pub fn hear(&mut self, note: Note<Datagram>)
        requires { note.mail ≡ self.old.own.inbox.get.mail }
        ensures told { self.new ≡ with_own self.old (with_inbox self.old.own (after_hearing self.old.own.inbox note)) }
        ensures stays { Stays R.pair R.has_seen self.old self.new }
    {
        self.inbox.hear(note);
    }

    /// A note of the port that it holds.
    pub fn port_note(&mut self) -> BindNote
        ensures same { self.new ≡ self.old }
        ensures note { result ≡ knowing self.old.own.ports (note_of self.old.own.ports.view) }
    {
        self.ports.note()
    }
}
