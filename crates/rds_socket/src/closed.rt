//! A slot whose use has ended.
ghost use Rattle.std.specs.Prelude.{◌≡◌, ◌<◌, ℕ, length, Option, IfErr, IfSome, IfNone, OnOk, OnErr};
ghost use Rattle.std.specs.Arc.{arc_value};
ghost use Rattle.rds_mail.specs.Learning.{AllGot};
ghost use Rattle.rds_model.specs.declared.order.Order.TheVariants as order;
ghost use Rattle.rds_socket_parts.specs.Lanes.{IsLaneAt, Lane, IsPutTo, ArePutOf};
ghost use Rattle.rds_socket_parts.specs.Ports.{HasClaimedOnly};
ghost use Rattle.rds_socket_parts.specs.Refusals.{AskRefused};
ghost use Rattle.rds_socket_parts.specs.Words.{IsQuietSeat};
ghost use Rattle.rds_socket.specs.Calls.{with_inbox, with_routes, after_hearing, IsTakenOut};
ghost use Rattle.rds_socket.specs.Stays.{HoldingStays};
ghost use Rattle.rds_socket.specs.Holding.{IsEnded};

use rds_bindtab::{BindSeat, BindTable};
use rds_fmap::MapReader;
use rds_mail::{Asked, GetPass, Mail, Note};
use rds_meter::{Meter, MeterSeat};
use rds_model::{Datagram, Order};
use rds_socket_parts::{CancelError, Inbox, Ports, Route, Routes, Words};
use std::marker::Model;
use std::sync::{Arc, Wait};

/// A slot whose socket was closed or finished, or that never had one. What is left in its mailbox can be taken out.
/// Contracts see what they see of a socket, but for its port and buffers.
pub struct Closed<R: MapReader> {
    pub(crate) ports: Ports,
    pub(crate) words: Words,
    pub(crate) inbox: Inbox,
    pub(crate) routes: Routes<R>,
    pub(crate) total: u64,
}

// By hand, so that one call drops it wherever it is let go, and no function that owns one drops each field.
impl<R: MapReader> Drop for Closed<R> {
    fn drop(self) {
        let Self {
            ports: _ports,
            words: _words,
            inbox: _inbox,
            routes: _routes,
            total: _,
        } = self;
    }
}

impl<R: MapReader> Model for Closed<R> {
    ghost use Rattle.rds_socket.specs.Holding.{Holding, IsEnded, parts_held};

    ghost Value = { Holding R };

    ghost view = { λ c. parts_held c.ports c.words c.inbox c.routes c.total };

    ghost invariant = { λ c. IsEnded (parts_held c.ports c.words c.inbox c.routes c.total) };
}

/// What a slot was made from.
#[derive(Drop)]
pub struct SocketParts<R: MapReader> {
    pub table: Arc<BindTable>,
    pub seat: BindSeat,
    pub meter: Arc<Meter>,
    pub own: MeterSeat,
    pub inbox: Arc<Mail<Datagram>>,
    pub get: GetPass<Datagram>,
    pub routes: Vec<Route<R>>,
}

impl<R: MapReader> Closed<R> {
    /// Takes the first datagram of the mailbox. `None` where its own step found the mailbox empty.
    pub fn unread<W: Wait>(&mut self, rt: &W) -> Option<Datagram>
        ensures got { IfSome result (λ item. IsTakenOut item self.old self.new) }
        ensures same { IfNone result (self.new ≡ self.old) }
        ensures empty { IfNone result (AllGot self.old.inbox.get) }
        ensures stays { HoldingStays R.pair R.has_seen self.old self.new }
    {
        self.inbox.get(rt)
    }

    /// Asks the line to the peer to cut its stream.
    ///
    /// # Errors
    ///
    /// `NoRoute` where the peer isn't in the host's list, and `Memory` where there is none. Nothing was put.
    pub fn cut<W: Wait>(&mut self, rt: &W, peer: u32) -> Result<(), CancelError>
        ensures put { OnOk result (IsPutTo peer order.Cut self.old.routes self.new.routes) }
        ensures refused { IfErr result (AskRefused peer self.old.routes) }
        ensures same { OnErr result (self.new ≡ self.old) }
        ensures rest { self.new ≡ with_routes self.old self.new.routes }
        ensures stays { HoldingStays R.pair R.has_seen self.old self.new }
    {
        self.routes.ask(rt, peer, Asked::new(Order::Cut))
    }

    /// A note of what it has put on the order queue of a route, counted from 0.
    pub fn order_note(&mut self, place: usize) -> Note<Asked>
        requires { place < length self.old.routes }
        ensures same { self.new ≡ self.old }
        ensures note { (lane : Lane R) × IsLaneAt self.old.routes place lane × (result ≡ lane.pass) }
    {
        self.routes.note(place)
    }

    /// The mailbox is told of what one of its putters had put.
    pub fn hear(&mut self, note: Note<Datagram>)
        requires { note.mail ≡ self.old.inbox.get.mail }
        ensures told { self.new ≡ with_inbox self.old (after_hearing self.old.inbox note) }
        ensures stays { HoldingStays R.pair R.has_seen self.old self.new }
    {
        self.inbox.hear(note);
    }

    /// What the slot was made from. Its seats are of one slot, which has claimed one port at most; its meter seat has made no check
    /// and has added to its slot's taken word alone; and on its queues it has put only orders of its slot, and cuts.
    pub fn into_parts(self) -> SocketParts<R>
        ensures seat { (result.seat ≡ self.ports) × (self.ports.table ≡ arc_value result.table) }
        ensures own { (result.own ≡ self.words.seat) × (self.words.seat.table ≡ arc_value result.meter) }
        ensures get { (result.get ≡ self.inbox.get) × (self.inbox.get.mail ≡ (arc_value result.inbox).line) }
        ensures bell { self.inbox.bell ≡ (arc_value result.inbox).bell }
        ensures routes { result.routes.items ≡ self.routes }
        ensures ended { IsEnded self }
    {
        let Closed {
            ports,
            words,
            inbox,
            routes,
            total: _,
        } = self;
        let (table, seat) = ports.into_parts();
        let (meter, own) = words.into_parts();
        let (inbox, get) = inbox.into_parts();
        SocketParts {
            table,
            seat,
            meter,
            own,
            inbox,
            get,
            routes: routes.into_vec(),
        }
    }
}
