//! A slot without a port, and how it gets one.
ghost use Rattle.std.specs.Prelude.{◌≡◌, ◌<◌, ℕ, [], Some, None, OnOk, OnErr, IfErr};
ghost use Rattle.rds_model.specs.declared.entry.TheConstants.{MAX_SLOTS};
ghost use Rattle.std.specs.Arc.{arc_value};
ghost use Rattle.rds_bindtab.specs.Seats.{slot_of};
ghost use Rattle.rds_model.specs.declared.order.Order.TheVariants as order;
ghost use Rattle.rds_meter.specs.Places.{part};
ghost use Rattle.rds_socket_parts.specs.Ports.{HasClaimedOnly};
ghost use Rattle.rds_socket_parts.specs.Words.{IsQuietSeat, Purse};
ghost use Rattle.rds_socket_parts.specs.Boxes.{Box};
ghost use Rattle.rds_socket_parts.specs.Lanes.{Ascend, peers_of, ArePutOf, IsPutTo};
ghost use Rattle.rds_socket_parts.specs.Refusals.{AskRefused};
ghost use Rattle.rds_socket.specs.Binds.{BindFits, BindAnyFits};
ghost use Rattle.rds_socket.specs.Calls.{with_routes};
ghost use Rattle.rds_socket.specs.Holding.{IsVacant, IsSendBuffer, IsReceiveBuffer};
ghost use Rattle.rds_socket.specs.Stays.{HoldingStays};

use crate::closed::Closed;
use crate::socket::Socket;
use rds_bindtab::{BindError, BindSeat, BindTable};
use rds_fmap::MapReader;
use rds_mail::{Asked, GetPass, Mail};
use rds_meter::{Meter, MeterSeat};
use rds_model::{Datagram, Order};
use rds_socket_parts::{CancelError, Inbox, Ports, Route, Routes, Words};
use std::marker::Model;
use std::sync::{Arc, Wait};

/// A slot of a host that has no port yet. Contracts see its seats, its mailbox and its routes.
pub struct Vacant<R: MapReader> {
    pub(crate) ports: Ports,
    pub(crate) words: Words,
    pub(crate) inbox: Inbox,
    pub(crate) routes: Routes<R>,
}

// By hand, so that one call drops it wherever it is let go, and no function that owns one drops each field.
impl<R: MapReader> Drop for Vacant<R> {
    fn drop(self) {
        let Self {
            ports: _ports,
            words: _words,
            inbox: _inbox,
            routes: _routes,
        } = self;
    }
}

impl<R: MapReader> Model for Vacant<R> {
    ghost use Rattle.rds_socket.specs.Holding.{Holding, IsVacant, parts_held};

    ghost Value = { Holding R };

    ghost view = { λ v. parts_held v.ports v.words v.inbox v.routes 0 };

    ghost invariant = { λ v. IsVacant (parts_held v.ports v.words v.inbox v.routes 0) };
}

impl<R: MapReader> Vacant<R> {
    /// A slot made from its parts. The routes ascend by the peers' addresses, and lead to each peer once.
    pub fn of(
        table: Arc<BindTable>,
        seat: BindSeat,
        meter: Arc<Meter>,
        own: MeterSeat,
        inbox: Arc<Mail<Datagram>>,
        get: GetPass<Datagram>,
        routes: Vec<Route<R>>,
    ) -> Vacant<R>
        requires table { seat.table ≡ arc_value table }
        requires meter { own.table ≡ arc_value meter }
        requires mail { get.mail ≡ (arc_value inbox).line }
        requires slot { (seat.view.slot ≡ Some (slot_of seat.view)) × (own.slot ≡ Some (slot_of seat.view)) × (slot_of seat.view < MAX_SLOTS) }
        requires port { (seat.view.port ≡ None) × HasClaimedOnly None seat.view }
        requires quiet { IsQuietSeat (slot_of seat.view) own.view }
        requires parts { (word : ℕ) → part word own.view.steps ≡ 0 }
        requires orders { ArePutOf (slot_of seat.view) routes.items }
        requires ascend { Ascend (peers_of routes.items) }
        ensures { let words : Purse = record { slot = slot_of seat.view; seat = own } in
            let box : Box = record { bell = (arc_value inbox).bell; get = get } in
            result ≡ record { ports = seat; words = words; inbox = box; routes = routes.items; total = 0 } }
    {
        let slot = seat.slot().unwrap_or(0);
        let ports = Ports::new(table, seat);
        let words = Words::new(meter, own, slot);
        let inbox = Inbox::new(inbox, get);
        let routes = Routes::new(routes);
        Vacant {
            ports,
            words,
            inbox,
            routes,
        }
    }

    /// The slot's number.
    pub fn slot(&self) -> u16
        ensures { result ≡ self.now.words.slot }
    {
        self.words.slot()
    }

    /// Binds a port, with a send buffer of 1 to `MAX_BUFFER` bytes and a receive buffer of 2 to `MAX_BUFFER`. The slot's receive limit
    /// is set first, and stays set where the port is refused.
    ///
    /// # Errors
    ///
    /// The slot and `Reserved` for ports 0 and 1, or `InUse` where another socket holds the port.
    pub fn bind(
        self,
        port: u16,
        sndbuf: u32,
        rcvbuf: u32,
    ) -> Result<Socket<R>, (Vacant<R>, BindError)>
        requires sndbuf { IsSendBuffer sndbuf }
        requires rcvbuf { IsReceiveBuffer rcvbuf }
        ensures { BindFits self port sndbuf rcvbuf result }
    {
        let Vacant {
            mut ports,
            mut words,
            inbox,
            routes,
        } = self;
        words.set_limit(rcvbuf);
        match ports.claim(port) {
            Ok(()) => Ok(Socket {
                port,
                sndbuf,
                rcvbuf,
                told: None,
                ports,
                words,
                inbox,
                routes,
                total: 0,
            }),
            Err(error) => {
                let vacant = Vacant {
                    ports,
                    words,
                    inbox,
                    routes,
                };
                Err((vacant, error))
            }
        }
    }

    /// Binds the first port from `start` upward that is free, where port 2 follows port 65,535.
    ///
    /// # Errors
    ///
    /// The slot and `NoneFree`, where each port was found in use.
    pub fn bind_any(
        self,
        start: u16,
        sndbuf: u32,
        rcvbuf: u32,
    ) -> Result<Socket<R>, (Vacant<R>, BindError)>
        requires sndbuf { IsSendBuffer sndbuf }
        requires rcvbuf { IsReceiveBuffer rcvbuf }
        ensures { BindAnyFits self start sndbuf rcvbuf result }
    {
        let Vacant {
            mut ports,
            mut words,
            inbox,
            routes,
        } = self;
        words.set_limit(rcvbuf);
        match ports.search(start) {
            Some(port) => Ok(Socket {
                port,
                sndbuf,
                rcvbuf,
                told: None,
                ports,
                words,
                inbox,
                routes,
                total: 0,
            }),
            None => {
                let vacant = Vacant {
                    ports,
                    words,
                    inbox,
                    routes,
                };
                Err((vacant, BindError::NoneFree))
            }
        }
    }

    /// Changes nothing: what every slot without a port is.
    pub fn known(&self)
        ensures { IsVacant self.now }
    {
        let _ = &self.ports;
    }

    /// Ends the slot without an order to any peer.
    pub fn finish(self) -> Closed<R>
        ensures { result ≡ self }
    {
        let Vacant {
            ports,
            words,
            inbox,
            routes,
        } = self;
        Closed {
            ports,
            words,
            inbox,
            routes,
            total: 0,
        }
    }

    /// Asks the line to the peer to cut its stream.
    ///
    /// # Errors
    ///
    /// `NoRoute` where the peer isn't in the host's list, and `Memory` where there is none. Nothing was put.
    pub fn cut<W: Wait>(&mut self, rt: &W, peer: u32) -> Result<(), CancelError>
        ensures put { OnOk result (IsPutTo peer order.Cut self.old.routes self.new.routes) }
        ensures refused { IfErr result (AskRefused peer self.old.routes) }
        ensures same { OnErr result (self.new ≡ self.old) }
        ensures rest { self.new ≡ with_routes self.old self.new.routes }
        ensures stays { HoldingStays R.pair R.has_seen self.old self.new }
    {
        self.routes.ask(rt, peer, Asked::new(Order::Cut))
    }
}
