//! The routes of a socket to its host's peers.
ghost use Rattle.std.specs.Prelude.{◌≡◌, ◌<◌, ◌≤◌, ◌==◌, ℕ, length, position, IfOk, IfErr, OnOk, OnErr, IfSome, IfNone};
ghost use Rattle.rds_model.specs.declared.entry.TheConstants.{MAX_SLOTS};
ghost use Rattle.rds_model.specs.declared.order.Order.TheVariants as order;
ghost use Rattle.rds_socket_parts.specs.Refusals.{AskRefused};
ghost use Rattle.rds_socket_parts.specs.Lanes.{LeadsTo, NoneTo, IsPutAt, IsPutTo, ArePut, IsLookAt, IsLookTo, HasSeen, RoutesStay, IsLaneAt, Lane};

use crate::error::{CancelError, NoRoute};
use crate::route::Route;
use rds_fmap::{MapReader, Seen};
use rds_mail::{Asked, Note};
use rds_model::Order;
use std::marker::Model;
use std::sync::Wait;

/// The routes of a socket. Contracts see of each route the peer's address, what was put on its order queue, and the reader.
#[derive(Drop)]
pub struct Routes<R: MapReader> {
    routes: Vec<Route<R>>,
}

impl<R: MapReader> Model for Routes<R> {
    ghost use Rattle.std.specs.Prelude.{List};
    ghost use Rattle.rds_socket_parts.specs.Lanes.{Lane};

    ghost Value = { List (Lane R) };

    ghost view = { λ r. r.routes.items };
}

impl<R: MapReader> Routes<R> {
    /// These routes, in this order.
    pub fn new(routes: Vec<Route<R>>) -> Routes<R>
        ensures { result ≡ routes.items }
    {
        Routes { routes }
    }

    /// The routes, in the same order.
    pub fn into_vec(self) -> Vec<Route<R>>
        ensures { result.items ≡ self }
    {
        let Routes { routes } = self;
        routes
    }

    /// How many routes there are.
    pub fn len(&self) -> usize
        ensures { result ≡ length self.now }
    {
        self.routes.len()
    }

    /// The place of the route to a peer.
    pub fn find(&self, peer: u32) -> Option<usize>
        ensures found { IfSome result (LeadsTo self.now peer) }
        ensures none { IfNone result (NoneTo self.now peer) }
    {
        self.position_of(peer)
    }

    fn position_of(&self, peer: u32) -> Option<usize>
        ensures place { result ≡ position (λ lane. lane.peer == peer) self.now }
        ensures none { IfNone result (NoneTo self.now peer) }
    {
        self.routes.iter().position(|route| route.peer == peer)
    }

    /// Looks a port up in the map of the peer at this place.
    pub fn look(&mut self, place: usize, port: u16) -> Seen
        requires { place < length self.old }
        ensures look { IsLookAt R.is_look place port result self.old self.new }
        ensures seen { HasSeen R.has_seen self.new place port result }
        ensures stay { RoutesStay R.pair R.has_seen self.old self.new }
    {
        let route = &mut self.routes[place];
        route.map.bit(port)
    }

    /// Looks a port up in a peer's map.
    ///
    /// # Errors
    ///
    /// Where there is no route to the peer.
    pub fn look_up(&mut self, peer: u32, port: u16) -> Result<Seen, NoRoute>
        ensures look { IfOk result (λ seen. IsLookTo R.is_look peer port seen self.old self.new) }
        ensures none { IfErr result (λ e. (e.peer ≡ peer) × NoneTo self.old peer × (self.new ≡ self.old)) }
        ensures stay { RoutesStay R.pair R.has_seen self.old self.new }
    {
        let Some(place) = self.find(peer) else {
            return Err(NoRoute { peer });
        };
        Ok(self.look(place, port))
    }

    /// Puts an order on the queue of the peer at this place.
    ///
    /// # Errors
    ///
    /// The order is handed back where there is no memory for its place. Nothing was put.
    pub fn put<W: Wait>(&mut self, rt: &W, place: usize, item: Asked) -> Result<(), Asked>
        requires { place < length self.old }
        ensures put { OnOk result (IsPutAt place item self.old self.new) }
        ensures same { OnErr result (self.new ≡ self.old) }
        ensures back { IfErr result (λ back. back ≡ item) }
        ensures stay { RoutesStay R.pair R.has_seen self.old self.new }
    {
        let route = &mut self.routes[place];
        match route.orders.put(rt, &mut route.pass, item) {
            Ok(()) => Ok(()),
            Err((item, _)) => Err(item),
        }
    }

    /// Puts an order on a peer's queue.
    ///
    /// # Errors
    ///
    /// `NoRoute` where there is no route to the peer, and `Memory` where there is none for the order. Nothing was put.
    pub fn ask<W: Wait>(&mut self, rt: &W, peer: u32, item: Asked) -> Result<(), CancelError>
        ensures put { OnOk result (IsPutTo peer item self.old self.new) }
        ensures refused { IfErr result (λ e. AskRefused peer self.old e × (self.new ≡ self.old)) }
        ensures stay { RoutesStay R.pair R.has_seen self.old self.new }
    {
        let Some(place) = self.find(peer) else {
            return Err(CancelError::NoRoute { peer });
        };
        if self.put(rt, place, item).is_err() {
            return Err(CancelError::Memory);
        }
        Ok(())
    }

    /// Tells the peers from a place on, one after another, that the socket of the slot closes.
    ///
    /// # Errors
    ///
    /// The place of the first that wasn't told, since memory ran out.
    pub fn tell<W: Wait>(&mut self, rt: &W, from: usize, slot: u16) -> Result<(), usize>
        requires from { from ≤ length self.old }
        requires slot { slot < MAX_SLOTS }
        ensures all { OnOk result (ArePut from (length self.old) (order.CloseSocket slot) self.old self.new) }
        ensures some { IfErr result (λ upto. (from ≤ upto) × (upto < length self.old) × ArePut from upto (order.CloseSocket slot) self.old self.new) }
        ensures stay { RoutesStay R.pair R.has_seen self.old self.new }
    {
        for place in from..self.routes.len() {
            let item = Asked::new(Order::CloseSocket { slot });
            if self.put(rt, place, item).is_err() {
                return Err(place);
            }
        }
        Ok(())
    }

    /// A note of what was put on the queue of the peer at this place.
    pub fn note(&mut self, place: usize) -> Note<Asked>
        requires { place < length self.old }
        ensures same { self.new ≡ self.old }
        ensures note { (lane : Lane R) × IsLaneAt self.old place lane × (result ≡ lane.pass) }
    {
        let route = &mut self.routes[place];
        route.orders.note(&mut route.pass)
    }
}
