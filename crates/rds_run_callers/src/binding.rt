//! How a caller binds sockets.
ghost use Rattle.std.specs.Prelude.{◌≡◌, ◌<◌, ◌≤◌, [], true, false, Ok, Some, IfSome, OnOk, OnErr};
ghost use Rattle.rds_fmap.specs.Readers.{ReaderView};
ghost use Rattle.rds_socket_parts.specs.Ports.{first_port, port_after};
ghost use Rattle.rds_socket.specs.Holding.{IsReceiveBuffer, IsSendBuffer, Open};
ghost use Rattle.rds_socket.specs.Binds.{BindFits, BindAnyFits};
ghost use Rattle.rds_run_callers.specs.Places.{Place, PlaceKeeps, PlacesKeep, HasKept, holding_of, bound_place, ended_place, IsUnbound};
ghost use Rattle.rds_run_callers.specs.Doing.{Binds, BindsFirstFree, IsFree, IsHeld, IsFirstFree};
ghost use Rattle.rds_run_callers.specs.States.{AreSlots, ComesTo, shown, shown_all};

use crate::caller::Caller;
use crate::finding::{find_bound, lift_vacant};
use crate::former::FormerTenant;
use crate::slots::Slots;
use crate::state::State;
use crate::tenant::Tenant;
use rds_fmap::Reader;
use rds_socket::{Socket, Vacant};
use rds_wire::Memory;
use std::alloc::Global;

impl Caller {
    // Binds the next slot to the port. It is refused where all slots are bound, or the port is reserved or in use.
    pub(crate) fn bind(
        &mut self,
        alloc: Global,
        port: u16,
        sndbuf: u32,
        rcvbuf: u32,
    ) -> Result<(), Memory>
        requires sndbuf { IsSendBuffer sndbuf }
        requires rcvbuf { IsReceiveBuffer rcvbuf }
        ensures host { self.new.host ≡ self.old.host }
        ensures keeps { PlacesKeep self.old.places self.new.places }
        ensures done { OnOk result (Binds port sndbuf rcvbuf self.old.places self.new.places) }
    {
        if port < 2 || !self.is_free(port) {
            return Ok(());
        }
        bind_next(&mut self.slots, alloc, port, sndbuf, rcvbuf)
    }

    // Binds the next slot to the first free port from this one on. It is refused where all slots are bound.
    pub(crate) fn bind_any(
        &mut self,
        alloc: Global,
        start: u16,
        sndbuf: u32,
        rcvbuf: u32,
    ) -> Result<(), Memory>
        requires sndbuf { IsSendBuffer sndbuf }
        requires rcvbuf { IsReceiveBuffer rcvbuf }
        ensures host { self.new.host ≡ self.old.host }
        ensures keeps { PlacesKeep self.old.places self.new.places }
        ensures done { OnOk result (BindsFirstFree start sndbuf rcvbuf self.old.places self.new.places) }
    {
        let Some(port) = self.first_free(start) else {
            return Err(Memory);
        };
        bind_any_next(&mut self.slots, alloc, start, port, sndbuf, rcvbuf)
    }

    // Whether no socket holds the port.
    fn is_free(&self, port: u16) -> bool
        ensures free { result ≡ true → IsFree self.now.places port }
        ensures held { result ≡ false → IsHeld self.now.places port }
    {
        find_bound(&self.slots, port).is_none()
    }

    // The first port from `start` upward, and round the top to 2, that no socket holds.
    fn first_free(&self, start: u16) -> Option<u16>
        ensures { IfSome result (IsFirstFree self.now.places start) }
    {
        let first = first_port(start);
        for n in 0..65534 {
            let port = port_after(first, n);
            if self.is_free(port) {
                return Some(port);
            }
        }
        None
    }
}

// Binds the next slot to the port, if a slot is left.
fn bind_next(
    slots: &mut Slots,
    alloc: Global,
    port: u16,
    sndbuf: u32,
    rcvbuf: u32,
) -> Result<(), Memory>
    requires sndbuf { IsSendBuffer sndbuf }
    requires rcvbuf { IsReceiveBuffer rcvbuf }
    requires slots { AreSlots slots.old.states.items }
    requires low { 2 ≤ port }
    requires free { IsFree (shown_all slots.old.states.items) port }
    ensures { ComesTo (Binds port sndbuf rcvbuf) slots.old.states.items slots.new.states.items result }
{
    let Some((slot, vacant)) = lift_vacant(slots) else {
        return Ok(());
    };
    let (state, bound) = bind_vacant(alloc, vacant, port, sndbuf, rcvbuf);
    slots.replace(slot, state);
    bound
}

// Binds the next slot to the port, which is the first free one from `start` on, if a slot is left.
fn bind_any_next(
    slots: &mut Slots,
    alloc: Global,
    start: u16,
    port: u16,
    sndbuf: u32,
    rcvbuf: u32,
) -> Result<(), Memory>
    requires sndbuf { IsSendBuffer sndbuf }
    requires rcvbuf { IsReceiveBuffer rcvbuf }
    requires slots { AreSlots slots.old.states.items }
    requires first { IsFirstFree (shown_all slots.old.states.items) start port }
    ensures { ComesTo (BindsFirstFree start sndbuf rcvbuf) slots.old.states.items slots.new.states.items result }
{
    let Some((slot, vacant)) = lift_vacant(slots) else {
        return Ok(());
    };
    let (state, bound) = bind_any_vacant(alloc, vacant, start, port, sndbuf, rcvbuf);
    slots.replace(slot, state);
    bound
}

// A search from a reserved port begins at port 2.
fn first_port(start: u16) -> u16
    ensures { result ≡ first_port start }
{
    if start < 2 { 2 } else { start }
}

// The n-th port from the first on, where 2 follows 65,535.
fn port_after(first: u16, n: u32) -> u16
    requires { n < 65534 }
    ensures { result ≡ port_after first n }
{
    (2 + (u32::from(first).saturating_sub(2) + n) % 65534) as u16
}

// A vacant slot is bound to the port. Where that fails it stays vacant.
fn bind_vacant(
    alloc: Global,
    vacant: Vacant<Reader>,
    port: u16,
    sndbuf: u32,
    rcvbuf: u32,
) -> (State, Result<(), Memory>)
    requires sndbuf { IsSendBuffer sndbuf }
    requires rcvbuf { IsReceiveBuffer rcvbuf }
    requires got { vacant.inbox.get.got ≡ [] }
    ensures bound { OnOk result.1 ((o : Open ReaderView) × BindFits vacant port sndbuf rcvbuf (Ok o) × (shown result.0 ≡ Some (bound_place o []))) }
    ensures failed { OnErr result.1 ((p : Place) × (shown result.0 ≡ Some p) × IsUnbound p) }
    ensures keeps { (p : Place) → shown result.0 ≡ Some p → PlaceKeeps vacant (holding_of p) × HasKept p }
{
    match vacant.bind(port, sndbuf, rcvbuf) {
        Ok(socket) => (State::Bound(Tenant::new(alloc, socket)), Ok(())),
        Err((vacant, _in_use)) => (State::Vacant(vacant), Err(Memory)),
    }
}

// A vacant slot is bound to a port from `start` on, which is to be this one. Where that fails, or it is another port, the slot
// stays vacant or is ended.
fn bind_any_vacant(
    alloc: Global,
    vacant: Vacant<Reader>,
    start: u16,
    port: u16,
    sndbuf: u32,
    rcvbuf: u32,
) -> (State, Result<(), Memory>)
    requires sndbuf { IsSendBuffer sndbuf }
    requires rcvbuf { IsReceiveBuffer rcvbuf }
    requires got { vacant.inbox.get.got ≡ [] }
    ensures bound { OnOk result.1 ((o : Open ReaderView) × BindAnyFits vacant start sndbuf rcvbuf (Ok o) × (o.port ≡ port) ×
        (shown result.0 ≡ Some (bound_place o []))) }
    ensures failed { OnErr result.1 ((p : Place) × (shown result.0 ≡ Some p) × IsUnbound p) }
    ensures keeps { (p : Place) → shown result.0 ≡ Some p → PlaceKeeps vacant (holding_of p) × HasKept p }
{
    match vacant.bind_any(start, sndbuf, rcvbuf) {
        Ok(socket) if socket.port() == port => {
            (State::Bound(Tenant::new(alloc, socket)), Ok(()))
        }
        Ok(socket) => (ended(alloc, socket), Err(Memory)),
        Err((vacant, _none_free)) => (State::Vacant(vacant), Err(Memory)),
    }
}

// The end of a socket that handed out nothing.
fn ended(alloc: Global, socket: Socket<Reader>) -> State
    requires got { socket.own.inbox.get.got ≡ [] }
    ensures { shown result ≡ Some (ended_place socket.port socket.own []) }
{
    let slot = socket.slot();
    let port = socket.port();
    socket.known();
    let former = FormerTenant::new(slot, port, Vec::new(alloc), socket.finish());
    State::Ended(former)
}
