//! How the slots of a host are taken apart.
ghost use Rattle.std.specs.Prelude.{◌≡◌, All, IfOk, OnOk, map};
ghost use Rattle.std.specs.Vec.Iter.{into_iter_items};
ghost use Rattle.rds_socket.specs.Holding.{IsEnded};
ghost use Rattle.rds_host_end.specs.Columns.{rows_left};

use rds_fmap::Reader;
use rds_meter::MeterSeat;
use rds_socket::{Closed, Route, SocketParts};
use rds_socket_parts::{Inbox, Ports};
use rds_wire::Memory;
use std::alloc::Global;
use std::vec::IntoIter;

/// What is left of the slots of a host: their mailboxes, of each slot its routes, and their seats at the port table and the meter.
#[derive(Drop)]
pub(crate) struct SlotsLeft {
    pub(crate) inboxes: Vec<Inbox>,
    pub(crate) routes: Vec<IntoIter<Route<Reader>>>,
    pub(crate) ports: Vec<Ports>,
    pub(crate) words: Vec<MeterSeat>,
}

/// Takes the slots of a host apart.
pub(crate) fn take_slots(alloc: Global, closed: Vec<Closed<Reader>>) -> Result<SlotsLeft, Memory>
    ensures inboxes { IfOk result (λ left. map (λ b. b.get) left.inboxes.items ≡ map (λ h. h.inbox.get) closed.items) }
    ensures routes { IfOk result (λ left. rows_left left.routes.items ≡ map (λ h. h.routes) closed.items) }
    ensures ports { IfOk result (λ left. left.ports.items ≡ map (λ h. h.ports) closed.items) }
    ensures words { IfOk result (λ left. left.words.items ≡ map (λ h. h.words.seat) closed.items) }
    ensures ended { OnOk result (All IsEnded closed.items) }
{
    let mut inboxes = Vec::with_capacity(alloc, closed.len())?;
    let mut routes = Vec::with_capacity(alloc, closed.len())?;
    let mut ports = Vec::with_capacity(alloc, closed.len())?;
    let mut words = Vec::with_capacity(alloc, closed.len())?;
    for slot in closed {
        let (inbox, own, seat, purse) = take_slot(slot);
        inboxes.push(inbox)?;
        routes.push(own)?;
        ports.push(seat)?;
        words.push(purse)?;
    }
    Ok(SlotsLeft {
        inboxes,
        routes,
        ports,
        words,
    })
}

// Takes a slot apart.
fn take_slot(slot: Closed<Reader>) -> (Inbox, IntoIter<Route<Reader>>, Ports, MeterSeat)
    ensures inbox { result.0.get ≡ slot.inbox.get }
    ensures routes { into_iter_items result.1 ≡ slot.routes }
    ensures ports { result.2 ≡ slot.ports }
    ensures words { result.3 ≡ slot.words.seat }
    ensures ended { IsEnded slot }
{
    let SocketParts {
        table,
        seat,
        meter: _meter,
        own,
        inbox,
        get,
        routes,
    } = slot.into_parts();
    (
        Inbox::new(inbox, get),
        routes.into_iter(),
        Ports::new(table, seat),
        own,
    )
}
