//! What became of a slot.
ghost use Rattle.std.specs.Prelude.{◌≡◌, ◌<◌, ℕ, length, Some, IfOk, OnOk, OnErr};
ghost use Rattle.std.specs.Option.{option_map};
ghost use Rattle.rds_bindtab.specs.Seats.{knowing, note_of};
ghost use Rattle.rds_socket_parts.specs.Lanes.{IsLaneAt, Lane};
ghost use Rattle.rds_fmap.specs.Readers.{ReaderView};
ghost use Rattle.rds_run_callers.specs.Places.{Place, PlaceKeeps, holding_of, told_by, bind_note, spared, IsUsed};
ghost use Rattle.rds_run_callers.specs.Tenants.{Cuts};
ghost use Rattle.rds_run_callers.specs.Ends.{HasItsPort, HasLeft, IsEndOf};
ghost use Rattle.rds_run_callers.specs.States.{shown, is_vacant, port_mark};

use crate::former::FormerTenant;
use crate::spare::SpareSlot;
use crate::tenant::{Tenant, told};
use rds_bindtab::BindNote;
use rds_fmap::Reader;
use rds_mail::{Asked, Note};
use rds_model::Datagram;
use rds_socket::{Closed, Vacant};
use rds_text::Kept;
use rds_wire::Memory;
use std::alloc::Global;
use std::sync::Wait;

/// What became of a slot.
#[derive(Drop)]
pub(crate) enum State {
    /// No socket had the slot.
    Vacant(Vacant<Reader>),
    /// A socket of the slot is bound.
    Bound(Tenant),
    /// The slot's socket has ended.
    Ended(FormerTenant),
    /// The slot was given up before any socket had it.
    Spare(SpareSlot),
    /// A call has the slot in its hands, until it returns.
    Away,
}

impl State {
    /// Whether no socket had the slot.
    pub(crate) fn is_vacant(&self) -> bool
        ensures { result ≡ is_vacant self.now }
    {
        matches!(self, State::Vacant(_))
    }

    /// The port of its socket, and 0 where none is bound.
    pub(crate) fn port(&self) -> u16
        ensures { result ≡ port_mark self.now }
    {
        match self {
            State::Bound(tenant) => tenant.port(),
            _ => 0,
        }
    }

    /// A vacant slot is given up, and another stays as it is.
    pub(crate) fn spared(self) -> State
        ensures { shown result ≡ option_map spared (shown self) }
    {
        match self {
            State::Vacant(vacant) => State::Spare(SpareSlot::new(vacant)),
            used => used,
        }
    }

    /// Asks for a cut of the stream to the peer.
    pub(crate) fn cut<R: Wait>(&mut self, rt: &R, peer: u32) -> Result<(), Memory>
        ensures done { OnOk result ((p : Place) → shown self.old ≡ Some p → (q : Place) × Cuts peer p q × (shown self.new ≡ Some q)) }
        ensures keeps { (p q : Place) → shown self.old ≡ Some p → shown self.new ≡ Some q → PlaceKeeps (holding_of p) (holding_of q) }
        ensures same { OnErr result (self.new ≡ self.old) }
    {
        match self {
            State::Vacant(vacant) => told(vacant.cut(rt, peer)),
            State::Bound(tenant) => tenant.cut(rt, peer),
            State::Ended(former) => former.cut(rt, peer),
            State::Spare(spare) => spare.cut(rt, peer),
            State::Away => Ok(()),
        }
    }

    /// A note of what the slot has put on the order queue of a route, counted from 0.
    pub(crate) fn order_note(&mut self, place: usize) -> Note<Asked>
        requires used { (p : Place) × (shown self.old ≡ Some p) × IsUsed p × (place < length (holding_of p).routes) }
        ensures same { self.new ≡ self.old }
        ensures note { (p : Place) → shown self.old ≡ Some p →
            (lane : Lane ReaderView) × IsLaneAt (holding_of p).routes place lane × (result ≡ lane.pass) }
    {
        match self {
            State::Bound(tenant) => tenant.order_note(place),
            State::Ended(former) => former.order_note(place),
            State::Spare(spare) => spare.order_note(place),
            State::Vacant(_) | State::Away => unreachable!(),
        }
    }

    /// The slot's mailbox is told of what one of its putters had put.
    pub(crate) fn hear(&mut self, note: Note<Datagram>)
        requires used { (p : Place) × (shown self.old ≡ Some p) × IsUsed p × (note.mail ≡ (holding_of p).inbox.get.mail) }
        ensures told { (p : Place) → shown self.old ≡ Some p → shown self.new ≡ Some (told_by p note) }
    {
        match self {
            State::Bound(tenant) => tenant.hear(note),
            State::Ended(former) => former.hear(note),
            State::Spare(spare) => spare.hear(note),
            State::Vacant(_) | State::Away => unreachable!(),
        }
    }

    /// A note of the port that its socket holds.
    pub(crate) fn port_note(&mut self) -> Option<BindNote>
        ensures same { self.new ≡ self.old }
        ensures note { (p : Place) → shown self.old ≡ Some p → result ≡ bind_note p }
    {
        match self {
            State::Bound(tenant) => Some(tenant.port_note()),
            _ => None,
        }
    }

    /// What the slot's socket has, if it had one, and the slot's end.
    pub(crate) fn end<R: Wait>(
        self,
        rt: &R,
        alloc: Global,
    ) -> Result<(Option<Kept>, Closed<Reader>), Memory>
        requires here { (p : Place) × (shown self ≡ Some p) }
        ensures ends { IfOk result (λ r. (p : Place) → shown self ≡ Some p → IsEndOf (holding_of p) r.1) }
        ensures kept { IfOk result (λ r. (p : Place) → shown self ≡ Some p → HasLeft p r.1 r.0) }
        ensures ports { IfOk result (λ r. (p : Place) → shown self ≡ Some p → HasItsPort p r.1) }
    {
        match self {
            State::Vacant(vacant) => Ok((None, SpareSlot::new(vacant).end())),
            State::Bound(tenant) => {
                let (kept, closed) = tenant.end(rt, alloc)?;
                Ok((Some(kept), closed))
            }
            State::Ended(former) => {
                let (kept, closed) = former.end(rt, alloc)?;
                Ok((Some(kept), closed))
            }
            State::Spare(spare) => Ok((None, spare.end())),
            State::Away => unreachable!(),
        }
    }
}
