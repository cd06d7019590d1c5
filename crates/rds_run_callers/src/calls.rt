//! What a caller does on the socket of a port, and how it cuts.
ghost use Rattle.std.specs.Prelude.{◌≡◌, OnOk};
ghost use Rattle.rds_run_callers.specs.Places.{PlacesKeep};
ghost use Rattle.rds_run_callers.specs.Doing.{AtPort, CutsByLast};
ghost use Rattle.rds_run_callers.specs.Tenants.{SendsFrom, ReceivesNext, Cancels, Closes};
ghost use Rattle.rds_run_callers.specs.States.{AreSlots, ComesTo};

use crate::caller::Caller;
use crate::finding::lift_bound;
use crate::slots::Slots;
use crate::state::State;
use rds_wire::{Memory, Payload};
use std::sync::Wait;

impl Caller {
    // Sends from the socket of a port, if there is one.
    pub(crate) fn send<R: Wait>(
        &mut self,
        rt: &R,
        port: u16,
        peer: u32,
        dport: u16,
        payload: &Payload,
    ) -> Result<(), Memory>
        ensures host { self.new.host ≡ self.old.host }
        ensures keeps { PlacesKeep self.old.places self.new.places }
        ensures done { OnOk result (AtPort port (SendsFrom peer dport payload.now) self.old.places self.new.places) }
    {
        let payload = payload.share()?;
        send_from(&mut self.slots, rt, port, peer, dport, payload)
    }

    // Receives at the socket of a port, if there is one.
    pub(crate) fn receive<R: Wait>(&mut self, rt: &R, port: u16) -> Result<(), Memory>
        ensures host { self.new.host ≡ self.old.host }
        ensures keeps { PlacesKeep self.old.places self.new.places }
        ensures done { OnOk result (AtPort port ReceivesNext self.old.places self.new.places) }
    {
        receive_at(&mut self.slots, rt, port)
    }

    // Takes back what the socket of a port has sent to a port of the peer, if there is one.
    pub(crate) fn cancel<R: Wait>(
        &mut self,
        rt: &R,
        port: u16,
        peer: u32,
        dport: u16,
    ) -> Result<(), Memory>
        ensures host { self.new.host ≡ self.old.host }
        ensures keeps { PlacesKeep self.old.places self.new.places }
        ensures done { OnOk result (AtPort port (Cancels peer dport) self.old.places self.new.places) }
    {
        cancel_of(&mut self.slots, rt, port, peer, dport)
    }

    // Closes the socket of a port, if there is one.
    pub(crate) fn close<R: Wait>(&mut self, rt: &R, port: u16) -> Result<(), Memory>
        ensures host { self.new.host ≡ self.old.host }
        ensures keeps { PlacesKeep self.old.places self.new.places }
        ensures done { OnOk result (AtPort port Closes self.old.places self.new.places) }
    {
        close_at(&mut self.slots, rt, port)
    }

    // Asks for a cut of the stream to the peer, by the last slot.
    pub(crate) fn cut<R: Wait>(&mut self, rt: &R, peer: u32) -> Result<(), Memory>
        ensures host { self.new.host ≡ self.old.host }
        ensures keeps { PlacesKeep self.old.places self.new.places }
        ensures done { OnOk result (CutsByLast peer self.old.places self.new.places) }
    {
        cut_by_last(&mut self.slots, rt, peer)
    }
}

// Sends from the socket of a port, if there is one.
fn send_from<R: Wait>(
    slots: &mut Slots,
    rt: &R,
    port: u16,
    peer: u32,
    dport: u16,
    payload: Payload,
) -> Result<(), Memory>
    requires { AreSlots slots.old.states.items }
    ensures { ComesTo (AtPort port (SendsFrom peer dport payload)) slots.old.states.items slots.new.states.items result }
{
    let Some((slot, mut tenant)) = lift_bound(slots, port) else {
        return Ok(());
    };
    let sent = tenant.send(rt, peer, dport, payload);
    slots.replace(slot, State::Bound(tenant));
    sent
}

// Receives at the socket of a port, if there is one.
fn receive_at<R: Wait>(slots: &mut Slots, rt: &R, port: u16) -> Result<(), Memory>
    requires { AreSlots slots.old.states.items }
    ensures { ComesTo (AtPort port ReceivesNext) slots.old.states.items slots.new.states.items result }
{
    let Some((slot, mut tenant)) = lift_bound(slots, port) else {
        return Ok(());
    };
    let received = tenant.receive_next(rt);
    slots.replace(slot, State::Bound(tenant));
    received
}

// Takes back what the socket of a port has sent to a port of the peer, if there is one.
fn cancel_of<R: Wait>(
    slots: &mut Slots,
    rt: &R,
    port: u16,
    peer: u32,
    dport: u16,
) -> Result<(), Memory>
    requires { AreSlots slots.old.states.items }
    ensures { ComesTo (AtPort port (Cancels peer dport)) slots.old.states.items slots.new.states.items result }
{
    let Some((slot, mut tenant)) = lift_bound(slots, port) else {
        return Ok(());
    };
    let cancelled = tenant.cancel(rt, peer, dport);
    slots.replace(slot, State::Bound(tenant));
    cancelled
}

// Closes the socket of a port, if there is one.
fn close_at<R: Wait>(slots: &mut Slots, rt: &R, port: u16) -> Result<(), Memory>
    requires { AreSlots slots.old.states.items }
    ensures { ComesTo (AtPort port Closes) slots.old.states.items slots.new.states.items result }
{
    let Some((slot, tenant)) = lift_bound(slots, port) else {
        return Ok(());
    };
    let (former, closed) = tenant.close(rt);
    slots.replace(slot, State::Ended(former));
    closed
}

// Asks for a cut of the stream to the peer, by the last slot.
fn cut_by_last<R: Wait>(slots: &mut Slots, rt: &R, peer: u32) -> Result<(), Memory>
    requires { AreSlots slots.old.states.items }
    ensures { ComesTo (CutsByLast peer) slots.old.states.items slots.new.states.items result }
{
    if slots.len() == 0 {
        return Ok(());
    }
    let last = slots.len() - 1;
    let mut state = slots.replace(last, State::Away);
    let asked = state.cut(rt, peer);
    slots.replace(last, state);
    asked
}
