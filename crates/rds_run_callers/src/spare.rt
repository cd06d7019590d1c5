//! Slots that no socket will have.
ghost use Rattle.std.specs.Prelude.{◌≡◌, None};
ghost use Rattle.rds_socket_parts.specs.Ports.{HasClaimedOnly};

use crate::tenant::told;
use rds_fmap::Reader;
use rds_mail::{Asked, Note};
use rds_model::Datagram;
use rds_socket::{Closed, Vacant};
use rds_wire::Memory;
use std::sync::Wait;

/// A slot that was given up before any socket had it.
pub(crate) struct SpareSlot {
    pub(crate) closed: Closed<Reader>,
    ghost claimed: { HasClaimedOnly None closed.ports.view },
}

// By hand, so that one call drops it wherever it is let go, and no function that owns one drops each field.
impl Drop for SpareSlot {
    fn drop(self) {
        let Self { closed: _closed } = self;
    }
}

impl SpareSlot {
    ghost use Rattle.std.specs.Prelude.{◌<◌, length, OnOk, OnErr};
    ghost use Rattle.rds_fmap.specs.Readers.{ReaderView};
    ghost use Rattle.rds_mail.specs.Passes.{after_note};
    ghost use Rattle.rds_model.specs.declared.order.Order.TheVariants as order;
    ghost use Rattle.rds_socket_parts.specs.Lanes.{IsLaneAt, Lane};
    ghost use Rattle.rds_socket.specs.Calls.{with_inbox};
    ghost use Rattle.rds_run_callers.specs.Places.{PlaceKeeps};
    ghost use Rattle.rds_run_callers.specs.Tenants.{Asks};

    /// Gives up a slot that no socket had.
    pub(crate) fn new(vacant: Vacant<Reader>) -> SpareSlot
        ensures { result.closed ≡ vacant }
    {
        vacant.known();
        SpareSlot {
            closed: vacant.finish(),
        }
    }

    /// Asks for a cut of the stream to the peer.
    pub(crate) fn cut<R: Wait>(&mut self, rt: &R, peer: u32) -> Result<(), Memory>
        ensures done { OnOk result (Asks peer order.Cut self.old.closed self.new.closed) }
        ensures keeps { PlaceKeeps self.old.closed self.new.closed }
        ensures same { OnErr result (self.new ≡ self.old) }
    {
        told(self.closed.cut(rt, peer))
    }

    /// A note of what it has put on the order queue of a route, counted from 0.
    pub(crate) fn order_note(&mut self, place: usize) -> Note<Asked>
        requires { place < length self.old.closed.routes }
        ensures same { self.new ≡ self.old }
        ensures note { (lane : Lane ReaderView) × IsLaneAt self.old.closed.routes place lane × (result ≡ lane.pass) }
    {
        self.closed.order_note(place)
    }

    /// The mailbox is told of what one of its putters had put.
    pub(crate) fn hear(&mut self, note: Note<Datagram>)
        requires { note.mail ≡ self.old.closed.inbox.get.mail }
        ensures told { self.new.closed ≡ with_inbox self.old.closed
            (record self.old.closed.inbox { get = after_note self.old.closed.inbox.get note }) }
    {
        self.closed.hear(note);
    }

    /// The end of the slot.
    pub(crate) fn end(self) -> Closed<Reader>
        ensures closed { result ≡ self.closed }
        ensures claimed { HasClaimedOnly None result.ports.view }
    {
        let SpareSlot { closed } = self;
        closed
    }
}
