//! Sockets whose use has ended.
ghost use Rattle.std.specs.Prelude.{◌≡◌, ◌++◌, Some, IfOk, OnOk};
ghost use Rattle.rds_mail.specs.Numbers.{bare_items};
ghost use Rattle.rds_mail.specs.Learning.{AllGot};
ghost use Rattle.rds_socket_parts.specs.Ports.{HasClaimedOnly};
ghost use Rattle.rds_run_callers.specs.Ends.{IsEndOf};

use crate::tenant::told;
use rds_fmap::Reader;
use rds_mail::{Asked, Note};
use rds_model::Datagram;
use rds_socket::Closed;
use rds_text::Kept;
use rds_wire::Memory;
use std::alloc::Global;
use std::sync::Wait;

/// A socket whose use has ended, and what it had handed out.
pub(crate) struct FormerTenant {
    pub(crate) slot: u16,
    pub(crate) port: u16,
    pub(crate) got: Vec<Datagram>,
    pub(crate) closed: Closed<Reader>,
    ghost place: { slot ≡ closed.words.slot },
    ghost kept: { got.items ≡ bare_items closed.inbox.get.got },
    ghost claimed: { HasClaimedOnly (Some port) closed.ports.view },
}

// By hand, so that one call drops it wherever it is let go, and no function that owns one drops each field.
impl Drop for FormerTenant {
    fn drop(self) {
        let Self {
            slot: _,
            port: _,
            got: _got,
            closed: _closed,
        } = self;
    }
}

impl FormerTenant {
    ghost use Rattle.std.specs.Prelude.{◌<◌, ◌++◌, ℕ, [], Some, length, IfOk, OnOk, OnErr};
    ghost use Rattle.rds_fmap.specs.Readers.{ReaderView};
    ghost use Rattle.rds_mail.specs.Learning.{AllGot};
    ghost use Rattle.rds_mail.specs.Passes.{after_note};
    ghost use Rattle.rds_model.specs.declared.order.Order.TheVariants as order;
    ghost use Rattle.rds_socket_parts.specs.Lanes.{IsLaneAt, Lane};
    ghost use Rattle.rds_socket_parts.specs.Ports.{HasClaimedOnly};
    ghost use Rattle.rds_socket.specs.Calls.{with_inbox, with_routes};
    ghost use Rattle.rds_run_callers.specs.Places.{PlaceKeeps};
    ghost use Rattle.rds_run_callers.specs.Tenants.{Asks};
    ghost use Rattle.rds_run_callers.specs.Ends.{IsEndOf};

    /// A socket of this slot that had this port, and had handed these datagrams out.
    pub(crate) fn new(
        slot: u16,
        port: u16,
        got: Vec<Datagram>,
        closed: Closed<Reader>,
    ) -> FormerTenant
        requires place { slot ≡ closed.words.slot }
        requires kept { got.items ≡ bare_items closed.inbox.get.got }
        requires claimed { HasClaimedOnly (Some port) closed.ports.view }
        ensures port { result.port ≡ port }
        ensures got { result.got ≡ got }
        ensures closed { result.closed ≡ closed }
    {
        FormerTenant {
            slot,
            port,
            got,
            closed,
        }
    }

    /// Asks for a cut of the stream to the peer.
    pub(crate) fn cut<R: Wait>(&mut self, rt: &R, peer: u32) -> Result<(), Memory>
        ensures port { self.new.port ≡ self.old.port }
        ensures got { self.new.got ≡ self.old.got }
        ensures done { OnOk result (Asks peer order.Cut self.old.closed self.new.closed) }
        ensures keeps { PlaceKeeps self.old.closed self.new.closed }
        ensures same { OnErr result (self.new ≡ self.old) }
    {
        told(self.closed.cut(rt, peer))
    }

    /// A note of what it has put on the order queue of a route, counted from 0.
    pub(crate) fn order_note(&mut self, place: usize) -> Note<Asked>
        requires { place < length self.old.closed.routes }
        ensures same { self.new ≡ self.old }
        ensures note { (lane : Lane ReaderView) × IsLaneAt self.old.closed.routes place lane × (result ≡ lane.pass) }
    {
        self.closed.order_note(place)
    }

    /// The mailbox is told of what one of its putters had put.
    pub(crate) fn hear(&mut self, note: Note<Datagram>)
        requires { note.mail ≡ self.old.closed.inbox.get.mail }
        ensures port { self.new.port ≡ self.old.port }
        ensures got { self.new.got ≡ self.old.got }
        ensures told { self.new.closed ≡ with_inbox self.old.closed
            (record self.old.closed.inbox { get = after_note self.old.closed.inbox.get note }) }
    {
        self.closed.hear(note);
    }

    /// What the socket has, once what is left was taken out unread, and its slot's end.
    pub(crate) fn end<R: Wait>(
        self,
        rt: &R,
        alloc: Global,
    ) -> Result<(Kept, Closed<Reader>), Memory>
        ensures name { IfOk result (λ r. (r.0.slot ≡ self.closed.words.slot) × (r.0.port ≡ self.port)) }
        ensures got { IfOk result (λ r. r.0.got ≡ self.got) }
        ensures all { IfOk result (λ r. r.0.got.items ++ r.0.unread.items ≡ bare_items r.1.inbox.get.got) }
        ensures empty { IfOk result (λ r. AllGot r.1.inbox.get) }
        ensures ends { IfOk result (λ r. IsEndOf self.closed r.1) }
        ensures claimed { IfOk result (λ r. HasClaimedOnly (Some self.port) r.1.ports.view) }
    {
        let FormerTenant {
            slot,
            port,
            got,
            mut closed,
        } = self;
        let unread = take_unread(rt, alloc, &mut closed)?;
        let kept = Kept {
            slot,
            port,
            got,
            unread,
        };
        Ok((kept, closed))
    }
}

// Takes out what is left in the mailbox.
fn take_unread<R: Wait>(
    rt: &R,
    alloc: Global,
    closed: &mut Closed<Reader>,
) -> Result<Vec<Datagram>, Memory>
    ensures unread { IfOk result (λ unread. bare_items closed.new.inbox.get.got ≡ bare_items closed.old.inbox.get.got ++ unread.items) }
    ensures empty { OnOk result (AllGot closed.new.inbox.get) }
    ensures ends { IsEndOf closed.old closed.new }
    ensures ports { OnOk result (closed.new.ports ≡ closed.old.ports) }
{
    let mut unread = Vec::new(alloc);
    for _ in rt.forever() {
        let Some(datagram) = closed.unread(rt) else {
            return Ok(unread);
        };
        unread.push(datagram)?;
    }
    unreachable!()
}
