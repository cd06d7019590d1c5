//! Sockets and what they handed out.
ghost use Rattle.std.specs.Prelude.{◌≡◌, ◌≤◌, None, IsOk, OnOk};
ghost use Rattle.rds_mail.specs.Numbers.{bare_items};
ghost use Rattle.rds_run_callers.specs.Tenants.{IsAllowed};

use crate::former::FormerTenant;
use rds_bindtab::BindNote;
use rds_fmap::Reader;
use rds_mail::{Asked, Note};
use rds_model::Datagram;
use rds_socket::{CancelError, Closed, SendError, Socket};
use rds_text::Kept;
use rds_wire::{Memory, Payload};
use std::alloc::Global;
use std::sync::Wait;

/// A socket that can send, and what it handed out.
pub(crate) struct Tenant {
    pub(crate) socket: Socket<Reader>,
    pub(crate) got: Vec<Datagram>,
    ghost sends: { socket.told ≡ None },
    ghost low: { 2 ≤ socket.port },
    ghost kept: { got.items ≡ bare_items socket.own.inbox.get.got },
}

// By hand, so that one call drops it wherever it is let go, and no function that owns one drops each field.
impl Drop for Tenant {
    fn drop(self) {
        let Self {
            socket: _socket,
            got: _got,
        } = self;
    }
}

impl Tenant {
    ghost use Rattle.std.specs.Prelude.{[], ◌∷◌, ◌++◌, ◌<◌, ℕ, Some, length, true, false, IfOk, OnErr};
    ghost use Rattle.rds_bindtab.specs.Seats.{knowing, note_of};
    ghost use Rattle.rds_fmap.specs.Readers.{ReaderView};
    ghost use Rattle.rds_mail.specs.Learning.{AllGot};
    ghost use Rattle.rds_mail.specs.Passes.{after_note};
    ghost use Rattle.rds_model.specs.Honest.{Begins};
    ghost use Rattle.rds_model.specs.declared.order.Datagram.{Datagram as Item};
    ghost use Rattle.rds_model.specs.declared.order.Order.TheVariants as order;
    ghost use Rattle.rds_socket_parts.specs.Lanes.{IsLaneAt, Lane};
    ghost use Rattle.rds_socket_parts.specs.Ports.{HasClaimedOnly};
    ghost use Rattle.rds_socket.specs.Calls.{IsClosed, IsReceived, with_own, with_inbox};
    ghost use Rattle.rds_run_callers.specs.Places.{PlaceKeeps, bound_place};
    ghost use Rattle.rds_run_callers.specs.Tenants.{Asks, ReceivesNext, SendsOrNot};
    ghost use Rattle.rds_run_callers.specs.Ends.{IsEndOf, StoresNoMore};

    /// A socket that handed out nothing.
    pub(crate) fn new(alloc: Global, socket: Socket<Reader>) -> Tenant
        requires told { socket.told ≡ None }
        requires low { 2 ≤ socket.port }
        requires got { socket.own.inbox.get.got ≡ [] }
        ensures socket { result.socket ≡ socket }
        ensures got { result.got.items ≡ [] }
    {
        Tenant {
            socket,
            got: Vec::new(alloc),
        }
    }

    /// The port that it holds.
    pub(crate) fn port(&self) -> u16
        ensures { result ≡ self.now.socket.port }
    {
        self.socket.port()
    }

    /// Sends a datagram. It may be refused, but for want of memory.
    pub(crate) fn send<R: Wait>(
        &mut self,
        rt: &R,
        peer: u32,
        dport: u16,
        payload: Payload,
    ) -> Result<(), Memory>
        ensures got { self.new.got ≡ self.old.got }
        ensures done { OnOk result (SendsOrNot peer dport payload self.old.socket self.new.socket) }
        ensures port { self.new.socket.port ≡ self.old.socket.port }
        ensures keeps { PlaceKeeps self.old.socket.own self.new.socket.own }
    {
        match self.socket.send(rt, peer, dport, payload) {
            Err((_, SendError::Memory)) => Err(Memory),
            _ => Ok(()),
        }
    }

    /// Receives the next datagram and keeps it, and answers whether there was one.
    pub(crate) fn receive<R: Wait>(&mut self, rt: &R) -> Result<bool, Memory>
        ensures got { IfOk result (λ any. any ≡ true → (item : Item) × IsReceived item self.old.socket self.new.socket ×
            (self.new.got.items ≡ self.old.got.items ++ item ∷ [])) }
        ensures same { IfOk result (λ any. any ≡ false → (self.new.socket ≡ self.old.socket) × (self.new.got.items ≡ self.old.got.items)) }
        ensures empty { IfOk result (λ any. any ≡ false → AllGot self.old.socket.own.inbox.get) }
        ensures err { OnErr result ((self.new.socket ≡ self.old.socket) × (self.new.got.items ≡ self.old.got.items)) }
        ensures port { self.new.socket.port ≡ self.old.socket.port }
        ensures keeps { PlaceKeeps self.old.socket.own self.new.socket.own }
        ensures routes { self.new.socket.own.routes ≡ self.old.socket.own.routes }
        ensures stored { StoresNoMore self.old.socket.own self.new.socket.own }
    {
        if self.got.reserve(1).is_err() {
            return Err(Memory);
        }
        let Some(datagram) = self.socket.recv(rt) else {
            return Ok(false);
        };
        self.got.push_reserved(datagram);
        Ok(true)
    }

    /// Receives the next datagram, if there is one, and keeps it.
    pub(crate) fn receive_next<R: Wait>(&mut self, rt: &R) -> Result<(), Memory>
        ensures done { OnOk result (ReceivesNext self.old.socket self.old.got.items (bound_place self.new.socket self.new.got.items)) }
        ensures port { self.new.socket.port ≡ self.old.socket.port }
        ensures keeps { PlaceKeeps self.old.socket.own self.new.socket.own }
    {
        self.receive(rt)?;
        Ok(())
    }

    /// Takes back what it has sent to a port of the peer.
    pub(crate) fn cancel<R: Wait>(&mut self, rt: &R, peer: u32, dport: u16) -> Result<(), Memory>
        ensures got { self.new.got ≡ self.old.got }
        ensures done { OnOk result (Asks peer (order.Cancel self.old.socket.own.words.slot dport) self.old.socket.own self.new.socket.own) }
        ensures rest { self.new.socket ≡ with_own self.old.socket self.new.socket.own }
        ensures keeps { PlaceKeeps self.old.socket.own self.new.socket.own }
    {
        told(self.socket.cancel(rt, peer, dport))
    }

    /// Asks for a cut of the stream to the peer.
    pub(crate) fn cut<R: Wait>(&mut self, rt: &R, peer: u32) -> Result<(), Memory>
        ensures got { self.new.got ≡ self.old.got }
        ensures done { OnOk result (Asks peer order.Cut self.old.socket.own self.new.socket.own) }
        ensures rest { self.new.socket ≡ with_own self.old.socket self.new.socket.own }
        ensures keeps { PlaceKeeps self.old.socket.own self.new.socket.own }
        ensures same { OnErr result (self.new ≡ self.old) }
    {
        told(self.socket.cut(rt, peer))
    }

    /// A note of what it has put on the order queue of a route, counted from 0.
    pub(crate) fn order_note(&mut self, place: usize) -> Note<Asked>
        requires { place < length self.old.socket.own.routes }
        ensures same { self.new ≡ self.old }
        ensures note { (lane : Lane ReaderView) × IsLaneAt self.old.socket.own.routes place lane × (result ≡ lane.pass) }
    {
        self.socket.order_note(place)
    }

    /// The mailbox is told of what one of its putters had put.
    pub(crate) fn hear(&mut self, note: Note<Datagram>)
        requires { note.mail ≡ self.old.socket.own.inbox.get.mail }
        ensures got { self.new.got ≡ self.old.got }
        ensures told { self.new.socket ≡ with_own self.old.socket
            (with_inbox self.old.socket.own (record self.old.socket.own.inbox { get = after_note self.old.socket.own.inbox.get note })) }
    {
        self.socket.hear(note);
    }

    /// A note of the port that it holds.
    pub(crate) fn port_note(&mut self) -> BindNote
        ensures same { self.new ≡ self.old }
        ensures note { result ≡ knowing self.old.socket.own.ports (note_of self.old.socket.own.ports.view) }
    {
        self.socket.port_note()
    }

    /// Closes the socket. Where memory runs out, its use ends without a word to some peers.
    pub(crate) fn close<R: Wait>(self, rt: &R) -> (FormerTenant, Result<(), Memory>)
        ensures closed { OnOk result.1 (IsClosed self.socket result.0.closed) }
        ensures port { result.0.port ≡ self.socket.port }
        ensures got { result.0.got ≡ self.got }
        ensures keeps { PlaceKeeps self.socket.own result.0.closed }
    {
        let Tenant { socket, got } = self;
        let slot = socket.slot();
        let port = socket.port();
        socket.known();
        match socket.close(rt) {
            Ok(closed) => (FormerTenant::new(slot, port, got, closed), Ok(())),
            Err((closing, memory)) => (
                FormerTenant::new(slot, port, got, closing.finish()),
                Err(memory),
            ),
        }
    }

    /// What the socket has, once it has received all that is left, and its slot's end.
    pub(crate) fn end<R: Wait>(
        mut self,
        rt: &R,
        alloc: Global,
    ) -> Result<(Kept, Closed<Reader>), Memory>
        ensures name { IfOk result (λ r. (r.0.slot ≡ self.socket.own.words.slot) × (r.0.port ≡ self.socket.port)) }
        ensures all { IfOk result (λ r. r.0.got.items ++ r.0.unread.items ≡ bare_items r.1.inbox.get.got) }
        ensures unread { IfOk result (λ r. r.0.unread.items ≡ []) }
        ensures begins { IfOk result (λ r. Begins self.got.items r.0.got.items) }
        ensures empty { IfOk result (λ r. AllGot r.1.inbox.get) }
        ensures ends { IfOk result (λ r. IsEndOf self.socket.own r.1) }
        ensures claimed { IfOk result (λ r. HasClaimedOnly (Some self.socket.port) r.1.ports.view) }
        ensures holds { IfOk result (λ r. r.1.ports.view.port ≡ Some self.socket.port) }
    {
        self.receive_all(rt)?;
        let Tenant { socket, got } = self;
        socket.known();
        let kept = Kept {
            slot: socket.slot(),
            port: socket.port(),
            got,
            unread: Vec::new(alloc),
        };
        Ok((kept, socket.finish()))
    }

    // Receives until the mailbox is found empty.
    fn receive_all<R: Wait>(&mut self, rt: &R) -> Result<(), Memory>
        ensures empty { OnOk result (AllGot self.new.socket.own.inbox.get) }
        ensures begins { Begins self.old.got.items self.new.got.items }
        ensures port { self.new.socket.port ≡ self.old.socket.port }
        ensures ends { IsEndOf self.old.socket.own self.new.socket.own }
    {
        for _ in rt.forever() {
            if !self.receive(rt)? {
                return Ok(());
            }
        }
        unreachable!()
    }
}

/// A refusal by want of memory ends the caller, and a missing route doesn't.
pub(crate) fn told(asked: Result<(), CancelError>) -> Result<(), Memory>
    ensures ok { IsOk asked → IsOk result }
    ensures allowed { OnOk result (IsAllowed asked) }
{
    match asked {
        Err(CancelError::Memory) => Err(Memory),
        _ => Ok(()),
    }
}
