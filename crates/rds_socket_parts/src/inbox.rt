//! The steps of a socket on its mailbox.
ghost use Rattle.std.specs.Prelude.{◌≡◌, IfOk, IfErr, IfSome, IfNone};
ghost use Rattle.std.specs.Arc.{arc_value};
ghost use Rattle.futures.specs.Poll.{IfReady, OnPending};
ghost use Rattle.futures.specs.Task.{IsArmed, Hears, Keeps};
ghost use Rattle.rds_mail.specs.Numbers.{Number};
ghost use Rattle.rds_mail.specs.Passes.{after_get, after_note};
ghost use Rattle.rds_mail.specs.Learning.{AllGot};

use futures::task::{Context, Poll};
use rds_mail::{GetPass, Mail, Note};
use rds_model::Datagram;
use rds_wire::Memory;
use std::marker::Model;
use std::sync::{Arc, Wait};

/// A mailbox and its getter. Contracts see the getter and the name of the bell's source.
#[derive(Drop)]
pub struct Inbox {
    mail: Arc<Mail<Datagram>>,
    get: GetPass<Datagram>,
}

impl Model for Inbox {
    ghost use Rattle.std.specs.Prelude.{◌≡◌};
    ghost use Rattle.std.specs.Arc.{arc_value};
    ghost use Rattle.rds_socket_parts.specs.Boxes.{Box};

    ghost Value = { Box };

    ghost view = { λ b. record { bell = (arc_value b.mail).bell; get = b.get } };

    ghost invariant = { λ b. b.get.mail ≡ (arc_value b.mail).line };
}

impl Inbox {
    /// A mailbox with its getter.
    pub fn new(mail: Arc<Mail<Datagram>>, get: GetPass<Datagram>) -> Inbox
        requires { get.mail ≡ (arc_value mail).line }
        ensures { result ≡ record { bell = (arc_value mail).bell; get = get } }
    {
        Inbox { mail, get }
    }

    /// The mailbox and its getter.
    pub fn into_parts(self) -> (Arc<Mail<Datagram>>, GetPass<Datagram>)
        ensures get { result.1 ≡ self.get }
        ensures mail { self.get.mail ≡ (arc_value result.0).line }
        ensures bell { self.bell ≡ (arc_value result.0).bell }
    {
        let Inbox { mail, get } = self;
        (mail, get)
    }

    /// Takes the first datagram. `None` where its own step found the mailbox empty, which shows that all that it was told of was
    /// got.
    pub fn get<W: Wait>(&mut self, rt: &W) -> Option<Datagram>
        ensures got { IfSome result (λ item. (number : Number) × (self.new ≡ record self.old { get = after_get self.old.get number item })) }
        ensures same { IfNone result (self.new ≡ self.old) }
        ensures empty { IfNone result (AllGot self.old.get) }
    {
        self.mail.get(rt, &mut self.get)
    }

    /// Registers at the bell and then takes the first datagram. `Pending` where its own step, after that, found the mailbox empty.
    ///
    /// # Errors
    ///
    /// Where there is no memory to register. Nothing was taken.
    pub fn poll_get<W: Wait>(
        &mut self,
        rt: &W,
        cx: &mut Context<'_>,
    ) -> Poll<Result<Datagram, Memory>>
        ensures got { IfReady result (λ r. IfOk r (λ item. (number : Number) × (self.new ≡ record self.old { get = after_get self.old.get number item }))) }
        ensures memory { IfReady result (λ r. IfErr r (λ _. self.new ≡ self.old)) }
        ensures same { OnPending result (self.new ≡ self.old) }
        ensures empty { OnPending result (AllGot self.old.get) }
        ensures armed { OnPending result (IsArmed cx.new) }
        ensures heard { OnPending result (Hears cx.new self.old.bell) }
        ensures kept { Keeps cx.old cx.new }
    {
        self.mail.poll_get(rt, &mut self.get, cx)
    }

    /// The getter is told of what a putter had put.
    pub fn hear(&mut self, note: Note<Datagram>)
        requires { note.mail ≡ self.old.get.mail }
        ensures { self.new ≡ record self.old { get = after_note self.old.get note } }
    {
        self.mail.learn(&mut self.get, note);
    }
}
