ghost use Rattle.std.specs.Prelude.{◌≡◌, OnOk, OnErr};
ghost use Rattle.std.specs.Arc.{arc_value};
ghost use Rattle.rds_mail.specs.Passes.{after_put};

use rds_mail::{Mail, Note, PutPass};
use rds_model::Datagram;
use rds_wire::Memory;
use std::marker::Model;
use std::sync::{Arc, Wait};

/// The mailbox of a slot, with a line's right to put there. Contracts see the putter.
#[derive(Drop)]
pub struct SlotBox {
    mail: Arc<Mail<Datagram>>,
    pass: PutPass<Datagram>,
}

impl Model for SlotBox {
    ghost use Rattle.std.specs.Prelude.{◌≡◌};
    ghost use Rattle.std.specs.Arc.{arc_value};
    ghost use Rattle.rds_model.specs.declared.order.Datagram.{Datagram};
    ghost use Rattle.rds_mail.specs.Passes.{Putter};

    ghost Value = { Putter Datagram };

    ghost view = { λ b. b.pass };

    ghost invariant = { λ b. b.pass.mail ≡ (arc_value b.mail).line };
}

impl SlotBox {
    /// The mailbox, and a putter that is of it.
    pub fn new(mail: Arc<Mail<Datagram>>, pass: PutPass<Datagram>) -> SlotBox
        requires { pass.mail ≡ (arc_value mail).line }
        ensures { result ≡ pass }
    {
        SlotBox { mail, pass }
    }

    /// Both, as they are now.
    pub fn into_parts(self) -> (Arc<Mail<Datagram>>, PutPass<Datagram>)
        ensures pass { result.1 ≡ self }
        ensures mail { self.mail ≡ (arc_value result.0).line }
    {
        let SlotBox { mail, pass } = self;
        (mail, pass)
    }

    /// Puts a datagram.
    ///
    /// # Errors
    ///
    /// Where there is no memory for its place. Nothing was put, and the datagram is given up.
    pub fn put<W: Wait>(&mut self, rt: &W, datagram: Datagram) -> Result<(), Memory>
        ensures put { OnOk result (self.new ≡ after_put self.old datagram) }
        ensures same { OnErr result (self.new ≡ self.old) }
    {
        match self.mail.put(rt, &mut self.pass, datagram) {
            Ok(()) => Ok(()),
            Err((_, memory)) => Err(memory),
        }
    }

    /// Wakes the task that waits for a datagram.
    pub fn ring<W: Wait>(&self, rt: &W) {
        self.mail.bell().ring(rt);
    }

    /// A note of what was put.
    pub fn note(&mut self) -> Note<Datagram>
        ensures same { self.new ≡ self.old }
        ensures note { result ≡ self.old }
    {
        self.mail.note(&mut self.pass)
    }
}
